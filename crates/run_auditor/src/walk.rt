//! A walk along a log.

ghost use Rattle.std.specs.Prelude.{◌≡◌, ◌≤◌, ◌<◌, ◌+◌, ◌++◌, List, length, map, take, IfOk, IfSome, IfNone};
ghost use Rattle.std.specs.List.{AllByRecursion};
ghost use Rattle.game_trait.specs.declared.limits.TheConstants.{MOST_ROOM};
ghost use Rattle.game_trait.specs.Count.{times};
ghost use Rattle.game_trait.specs.Events.{is_arrival, is_restagger};
ghost use Rattle.run_recorder.specs.Data.{IsEventOf};
ghost use Rattle.run_auditor.specs.Walks.{walk_of, told_next, moved_on};

use crate::why::{Why, why_of};
use game_trait::{Event, Game, MirrorId, Note};
use match_data::{Match, MirrorLog, plans_of};
use mirror_core::{DeferredMirror, Mirrored};
use std::alloc::Global;
use std::marker::Model;
use tss_base::NoMemory;

/// What a walk tells of the next event.
#[derive(Clone, Copy, Debug, PartialEq, Eq)]
pub enum Walked {
    /// It changed the mirror: the mirror's number, the event, and the answer.
    Note(Note),
    /// All events of the log are made.
    End,
    /// It changes nothing.
    Stuck {
        /// Its place in the log, from 0.
        place: u32,
        /// Why nothing changes.
        why: Why,
    },
}

/// A walk along a log: each of its events is made on a mirror of the walk's own. Contracts see the
/// mirror, whose history is what was made, and the events that are left.
#[derive(Drop)]
pub struct LogWalk<'a, G: Game> {
    number: MirrorId,
    mirror: DeferredMirror<G>,
    left: &'a [Event],
}

impl<'a, G: Game> Model for LogWalk<'a, G> {
    ghost use Rattle.run_auditor.specs.Walks.{LogWalk, IsWalk};

    ghost Value = { LogWalk G };

    ghost view = { λ w. record { number = w.number; mirror = w.mirror; left = w.left.now } };

    ghost invariant = { λ w. IsWalk w.mirror w.left.now };
}

fn is_arrival(event: &Event) -> bool
    ensures { result ≡ is_arrival event.now }
{
    matches!(event, Event::Arrive(_))
}

fn is_restagger(event: &Event) -> bool
    ensures { result ≡ is_restagger event.now }
{
    matches!(event, Event::Restagger(_))
}

// How many of the events are arrivals.
#[tactic(auto, unfolding(game_trait::specs::Count::times))]
fn arrivals(events: &[Event]) -> u32
    requires { length events.now ≤ MOST_ROOM }
    ensures count { result ≡ times is_arrival events.now }
    ensures few { result ≤ MOST_ROOM }
{
    let mut count = 0;
    for event in events {
        count += u32::from(is_arrival(event));
    }
    count
}

// How many of the events put another plan of delays in force.
#[tactic(auto, unfolding(game_trait::specs::Count::times))]
fn restaggers(events: &[Event]) -> u32
    requires { length events.now ≤ MOST_ROOM }
    ensures count { result ≡ times is_restagger events.now }
    ensures few { result ≤ MOST_ROOM }
{
    let mut count = 0;
    for event in events {
        count += u32::from(is_restagger(event));
    }
    count
}

impl<'a, G: Game> LogWalk<'a, G> {
    /// A walk along the log, of at most 1,048,576 events, each of which names a command, a copy or
    /// a plan that the match has; the mirror begins with a twin of `opening`. It takes all the
    /// memory that the walk needs. On `NoMemory` nothing is created.
    pub fn new(
        alloc: Global,
        m: &Match,
        opening: &G,
        log: &'a MirrorLog,
    ) -> Result<LogWalk<'a, G>, NoMemory>
        requires few { length log.now.events ≤ MOST_ROOM }
        requires events { AllByRecursion (IsEventOf m.now) log.now.events }
        ensures { IfOk result (λ w. w ≡ walk_of opening.now m.now log.now.mirror log.now.events) }
    {
        let plans = plans_of(alloc, m)?;
        let events = log.events.as_slice();
        let mirror = DeferredMirror::new(
            alloc,
            opening,
            plans.as_slice(),
            arrivals(events),
            restaggers(events),
        )?;
        Ok(LogWalk {
            number: log.mirror,
            mirror,
            left: events,
        })
    }

    /// Makes the next event. Where it changes the mirror the walk goes on behind it; else the walk
    /// stays, and tells the same from then on. It takes no memory.
    pub fn next(&mut self) -> Walked
        ensures told { result ≡ told_next self.old self.old.left }
        ensures state { self.new ≡ moved_on self.old self.old.left }
    {
        let Some((event, rest)) = self.left.split_first() else {
            return Walked::End;
        };
        let place = self.mirror.events().len() as u32;
        let reply = self.mirror.make(event);
        match why_of(reply) {
            Some(why) => Walked::Stuck { place, why },
            None => {
                self.left = rest;
                Walked::Note(Note {
                    mirror: self.number,
                    event: *event,
                    reply,
                })
            }
        }
    }

    /// Makes the worlds of the mirror that are still to be made, each once.
    pub fn refresh(&mut self)
        ensures { self.new ≡ self.old }
    {
        self.mirror.refresh();
    }

    /// The mirror as it stands. Its worlds are made when they are looked at.
    pub fn mirror(&self) -> &DeferredMirror<G>
        ensures { result.now ≡ self.now.mirror }
    {
        &self.mirror
    }
}
