//! A peer: its parts, and how it begins.

ghost use Rattle.std.specs.Prelude.{◌≡◌, ◌+◌, ◌≤◌, ◌<◌, ◌*◌, ◌^◌, ◌==◌, false, IfOk, length};
ghost use Rattle.std.specs.List.{AllByRecursion};
ghost use Rattle.sync_model.specs.Schedule.{delays_of_each, ticks_of_first, copies_of_first};
ghost use Rattle.rolling_mirror.specs.Rolling.{LetsTurnsGoOn, window_end};
ghost use Rattle.peer_packet.specs.Packet.{AreTerms};
ghost use Rattle.peer_model.specs.Queue.{have_of, last_time};
ghost use Rattle.peer_model.specs.declared.own.OwnAnswer.{OwnAnswer};
ghost use Rattle.peer_window.specs.Session.{roll_of, own_now};
ghost use Rattle.peer_calls.specs.State.{new_state, window_of};
ghost use Rattle.peer_calls.specs.Issuing.{said_to_peers_own, after_own, issued_by};
ghost use Rattle.peer_session.specs.Parts.{state_of};

use game_trait::{Act, Command, Game, MirrorId, Tick};
use peer_calls::Config;
use peer_model::{OwnAnswer, OwnNow, said_to_own};
use peer_queue::SentBytes;
use peer_slots::{Links, Queues};
use rolling_mirror::RollingMirror;
use stagger_clock::Stagger;
use std::alloc::Global;
use std::marker::Model;
use tss_base::NoMemory;

/// A peer of a session without an end (this project's own): a mirror, what it keeps of each slot's
/// commands, and what it knows of each other peer. Contracts see its parts, and speak of the state that
/// they are (`state_of`), of which each call is a function. Only `new` and `join` take memory.
#[derive(Drop)]
pub struct Peer<G: Game> {
    pub(crate) config: Config,
    // its slot
    pub(crate) me: MirrorId,
    // the clock from which its own commands are taken
    pub(crate) start: Tick,
    pub(crate) queues: Queues,
    pub(crate) links: Links,
    pub(crate) mirror: RollingMirror<G>,
    // how many items of each run the mirror forgot
    pub(crate) forgotten: u64,
}

impl<G: Game> Model for Peer<G> {
    ghost use Rattle.peer_session.specs.Parts.{PeerParts, ArePeers};

    ghost Value = { PeerParts G };

    ghost view = { λ p. record {
      config = p.config;
      me = p.me;
      start = p.start;
      queues = p.queues;
      links = p.links;
      roll = p.mirror;
      forgotten = p.forgotten;
    } };

    ghost invariant = { λ p. ArePeers (record {
      config = p.config;
      me = p.me;
      start = p.start;
      queues = p.queues;
      links = p.links;
      roll = p.mirror;
      forgotten = p.forgotten;
    }) };
}

impl<G: Game> Peer<G> {
    /// The peer in slot `me` of a session that begins, its clock at 0. Its plans, the first of which is in
    /// force, are of as many copies and of as many ticks, which are its window's: two more than each
    /// plan's last delay, or turns would stop for ever. On `NoMemory` nothing is created.
    pub fn new(
        alloc: Global,
        config: &Config,
        me: MirrorId,
        opening: &G,
        plans: &[Stagger],
    ) -> Result<Peer<G>, NoMemory>
        requires terms { AreTerms config.now.terms }
        requires there { me < config.now.terms.slots }
        requires room { config.now.room ≤ 16384 }
        requires some_plan { 0 < length plans.now }
        requires equal_ticks { AllByRecursion (λ plan. plan.length ≡ ticks_of_first plans.now)
            plans.now }
        requires equal_copies { AllByRecursion
            (λ plan. length plan.delays ≡ copies_of_first plans.now)
            plans.now }
        requires goes_on { AllByRecursion LetsTurnsGoOn plans.now }
        ensures state { IfOk result (λ p. state_of p
            ≡ new_state me (roll_of opening.now (record { plans = delays_of_each plans.now; window = ticks_of_first plans.now; spare = config.now.terms.slots * config.now.room; keep = config.now.keep }))) }
        ensures config { IfOk result (λ p. p.config ≡ config.now) }
        ensures forgotten { IfOk result (λ p. p.forgotten ≡ 0) }
    {
        let slots = config.terms.slots;
        let room = u32::from(slots) * config.room;
        Ok(Peer {
            config: *config,
            me,
            start: 0,
            queues: Queues::new(alloc, slots, config.room)?,
            links: Links::new(alloc, slots)?,
            mirror: RollingMirror::new(alloc, opening, plans, room, config.keep)?,
            forgotten: 0,
        })
    }

    // What decides of an own command.
    fn own_now(&self) -> OwnNow
        ensures { result ≡ own_now self.now.config.room self.now.me self.now.start (window_of (state_of self.now)) }
    {
        let own = self.queues.get(self.me);
        OwnNow {
            clock: self.mirror.clock(),
            start: self.start,
            last: own.last(),
            have: own.have(),
            end: self.window_end(),
            is_full: own.is_full() || self.mirror.spare() == 0,
        }
    }

    /// The tick of the session that the window doesn't reach.
    pub fn window_end(&self) -> u64
        ensures { result ≡ window_end self.now.roll }
    {
        u64::from(self.mirror.base()) + u64::from(self.mirror.stagger().length())
    }

    /// Issues a command of these bytes, due `ahead` ticks behind the clock and not before the last own
    /// one. Only where it is `Taken` does anything change: it is the newest of the own queue, and has
    /// arrived at the mirror.
    pub fn own(&mut self, ahead: u32, bytes: &[u8]) -> OwnAnswer
        ensures answer { result ≡ said_to_peers_own self.old.config ahead bytes.now (state_of self.old) }
        ensures state { state_of self.new ≡ after_own self.old.config ahead bytes.now (state_of self.old) }
        ensures config { self.new.config ≡ self.old.config }
        ensures forgotten { self.new.forgotten ≡ self.old.forgotten }
    {
        let answer = said_to_own(
            &self.own_now(),
            self.config.terms.payload,
            bytes.len(),
            ahead,
        );
        match answer {
            OwnAnswer::Taken { time, number } => self.issue(time, number, bytes),
            OwnAnswer::TooLong
            | OwnAnswer::Behind { start: _ }
            | OwnAnswer::End
            | OwnAnswer::Far { end: _ }
            | OwnAnswer::Full => {}
        }
        answer
    }

    // Issues a command that is taken.
    fn issue(&mut self, time: Tick, number: u32, bytes: &[u8])
        requires slot { self.old.me < self.old.config.terms.slots }
        requires short { length bytes.now ≤ self.old.config.terms.payload }
        requires next { number ≡ have_of ((state_of self.old).queues self.old.me) }
        requires some { number + 1 < 2 ^ 32 }
        requires rises { last_time ((state_of self.old).queues self.old.me).gone ((state_of self.old).queues self.old.me).commands ≤ time }
        requires room { (length ((state_of self.old).queues self.old.me).commands == self.old.config.room) ≡ false }
        ensures state { state_of self.new ≡ issued_by (OwnAnswer.Taken time number) bytes.now (state_of self.old) }
        ensures config { self.new.config ≡ self.old.config }
        ensures forgotten { self.new.forgotten ≡ self.old.forgotten }
    {
        let command = Command {
            time,
            number,
            from: self.me,
            player: 0,
            act: Act::Go,
        };
        self.mirror.arrive(&command);
        self.queues.own(self.me, &SentBytes::new(time, bytes));
    }
}
