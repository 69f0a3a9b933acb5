//! A mirror that joins a match late.

ghost use Rattle.std.specs.Prelude.{◌≡◌, ◌+◌, ◌<◌, true, false, length};
ghost use Rattle.std.specs.List.{list_any};
ghost use Rattle.game_trait.specs.Keys.{same_name};
ghost use Rattle.game_trait.specs.Ordered.{time_ordered};
ghost use Rattle.sync_model.specs.Change.{said, answers};
ghost use Rattle.sync_model.specs.Drafts.{run_of};
ghost use Rattle.sync_model.specs.History.{repairs as repairs_of};
ghost use Rattle.sync_model.specs.Turns.{turn_events, is_drained, drain};
ghost use Rattle.late_joiner.specs.Joiner.{full_length, accepted_at, all_accepted, joined, told_from, joiner_next, joiner_after, FitsJoiner, world_of_run, IsShort};

use crate::joined::Joined;
use arrayvec::ArrayVec;
use game_trait::{
    Arrived, Command, CommandList, Event, Game, Reply, Shifted, Stepped, Tick, Ticked,
};
use mirror_core::{DeferredMirror, Mirrored};
use std::marker::Model;

/// A mirror that joins a match late, opened from another mirror's snapshot (this project's own).
/// It has a mirror of its own over the remaining ticks, whose repaired copies execute when they are
/// looked at. Contracts see that mirror's state, whose times and clocks are counted from the
/// snapshot's clock, the start, beside what had passed by then. Only `new` takes memory.
#[derive(Drop)]
pub struct Joiner<G: Game> {
    pub(crate) opening: G,
    pub(crate) start: Tick,
    pub(crate) passed: CommandList,
    pub(crate) inner: DeferredMirror<Shifted<G>>,
}

impl<G: Game> Model for Joiner<G> {
    ghost use Rattle.late_joiner.specs.Joiner.{JoinerState, IsJoined, IsInRoom};

    ghost Value = { JoinerState G };

    ghost view = { λ j. record {
      opening = j.opening;
      start = j.start;
      passed = j.passed.items;
      inner = j.inner;
    } };

    ghost invariant = { λ j.
        let state : JoinerState G = record {
          opening = j.opening;
          start = j.start;
          passed = j.passed.items;
          inner = j.inner;
        } in
        IsJoined G.rules state × IsInRoom state };
}

// An answer of the inner mirror, with its bound counted from the match's start.
fn told(start: Tick, arrived: Arrived) -> Joined
    requires { IsShort start arrived }
    ensures { result ≡ told_from start arrived }
{
    match arrived {
        Arrived::Taken { repaired } => Joined::Taken { repaired },
        Arrived::Repeat => Joined::Repeat,
        Arrived::Late { bound } => Joined::Late {
            bound: start + bound,
        },
    }
}

impl<G: Game> Joiner<G> {
    /// A command that is due within the match arrives. Where one with the same mirror and number
    /// had passed or was accepted, the answer is Repeat; where it is older than the snapshot's
    /// clock, Before, with both; and nothing changes. Where it is older than the last copy's clock
    /// it is turned away, answered Late with that clock. Else it is accepted, as a mirror accepts
    /// it, and the answer is Taken, with how many copies were repaired. Taken and Late each use up
    /// room for one arrival. Clocks are counted from the match's start.
    pub fn arrive(&mut self, x: &Command) -> Joined
        requires within_match { FitsJoiner self.old (Event.Arrive x.now) }
        requires room { 0 < self.old.inner.spare }
        ensures state { self.new ≡ joiner_next self.old (Event.Arrive x.now) }
        ensures answer { result ≡ joined self.old x.now }
    {
        if self.passed.has(x.from, x.number) {
            return Joined::Repeat;
        }
        if x.time < self.start {
            return self.old_one(x);
        }
        self.inner.always();
        let time = x.time - self.start;
        let arrived = self.inner.arrive(&Command { time, ..*x });
        told(self.start, arrived)
    }

    // The answer to a command that is older than the start and hadn't passed.
    fn old_one(&self, x: &Command) -> Joined
        requires unpassed { list_any (same_name x.now) self.now.passed ≡ false }
        requires old { x.now.time < self.now.start }
        ensures answer { result ≡ joined self.now x.now }
        ensures state { self.now ≡ joiner_next self.now (Event.Arrive x.now) }
    {
        if self.inner.has(x.from, x.number) {
            return Joined::Repeat;
        }
        Joined::Before {
            time: x.time,
            clock: self.start,
        }
    }

    /// The clock goes on by one tick, as a mirror's does over the remaining ticks.
    pub fn tick(&mut self) -> Ticked
        ensures state { self.new ≡ joiner_next self.old Event.Tick }
        ensures answer { said self.old.inner Event.Tick ≡ Reply.Tick result }
    {
        self.inner.tick()
    }

    /// The copy, which is there, runs one tick where it may, as a mirror's does.
    pub fn step(&mut self, copy: u8) -> Stepped
        requires { FitsJoiner self.old (Event.Step copy) }
        ensures state { self.new ≡ joiner_next self.old (Event.Step copy) }
        ensures answer { said self.old.inner (Event.Step copy) ≡ Reply.Step result }
    {
        self.inner.step(copy)
    }

    /// Another plan, which is there, is in force from here on. It uses up room for one change of
    /// the plan.
    pub fn restagger(&mut self, plan: u8)
        requires there { FitsJoiner self.old (Event.Restagger plan) }
        requires room { 0 < self.old.inner.plan_spare }
        ensures state { self.new ≡ joiner_next self.old (Event.Restagger plan) }
        ensures answer { said self.old.inner (Event.Restagger plan) ≡ Reply.Restaggered }
    {
        self.inner.restagger(plan);
    }

    /// Makes a turn: a tick, and then a step of each copy from copy 0 on. Hands back what the inner
    /// mirror answered to each, in order.
    pub fn turn(&mut self) -> ArrayVec<Reply, 9>
        ensures state { self.new ≡ joiner_after self.old (turn_events (length self.old.inner.runs)) }
        ensures replies { result.items
            ≡ answers self.old.inner (turn_events (length self.old.inner.runs)) }
    {
        self.inner.turn()
    }

    /// Makes turns until every copy has run the whole match.
    pub fn drain(&mut self)
        ensures { self.new ≡ record self.old { inner = drain self.old.inner } }
    {
        self.inner.drain();
    }

    /// How many commands were accepted, the snapshot's rest among them.
    pub fn accepted(&self) -> u32
        ensures { result ≡ length (accepted_at self.now) }
    {
        self.inner.accepted().len() as u32
    }

    /// How many arrivals were turned away.
    pub fn turned(&self) -> u32
        ensures { result ≡ length self.now.inner.turned }
    {
        self.inner.turned().len() as u32
    }

    /// How many copies were repaired, in all.
    pub fn repairs(&self) -> u64
        ensures { result ≡ repairs_of self.now.inner }
    {
        self.inner.repairs()
    }

    /// How many copies there are, 1 to 8.
    pub fn copies(&self) -> u8
        ensures { result ≡ length self.now.inner.runs }
    {
        self.inner.copies()
    }

    /// A twin of the copy's live world. The copy is there. Where every copy has run the whole match,
    /// it is the time-ordered execution of what had passed and what was accepted, over the whole
    /// match.
    pub fn world_twin(&self, copy: u8) -> G
        requires { copy < length self.now.inner.runs }
        ensures live { result ≡ world_of_run G.rules self.now (run_of self.now.inner copy) }
        ensures at_end { is_drained self.now.inner ≡ true
            → result
            ≡ time_ordered G.rules self.now.opening (all_accepted self.now) (full_length self.now) }
    {
        self.inner.always();
        self.inner.world_twin(copy).into_world()
    }
}
