//! The events of a mirror of a session without an end.

ghost use Rattle.std.specs.Prelude.{◌≡◌, ◌+◌, ◌-◌, ◌<◌, ◌≤◌, false, [], ◌∷◌, ◌++◌, IfSome, length, ◌^◌};
ghost use Rattle.game_trait.specs.declared.event.Event.{Event};
ghost use Rattle.sync_model.specs.State.{MirrorState, last_clock};
ghost use Rattle.sync_model.specs.Settle.{repaired};
ghost use Rattle.sync_model.specs.Change.{next, said, after, answers, is_repeat, proposed_by_arrival};
ghost use Rattle.sync_model.specs.Turns.{turn, turn_events, steps_from};
ghost use Rattle.sync_model.specs.Forgetting.{IsRemembered, arrive_from, said_from};
ghost use Rattle.rolling_mirror.specs.Rolling.{IsWindowOf, left_after, last_tick, is_held, ticked, said_to_tick};
ghost use Rattle.rolling_mirror.specs.Rolling.{said_to_arrival, arrived, as_arrived};
ghost use Rattle.rolling_mirror.specs.Rolling.{turned, said_to_turn};

use crate::arrival::Arrival;
use crate::rolling::RollingMirror;
use arrayvec::ArrayVec;
use game_trait::{Command, Event, Game, Reply, Stepped, Tick, Ticked};

impl<G: Game> RollingMirror<G> {
    /// The clock goes on by one tick, after the mirror forgot what lies behind its last copy, where
    /// that has run as many ticks of the window as are kept, or some while the window is full or there
    /// is no room for a command. `Over` comes where
    /// the last copy is a whole window behind the clock, until steps take it on, and where the clock
    /// stands at the last tick that a `u32` tells: nothing changed.
    pub fn tick(&mut self) -> Ticked
        ensures state { self.new ≡ ticked G.rules self.old }
        ensures answer { result ≡ said_to_tick self.old }
        ensures window { (whole : MirrorState G)
            → IsWindowOf G.rules whole self.old
            → whole.clock < whole.length
            → result ≡ Ticked.Moved
            → IsWindowOf G.rules (next whole Event.Tick) self.new
            × (said whole Event.Tick ≡ Reply.Tick result) }
    {
        let _ = &self.names;
        if self.is_held() {
            return Ticked::Over;
        }
        self.make_ready();
        self.clock += 1;
        Ticked::Moved
    }

    // Whether the last copy is a whole window behind the clock, or this stands at the session's last
    // tick.
    fn is_held(&self) -> bool
        ensures { result ≡ is_held self.now }
    {
        let is_behind = self.last_clock() == 0 && self.is_full();
        is_behind || self.base + self.clock == Tick::MAX
    }

    /// Runs a tick of the copy, which is there, where it may run one: it stands its delay behind the
    /// clock, and behind the copy ahead. Where that hasn't run the same items, the copies ahead are
    /// repaired.
    pub fn step(&mut self, copy: u8) -> Stepped
        requires { copy < length self.old.left.runs }
        ensures state { self.new ≡ left_after self.old (Event.Step copy) }
        ensures answer { said self.old.left (Event.Step copy) ≡ Reply.Step result }
        ensures window { (whole : MirrorState G)
            → IsWindowOf G.rules whole self.old
            → whole.clock < whole.length
            → IsWindowOf G.rules (next whole (Event.Step copy)) self.new
            × (said whole (Event.Step copy) ≡ Reply.Step result) }
    {
        if self.stack.clock(copy) >= self.limit(copy) {
            return Stepped::Idle;
        }
        self.stack.always();
        let repaired = self.stack.run_tick(copy);
        Stepped::Ran { repaired }
    }

    /// A command arrives, its time a tick of the session. It is accepted where its name isn't
    /// remembered, the last copy hasn't run its tick, the window reaches it and there is room: then the
    /// copies that had run past its time are repaired. Else nothing changes. A command that comes again
    /// after its name was forgotten is late, so it changes no copy either; only a mirror that gives a
    /// name to two commands has the second one taken.
    pub fn arrive(&mut self, x: &Command) -> Arrival
        ensures answer { result ≡ said_to_arrival self.old x.now }
        ensures state { self.new ≡ arrived self.old x.now result }
        ensures window { (whole : MirrorState G)
            → IsWindowOf G.rules whole self.old
            → whole.clock < whole.length
            → IsRemembered self.old.base whole (Event.Arrive x.now)
            → IfSome (as_arrived result)
            (λ answer. IsWindowOf G.rules (next whole (Event.Arrive x.now)) self.new
            × (said whole (Event.Arrive x.now) ≡ Reply.Arrive answer)) }
        ensures exact { (whole : MirrorState G)
            → IsWindowOf G.rules whole self.old
            → whole.clock < whole.length
            → IfSome (as_arrived result)
            (λ answer. IsWindowOf G.rules (arrive_from self.old.base whole x.now) self.new
            × (said_from self.old.base whole x.now ≡ Reply.Arrive answer)) }
        ensures passed { (whole : MirrorState G)
            → IsWindowOf G.rules whole self.old
            → x.now.time < last_tick self.old
            → IsWindowOf G.rules (next whole (Event.Arrive x.now)) self.new }
    {
        if self.names.has(x.from, x.number) {
            return Arrival::Repeat;
        }
        let bound = self.base + self.last_clock();
        if x.time < bound {
            return Arrival::Late { bound };
        }
        let window = self.stagger().length();
        let due = x.earlier(self.base);
        if due.time >= window {
            return Arrival::Far {
                end: self.base + window,
            };
        }
        if self.stack.spare() == 0 {
            return Arrival::Full;
        }
        self.accept(&due)
    }

    // Accepts a command of a new name, its time told from the base, for which there is room, that is
    // due within the window and not before the last copy's clock.
    pub(crate) fn accept(&mut self, x: &Command) -> Arrival
        requires room { 0 < self.old.spare }
        requires within { x.now.time < self.old.left.length }
        requires in_session { self.old.base + x.now.time < 2 ^ 32 }
        requires new_name { is_repeat self.old.left x.now ≡ false }
        requires due { last_clock self.old.left.runs ≤ x.now.time }
        ensures answer { result
            ≡ Arrival.Taken (repaired (self.old.left.accepted ++ x.now ∷ [])
            (proposed_by_arrival x.now self.old.left.runs)) }
        ensures state { self.new
            ≡ record (left_after self.old (Event.Arrive x.now)) { spare = self.old.spare - 1 } }
    {
        self.stack.always();
        self.names.push_reserved(x.from, x.number);
        let repaired = self.stack.accept(x);
        Arrival::Taken { repaired }
    }

    /// The plan of this number, which is there, is in force from here on.
    pub fn restagger(&mut self, plan: u8)
        requires { plan < length self.old.left.plans }
        ensures state { self.new ≡ left_after self.old (Event.Restagger plan) }
        ensures window { (whole : MirrorState G)
            → IsWindowOf G.rules whole self.old
            → IsWindowOf G.rules (next whole (Event.Restagger plan)) self.new }
    {
        self.plan = plan;
    }

    /// Makes a turn: a tick, and then a step of each copy from copy 0 on, also where the tick didn't
    /// move the clock. Hands back what was answered to each, in order.
    pub fn turn(&mut self) -> ArrayVec<Reply, 9>
        ensures state { self.new ≡ turned G.rules self.old }
        ensures replies { result.items ≡ said_to_turn G.rules self.old }
        ensures moved { (whole : MirrorState G)
            → IsWindowOf G.rules whole self.old
            → whole.clock + 1 < whole.length
            → said_to_tick self.old ≡ Ticked.Moved
            → IsWindowOf G.rules (turn whole) self.new
            × (result.items ≡ answers whole (turn_events (length whole.runs))) }
        ensures over { (whole : MirrorState G)
            → IsWindowOf G.rules whole self.old
            → whole.clock < whole.length
            → said_to_tick self.old ≡ Ticked.Over
            → IsWindowOf G.rules (after whole (steps_from 0 (length whole.runs))) self.new
            × (result.items
            ≡ Reply.Tick Ticked.Over ∷ answers whole (steps_from 0 (length whole.runs))) }
    {
        let mut replies = ArrayVec::new();
        replies.push(Reply::Tick(self.tick()));
        self.always();
        let copies = self.copies();
        for copy in 0..copies {
            replies.push(Reply::Step(self.step(copy)));
        }
        replies
    }
}
