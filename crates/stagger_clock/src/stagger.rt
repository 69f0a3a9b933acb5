//! A plan of delays and the match's length: how far each copy may go, and where the clock ends.

ghost use Rattle.std.specs.Prelude.{◌≡◌, ◌<◌, ◌≤◌, IfSome, IfNone, length, slice_index};
ghost use Rattle.sync_model.specs.Schedule.{IsSchedule, limit_at, longest_delay, is_at_end};

use crate::plan::is_schedule;
use game_trait::Tick;
use game_trait::limits::{LONGEST_DELAY, MOST_COPIES};
use std::marker::Model;

/// The delays of a match's copies, and the match's length, all in ticks. It takes no memory.
#[derive(Clone, Copy, Debug)]
pub struct Stagger {
    places: [Tick; MOST_COPIES],
    copies: u8,
    ticks: Tick,
}

impl Model for Stagger {
    ghost use Rattle.std.specs.Prelude.{◌++◌, ◌-◌, length, replicate, take};
    ghost use Rattle.game_trait.specs.declared.limits.TheConstants.{MOST_COPIES};
    ghost use Rattle.sync_model.specs.Schedule.{Schedule};
    ghost use Rattle.stagger_clock.specs.Stored.{IsStored};

    ghost Value = { Schedule };

    ghost view = { λ a. record { delays = take a.copies a.places; length = a.ticks } };

    ghost invariant = { λ a. IsStored a.places a.copies a.ticks };

    ghost inverse = { λ s. record {
      places = s.delays ++ replicate (MOST_COPIES - length s.delays) 0;
      copies = length s.delays;
      ticks = s.length;
    } };
}

impl Stagger {
    /// The delays from copy 0 on, 1 to 8 of them, strictly rising and each at most 1,024 ticks, and
    /// a match of 1 to 8,192 ticks.
    pub fn new(delays: &[Tick], length: Tick) -> Stagger
        requires { IsSchedule (record { delays = delays.now; length = length }) }
        ensures { result ≡ record { delays = delays.now; length = length } }
    {
        let mut places = [0; MOST_COPIES];
        places[..delays.len()].copy_from_slice(delays);
        Stagger {
            places,
            copies: delays.len() as u8,
            ticks: length,
        }
    }

    /// What `new` makes, of numbers that may be any: `None` where the delays aren't 1 to 8 rising
    /// ones of at most 1,024 ticks each, or the match isn't of 1 to 8,192 ticks (this project's own).
    #[tactic(auto, using(crate::proofs::Plans::schedules))]
    pub fn try_new(delays: &[Tick], length: Tick) -> Option<Stagger>
        ensures made { IfSome result (λ s. s ≡ record { delays = delays.now; length = length }) }
        ensures none { IfNone result
            (IsSchedule (record { delays = delays.now; length = length }) → ⊥) }
    {
        if is_schedule(delays, length) {
            Some(Stagger::new(delays, length))
        } else {
            None
        }
    }

    /// How many copies the match's mirrors have, 1 to 8.
    pub fn copies(&self) -> u8
        ensures copies { result ≡ length self.now.delays }
        ensures schedule { IsSchedule self.now }
    {
        self.copies
    }

    /// The copy's delay, in ticks. The copy is there.
    pub fn delay(&self, copy: u8) -> Tick
        requires { copy < length self.now.delays }
        ensures { result ≡ slice_index self.now.delays copy }
    {
        self.places[copy as usize]
    }

    /// The last copy's delay, in ticks.
    #[tactic(auto, using(crate::proofs::Limits::limits))]
    pub fn longest(&self) -> Tick
        ensures longest { result ≡ longest_delay self.now.delays }
        ensures short { result ≤ LONGEST_DELAY }
        ensures schedule { IsSchedule self.now }
    {
        self.delay(self.copies - 1)
    }

    /// The match's length, in ticks.
    pub fn length(&self) -> Tick
        ensures length { result ≡ self.now.length }
        ensures schedule { IsSchedule self.now }
    {
        self.ticks
    }

    /// The tick up to which the copy may go, at the mirror's clock and with the clock of the copy
    /// ahead, which says nothing for copy 0. The copy is there.
    #[tactic(auto, using(crate::proofs::Limits::limits))]
    pub fn limit(&self, copy: u8, clock: Tick, ahead: Tick) -> Tick
        requires { copy < length self.now.delays }
        ensures { result ≡ limit_at self.now copy clock ahead }
    {
        let own = self.ticks.min(clock.saturating_sub(self.delay(copy)));
        if copy == 0 { own } else { own.min(ahead) }
    }

    /// Whether the mirror's clock stands at its end, the match's length plus the longest delay, or
    /// past it.
    pub fn at_end(&self, clock: Tick) -> bool
        ensures { result ≡ is_at_end self.now clock }
    {
        clock >= self.ticks + self.longest()
    }
}
