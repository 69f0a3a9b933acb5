//! Numbers drawn from a seed.

ghost use Rattle.std.specs.Prelude.{◌≡◌, ◌+◌, ◌-◌, ◌^◌, ◌<◌};
ghost use Rattle.match_maker.specs.Draws.{drawn};

use std::marker::Model;

// The least significant bits of a state are left out of what is drawn.
const LEFT_OUT: u32 = 65536;

/// Numbers drawn one after another from a seed. Contracts see the seed and how many were drawn.
#[derive(Drop)]
pub struct Draws {
    seed: u32,
    drawn: u32,
    state: u32,
}

impl Model for Draws {
    ghost use Rattle.std.specs.Prelude.{◌≡◌};
    ghost use Rattle.match_maker.specs.Draws.{state_by_draws, DrawsSoFar};

    ghost Value = { DrawsSoFar };

    ghost view = { λ d. record { seed = d.seed; count = d.drawn } };

    ghost invariant = { λ d. d.state ≡ state_by_draws d.seed d.drawn };
}

impl Draws {
    /// No number is drawn yet.
    #[tactic(auto, unfolding(crate::specs::Draws::state_by_draws))]
    pub fn new(seed: u32) -> Draws
        ensures { result ≡ record { seed = seed; count = 0 } }
    {
        Draws {
            seed,
            drawn: 0,
            state: seed,
        }
    }

    /// The next number, below the given one.
    #[tactic(auto, unfolding(crate::specs::Draws::state_by_draws, crate::specs::Draws::drawn))]
    pub fn draw(&mut self, below: u32) -> u32
        requires below { 0 < below }
        requires count { self.old.count < 2 ^ 32 - 1 }
        ensures value { result ≡ drawn self.old.seed self.old.count below }
        ensures below { result < below }
        ensures drawn { self.new ≡ record self.old { count = self.old.count + 1 } }
    {
        let next = (1664525 * u64::from(self.state) + 1013904223) % 4294967296;
        self.state = next as u32;
        self.drawn += 1;
        self.state / LEFT_OUT % below
    }
}
