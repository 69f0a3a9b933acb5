//! The ticks at which a match is looked at.

ghost use Rattle.std.specs.Prelude.{◌≡◌, ◌≤◌, ◌<◌, ◌++◌, ℕ, List, [], ◌∷◌, length};

use arrayvec::ArrayVec;
use game_trait::Tick;
use std::marker::Model;

/// At how many ticks one `rewind` looks at most; it looks at 1 at least (this project's own).
pub const MOST_LOOKS: usize = 16;

/// The ticks at which a match is looked at, in order: at most `MOST_LOOKS`. Contracts see their
/// list.
#[derive(Drop)]
pub struct Ticks {
    ticks: ArrayVec<Tick, MOST_LOOKS>,
}

impl Model for Ticks {
    ghost use Rattle.std.specs.Prelude.{ℕ, List};

    ghost Value = { List ℕ };

    ghost view = { λ t. t.ticks.items };
}

impl Ticks {
    /// No ticks. It takes no memory.
    pub fn new() -> Ticks
        ensures { result ≡ [] }
    {
        Ticks {
            ticks: ArrayVec::new(),
        }
    }

    /// Puts a tick behind the others. It takes no memory.
    pub fn push(&mut self, tick: Tick)
        requires { length self.old < MOST_LOOKS }
        ensures { self.new ≡ self.old ++ tick ∷ [] }
    {
        self.ticks.push(tick);
    }

    /// The ticks in order.
    pub fn as_slice(&self) -> &[Tick]
        ensures value { result.now ≡ self.now }
        ensures few { length result.now ≤ MOST_LOOKS }
    {
        self.ticks.as_slice()
    }
}
