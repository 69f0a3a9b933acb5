//! The world: a pile of stones, and what each player holds.

ghost use Rattle.std.specs.Prelude.{◌≡◌, ◌+◌, min};
ghost use Rattle.own_game.specs.Pile.{taken, pile_rules};

use game_trait::{Act, Command, Game};

/// A pile of stones, and how many of them each of four players has taken. It has a fixed size, and
/// is copied where a copy of the mirror is repaired.
#[derive(Clone, Copy, Debug, PartialEq, Eq)]
pub struct Pile {
    pub stones: u32,
    pub held: [u32; 4],
}

impl Pile {
    /// The pile as a match begins.
    pub fn start() -> Pile {
        Pile {
            stones: 3,
            held: [0; 4],
        }
    }

    // The player takes so many stones, or all that there are.
    fn take(&mut self, player: u8, most: u32)
        ensures { self.new ≡ taken self.old player most }
    {
        let player = player as usize;
        if player < self.held.len() {
            let got = most.min(self.stones);
            self.stones -= got;
            self.held[player] = self.held[player].saturating_add(got);
        }
    }
}

impl Game for Pile {
    ghost rules = { pile_rules };

    fn apply(&mut self, x: &Command) {
        match x.act {
            Act::Go => self.take(x.player, 1),
            Act::Dash => self.take(x.player, 3),
            _ => {}
        }
    }

    fn beat(&mut self) {
        self.stones = self.stones.saturating_add(1).min(100);
    }

    fn set_from(&mut self, other: &Pile) {
        *self = *other;
    }

    fn twin(&self) -> Pile {
        *self
    }
}
