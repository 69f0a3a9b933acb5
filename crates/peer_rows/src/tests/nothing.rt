//! A game of nothing.

use game_trait::{Command, Game};

// A game whose world stays the same.
#[derive(Clone, Copy)]
pub(super) struct Nothing;

impl Game for Nothing {
    ghost rules = { record { apply = λ w x. w; beat = λ w. w } };

    fn apply(&mut self, x: &Command) {
        let _ = x;
    }

    fn beat(&mut self) {}

    fn set_from(&mut self, other: &Nothing) {
        *self = *other;
    }

    fn twin(&self) -> Nothing {
        *self
    }
}
