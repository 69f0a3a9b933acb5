//! The game that mirrors keep in step.

ghost use Rattle.std.specs.Prelude.{◌≡◌};
ghost use Rattle.game_trait.specs.Game.{Rules};

use crate::command::Command;

/// A game whose world is a value: what a call does depends on that value (and on the command)
/// alone. No call takes memory, and none refuses.
pub trait Game: Drop {
    /// The rules, as functions on what contracts see of a world.
    ghost rules: { Rules Self };

    /// Executes one command.
    fn apply(&mut self, x: &Command)
        ensures { self.new ≡ rules.apply self.old x.now };

    /// Ends a tick: the world's own step.
    fn beat(&mut self)
        ensures { self.new ≡ rules.beat self.old };

    /// Makes this world equal to the other.
    fn set_from(&mut self, other: &Self)
        ensures { self.new ≡ other.now };

    /// An equal world.
    fn twin(&self) -> Self
        ensures { result ≡ self.now };
}
