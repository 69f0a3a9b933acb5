//! The laws of ordered parts. Each is the contract of a function without parameters that does
//! nothing.

ghost use Rattle.std.specs.Prelude.{◌≡◌, ℕ, Bool, List};
ghost use Rattle.game_trait.specs.Count.{times};
ghost use Rattle.game_trait.specs.Keys.{NamesDiffer};
ghost use Rattle.game_trait.specs.Ordered.{ordered};

use crate::command::Command;

/// The order in which commands were accepted decides nothing of an ordered part: of lists that have
/// the same commands, each as often, it is the same.
pub fn order_of_acceptance()
    ensures { (accepted other : List Command) (i j : ℕ) → NamesDiffer accepted
        → ((test : Command → Bool) → times test accepted ≡ times test other)
        → ordered accepted i j ≡ ordered other i j }
{}
