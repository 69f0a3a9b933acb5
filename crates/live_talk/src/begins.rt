//! What a game gives whose mirrors are spoken to live.

ghost use Rattle.std.specs.Prelude.{◌≡◌};
ghost use Rattle.match_setup.specs.Setup.{IsLayout, layout_of};

use game_trait::Game;
use match_setup::{Setup, Shown};

/// A game whose worlds a match's setup begins and a block of lines shows.
pub trait Begins: Game + Shown {
    ghost use Rattle.match_setup.specs.Setup.{Layout};

    /// The world as a match of this layout begins.
    ghost opening: { Layout → Self };

    /// The world as a match of this setup begins, which a match text can give.
    fn at_start(setup: &Setup) -> Self
        requires { IsLayout (layout_of setup.now) }
        ensures { result ≡ opening (layout_of setup.now) };
}
