//! A match of one mirror, for `mirror_core`.

ghost use Rattle.std.specs.Prelude.{IfSome};
ghost use Rattle.mirror_core.specs.Drained.{AreInOrder};

use game_trait::{Command, Game};
use mirror_core::Mirror;
use stagger_clock::Stagger;
use std::alloc::Global;

/// A match of 10 ticks on a mirror with three copies, at whose tick 5 a command arrives, at its end:
/// every copy is at the time-ordered execution of what was accepted. `None` where memory ran out or
/// the command isn't due within the match.
pub fn end_a_match<G: Game>(alloc: Global, opening: &G, x: &Command) -> Option<Mirror<G>>
    ensures { IfSome result (λ m. AreInOrder G.rules m) }
{
    let delays = Stagger::try_new(&[0, 2, 4], 10)?;
    let mut mirror = Mirror::new(alloc, opening, &[delays], 16, 0).ok()?;
    for _ in 0..5 {
        mirror.turn();
    }
    // `Taken`, with how many copies were repaired, `Repeat`, or `Late`
    mirror.try_arrive(x)?;
    mirror.drain();
    Some(mirror)
}
