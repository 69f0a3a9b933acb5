//! Whether all copies have one world.

ghost use Rattle.std.specs.Prelude.{◌≡◌, ◌↔◌, IsTrue, length};
ghost use Rattle.std.specs.List.{AllByRecursion};
ghost use Rattle.arena_rules.specs.World.{arena_rules};
ghost use Rattle.sync_model.specs.Turns.{IsDrained};
ghost use Rattle.soak.specs.Agree.{IsAllAt, AreAllAt};

use arena_rules::Arena;
use game_trait::MirrorId;
use match_hall::Hall;
use mirror_core::{DeferredMirror, Mirrored};

// Whether the live world of each copy of the mirror, which is drained, is this world.
fn is_all_at(mirror: &DeferredMirror<Arena>, world: &Arena) -> bool
    requires { IsDrained mirror.now }
    ensures { IsTrue result ↔ IsAllAt arena_rules world.now mirror.now }
{
    for copy in 0..mirror.copies() {
        if !mirror.world(copy).same(world) {
            return false;
        }
    }
    true
}

/// Whether the live world of each copy of each mirror of the hall, which has this number of
/// mirrors, is this world. The mirrors are drained, so that each copy's live world is the world of
/// its run.
pub fn are_all_at(hall: &Hall<Arena>, mirrors: MirrorId, world: &Arena) -> bool
    requires count { length hall.now ≡ mirrors }
    requires drained { AllByRecursion (λ s. IsDrained s) hall.now }
    ensures { IsTrue result ↔ AreAllAt arena_rules world.now hall.now }
{
    for number in 0..mirrors {
        if !is_all_at(hall.mirror(number), world) {
            return false;
        }
    }
    true
}
