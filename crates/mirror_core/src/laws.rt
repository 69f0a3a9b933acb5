//! What mirrors' promises guarantee, so that they can't be read more weakly. Each is the contract of a
//! function without parameters that does nothing.

ghost use Rattle.std.specs.Prelude.{◌≡◌, ◌+◌, ◌≤◌, ℕ, false, true};
ghost use Rattle.std.specs.List.{AllByRecursion};
ghost use Rattle.game_trait.specs.Ordered.{time_ordered};
ghost use Rattle.game_trait.specs.Run.{world_of};
ghost use Rattle.sync_model.specs.State.{MirrorState};
ghost use Rattle.mirror_core.specs.Deferred.{AreDeferred};
ghost use Rattle.mirror_core.specs.Drained.{AreInOrder};

use game_trait::Game;

/// Where a mirror's worlds are in order, each copy's is the time-ordered execution of what was
/// accepted.
pub fn a_drained_mirror_is_in_order<G: Game>()
    ensures { (s : MirrorState G) → AreInOrder G.rules s
        → AllByRecursion (λ run. world_of G.rules s.opening run
        ≡ time_ordered G.rules s.opening s.accepted s.length) s.runs }
{}

/// Where nobody looked, all copies but the last are stale before the end, and none is behind it.
pub fn a_deferred_mirror_defers()
    ensures before { (copies stale : ℕ) → AreDeferred false copies stale 0 → copies ≤ stale + 1 }
    ensures behind { (copies stale looked : ℕ) → AreDeferred true copies stale looked → stale ≡ 0 }
{}
