//! When a mirror makes the worlds of stale copies anew.

ghost use Rattle.std.specs.Prelude.{◌≡◌, ℕ, ◌-◌, Bool, [], length, max, slice_index_or};
ghost use Rattle.sync_model.specs.Turns.{is_drained};

use crate::inner::MirrorCore;
use game_trait::Game;

/// When a mirror makes the worlds of the copies that its events repair (this project's own).
pub trait RefreshPolicy: Drop {
    /// Whether so many copies may be stale between two calls: told the policy, whether every copy
    /// has run the whole match, and how many copies there are.
    ghost allows: { Self → Bool → ℕ → ℕ → Type 0 };

    /// What a call that may have made steps makes of the policy: told both.
    ghost counts: { Self → Self → Type 0 };

    /// The policy of a new mirror.
    fn new() -> Self;

    /// Sees to the stale copies, behind a call that made no step.
    fn settle<G: Game>(&self, core: &mut MirrorCore<G>)
        ensures state { core.new.state ≡ core.old.state }
        ensures stale { allows self.now (is_drained core.new.state) (length core.new.state.runs)
            core.new.stale };

    /// Sees to the stale copies, behind a call that may have made steps, and counts the call.
    fn settle_steps<G: Game>(&mut self, core: &mut MirrorCore<G>)
        ensures counted { counts self.old self.new }
        ensures state { core.new.state ≡ core.old.state }
        ensures stale { allows self.new (is_drained core.new.state) (length core.new.state.runs)
            core.new.stale };
}

/// No copy is stale between two calls.
#[derive(Drop)]
pub struct Eager;

impl RefreshPolicy for Eager {
    ghost use Rattle.std.specs.Prelude.{◌≡◌};

    ghost allows = { λ policy ended copies stale. stale ≡ 0 };

    ghost counts = { λ old new. old ≡ new };

    fn new() -> Eager {
        Eager
    }

    fn settle<G: Game>(&self, core: &mut MirrorCore<G>) {
        core.refresh();
    }

    fn settle_steps<G: Game>(&mut self, core: &mut MirrorCore<G>) {
        core.refresh();
    }
}

/// All copies but the last are stale, but for a while behind a look. None is where every copy has
/// run the whole match.
#[derive(Drop)]
pub struct Deferred {
    // for how many more calls that may make steps the copies ahead execute as they go, too, since
    // somebody looked
    looked: u32,
}

impl Deferred {
    // A call that may have made steps is behind it.
    fn count(&mut self)
        ensures { self.new.looked ≡ self.old.looked - 1 }
    {
        self.looked = self.looked.saturating_sub(1);
    }

    /// Somebody looks at worlds: the copies ahead then execute as they go for as many calls as there
    /// are items between the ends of the last copy's run and of copy 0's, and for at least 1: so
    /// many items a look executes where nobody looked before.
    pub fn look<G: Game>(&mut self, core: &MirrorCore<G>)
        ensures { self.new.looked ≡ max 1 (length (slice_index_or core.now.state.runs 0 [])
            - length (slice_index_or core.now.state.runs (length core.now.state.runs - 1) [])) }
    {
        let last = core.stagger().copies() - 1;
        let items = core
            .stack
            .run_len(0)
            .saturating_sub(core.stack.run_len(last));
        self.looked = items.max(1);
    }
}

impl RefreshPolicy for Deferred {
    ghost use Rattle.std.specs.Prelude.{◌≡◌, ◌-◌};
    ghost use Rattle.mirror_core.specs.Deferred.{AreDeferred};

    ghost allows = { λ policy ended copies stale. AreDeferred ended copies stale policy.looked };

    ghost counts = { λ old new. new.looked ≡ old.looked - 1 };

    fn new() -> Deferred {
        Deferred { looked: 0 }
    }

    fn settle<G: Game>(&self, core: &mut MirrorCore<G>) {
        if core.drained() {
            core.refresh();
            return;
        }
        if self.looked == 0 {
            core.defer();
        }
    }

    fn settle_steps<G: Game>(&mut self, core: &mut MirrorCore<G>) {
        self.count();
        self.settle(core);
    }
}
