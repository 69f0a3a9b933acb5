//! A mirror whose repaired copies execute again when they are looked at.

ghost use Rattle.std.specs.Prelude.{◌≡◌, ◌<◌, [], length, slice_index_or};
ghost use Rattle.game_trait.specs.Run.{world_of};
ghost use Rattle.sync_model.specs.Turns.{IsDrained, drain};
ghost use Rattle.mirror_core.specs.Drained.{AreInOrder};

use crate::mirror_with::MirrorWith;
use crate::policy::Deferred;
use game_trait::Game;

/// A mirror as `Mirror` is one, and answers each event as that does, but only its last copy executes
/// as it goes: the copies ahead, which may be repaired, execute when their worlds are looked at, and
/// at the latest when every copy has run the whole match (this project's own). So a match that is
/// played to its end executes each tick about once. Contracts see a state of the model. Only `new`
/// takes memory.
pub type DeferredMirror<G> = MirrorWith<G, Deferred>;

impl<G: Game> DeferredMirror<G> {
    /// Makes the worlds that are still to be made, each once. What follows looks at them without
    /// executing anything, until an event repairs copies again. The copies ahead then execute as
    /// they go, too, for as many steps and turns as the look had items to execute: who looks at each
    /// turn has each tick executed once by each copy, and behind a single look the last copy alone
    /// executes again.
    pub fn refresh(&mut self)
        ensures { self.new ≡ self.old }
    {
        self.policy.look(&self.core);
        self.core.refresh();
    }

    /// The copy's live world: the opening after all items of its run. The copy is there, and every
    /// copy has run the whole match. Nothing is executed.
    pub fn world(&self, copy: u8) -> &G
        requires there { copy < length self.now.runs }
        requires drained { IsDrained self.now }
        ensures { result.now
            ≡ world_of G.rules self.now.opening (slice_index_or self.now.runs copy []) }
    {
        self.core.stack.world(copy)
    }

    /// Makes turns until every copy has run the whole match. Each copy's world is then the
    /// time-ordered execution of what was accepted.
    pub fn drain(&mut self)
        ensures state { self.new ≡ drain self.old }
        ensures worlds { AreInOrder G.rules self.new }
    {
        self.always();
        self.run_to_the_end();
    }
}
