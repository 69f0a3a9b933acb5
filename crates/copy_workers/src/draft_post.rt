//! Whom a copy's worker asks.

ghost use Rattle.std.specs.Prelude.{◌≡◌, ℕ, ◌+◌, ◌<◌, [], ◌∷◌, ◌++◌, Option, Some, None};
ghost use Rattle.game_trait.specs.declared.event.Event.{Event as AnEvent};
ghost use Rattle.game_trait.specs.declared.event.Event.TheVariants.{Step};

use crate::post::Post;
use game_trait::Game;
use mirror_core::Committed;

/// What a post answers where a copy's due tick is asked for.
#[derive(Clone, Copy, Debug, PartialEq, Eq)]
pub enum Draw {
    /// The tick lies at the post as a draft.
    Draft,
    /// No tick of the copy is due.
    Idle,
    /// So many commands are due at the copy's clock, more than a draft has.
    Wide {
        /// How many.
        commands: u32,
    },
}

/// A post that lets ticks be executed away from its mirror: it takes a copy's due tick out as a
/// draft, and gives it back once it is executed. The draft lies at the post meanwhile, so that no
/// world is handed about.
pub trait DraftPost<G: Game>: Post {
    ghost use Rattle.sync_model.specs.Drafts.{DraftTick};
    ghost use Rattle.copy_workers.specs.Trail.{IsDrawn, draw_marks, commit_mark, commit_asked};

    /// The draft that the last call answered, which lies at the post, and none where it answered
    /// none.
    ghost drawn: { Self → Option (DraftTick G) };

    /// Takes out the copy's due tick. Where none is due, that is the answer to asking `times` times
    /// in a row, at least once, between which nothing changes: the trail has a mark for each of
    /// them. It asks no event, and uses up one call. It may wait.
    fn draft(&mut self, copy: u8, times: u64) -> Draw
        requires takes { Self.takes self.old (Step copy) }
        requires some { 0 < times }
        requires calls { 0 < Self.calls self.old }
        ensures drawn { IsDrawn copy result (drawn self.new) }
        ensures trail { Self.trail self.new
            ≡ Self.trail self.old ++ draw_marks copy times result }
        ensures asked { Self.asked self.new ≡ Self.asked self.old }
        ensures calls { Self.calls self.new + 1 ≡ Self.calls self.old }
        ensures grows { Self.grows self.new ≡ Self.grows self.old }
        ensures takes { (e : AnEvent) → Self.takes self.old e → Self.takes self.new e }
        ensures same { (p : Self) → Self.same p self.old → Self.same p self.new };

    /// Executes the draft that lies at the post, away from the mirror, and gives it back. Where it
    /// is still due, that counts as the copy's step, asked and answered. It uses up a call, and
    /// leaves no draft at the post. It may wait.
    fn commit(&mut self) -> Committed
        requires drawn { (d : DraftTick G) × (drawn self.old ≡ Some d) }
        requires calls { 0 < Self.calls self.old }
        ensures trail { (d : DraftTick G) → drawn self.old ≡ Some d
            → Self.trail self.new ≡ Self.trail self.old ++ commit_mark d.copy result ∷ [] }
        ensures asked { (d : DraftTick G) → drawn self.old ≡ Some d
            → Self.asked self.new ≡ Self.asked self.old ++ commit_asked d.copy result }
        ensures calls { Self.calls self.new + 1 ≡ Self.calls self.old }
        ensures grows { Self.grows self.new ≡ Self.grows self.old }
        ensures takes { (e : AnEvent) → Self.takes self.old e → Self.takes self.new e }
        ensures same { (p : Self) → Self.same p self.old → Self.same p self.new }
        ensures left { drawn self.new ≡ None };

    /// Whether a tick of the copy seems to be due. It is a guess that nothing is proved of: it asks
    /// nothing, and uses up no call.
    fn seems_due(&self, copy: u8) -> bool;

    /// Where no draft is at the post, its last call answered none.
    ghost laws: { (p : Self) → Self.bare p → drawn p ≡ None };
}
