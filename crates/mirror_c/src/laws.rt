//! What a host that joins late stands on: the contract of a function without parameters that does
//! nothing. What every host stands on are laws of `sync_model`.

ghost use Rattle.std.specs.Prelude.{ℕ, ◌≤◌, List, length};
ghost use Rattle.std.specs.List.{AllByRecursion};
ghost use Rattle.game_trait.specs.declared.event.Event.{Event};
ghost use Rattle.game_trait.specs.declared.limits.TheConstants.{LONGEST_MATCH};
ghost use Rattle.sync_model.specs.Change.{Fits};
ghost use Rattle.sync_model.specs.Schedule.{Schedule, ticks_of_first};
ghost use Rattle.sync_model.specs.Turns.{IsDrained};
ghost use Rattle.late_joiner.specs.declared.handed.Snapshot.{Snapshot};
ghost use Rattle.late_joiner.specs.Snapshot.{IsSnapshot};
ghost use Rattle.late_joiner.specs.Joiner.{opened};
ghost use Rattle.mirror_c.specs.Joining.{joined_after, EndsInOrder};

use game_trait::Game;

/// A host that joins late: from the snapshot of another's mirror it opens a mirror of the ticks that
/// are left, which moves to the snapshot's plan and takes the rest, and it makes any events that fit.
/// Once the mirror is drained, the world of each copy is the time-ordered execution of the whole
/// match: of what had passed, and of what was accepted here, at its own times.
pub fn a_late_host_ends_in_order<G: Game>()
    ensures { (snap : Snapshot G) (plans : List Schedule) (room restaggers : ℕ) (es : List Event)
        → IsSnapshot G.rules (ticks_of_first plans) (length plans) snap
        → ticks_of_first plans ≤ LONGEST_MATCH
        → AllByRecursion (Fits (opened snap plans room restaggers).inner) es
        → let s = (joined_after snap plans room restaggers es).inner in
        IsDrained s → EndsInOrder G.rules snap (ticks_of_first plans) s }
{}
