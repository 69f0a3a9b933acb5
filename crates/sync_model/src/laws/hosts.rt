//! What a host stands on that keeps the worlds of a mirror's copies itself: which worlds go on, and how.

ghost use Rattle.std.specs.Prelude.{◌≡◌, ℕ, ◌≤◌, ◌<◌, List, drop, length};
ghost use Rattle.std.specs.List.{AllByRecursion};
ghost use Rattle.game_trait.specs.declared.command.Item.{Item};
ghost use Rattle.game_trait.specs.declared.event.Event.{Event};
ghost use Rattle.game_trait.specs.Run.{world_of, IsPrefix};
ghost use Rattle.sync_model.specs.State.{MirrorState, opening_state};
ghost use Rattle.sync_model.specs.Change.{after, answers, Fits};
ghost use Rattle.sync_model.specs.Drafts.{run_of};
ghost use Rattle.sync_model.specs.Staggered.{IsStaggered, IsChained};
ghost use Rattle.sync_model.specs.Lists.{joined};
ghost use Rattle.sync_model.specs.Host.{most_repaired, worlds_of, follow, follow_each};

use game_trait::Game;

/// A copy that isn't among those that an answer says were repaired has its run as it was, or longer:
/// its world goes on.
pub fn unrepaired_runs_grow<G: Game>()
    ensures { (s : MirrorState G) (es : List Event) (k : ℕ)
        → IsStaggered s → AllByRecursion (Fits s) es → most_repaired (answers s es) ≤ k
        → IsPrefix (run_of s k) (run_of (after s es) k) }
{}

/// After any event each run begins with the run of the copy behind it: a repaired copy's world goes on
/// from that copy's.
pub fn runs_begin_with_those_behind<G: Game>()
    ensures { (s : MirrorState G) → IsStaggered s → IsChained s.runs }
{}

/// The last copy is never repaired, so a repaired one has a copy behind it.
pub fn the_last_copy_is_never_repaired<G: Game>()
    ensures { (s : MirrorState G) (es : List Event)
        → 0 < length s.runs → most_repaired (answers s es) < length s.runs }
{}

/// The world of a run's front, and then the items behind that, are the world of the run.
pub fn world_goes_on<G: Game>()
    ensures { (opening : G) (front whole : List Item) → IsPrefix front whole
        → world_of G.rules (world_of G.rules opening front) (drop (length front) whole)
        ≡ world_of G.rules opening whole }
{}

/// A host whose worlds are those of the copies' runs, and which follows the mirror once behind any
/// events, by the most copies that one of them repaired, has the worlds of the copies' new runs.
pub fn worlds_follow<G: Game>()
    ensures { (s : MirrorState G) (es : List Event)
        → IsStaggered s → AllByRecursion (Fits s) es
        → follow G.rules s es (worlds_of G.rules s.opening s.runs)
        ≡ worlds_of G.rules s.opening (after s es).runs }
{}

/// A host that begins with as many twins of the opening as there are copies, none of which has
/// executed anything, and follows the mirror behind each of any lists of events, has the worlds of
/// the copies' runs in the end.
pub fn worlds_follow_a_match<G: Game>()
    ensures { (opening : G) (length : ℕ) (plans : List (List ℕ)) (spare plan_spare : ℕ)
        (each : List (List Event))
        → let s = opening_state opening length plans spare plan_spare in
        AllByRecursion (Fits s) (joined each)
        → follow_each G.rules s each (worlds_of G.rules opening s.runs)
        ≡ worlds_of G.rules opening (after s (joined each)).runs }
{}
