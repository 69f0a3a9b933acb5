//! Draining ends, and leaves every copy at the time-ordered execution of what was accepted.

ghost use Rattle.std.specs.Prelude.{◌≡◌, ◌↔◌, ℕ, ◌≤◌, true, List, length};
ghost use Rattle.std.specs.List.{AllByRecursion};
ghost use Rattle.game_trait.specs.declared.event.Event.{Event};
ghost use Rattle.game_trait.specs.Run.{world_of};
ghost use Rattle.game_trait.specs.Ordered.{ordered, time_ordered};
ghost use Rattle.sync_model.specs.Schedule.{DelaysRise};
ghost use Rattle.sync_model.specs.State.{MirrorState, opening_state, delays_of};
ghost use Rattle.sync_model.specs.Change.{after, Fits};
ghost use Rattle.sync_model.specs.Staggered.{IsStaggered};
ghost use Rattle.sync_model.specs.Turns.{turns_of, SameArrivals, IsDrained, is_drained, drain_bound, drain, EndsInOrder};

use game_trait::Game;

/// A staggered mirror is drained after at most (length + longest delay in force - clock) + length
/// turns.
pub fn draining_ends<G: Game>()
    ensures { (s : MirrorState G) → DelaysRise (delays_of s) → IsStaggered s → IsDrained (drain s) }
{}

/// Draining is some number of turns, no more than its bound.
pub fn draining_is_turns<G: Game>()
    ensures { (s : MirrorState G)
        → (n : ℕ) × (n ≤ drain_bound s) × (drain s ≡ after s (turns_of (length s.runs) n)) }
{}

/// Drained as a test and as a fact are one.
pub fn drained_is_tested<G: Game>()
    ensures { (s : MirrorState G) → (is_drained s ≡ true) ↔ IsDrained s }
{}

/// Draining accepts and turns away no command, changes no plan, and spends no room.
pub fn draining_delivers_nothing<G: Game>()
    ensures { (s : MirrorState G) → SameArrivals s (drain s) }
{}

/// A staggered mirror that is drained has each run equal to the ordered part of what was accepted.
pub fn drained_in_order<G: Game>()
    ensures { (s : MirrorState G) → IsStaggered s → IsDrained s
        → AllByRecursion (λ run. run ≡ ordered s.accepted 0 s.length) s.runs }
{}

/// A staggered mirror that is drained has each copy's world at the time-ordered execution of what
/// was accepted.
pub fn drained_worlds<G: Game>()
    ensures { (s : MirrorState G) → IsStaggered s → IsDrained s
        → AllByRecursion
        (λ run. world_of G.rules s.opening run
        ≡ time_ordered G.rules s.opening s.accepted s.length) s.runs }
{}

/// A mirror that makes any list of events that fit, from its opening state, is staggered, and
/// draining leaves each of its runs equal to the ordered part of what was accepted.
pub fn played_in_order<G: Game>()
    ensures { (opening : G) (length : ℕ) (plans : List (List ℕ)) (spare plan_spare : ℕ)
        (es : List Event)
        → let start = opening_state opening length plans spare plan_spare in
        AllByRecursion DelaysRise plans → AllByRecursion (Fits start) es
        → IsStaggered (after start es) × EndsInOrder (after start es) }
{}
