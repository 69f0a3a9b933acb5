//! What the promises of a mirror of a session without an end are made of. Each is the contract of a
//! function without parameters that does nothing.

ghost use Rattle.std.specs.Prelude.{◌≡◌, ℕ, ◌+◌, ◌<◌, true, List, Some, length};
ghost use Rattle.std.specs.List.{AllByRecursion};
ghost use Rattle.game_trait.specs.declared.event.Arrived.{Arrived};
ghost use Rattle.sync_model.specs.State.{MirrorState, delays_of, schedule_of, last_clock};
ghost use Rattle.sync_model.specs.Forgetting.{IsLeft};
ghost use Rattle.sync_model.specs.Schedule.{DelaysRise};
ghost use Rattle.sync_model.specs.Staggered.{IsTrailing};
ghost use Rattle.rolling_mirror.specs.declared.arrival.Arrival.{Arrival};
ghost use Rattle.rolling_mirror.specs.Rolling.{RollState, IsWindowOf, LetsTurnsGoOn, as_arrived, is_full, turned};
ghost use Rattle.rolling_mirror.specs.Snapshot.{rolled_back};
ghost use Rattle.rolling_mirror.specs.Moves.{Move, after_moves, said_to_moves, stepped, AreAtOne};

use game_trait::Game;

/// A mirror is the window of one that remembers all where it is what is left of that, its first
/// ticks forgotten, as `sync_model` says.
pub fn a_window_is_what_is_left<G: Game>()
    ensures { (whole : MirrorState G) (r : RollState G)
        → IsWindowOf G.rules whole r
        → IsLeft G.rules r.base whole r.left }
{}

/// To a command that is taken, a repeat or late, the mirror that remembers all gives the same answer.
pub fn the_same_is_answered()
    ensures taken { (repaired : ℕ)
        → as_arrived (Arrival.Taken repaired) ≡ Some (Arrived.Taken repaired) }
    ensures repeat { as_arrived Arrival.Repeat ≡ Some Arrived.Repeat }
    ensures late { (bound : ℕ) → as_arrived (Arrival.Late bound) ≡ Some (Arrived.Late bound) }
{}

/// A mirror that is opened from another's snapshot follows it. It is the window of the mirror that
/// remembers all, its copies gone back to the last one. Its copies but the last may be taken on by steps
/// of its own; and whatever moves come after, the same at both, both take and turn away the same
/// commands, with the same answers but for how many copies were repaired, and their last copies have the
/// same run, clock and world.
pub fn a_joiner_follows<G: Game>()
    ensures at_one { (whole : MirrorState G) (copies : List ℕ) (moves : List Move)
        → IsTrailing whole.accepted whole.runs → 0 < length whole.runs
        → AllByRecursion DelaysRise whole.plans
        → AllByRecursion (λ delays. length delays ≡ length whole.runs) whole.plans
        → AllByRecursion (λ copy. copy + 1 < length whole.runs) copies
        → AreAtOne G.rules (after_moves whole moves)
        (after_moves (stepped copies (rolled_back whole)) moves) }
    ensures answers { (whole : MirrorState G) (copies : List ℕ) (moves : List Move)
        → IsTrailing whole.accepted whole.runs → 0 < length whole.runs
        → AllByRecursion DelaysRise whole.plans
        → AllByRecursion (λ delays. length delays ≡ length whole.runs) whole.plans
        → AllByRecursion (λ copy. copy + 1 < length whole.runs) copies
        → said_to_moves whole moves ≡ said_to_moves (stepped copies (rolled_back whole)) moves }
{}

/// The windows that let turns go on are those that are longer by two ticks or more than the delay of the
/// last copy. Where this one is a whole window behind, a turn takes it on, so that the next one moves the
/// clock; in a shorter window it stays where it is, for ever while this plan is in force.
pub fn a_window_that_lets_turns_go_on<G: Game>()
    ensures goes_on { (r : RollState G)
        → IsTrailing r.left.accepted r.left.runs → 0 < length r.left.runs
        → DelaysRise (delays_of r.left) → length (delays_of r.left) ≡ length r.left.runs
        → last_clock r.left.runs ≡ 0 → is_full r ≡ true
        → LetsTurnsGoOn (schedule_of r.left)
        → last_clock (turned G.rules r).left.runs ≡ 1 }
    ensures stops { (r : RollState G)
        → IsTrailing r.left.accepted r.left.runs → 0 < length r.left.runs
        → DelaysRise (delays_of r.left) → length (delays_of r.left) ≡ length r.left.runs
        → last_clock r.left.runs ≡ 0 → is_full r ≡ true
        → (LetsTurnsGoOn (schedule_of r.left) → ⊥)
        → (last_clock (turned G.rules r).left.runs ≡ 0)
        × (is_full (turned G.rules r) ≡ true) }
{}
