//! Settled runs are chained; which copies an event repairs, how many, and what their runs are then.

ghost use Rattle.std.specs.Prelude.{◌≡◌, ◌↔◌, ℕ, zero, suc, ◌-◌, ◌<◌, ◌≤◌, true, false, nat_lt, if◌then◌else◌, List, [], ◌∷◌, ◌++◌, length, slice_index_or};
ghost use Rattle.std.specs.List.{AllByRecursion, list_any};
ghost use Rattle.game_trait.specs.declared.command.Command.{Command};
ghost use Rattle.game_trait.specs.declared.command.Item.{Item};
ghost use Rattle.game_trait.specs.declared.command.Item.TheVariants.{Cmd};
ghost use Rattle.game_trait.specs.declared.event.Event.TheVariants.{Arrive, Step};
ghost use Rattle.game_trait.specs.declared.event.Reply.TheVariants.{Arrive as ToArrive, Step as ToStep};
ghost use Rattle.game_trait.specs.declared.event.Arrived.TheVariants.{Taken, Repeat, Late};
ghost use Rattle.game_trait.specs.declared.event.Stepped.TheVariants.{Ran, Idle};
ghost use Rattle.game_trait.specs.Run.{beats, IsPrefix};
ghost use Rattle.game_trait.specs.Keys.{same_name};
ghost use Rattle.game_trait.specs.Count.{times};
ghost use Rattle.sync_model.specs.State.{MirrorState, copy_clock, last_clock};
ghost use Rattle.sync_model.specs.Settle.{begins_with, rebuilt, settle, which_repaired, repaired};
ghost use Rattle.sync_model.specs.Change.{said, is_repeat, is_late, is_idle, with_tick, proposed_by_arrival, proposed_by_step};
ghost use Rattle.sync_model.specs.Staggered.{IsChained, IsComplete, IsStaggered};
ghost use Rattle.sync_model.specs.Repairs.{AreFirst, repaired_by_arrival, repaired_by_step, is_late_at, rebuild, IsLastLate};

use game_trait::Game;

/// The test of whether a run begins with another decides just that.
pub fn begins_with_prefix()
    ensures { (ahead behind : List Item)
        → (begins_with ahead behind ≡ true) ↔ IsPrefix behind ahead }
{}

/// Settled runs are chained, whatever was proposed: each begins with the run behind it.
pub fn settled_chained()
    ensures { (accepted : List Command) (proposed : List (List Item))
        → IsChained (settle accepted proposed) }
{}

/// The copies that an arrival repairs are the first ones from copy 0 on.
pub fn arrival_repairs_first()
    ensures { (accepted : List Command) (x : Command) (runs : List (List Item))
        → list_any (same_name x) accepted ≡ false
        → IsChained runs → AllByRecursion (IsComplete accepted) runs
        → AreFirst (which_repaired (accepted ++ x ∷ []) (proposed_by_arrival x runs)) }
{}

/// The copies that a step repairs are the first ones from copy 0 on.
pub fn step_repairs_first()
    ensures { (accepted : List Command) (runs : List (List Item)) (c : ℕ)
        → IsChained runs → AllByRecursion (IsComplete accepted) runs
        → c < length runs → (0 < c → copy_clock runs c < copy_clock runs (c - 1))
        → AreFirst (which_repaired accepted (proposed_by_step accepted runs c)) }
{}

/// An arrival repairs no copy where it is late at none, and else those copies whose clock is
/// greater than the clock of the last copy at which it is late.
pub fn arrival_count()
    ensures { (accepted : List Command) (x : Command) (runs : List (List Item))
        → list_any (same_name x) accepted ≡ false
        → IsChained runs → AllByRecursion (IsComplete accepted) runs
        → repaired (accepted ++ x ∷ []) (proposed_by_arrival x runs) ≡ repaired_by_arrival x runs }
{}

/// A step repairs no copy, or all copies ahead of its own: these exactly where the run ahead
/// doesn't begin with the new run.
pub fn step_count()
    ensures { (accepted : List Command) (runs : List (List Item)) (c : ℕ)
        → IsChained runs → AllByRecursion (IsComplete accepted) runs
        → c < length runs → (0 < c → copy_clock runs c < copy_clock runs (c - 1))
        → repaired accepted (proposed_by_step accepted runs c) ≡ repaired_by_step accepted runs c }
{}

/// So many are repaired by an arrival that a staggered mirror takes.
pub fn arrival_repairs<G: Game>()
    ensures { (s : MirrorState G) (x : Command) → IsStaggered s
        → said s (Arrive x)
        ≡ ToArrive (
        if is_repeat s x then Repeat
        else if is_late s x then Late (last_clock s.runs)
        else Taken (repaired_by_arrival x s.runs)) }
{}

/// So many are repaired by a step that a staggered mirror runs.
pub fn step_repairs<G: Game>()
    ensures { (s : MirrorState G) (c : ℕ) → IsStaggered s → c < length s.runs
        → said s (Step c)
        ≡ ToStep (if is_idle s c then Idle else Ran (repaired_by_step s.accepted s.runs c)) }
{}

/// A step of copy 0 changes no other run.
pub fn step_first()
    ensures { (accepted : List Command) (runs : List (List Item)) → IsChained runs
        → let proposed = proposed_by_step accepted runs 0 in
        (settle accepted proposed ≡ proposed) × (repaired accepted proposed ≡ 0) }
{}

/// Where the run ahead begins with the new run, a step changes no other run.
pub fn step_front()
    ensures { (accepted : List Command) (runs : List (List Item)) (c : ℕ) → IsChained runs
        → let new = with_tick accepted (slice_index_or runs (suc c) []) in
        let proposed = proposed_by_step accepted runs (suc c) in
        begins_with (slice_index_or runs c []) new ≡ true
        → (settle accepted proposed ≡ proposed) × (repaired accepted proposed ≡ 0) }
{}

/// Where the run ahead doesn't begin with the new run, every run ahead becomes the new run,
/// followed by the ordered part up to the clock that it had.
pub fn step_apart()
    ensures { (accepted : List Command) (runs : List (List Item)) (c : ℕ)
        → IsChained runs → AllByRecursion (IsComplete accepted) runs
        → suc c < length runs → copy_clock runs (suc c) < copy_clock runs c
        → let new = with_tick accepted (slice_index_or runs (suc c) []) in
        let proposed = proposed_by_step accepted runs (suc c) in
        begins_with (slice_index_or runs c []) new ≡ false
        → (settle accepted proposed ≡ rebuild accepted new (suc (suc c)) runs)
        × (repaired accepted proposed ≡ suc c) }
{}

/// An arrival that is late at no copy changes no run.
pub fn arrival_early()
    ensures { (accepted : List Command) (x : Command) (runs : List (List Item))
        → IsChained runs → list_any (is_late_at x) runs ≡ false
        → let proposed = proposed_by_arrival x runs in
        (settle (accepted ++ x ∷ []) proposed ≡ runs)
        × (repaired (accepted ++ x ∷ []) proposed ≡ 0) }
{}

/// An arrival that is late at some copy is late at a last one.
pub fn last_late()
    ensures { (x : Command) (runs : List (List Item)) → list_any (is_late_at x) runs ≡ true
        → (m : ℕ) × IsLastLate x runs m }
{}

/// The last copy at which an arrival is late gains it at its run's end. Every run ahead becomes
/// that run, followed by the ordered part up to the clock that it had: so a run with the clock of
/// that copy gains it at its end too, and those with a greater clock are repaired.
pub fn arrival_late()
    ensures { (accepted : List Command) (x : Command) (runs : List (List Item)) (m : ℕ)
        → list_any (same_name x) accepted ≡ false
        → IsChained runs → AllByRecursion (IsComplete accepted) runs → IsLastLate x runs m
        → let all = accepted ++ x ∷ [] in
        let new = slice_index_or runs m [] ++ Cmd x ∷ [] in
        let proposed = proposed_by_arrival x runs in
        (settle all proposed ≡ rebuild all new (suc m) runs)
        × (repaired all proposed ≡ times (λ run. nat_lt (copy_clock runs m) (beats run)) runs) }
{}

/// A run that is rebuilt from a rebuilt one is rebuilt from what that one was rebuilt from.
pub fn rebuilt_twice()
    ensures { (accepted : List Command) (ahead middle base : List Item)
        → beats base ≤ beats middle → beats middle ≤ beats ahead
        → rebuilt accepted ahead (rebuilt accepted middle base) ≡ rebuilt accepted ahead base }
{}

/// A run that is rebuilt from one with no lower clock is that one.
pub fn rebuilt_level()
    ensures { (accepted : List Command) (ahead base : List Item)
        → beats ahead ≤ beats base → rebuilt accepted ahead base ≡ base }
{}
