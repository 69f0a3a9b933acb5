//! The parts of each definition of what is good, pinned: for each part there is something small
//! that
//! breaks it alone, and so isn't good, by computation. A part that was left out would be missed
//! here.

ghost use Rattle.std.specs.Prelude.{◌≡◌, ◌↔◌, ℕ, List, [], ◌∷◌, ◌++◌, replicate};
ghost use Rattle.std.specs.List.{AllByRecursion};
ghost use Rattle.game_trait.specs.declared.command.Command.{Command};
ghost use Rattle.game_trait.specs.declared.event.Event.{Event};
ghost use Rattle.game_trait.specs.declared.event.Event.TheVariants.{Tick, Arrive, Step, Restagger};
ghost use Rattle.sync_model.specs.Schedule.{Schedule, IsSchedule};
ghost use Rattle.sync_model.specs.State.{MirrorState};
ghost use Rattle.sync_model.specs.Change.{Fits};
ghost use Rattle.sync_model.specs.Staggered.{IsStaggered};
ghost use Rattle.sync_model.specs.WellFormed.{ArePlans, IsWellFormed};
ghost use Rattle.sync_model.specs.Turns.{IsDrained, SameArrivals, EndsInOrder, drain};
ghost use Rattle.sync_model.specs.Legal.{IsLegal};
ghost use Rattle.game_trait.specs.Game.{Rules};
ghost use Rattle.game_trait.specs.Ordered.{ordered};
ghost use Rattle.sync_model.specs.Drafts.{ReadyTick, IsDueTick, FitsReady};
ghost use Rattle.sync_model.specs.Worked.{go_at, one_copy, one_late};
ghost use Rattle.sync_model.specs.Pinned.{AllHold, AllHoldBut, parts_of_staggered, small_match, unchained, lacking, doubled, strange, hasty, last_too_late, last_unsorted, too_early, past_match, past_clock, past_end, past_delay, third_copy, same_names, never_due, wrong_bound, all_done, last_one_short, first_one_short, third_plan, parts_of_schedule, schedule, nine_delays, parts_of_plans, parts_of_well_formed, parts_of_legal, arrives_twice, step_of_a_third, parts_of_due_tick, parts_of_ready, counting, counted_after, ready};

use game_trait::Game;

/// What is always true of a mirror, part by part.
pub fn staggered_parts<G: Game>()
    ensures parts { (s : MirrorState G) → IsStaggered s ↔ AllHold (parts_of_staggered s) }
    ensures unchained { (o : G)
        → (IsStaggered (unchained o) → ⊥) × AllHoldBut 0 (parts_of_staggered (unchained o)) }
    ensures lacking { (o : G)
        → (IsStaggered (lacking o) → ⊥) × AllHoldBut 1 (parts_of_staggered (lacking o)) }
    ensures doubled { (o : G)
        → (IsStaggered (doubled o) → ⊥) × AllHoldBut 1 (parts_of_staggered (doubled o)) }
    ensures strange { (o : G)
        → (IsStaggered (strange o) → ⊥) × AllHoldBut 1 (parts_of_staggered (strange o)) }
    ensures hasty { (o : G)
        → (IsStaggered (hasty o) → ⊥) × AllHoldBut 1 (parts_of_staggered (hasty o)) }
    ensures last_too_late { (o : G)
        → (IsStaggered (last_too_late o) → ⊥)
        × AllHoldBut 2 (parts_of_staggered (last_too_late o)) }
    ensures last_unsorted { (o : G)
        → (IsStaggered (last_unsorted o) → ⊥)
        × AllHoldBut 2 (parts_of_staggered (last_unsorted o)) }
    ensures too_early { (o : G)
        → (IsStaggered (too_early o) → ⊥) × AllHoldBut 3 (parts_of_staggered (too_early o)) }
    ensures past_match { (o : G)
        → (IsStaggered (past_match o) → ⊥) × AllHoldBut 4 (parts_of_staggered (past_match o)) }
    ensures past_clock { (o : G)
        → (IsStaggered (past_clock o) → ⊥) × AllHoldBut 5 (parts_of_staggered (past_clock o)) }
    ensures past_end { (o : G)
        → (IsStaggered (past_end o) → ⊥) × AllHoldBut 6 (parts_of_staggered (past_end o)) }
    ensures past_delay { (o : G)
        → (IsStaggered (past_delay o) → ⊥) × AllHoldBut 7 (parts_of_staggered (past_delay o)) }
    ensures third_copy { (o : G)
        → (IsStaggered (third_copy o) → ⊥) × AllHoldBut 7 (parts_of_staggered (third_copy o)) }
    ensures same_names { (o : G)
        → (IsStaggered (same_names o) → ⊥) × AllHoldBut 8 (parts_of_staggered (same_names o)) }
    ensures never_due { (o : G)
        → (IsStaggered (never_due o) → ⊥) × AllHoldBut 9 (parts_of_staggered (never_due o)) }
    ensures wrong_bound { (o : G)
        → (IsStaggered (wrong_bound o) → ⊥) × AllHoldBut 10 (parts_of_staggered (wrong_bound o)) }
{}

/// A schedule, part by part.
pub fn schedule_parts()
    ensures parts { (s : Schedule) → IsSchedule s ↔ AllHold (parts_of_schedule s) }
    ensures no_copy { (IsSchedule (schedule [] 4) → ⊥)
        × AllHoldBut 0 (parts_of_schedule (schedule [] 4)) }
    ensures nine_copies { (IsSchedule (schedule nine_delays 4) → ⊥)
        × AllHoldBut 1 (parts_of_schedule (schedule nine_delays 4)) }
    ensures equal_delays { (IsSchedule (schedule (1 ∷ 1 ∷ []) 4) → ⊥)
        × AllHoldBut 2 (parts_of_schedule (schedule (1 ∷ 1 ∷ []) 4)) }
    ensures falling_delays { (IsSchedule (schedule (1 ∷ 0 ∷ []) 4) → ⊥)
        × AllHoldBut 2 (parts_of_schedule (schedule (1 ∷ 0 ∷ []) 4)) }
    ensures long_delay { (IsSchedule (schedule (0 ∷ 1025 ∷ []) 4) → ⊥)
        × AllHoldBut 3 (parts_of_schedule (schedule (0 ∷ 1025 ∷ []) 4)) }
    ensures no_tick { (IsSchedule (schedule (0 ∷ 1 ∷ []) 0) → ⊥)
        × AllHoldBut 4 (parts_of_schedule (schedule (0 ∷ 1 ∷ []) 0)) }
    ensures long_match { (IsSchedule (schedule (0 ∷ 1 ∷ []) 8193) → ⊥)
        × AllHoldBut 5 (parts_of_schedule (schedule (0 ∷ 1 ∷ []) 8193)) }
    ensures longest { IsSchedule (schedule (0 ∷ 1024 ∷ []) 8192) }
{}

/// Plans of delays, part by part.
pub fn plans_parts()
    ensures parts { (plans : List (List ℕ)) (ticks copies : ℕ)
        → ArePlans plans ticks copies ↔ AllHold (parts_of_plans plans ticks copies) }
    ensures no_plan { (ArePlans [] 4 2 → ⊥)
        × AllHoldBut 0 (parts_of_plans [] 4 2) }
    ensures nine_plans { (ArePlans (replicate 9 (0 ∷ 1 ∷ [])) 4 2 → ⊥)
        × AllHoldBut 1 (parts_of_plans (replicate 9 (0 ∷ 1 ∷ [])) 4 2) }
    ensures no_schedule { (ArePlans ((0 ∷ 1 ∷ []) ∷ (1 ∷ 1 ∷ []) ∷ []) 4 2 → ⊥)
        × AllHoldBut 2 (parts_of_plans ((0 ∷ 1 ∷ []) ∷ (1 ∷ 1 ∷ []) ∷ []) 4 2) }
    ensures other_width { (ArePlans ((0 ∷ 1 ∷ []) ∷ (0 ∷ []) ∷ []) 4 2 → ⊥)
        × AllHoldBut 3 (parts_of_plans ((0 ∷ 1 ∷ []) ∷ (0 ∷ []) ∷ []) 4 2) }
    ensures other_copies { (ArePlans ((0 ∷ 1 ∷ []) ∷ []) 4 3 → ⊥)
        × AllHoldBut 3 (parts_of_plans ((0 ∷ 1 ∷ []) ∷ []) 4 3) }
{}

/// The fixed parts of a mirror, part by part.
pub fn well_formed_parts<G: Game>()
    ensures parts { (s : MirrorState G) → IsWellFormed s ↔ AllHold (parts_of_well_formed s) }
    ensures third_copy { (o : G)
        → (IsWellFormed (third_copy o) → ⊥) × AllHoldBut 0 (parts_of_well_formed (third_copy o)) }
    ensures third_plan { (o : G)
        → (IsWellFormed (third_plan o) → ⊥) × AllHoldBut 1 (parts_of_well_formed (third_plan o)) }
{}

/// A legal history, part by part. A late arrival belongs to one.
pub fn legal_parts<G: Game>()
    ensures parts { (commands : List Command) (s : MirrorState G) (log : List Event)
        → IsLegal commands s log ↔ AllHold (parts_of_legal commands s log) }
    ensures idle { (o : G)
        → (IsLegal [] (small_match o) (Step 0 ∷ []) → ⊥)
        × AllHoldBut 0 (parts_of_legal [] (small_match o) (Step 0 ∷ [])) }
    ensures repeated { (o : G)
        → (IsLegal (go_at 1 ∷ []) (small_match o) arrives_twice → ⊥)
        × AllHoldBut 0 (parts_of_legal (go_at 1 ∷ []) (small_match o) arrives_twice) }
    ensures stranger { (o : G)
        → (IsLegal (go_at 2 ∷ []) (small_match o) (Arrive (go_at 1) ∷ []) → ⊥)
        × AllHoldBut 1 (parts_of_legal (go_at 2 ∷ []) (small_match o) (Arrive (go_at 1) ∷ [])) }
    ensures third_copy { (o : G)
        → (IsLegal [] (small_match o) step_of_a_third → ⊥)
        × AllHoldBut 1 (parts_of_legal [] (small_match o) step_of_a_third) }
    ensures third_plan { (o : G)
        → (IsLegal [] (small_match o) (Restagger 2 ∷ []) → ⊥)
        × AllHoldBut 1 (parts_of_legal [] (small_match o) (Restagger 2 ∷ [])) }
    ensures late { (o : G) → IsLegal (go_at 2 ∷ []) (one_copy o) one_late }
{}

/// A drained mirror: every copy is at the match's end, and not past it.
pub fn drained_parts<G: Game>()
    ensures all { (o : G) → IsDrained (all_done o) }
    ensures last { (o : G) → IsDrained (last_one_short o) → ⊥ }
    ensures first { (o : G) → IsDrained (first_one_short o) → ⊥ }
    ensures past { (o : G) → IsDrained (past_match o) → ⊥ }
{}

/// Between two states nothing arrived, part by part: nothing was accepted or turned away, the plan is
/// the same, and so is the room.
pub fn same_arrivals_parts<G: Game>()
    ensures parts { (s t : MirrorState G) → SameArrivals s t
        ↔ ((t.accepted ≡ s.accepted) × (t.turned ≡ s.turned) × (t.plan ≡ s.plan)
        × (t.spare ≡ s.spare) × (t.plan_spare ≡ s.plan_spare)) }
{}

/// What draining guarantees, part by part: every copy has run the whole match, nothing arrived, and
/// each run is the ordered part of what was accepted.
pub fn ends_in_order_parts<G: Game>()
    ensures parts { (s : MirrorState G) → EndsInOrder s
        ↔ (IsDrained (drain s) × SameArrivals s (drain s)
        × AllByRecursion (λ run. run ≡ ordered s.accepted 0 s.length) (drain s).runs) }
{}

/// An event that fits: the last tick, copy and plan do, and what comes after them doesn't.
pub fn fits_parts<G: Game>()
    ensures last_tick { (o : G) → Fits (small_match o) (Arrive (go_at 3)) }
    ensures no_tick { (o : G) → Fits (small_match o) (Arrive (go_at 4)) → ⊥ }
    ensures last_copy { (o : G) → Fits (small_match o) (Step 1) }
    ensures no_copy { (o : G) → Fits (small_match o) (Step 2) → ⊥ }
    ensures last_plan { (o : G) → Fits (small_match o) (Restagger 1) }
    ensures no_plan { (o : G) → Fits (small_match o) (Restagger 2) → ⊥ }
{}

/// The due tick of a copy, part by part. After one tick copy 0 may run tick 0, copy 1 may not.
pub fn due_tick_parts<G: Game>()
    ensures parts { (rules : Rules G) (s : MirrorState G) (r : ReadyTick G)
        → IsDueTick rules s r ↔ AllHold (parts_of_due_tick rules s r) }
    ensures due { IsDueTick counting (counted_after (Tick ∷ [])) (ready 0 0 0 1) }
    ensures other_clock { (IsDueTick counting (counted_after (Tick ∷ [])) (ready 0 0 1 1) → ⊥)
        × AllHoldBut 0 (parts_of_due_tick counting (counted_after (Tick ∷ [])) (ready 0 0 1 1)) }
    ensures at_limit { (IsDueTick counting (counted_after (Tick ∷ [])) (ready 1 0 0 1) → ⊥)
        × AllHoldBut 1 (parts_of_due_tick counting (counted_after (Tick ∷ [])) (ready 1 0 0 1)) }
    ensures other_world { (IsDueTick counting (counted_after (Tick ∷ [])) (ready 0 0 0 2) → ⊥)
        × AllHoldBut 2 (parts_of_due_tick counting (counted_after (Tick ∷ [])) (ready 0 0 0 2)) }
{}

/// A ready tick that fits, part by part. One of an epoch that is over fits, whatever it is.
pub fn ready_parts<G: Game>()
    ensures parts { (rules : Rules G) (s : MirrorState G) (r : ReadyTick G)
        → FitsReady rules s r ↔ AllHold (parts_of_ready rules s r) }
    ensures due { FitsReady counting (counted_after (Tick ∷ [])) (ready 0 0 0 1) }
    ensures over { FitsReady counting (counted_after (Tick ∷ Step 0 ∷ [])) (ready 0 0 5 7) }
    ensures third_copy { (FitsReady counting (counted_after (Restagger 0 ∷ [])) (ready 2 0 0 1) → ⊥)
        × AllHoldBut 0
        (parts_of_ready counting (counted_after (Restagger 0 ∷ [])) (ready 2 0 0 1)) }
    ensures later_epoch { (FitsReady counting (counted_after (Tick ∷ [])) (ready 0 1 0 1) → ⊥)
        × AllHoldBut 1 (parts_of_ready counting (counted_after (Tick ∷ [])) (ready 0 1 0 1)) }
    ensures not_due { (FitsReady counting (counted_after (Tick ∷ [])) (ready 0 0 0 2) → ⊥)
        × AllHoldBut 2 (parts_of_ready counting (counted_after (Tick ∷ [])) (ready 0 0 0 2)) }
{}
