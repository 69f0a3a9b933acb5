//! The worked runs: what some lists of events lead to, computed.

ghost use Rattle.std.specs.Prelude.{◌≡◌, List, [], ◌∷◌, ◌++◌, map, replicate};
ghost use Rattle.game_trait.specs.declared.command.Item.TheVariants.{Cmd, Beat};
ghost use Rattle.game_trait.specs.declared.event.Event.TheVariants.{Tick, Arrive, Step, Restagger};
ghost use Rattle.game_trait.specs.declared.event.Reply.TheVariants.{Tick as ToTick, Arrive as ToArrive, Step as ToStep, Restaggered};
ghost use Rattle.game_trait.specs.declared.event.Ticked.TheVariants.{Moved, Over};
ghost use Rattle.game_trait.specs.declared.event.Arrived.TheVariants.{Taken, Repeat, Late};
ghost use Rattle.game_trait.specs.declared.event.Stepped.TheVariants.{Ran, Idle};
ghost use Rattle.sync_model.specs.Change.{after};
ghost use Rattle.sync_model.specs.Turns.{turn_events, turns_of, drain};
ghost use Rattle.sync_model.specs.Drafts.{epoch};
ghost use Rattle.sync_model.specs.Worked.{go_named, go_first, go_at, go_next, one_copy, two_copies, one_tick, three_copies, closer_plan, wider_plan, one_late, one_in_time, late_after_three, late_after_five, both_late, level, level_late, side_by_side, opposite, forward, back, back_late, answer_after, answers_after, runs_after, Outcome, outcome, beat, run_with, run_both, run_tied};

use game_trait::Game;

/// The copy's clock is 3 and the command's time 2: it is turned away.
pub fn late_by_one<G: Game>()
    ensures answer { (o : G)
        → answer_after (one_copy o) (turns_of 1 3) (Arrive (go_at 2)) ≡ ToArrive (Late 3) }
    ensures turned { (o : G)
        → (after (one_copy o) one_late).turned ≡ record { from = 0; number = 0; bound = 3 } ∷ [] }
    ensures room { (o : G) → (after (one_copy o) one_late).spare ≡ 7 }
    ensures drained { (o : G) → outcome (one_copy o) one_late
        ≡ record { accepted = 0; turned = 1; repairs = 0; runs = beat 4 ∷ [] } }
{}

/// The copy's clock is 2, the command's time: it is taken, and due.
pub fn just_in_time<G: Game>()
    ensures answer { (o : G)
        → answer_after (one_copy o) (turns_of 1 2) (Arrive (go_at 2)) ≡ ToArrive (Taken 0) }
    ensures runs { (o : G) → runs_after (one_copy o) one_in_time ≡ beat 2 ∷ [] }
    ensures drained { (o : G) → outcome (one_copy o) one_in_time
        ≡ record { accepted = 1; turned = 0; repairs = 0; runs = run_with (go_at 2) 2 4 ∷ [] } }
{}

/// The clocks are 3, 1 and 0, and the command's time is 1: it is late at copy 0 alone. Copy 0 is
/// repaired when copy 1 runs tick 1.
pub fn late_at_the_leading_copy<G: Game>()
    ensures answer { (o : G)
        → answer_after (three_copies o) (turns_of 3 3) (Arrive (go_at 1)) ≡ ToArrive (Taken 0) }
    ensures runs { (o : G) → runs_after (three_copies o) late_after_three
        ≡ run_with (go_at 1) 3 3 ∷ beat 1 ∷ [] ∷ [] }
    ensures repair { (o : G)
        → answer_after (three_copies o) (late_after_three ++ Tick ∷ Step 0 ∷ []) (Step 1)
        ≡ ToStep (Ran 1) }
    ensures drained { (o : G) → outcome (three_copies o) late_after_three
        ≡ record {
          accepted = 1;
          turned = 0;
          repairs = 1;
          runs = replicate 3 (run_with (go_at 1) 1 8);
        } }
{}

/// The same, and copy 1 runs tick 1 before copy 0 steps again.
pub fn repaired_by_the_next_copy<G: Game>()
    ensures answer { (o : G)
        → answer_after (three_copies o) (late_after_three ++ Tick ∷ []) (Step 1) ≡ ToStep (Ran 1) }
    ensures runs { (o : G) → runs_after (three_copies o) (late_after_three ++ Tick ∷ Step 1 ∷ [])
        ≡ run_with (go_at 1) 1 3 ∷ run_with (go_at 1) 1 2 ∷ [] ∷ [] }
    ensures drained { (o : G) → outcome (three_copies o) (late_after_three ++ Tick ∷ Step 1 ∷ [])
        ≡ record {
          accepted = 1;
          turned = 0;
          repairs = 1;
          runs = replicate 3 (run_with (go_at 1) 1 8);
        } }
{}

/// The same, with a command of tick 2 that is late at copy 0 too: when copy 0 is repaired, what it
/// executes again has the newcomer in its place.
pub fn newcomers_are_replayed<G: Game>()
    ensures runs { (o : G) → runs_after (three_copies o) both_late
        ≡ (beat 3 ++ Cmd (go_at 1) ∷ Cmd go_next ∷ []) ∷ beat 1 ∷ [] ∷ [] }
    ensures step { (o : G)
        → answer_after (three_copies o) (both_late ++ Tick ∷ []) (Step 1) ≡ ToStep (Ran 1) }
    ensures repaired { (o : G) → runs_after (three_copies o) (both_late ++ Tick ∷ Step 1 ∷ [])
        ≡ run_both 3 ∷ run_with (go_at 1) 1 2 ∷ [] ∷ [] }
    ensures drained { (o : G) → outcome (three_copies o) both_late
        ≡ record { accepted = 2; turned = 0; repairs = 1; runs = replicate 3 (run_both 8) } }
{}

/// The clocks are 5, 3 and 1: the command is late at copies 0 and 1, and copy 0 is repaired at
/// once. When copy 2 runs tick 1, both copies ahead are repaired.
pub fn repaired_twice<G: Game>()
    ensures arrival { (o : G)
        → answer_after (three_copies o) (turns_of 3 5) (Arrive (go_at 1)) ≡ ToArrive (Taken 1) }
    ensures runs { (o : G) → runs_after (three_copies o) late_after_five
        ≡ run_with (go_at 1) 3 5 ∷ run_with (go_at 1) 3 3 ∷ beat 1 ∷ [] }
    ensures step { (o : G)
        → answer_after (three_copies o) (late_after_five ++ Tick ∷ Step 0 ∷ Step 1 ∷ []) (Step 2)
        ≡ ToStep (Ran 2) }
    ensures repaired { (o : G) → runs_after (three_copies o) (late_after_five ++ turns_of 3 1)
        ≡ run_with (go_at 1) 1 6 ∷ run_with (go_at 1) 1 4 ∷ run_with (go_at 1) 1 2 ∷ [] }
    ensures drained { (o : G) → outcome (three_copies o) late_after_five
        ≡ record {
          accepted = 1;
          turned = 0;
          repairs = 3;
          runs = replicate 3 (run_with (go_at 1) 1 8);
        } }
{}

/// Copies 0 and 1 both have clock 3: the command is put at the end of both, and nothing is repaired
/// before copy 2 runs tick 1. That one step repairs both copies.
pub fn equal_clocks<G: Game>()
    ensures answer { (o : G)
        → answer_after (three_copies o) level (Arrive (go_at 1)) ≡ ToArrive (Taken 0) }
    ensures runs { (o : G) → runs_after (three_copies o) level_late
        ≡ run_with (go_at 1) 3 3 ∷ run_with (go_at 1) 3 3 ∷ [] ∷ [] }
    ensures step { (o : G)
        → answer_after (three_copies o) (level_late ++ Step 2 ∷ Tick ∷ []) (Step 2)
        ≡ ToStep (Ran 2) }
    ensures repaired { (o : G)
        → runs_after (three_copies o) (level_late ++ Step 2 ∷ Tick ∷ Step 2 ∷ [])
        ≡ run_with (go_at 1) 1 3 ∷ run_with (go_at 1) 1 3 ∷ run_with (go_at 1) 1 2 ∷ [] }
    ensures drained { (o : G) → outcome (three_copies o) level_late
        ≡ record {
          accepted = 1;
          turned = 0;
          repairs = 2;
          runs = replicate 3 (run_with (go_at 1) 1 8);
        } }
{}

/// The second step of copy 1 would pass copy 0.
pub fn no_passing<G: Game>()
    ensures answer { (o : G) → answer_after (three_copies o) side_by_side (Step 1) ≡ ToStep Idle }
    ensures runs { (o : G)
        → runs_after (three_copies o) (side_by_side ++ Step 1 ∷ []) ≡ beat 1 ∷ beat 1 ∷ [] ∷ [] }
    ensures history { (o : G)
        → (after (three_copies o) (side_by_side ++ Step 1 ∷ [])).history ≡ side_by_side }
    ensures drained { (o : G) → outcome (three_copies o) (side_by_side ++ Step 1 ∷ [])
        ≡ record { accepted = 0; turned = 0; repairs = 0; runs = replicate 3 (beat 8) } }
{}

/// A command that was accepted is a repeat; one that was late is new, and late again.
pub fn repeat_and_late_again<G: Game>()
    ensures repeats { (o : G)
        → answer_after (one_copy o) (Arrive (go_at 2) ∷ []) (Arrive (go_at 2)) ≡ ToArrive Repeat }
    ensures accepted { (o : G)
        → (after (one_copy o) (replicate 2 (Arrive (go_at 2)))).accepted ≡ go_at 2 ∷ [] }
    ensures spare { (o : G) → (after (one_copy o) (replicate 2 (Arrive (go_at 2)))).spare ≡ 7 }
    ensures once { (o : G) → outcome (one_copy o) (replicate 2 (Arrive (go_at 2)))
        ≡ record { accepted = 1; turned = 0; repairs = 0; runs = run_with (go_at 2) 2 4 ∷ [] } }
    ensures late { (o : G)
        → answer_after (one_copy o) one_late (Arrive (go_at 2)) ≡ ToArrive (Late 3) }
    ensures history { (o : G) → (after (one_copy o) (one_late ++ Arrive (go_at 2) ∷ [])).history
        ≡ one_late ++ Arrive (go_at 2) ∷ [] }
    ensures twice { (o : G) → outcome (one_copy o) (one_late ++ Arrive (go_at 2) ∷ [])
        ≡ record { accepted = 0; turned = 2; repairs = 0; runs = beat 4 ∷ [] } }
{}

/// A command that the copy has run past is a repeat where it was accepted: that is asked before
/// whether it is late.
pub fn repeat_before_late<G: Game>()
    ensures answer { (o : G)
        → answer_after (one_copy o) (Arrive (go_at 2) ∷ turns_of 1 3) (Arrive (go_at 2))
        ≡ ToArrive Repeat }
    ensures drained { (o : G)
        → outcome (one_copy o) (Arrive (go_at 2) ∷ turns_of 1 3 ++ Arrive (go_at 2) ∷ [])
        ≡ record { accepted = 1; turned = 0; repairs = 0; runs = run_with (go_at 2) 2 4 ∷ [] } }
{}

/// The clock is 2, the length plus the longest delay, and both copies are at 1.
pub fn over_and_idle<G: Game>()
    ensures over { (o : G) → answer_after (one_tick o) (turns_of 2 2) Tick ≡ ToTick Over }
    ensures leading { (o : G) → answer_after (one_tick o) (turns_of 2 2) (Step 0) ≡ ToStep Idle }
    ensures trailing { (o : G) → answer_after (one_tick o) (turns_of 2 2) (Step 1) ≡ ToStep Idle }
    ensures history { (o : G)
        → (after (one_tick o) (turns_of 2 3)).history ≡ Tick ∷ Step 0 ∷ Tick ∷ Step 1 ∷ [] }
    ensures clock { (o : G) → (after (one_tick o) (turns_of 2 3)).clock ≡ 2 }
{}

/// A command that is due at tick 7 waits.
pub fn command_for_later<G: Game>()
    ensures answer { (o : G)
        → answer_after (three_copies o) [] (Arrive (go_at 7)) ≡ ToArrive (Taken 0) }
    ensures runs { (o : G)
        → runs_after (three_copies o) (Arrive (go_at 7) ∷ []) ≡ [] ∷ [] ∷ [] ∷ [] }
    ensures drained { (o : G) → outcome (three_copies o) (Arrive (go_at 7) ∷ [])
        ≡ record {
          accepted = 1;
          turned = 0;
          repairs = 0;
          runs = replicate 3 (run_with (go_at 7) 7 8);
        } }
{}

/// Two commands of one tick arrive here against their key order, the second after copy 0 ran that
/// tick: copy 0 is repaired when copy 1 runs it. Where both arrive before, in either order, nothing
/// is repaired.
pub fn opposite_orders<G: Game>()
    ensures answer { (o : G)
        → answer_after (two_copies o) (Arrive (go_first 1) ∷ turns_of 2 1) (Arrive (go_first 0))
        ≡ ToArrive (Taken 0) }
    ensures runs { (o : G) → runs_after (two_copies o) opposite
        ≡ (Cmd (go_first 1) ∷ Beat ∷ Cmd (go_first 0) ∷ []) ∷ [] ∷ [] }
    ensures step { (o : G)
        → answer_after (two_copies o) (opposite ++ turns_of 2 1 ++ Tick ∷ Step 0 ∷ []) (Step 1)
        ≡ ToStep (Ran 1) }
    ensures accepted { (o : G)
        → (after (two_copies o) opposite).accepted ≡ go_first 1 ∷ go_first 0 ∷ [] }
    ensures drained { (o : G) → outcome (two_copies o) opposite
        ≡ record {
          accepted = 2;
          turned = 0;
          repairs = 1;
          runs = replicate 2 (run_tied (go_first 0) (go_first 1));
        } }
    ensures in_order { (o : G)
        → outcome (two_copies o) (Arrive (go_first 0) ∷ Arrive (go_first 1) ∷ [])
        ≡ record {
          accepted = 2;
          turned = 0;
          repairs = 0;
          runs = replicate 2 (run_tied (go_first 0) (go_first 1));
        } }
    ensures before { (o : G)
        → outcome (two_copies o) (Arrive (go_first 1) ∷ Arrive (go_first 0) ∷ [])
        ≡ record {
          accepted = 2;
          turned = 0;
          repairs = 0;
          runs = replicate 2 (run_tied (go_first 0) (go_first 1));
        } }
{}

/// Of two commands of one tick the one from the lower mirror comes first, whatever their numbers
/// and whichever arrives first.
pub fn mirror_before_number<G: Game>()
    ensures first { (o : G)
        → outcome (two_copies o) (Arrive (go_named 0 5) ∷ Arrive (go_named 1 0) ∷ [])
        ≡ record {
          accepted = 2;
          turned = 0;
          repairs = 0;
          runs = replicate 2 (run_tied (go_named 0 5) (go_named 1 0));
        } }
    ensures last { (o : G)
        → outcome (two_copies o) (Arrive (go_named 1 0) ∷ Arrive (go_named 0 5) ∷ [])
        ≡ record {
          accepted = 2;
          turned = 0;
          repairs = 0;
          runs = replicate 2 (run_tied (go_named 0 5) (go_named 1 0));
        } }
{}

/// The clocks are 5, 3 and 1, where no copy behind copy 0 could step. A plan of half the delays
/// leaves copy 1 one step and copy 2 two, and the command of tick 1 is late then.
pub fn restagger_forward<G: Game>()
    ensures before { (o : G)
        → runs_after (closer_plan o) (turns_of 3 5) ≡ beat 5 ∷ beat 3 ∷ beat 1 ∷ [] }
    ensures full { (o : G) → answers_after (closer_plan o) (turns_of 3 5) (Step 1 ∷ Step 2 ∷ [])
        ≡ ToStep Idle ∷ ToStep Idle ∷ [] }
    ensures answer { (o : G)
        → answer_after (closer_plan o) (turns_of 3 5) (Restagger 1) ≡ Restaggered }
    ensures steps { (o : G) → answers_after (closer_plan o) (turns_of 3 5 ++ Restagger 1 ∷ [])
        (Step 1 ∷ Step 1 ∷ Step 2 ∷ Step 2 ∷ Step 2 ∷ [])
        ≡ ToStep (Ran 0) ∷ ToStep Idle ∷ ToStep (Ran 0) ∷ ToStep (Ran 0) ∷ ToStep Idle ∷ [] }
    ensures runs { (o : G) → runs_after (closer_plan o) forward ≡ beat 5 ∷ beat 4 ∷ beat 3 ∷ [] }
    ensures late { (o : G)
        → answer_after (closer_plan o) forward (Arrive (go_at 1)) ≡ ToArrive (Late 3) }
    ensures plan { (o : G) → (after (closer_plan o) forward).plan ≡ 1 }
    ensures plan_spare { (o : G) → (after (closer_plan o) forward).plan_spare ≡ 0 }
    ensures history { (o : G)
        → (after (closer_plan o) (Restagger 0 ∷ Restagger 1 ∷ [])).history
        ≡ Restagger 0 ∷ Restagger 1 ∷ [] }
    ensures clock { (o : G) → (drain (after (closer_plan o) forward)).clock ≡ 10 }
    ensures over { (o : G)
        → answer_after (drain (after (closer_plan o) forward)) [] Tick ≡ ToTick Over }
    ensures drained { (o : G) → outcome (closer_plan o) (forward ++ Arrive (go_at 1) ∷ [])
        ≡ record { accepted = 0; turned = 1; repairs = 0; runs = replicate 3 (beat 8) } }
{}

/// A plan of twice the delays leaves copies 1 and 2, at 3 and 1, further than they might go: they
/// stand still. The command of tick 1 is taken, and repaired as ever.
pub fn restagger_back<G: Game>()
    ensures still { (o : G)
        → answers_after (wider_plan o) (turns_of 3 5 ++ Restagger 1 ∷ []) (turn_events 3)
        ≡ ToTick Moved ∷ ToStep (Ran 0) ∷ ToStep Idle ∷ ToStep Idle ∷ [] }
    ensures runs { (o : G) → runs_after (wider_plan o) back ≡ beat 6 ∷ beat 3 ∷ beat 1 ∷ [] }
    ensures arrival { (o : G)
        → answer_after (wider_plan o) back (Arrive (go_at 1)) ≡ ToArrive (Taken 1) }
    ensures repaired { (o : G) → runs_after (wider_plan o) back_late
        ≡ run_with (go_at 1) 3 6 ∷ run_with (go_at 1) 3 3 ∷ beat 1 ∷ [] }
    ensures step { (o : G)
        → answer_after (wider_plan o) (back_late ++ turns_of 3 3 ++ Tick ∷ Step 0 ∷ Step 1 ∷ [])
        (Step 2)
        ≡ ToStep (Ran 2) }
    ensures first_end { (o : G)
        → answer_after (wider_plan o) (back ++ turns_of 3 6) Tick ≡ ToTick Moved }
    ensures clock { (o : G) → (drain (after (wider_plan o) back)).clock ≡ 16 }
    ensures over { (o : G)
        → answer_after (drain (after (wider_plan o) back)) [] Tick ≡ ToTick Over }
    ensures drained { (o : G) → outcome (wider_plan o) back_late
        ≡ record {
          accepted = 1;
          turned = 0;
          repairs = 3;
          runs = replicate 3 (run_with (go_at 1) 1 8);
        } }
{}

/// After one tick the copy's epoch is 0, and a step of it makes it 1: what was drafted before is
/// stale.
pub fn draft_made_stale_by_a_step<G: Game>()
    ensures before { (o : G) → epoch (after (one_copy o) (Tick ∷ [])) 0 ≡ 0 }
    ensures stepped { (o : G) → epoch (after (one_copy o) (Tick ∷ Step 0 ∷ [])) 0 ≡ 1 }
{}

/// A command that is due later leaves the epoch: what was drafted before still fits.
pub fn draft_survives_an_early_arrival<G: Game>()
    ensures { (o : G) → epoch (after (one_copy o) (Tick ∷ Arrive (go_at 2) ∷ [])) 0 ≡ 0 }
{}

/// After three ticks and two steps the copy's clock is 2, and so is its epoch. The command of tick
/// 2 isn't late, but is due at the tick at which the copy stands: the epoch is 3. A second arrival
/// of it is a repeat, and leaves that.
pub fn draft_made_stale_by_a_late_arrival<G: Game>()
    ensures before { (o : G)
        → epoch (after (one_copy o) (replicate 3 Tick ++ replicate 2 (Step 0))) 0 ≡ 2 }
    ensures arrived { (o : G)
        → epoch (after (one_copy o)
        (replicate 3 Tick ++ replicate 2 (Step 0) ++ Arrive (go_at 2) ∷ [])) 0
        ≡ 3 }
    ensures again { (o : G)
        → epoch (after (one_copy o)
        (replicate 3 Tick ++ replicate 2 (Step 0) ++ replicate 2 (Arrive (go_at 2)))) 0
        ≡ 3 }
{}

/// Copy 1 runs tick 1, which repairs copy 0 and renews both; copy 2 isn't renewed. A change of the
/// plan renews all.
pub fn drafts_made_stale_by_a_repair<G: Game>()
    ensures before { (o : G)
        → map (epoch (after (three_copies o) late_after_three)) (0 ∷ 1 ∷ 2 ∷ []) ≡ 4 ∷ 2 ∷ 0 ∷ [] }
    ensures repaired { (o : G)
        → map (epoch (after (three_copies o) (late_after_three ++ Tick ∷ Step 1 ∷ [])))
        (0 ∷ 1 ∷ 2 ∷ [])
        ≡ 5 ∷ 3 ∷ 0 ∷ [] }
    ensures restaggered { (o : G)
        → map (epoch (after (three_copies o) (late_after_three ++ Restagger 0 ∷ [])))
        (0 ∷ 1 ∷ 2 ∷ [])
        ≡ 5 ∷ 3 ∷ 1 ∷ [] }
{}
