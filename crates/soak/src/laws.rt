//! The laws of the match of a number. Each is the contract of a function without parameters that
//! does nothing.

ghost use Rattle.std.specs.Prelude.{◌≡◌, ◌∷◌, ◌++◌, [], Some, ℕ, ◌<◌, true, false, List, length, slice_get};
ghost use Rattle.std.specs.List.{AllByRecursion};
ghost use Rattle.sync_model.specs.State.{MirrorState, opening_state};
ghost use Rattle.sync_model.specs.Change.{after};
ghost use Rattle.sync_model.specs.Turns.{IsDrained, drain};
ghost use Rattle.game_trait.specs.Run.{world_of};
ghost use Rattle.match_hall.specs.Script.{played};
ghost use Rattle.match_maker.specs.Generator.{match_of_number};
ghost use Rattle.game_trait.specs.Ordered.{time_ordered};
ghost use Rattle.soak.specs.Soak.{all_commands, events_until, IsSoaked};
ghost use Rattle.soak.specs.Agree.{AreAllAt};
ghost use Rattle.report_text.specs.Ends.{done_line};
ghost use Rattle.report_text.specs.Soak.{soak_line, same_line};
ghost use Rattle.soak.specs.Answer.{IsSoakText, TellsOf, agreement_text, soak_text, whole_lines};

use arena_rules::Arena;
use game_trait::Game;
use match_hall::laws::a_mirror_sees_its_own_lines;

/// A mirror to which the commands of the match come as its script says accepts all of them, since
/// each comes at a clock of at most its time plus 31, and the last copy stands 32 ticks behind the
/// clock or more. Once it is drained, the world of each of its copies is the time-ordered execution
/// of all commands, whatever the game.
pub fn no_command_is_late<G: Game>()
    ensures { (opening : G) (seed mirror spare plan_spare : ℕ)
        → let start =
        opening_state opening 512 ((0 ∷ 4 ∷ 8 ∷ 16 ∷ 32 ∷ []) ∷ []) spare plan_spare in
        IsSoaked G.rules opening seed (drain (after start (events_until seed mirror 544))) }
{}

/// Each of the 8 mirrors of a hall that plays the match of a number accepts all commands, turns
/// none away and ends drained, with the time-ordered execution of all commands as the world of each
/// of its copies, whatever the game and the number.
pub fn each_mirror_takes_every_command<G: Game>()
    ensures { (opening : G) (seed number : ℕ) → number < 8
        → (end : MirrorState G)
        × (slice_get (played opening (match_of_number seed)) number ≡ Some end)
        × IsSoaked G.rules opening seed end }
{
    a_mirror_sees_its_own_lines::<G>();
}

/// All copies of all mirrors of a hall that plays the match of a number have one world at the end,
/// the time-ordered execution of all commands, whatever the game and the number.
pub fn all_copies_agree<G: Game>()
    ensures { (opening : G) (seed : ℕ)
        → AreAllAt G.rules (time_ordered G.rules opening (all_commands seed) 512)
        (played opening (match_of_number seed)) }
{
    each_mirror_takes_every_command::<G>();
}

/// The answer to the number of a match says that all copies agree, whatever the number.
pub fn the_text_says_same_yes()
    ensures { (seed : ℕ) (text : List ℕ) → IsSoakText seed text → text ≡ soak_text seed }
{
    all_copies_agree::<Arena>();
}

/// It says of each of the 8 mirrors that it accepted 4,096 commands and turned none away, whatever
/// the number; how many copies each repaired is what the number decides.
pub fn the_text_says_that_all_were_accepted()
    ensures { (seed : ℕ) → (repairs : List ℕ) × (length repairs ≡ 8)
        × (soak_text seed
        ≡ soak_line seed 4096 ++ (whole_lines 0 repairs ++ (same_line true ++ done_line))) }
{
    each_mirror_takes_every_command::<Arena>();
}

/// A mirror at the end of the match of a number has accepted 4,096 commands and turned none away, is
/// drained, and the world of each of its copies is the time-ordered execution of all commands.
pub fn a_soaked_mirror_has_every_command<G: Game>()
    ensures { (opening : G) (seed : ℕ) (end : MirrorState G) → IsSoaked G.rules opening seed end
        → (end.opening ≡ opening) × (length end.accepted ≡ 4096) × (end.turned ≡ [])
        × IsDrained end
        × AllByRecursion (λ run. world_of G.rules opening run
        ≡ time_ordered G.rules opening (all_commands seed) 512) end.runs }
{}

/// A text that says `same yes` of mirrors is told of those whose copies all have the world, and one
/// that says `same no` of those of which some copy hasn't.
pub fn the_text_says_if_copies_agree<G: Game>()
    ensures yes { (world : G) (number : ℕ) (mirrors : List (MirrorState G)) (text : List ℕ)
        → TellsOf G.rules world number mirrors text → text ≡ agreement_text number mirrors true
        → AreAllAt G.rules world mirrors }
    ensures no { (world : G) (number : ℕ) (mirrors : List (MirrorState G)) (text : List ℕ)
        → TellsOf G.rules world number mirrors text → text ≡ agreement_text number mirrors false
        → AreAllAt G.rules world mirrors → ⊥ }
{}
