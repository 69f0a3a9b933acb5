//! What the words of a hall's promises mean. Each is the contract of a function without
//! parameters that does nothing.

ghost use Rattle.std.specs.Prelude.{◌≡◌, ◌↔◌, ◌<◌, ◌≤◌, ◌+◌, ◌++◌, ◌∷◌, ℕ, false, List, [], Some, length, map, take, filter, slice_get, option_map};
ghost use Rattle.game_trait.specs.declared.command.Command.{Command};
ghost use Rattle.game_trait.specs.declared.event.Event.{Event};
ghost use Rattle.game_trait.specs.declared.event.Event.TheVariants.{Arrive};
ghost use Rattle.game_trait.specs.declared.event.Reply.TheVariants.{Arrive as ToArrive};
ghost use Rattle.game_trait.specs.declared.event.Arrived.TheVariants.{Taken, Late};
ghost use Rattle.sync_model.specs.State.{MirrorState, last_clock};
ghost use Rattle.sync_model.specs.Change.{said, after, is_repeat};
ghost use Rattle.sync_model.specs.Legal.{IsLegal};
ghost use Rattle.sync_model.specs.Staggered.{IsStaggered};
ghost use Rattle.sync_model.specs.Turns.{IsDrained, drain, drain_within, drain_bound};
ghost use Rattle.game_trait.specs.Run.{world_of};
ghost use Rattle.game_trait.specs.Ordered.{time_ordered};
ghost use Rattle.match_data.specs.declared.log.MirrorLog.{MirrorLog};
ghost use Rattle.match_data.specs.Data.{MatchData, IsMatch};
ghost use Rattle.match_data.specs.declared.script_line.ScriptLine.{ScriptLine};
ghost use Rattle.match_hall.specs.Script.{names, after_lines, after_script, opening_mirror, played, logs_from};
ghost use Rattle.mirror_report.specs.Report.{drain_text};
ghost use Rattle.mirror_report.specs.Stops.{IsStoppedDrain};
ghost use Rattle.match_hall.specs.Report.{Showing, script_text, drains_text};
ghost use Rattle.match_hall.specs.Headline.{IsPlayed, AllPlayed};
ghost use Rattle.match_hall.specs.Few.{IsFew};
ghost use Rattle.match_hall.specs.Stops.{IsStoppedScript, IsStoppedDraining, IsFrontPut};
ghost use Rattle.std.specs.List.{AllByRecursion};

use game_trait::Game;

/// What a script makes of a mirror is what its lines that name that mirror make of it.
pub fn a_mirror_sees_its_own_lines<G: Game>()
    ensures { (commands : List Command) (mirrors : List (MirrorState G)) (script : List ScriptLine)
        (number : ℕ)
        → slice_get (after_script commands mirrors script) number
        ≡ option_map (after_lines commands (filter (names number) script))
        (slice_get mirrors number) }
{}

/// What the first lines of a script print is the front of what all of it prints.
pub fn first_lines_print_the_front<G: Game>()
    ensures { (show : Showing G) (commands : List Command) (mirrors : List (MirrorState G))
        (script : List ScriptLine) (n : ℕ)
        → (rest : List ℕ)
        × (script_text show commands mirrors script
        ≡ script_text show commands mirrors (take n script) ++ rest) }
{}

/// What the first turns of draining print is the front of what more of them print, and where draining
/// mirrors stopped what was appended is a front of what all of it prints.
pub fn first_turns_print_the_front<G: Game>()
    ensures turns { (number n k : ℕ) (s : MirrorState G) → (rest : List ℕ)
        × (drain_text number (n + k) s ≡ drain_text number n s ++ rest) }
    ensures stopped { (old new : List (MirrorState G)) (before now : List ℕ)
        → IsStoppedDraining old new before now
        → (gained : List ℕ) × (rest : List ℕ) × (now ≡ before ++ gained)
        × (drains_text 0 old ≡ gained ++ rest) }
{}

/// The mirrors of a match, played along its script and drained, keep what playing promises of each:
/// their logs are legal, they are staggered after each front of these, and at the end they are
/// drained, with the time-ordered execution of what each accepted as the world of each of its
/// copies.
pub fn played_mirrors_keep_the_headline<G: Game>()
    ensures { (m : MatchData) (opening : G) → IsMatch m
        → AllPlayed G.rules opening m 0 (played opening m) (logs_from 0 (played opening m)) }
{}

/// A mirror that was played is staggered after each front of its log, up to the whole of it.
pub fn staggered_after_each_front<G: Game>()
    ensures front { (m : MatchData) (start end : MirrorState G) (log front rest : List Event)
        → IsPlayed G.rules m start end log → log ≡ front ++ rest → IsStaggered (after start front) }
    ensures end { (m : MatchData) (start end : MirrorState G) (log : List Event)
        → IsPlayed G.rules m start end log → IsStaggered end }
{}

/// What playing guarantees of a mirror: its log is its history, legal, and leads to it; it is
/// drained, and the world of each of its copies is the time-ordered execution of what it accepted.
pub fn a_played_mirror_is_at_its_log<G: Game>()
    ensures log { (m : MatchData) (start end : MirrorState G) (log : List Event)
        → IsPlayed G.rules m start end log → (log ≡ end.history) × (after start log ≡ end) }
    ensures legal { (m : MatchData) (start end : MirrorState G) (log : List Event)
        → IsPlayed G.rules m start end log → IsLegal m.commands start log }
    ensures drained { (m : MatchData) (start end : MirrorState G) (log : List Event)
        → IsPlayed G.rules m start end log → IsDrained end }
    ensures worlds { (m : MatchData) (start end : MirrorState G) (log : List Event)
        → IsPlayed G.rules m start end log
        → AllByRecursion (λ run. world_of G.rules start.opening run
        ≡ time_ordered G.rules start.opening end.accepted m.length) end.runs }
{}

/// Of a match as many mirrors are played as it has. Where mirrors were played, of which the first has
/// a number, there is a log of each, which names it, and each was played from where a mirror of its
/// number opens.
pub fn each_mirror_was_played<G: Game>()
    ensures mirrors { (m : MatchData) (opening : G) → IsMatch m
        → (length (played opening m) ≡ m.mirrors)
        × (length (logs_from 0 (played opening m)) ≡ m.mirrors) }
    ensures count { (m : MatchData) (opening : G) (number : ℕ) (ends : List (MirrorState G))
        (logs : List MirrorLog)
        → AllPlayed G.rules opening m number ends logs → length logs ≡ length ends }
    ensures each { (m : MatchData) (opening : G) (number place : ℕ) (ends : List (MirrorState G))
        (logs : List MirrorLog) (end : MirrorState G) (log : MirrorLog)
        → AllPlayed G.rules opening m number ends logs → slice_get ends place ≡ Some end
        → slice_get logs place ≡ Some log → (log.mirror ≡ number + place)
        × IsPlayed G.rules m (opening_mirror opening m (number + place)) end log.events }
{}

/// A script stops at one of its lines, and draining at a turn of a mirror: that one and those in front
/// of it were made, and the text of those in front was appended. Mirrors in front of the one at which
/// draining stopped are drained, and those behind it are as they were. Where showing stops, a front of
/// the text was appended.
pub fn a_script_stops_at_a_line<G: Game>()
    ensures script { (show : Showing G) (m : MatchData) (old new : List (MirrorState G))
        (before now : List ℕ) → IsStoppedScript show m old new before now
        → (front : List ScriptLine) × (line : ScriptLine) × (rest : List ScriptLine)
        × (m.script ≡ front ++ line ∷ rest)
        × (new ≡ after_script m.commands old (front ++ line ∷ []))
        × (now ≡ before ++ script_text show m.commands old front) }
    ensures drain { (number turns : ℕ) (old new : MirrorState G) (before now : List ℕ)
        → IsStoppedDrain number turns old new before now
        → (at : ℕ) × (at < turns) × (new ≡ drain_within (at + 1) old)
        × (now ≡ before ++ drain_text number at old) }
    ensures draining { (old new : List (MirrorState G)) (before now : List ℕ)
        → IsStoppedDraining old new before now
        → (front : List (MirrorState G)) × (s : MirrorState G) × (behind : List (MirrorState G))
        × (turns : ℕ) × (old ≡ front ++ s ∷ behind) × (turns < drain_bound s)
        × (new ≡ map (λ t. drain t) front ++ drain_within (turns + 1) s ∷ behind)
        × (now ≡ before ++ (drains_text 0 front ++ drain_text (length front) turns s)) }
    ensures put { (before now text : List ℕ) → IsFrontPut before now text
        → (gained : List ℕ) × (rest : List ℕ) × (now ≡ before ++ gained)
        × (text ≡ gained ++ rest) }
{}

/// Each arrival in the log of a mirror that was played was answered Late exactly where the command
/// was older than the last copy's clock, and else it was taken. After each front of the log any
/// command would be answered so.
pub fn late_exactly_in_a_log<G: Game>()
    ensures late { (m : MatchData) (start end : MirrorState G) (log front rest : List Event)
        (x : Command)
        → IsPlayed G.rules m start end log → log ≡ front ++ Arrive x ∷ rest
        → (said (after start front) (Arrive x)
        ≡ ToArrive (Late (last_clock (after start front).runs)))
        ↔ ((is_repeat (after start front) x ≡ false)
        × (x.time < last_clock (after start front).runs)) }
    ensures taken { (m : MatchData) (start end : MirrorState G) (log front rest : List Event)
        (x : Command)
        → IsPlayed G.rules m start end log → log ≡ front ++ Arrive x ∷ rest
        → last_clock (after start front).runs ≤ x.time
        → (repaired : ℕ) × (said (after start front) (Arrive x) ≡ ToArrive (Taken repaired)) }
    ensures any { (m : MatchData) (start end : MirrorState G) (log : List Event) (n : ℕ)
        (x : Command) (bound : ℕ) → IsPlayed G.rules m start end log
        → (said (after start (take n log)) (Arrive x) ≡ ToArrive (Late bound))
        ↔ ((is_repeat (after start (take n log)) x ≡ false)
        × (x.time < last_clock (after start (take n log)).runs)
        × (bound ≡ last_clock (after start (take n log)).runs)) }
{}

/// The mirrors of a match, played along its script and drained, began with its world, have some
/// copy each, and neither took nor turned away more commands than a script has lines.
pub fn mirrors_take_no_more_than_a_script_brings<G: Game>()
    ensures { (m : MatchData) (opening : G) → IsMatch m
        → AllByRecursion (IsFew opening) (played opening m) }
{}
