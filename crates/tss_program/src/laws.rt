//! What the words of a run's promise mean, so that none can be read more weakly. Each is the
//! contract of a function without parameters that does nothing.

ghost use Rattle.std.specs.Prelude.{◌≡◌, ◌<◌, ◌≤◌, ◌⊎◌, ◌↔◌, ◌+◌, ℕ, true, false, Option, List, [], None, Some, ◌++◌, codes, drop, length, slice_get, take};
ghost use Rattle.std.specs.List.{AllByRecursion, Contains};
ghost use Rattle.tss_io.specs.Lines.{as_line};
ghost use Rattle.tss_io.specs.Streams.{Rose, Gains};
ghost use Rattle.tss_io.specs.declared.fault.Refused.{Refused};
ghost use Rattle.tss_io.specs.declared.fault.TextFault.TheVariants as text_faults;
ghost use Rattle.tss_io.specs.declared.cause.Cause.TheVariants.{Number};
ghost use Rattle.game_trait.specs.declared.command.Command.{Command};
ghost use Rattle.game_trait.specs.declared.event.Event.{Event};
ghost use Rattle.game_trait.specs.declared.event.Event.TheVariants.{Arrive};
ghost use Rattle.game_trait.specs.declared.event.Reply.TheVariants.{Arrive as ToArrive};
ghost use Rattle.game_trait.specs.declared.event.Arrived.TheVariants.{Late};
ghost use Rattle.game_trait.specs.Ordered.{time_ordered};
ghost use Rattle.sync_model.specs.State.{MirrorState, last_clock};
ghost use Rattle.sync_model.specs.Change.{said, after, is_repeat};
ghost use Rattle.sync_model.specs.History.{opening_of};
ghost use Rattle.sync_model.specs.Staggered.{IsStaggered};
ghost use Rattle.arena_rules.specs.World.{World, arena_rules, opening_world};
ghost use Rattle.match_data.specs.Data.{MatchData, IsMatch, lifted};
ghost use Rattle.match_file.specs.Reading.{IsFirst};
ghost use Rattle.match_file.specs.Text.{match_text};
ghost use Rattle.match_hall.specs.Script.{scripted, played, logs_from};
ghost use Rattle.match_hall.specs.Headline.{AllPlayed};
ghost use Rattle.match_maker.specs.Generator.{match_of_number};
ghost use Rattle.paint_rules.specs.World.{paint_rules};
ghost use Rattle.paint_rules.specs.Scene.{opening as opening_paint};
ghost use Rattle.lossy_link.specs.Finish.{IsEndedNet};
ghost use Rattle.race_hall.specs.Raced.{AreRaced};
ghost use Rattle.match_data.specs.declared.log.MirrorLog.{MirrorLog};
ghost use Rattle.run_recorder.specs.Data.{IsRecord};
ghost use Rattle.run_recorder.specs.Reading.{IsFirstOfRecord};
ghost use Rattle.run_recorder.specs.Text.{record_text};
ghost use Rattle.run_auditor.specs.Audit.{IsLegalRecord, Tells};
ghost use Rattle.run_auditor.specs.Verdicts.{verdict_text};
ghost use Rattle.run_auditor.specs.declared.why.Why.{Why};
ghost use Rattle.report_text.specs.Ends.{done_line, refused_text, usage_text};
ghost use Rattle.report_text.specs.Soak.{soak_line, same_line};
ghost use Rattle.report_text.specs.Worlds.{Showing};
ghost use Rattle.soak.specs.Soak.{IsSoaked};
ghost use Rattle.soak.specs.Answer.{soak_opening, soaked, whole_lines};
ghost use Rattle.match_hall.specs.Report.{play_text};
ghost use Rattle.run_recorder.specs.declared.race_record.RaceRecord.{RaceRecord};
ghost use Rattle.run_auditor.specs.declared.verdict.Verdict.TheVariants.{Legal, NotLegal};
ghost use Rattle.run_auditor.specs.Audit.{event_count};
ghost use Rattle.tss_race.specs.Record.{IsRecordOfRace};
ghost use Rattle.watch_board.specs.Behaviour.{Behaviour};
ghost use Rattle.tss_words.specs.declared.subcommand.Subcommand.{Subcommand};
ghost use Rattle.tss_words.specs.declared.subcommand.Subcommand.TheVariants.{OfMatch, Audit, Lossy, Soak};
ghost use Rattle.tss_words.specs.declared.subcommand.MatchTask.{MatchTask};
ghost use Rattle.tss_words.specs.declared.subcommand.MatchTask.TheVariants.{Join, PaintPlay, Play, Race, Rewind, Score};
ghost use Rattle.lossy_text.specs.Data.{LossyData};
ghost use Rattle.lossy_text.specs.Reading.{IsFirstOfLossy};
ghost use Rattle.match_join.specs.Join.{IsTooLate, TellsOfBoth, too_late_text};
ghost use Rattle.tss_program.specs.declared.due.Due.{Due};
ghost use Rattle.tss_words.specs.Subcommands.{subcommand_of, most_asked, races};
ghost use Rattle.tss_program.specs.declared.status.Status.TheVariants.{Complete};
ghost use Rattle.tss_program.specs.Due.{IsAnswer, IsDue, IsMatchText, IsNoMatch, IsRecordText, IsNoRecord, IsLossyText, IsNoLossy, IsLegalOne, IsRaced, IsJoined, arena_shown, refusal_due, due_of_rewind, due_of_verdict, code, net_of, order_text};
ghost use Rattle.tss_program.specs.Finish.{failure_line, IsSaid, Says};
ghost use Rattle.tss_program.specs.Run.{Run, Taken, IsRun, IsPut, ReadsAtMost, behind, asked};
ghost use Rattle.tss_program.specs.Promises.{keeps_logs, Keeps, KeepsPlayed, KeepsPainted, KeepsRaced, KeepsAMatch, KeepsSome, KeepsNet, LacksWhatIsAsked, SoaksWhole, AuditsARecord, IsLegalAnswer, EndsWith, IsComplete};

use game_trait::Game;

/// For any words, any input and any watchers some text is due, with its status and its logs; for
/// words other than `race` exactly one is.
pub fn one_is_due()
    ensures some { (watchers : List Behaviour) (words : List (List ℕ)) (input : List ℕ)
        → (due : Due) × IsDue watchers words input due }
    ensures one { (watchers : List Behaviour) (words : List (List ℕ)) (input : List ℕ) (a b : Due)
        → races (subcommand_of words) ≡ false
        → IsDue watchers words input a → IsDue watchers words input b → a ≡ b }
{}

/// Where a source tells its input, a run on words other than `race` ends as the one text allows
/// that is due for it. And where no call failed and memory was found, what is due was written
/// whole, whatever the words and the source.
pub fn runs_end_as_is_due()
    ensures told { (r : Run) (input : List ℕ) (due : Due) → IsRun r → races (asked r) ≡ false
        → r.source_old.left ≡ Some input → IsDue r.watchers r.words input due → EndsWith due r }
    ensures whole { (r : Run) → IsRun r
        → (Rose r.source_old.faults r.source_new.faults → ⊥)
        → (Rose r.sink_old.faults r.sink_new.faults → ⊥) → (r.status ≡ 1) ⊎ IsComplete r }
{}

/// Where the source tells its input, a run on words other than `race` in which no call failed has
/// one end, if memory is found: the due status, the due text behind what the sink had taken, and
/// the due logs.
pub fn one_end_without_a_fault()
    ensures { (r : Run) (input bytes : List ℕ) (due : Due) → IsRun r → races (asked r) ≡ false
        → r.source_old.left ≡ Some input → r.sink_old.bytes ≡ Some bytes
        → IsDue r.watchers r.words input due
        → (Rose r.source_old.faults r.source_new.faults → ⊥)
        → (Rose r.sink_old.faults r.sink_new.faults → ⊥)
        → (r.status ≡ 1) ⊎ ((r.status ≡ code due.status)
        × (r.sink_new.bytes ≡ Some (bytes ++ due.text)) × (r.kept ≡ due.kept)) }
{}

/// A match without pace is raced by nobody: it is refused at the line that states the pace. Of one
/// with a pace the record of a race is due.
pub fn races_need_a_pace()
    ensures refused { (m : MatchData) (due : Due) → m.pace ≡ 0 → IsRaced m due
        → due ≡ refusal_due (record { line = 6; cause = Number }) }
    ensures due { (watchers : List Behaviour) (words : List (List ℕ)) (m : MatchData) (due : Due)
        → subcommand_of words ≡ Some (OfMatch Race) → IsMatch m → m.pace ≡ 0
        → IsDue watchers words (match_text m) due
        → due ≡ refusal_due (record { line = 6; cause = Number }) }
    ensures raced { (m : MatchData) (due : Due) → 0 < m.pace → IsRaced m due
        → (due.status ≡ Complete) × ((mirrors : List (MirrorState World))
        × IsRecordOfRace (arena_shown m) (opening_world m.layout) m mirrors due.text due.kept) }
{}

/// Of a match that lacks the mirror no mirror is joined: it is refused at the line that states its
/// mirrors.
pub fn joins_need_their_mirror()
    ensures refused { (m : MatchData) (number lines : ℕ) (due : Due) → m.mirrors ≤ number
        → IsJoined number lines m due
        → due ≡ refusal_due (record { line = 4; cause = Number }) }
    ensures due { (watchers : List Behaviour) (words : List (List ℕ)) (m : MatchData)
        (number lines : ℕ) (due : Due)
        → subcommand_of words ≡ Some (OfMatch (Join number lines)) → IsMatch m
        → m.mirrors ≤ number → IsDue watchers words (match_text m) due
        → due ≡ refusal_due (record { line = 4; cause = Number }) }
{}

/// At a tick past its end a match is looked at by nobody: it is refused at the line that states its
/// length.
pub fn looks_need_their_ticks()
    ensures refused { (m : MatchData) (room : ℕ) (ticks : List ℕ) (tick : ℕ)
        → Contains ticks tick → m.length < tick
        → due_of_rewind room ticks m ≡ refusal_due (record { line = 2; cause = Number }) }
    ensures due { (watchers : List Behaviour) (words : List (List ℕ)) (m : MatchData)
        (every room : ℕ) (ticks : List ℕ) (tick : ℕ) (due : Due)
        → subcommand_of words ≡ Some (OfMatch (Rewind every room ticks)) → IsMatch m
        → Contains ticks tick → m.length < tick → IsDue watchers words (match_text m) due
        → due ≡ refusal_due (record { line = 2; cause = Number }) }
{}

/// A run that is complete ended as is due for some input, which is the one that the source tells:
/// with the status, with the whole text behind what the sink had taken, and with the logs.
pub fn a_complete_run_wrote_what_is_due()
    ensures told { (r : Run) (h : IsComplete r) (input : List ℕ) → r.source_old.left ≡ Some input
        → h.input ≡ input }
    ensures due { (r : Run) (h : IsComplete r) → IsDue r.watchers r.words h.input h.due
        × (r.status ≡ code h.due.status) × (r.kept ≡ h.due.kept) }
    ensures text { (r : Run) (h : IsComplete r) (bytes : List ℕ) → r.sink_old.bytes ≡ Some bytes
        → r.sink_new.bytes ≡ Some (bytes ++ h.due.text) }
{}

/// A run that ends as a text allows that is due wrote nothing and kept nothing, with status 1 or 3,
/// or wrote the whole text with the due status, or a proper front of it with status 4; then it kept
/// the due logs.
pub fn a_run_wrote_all_or_a_front_or_nothing()
    ensures { (r : Run) (due : Due) (bytes : List ℕ) → EndsWith due r
        → r.sink_old.bytes ≡ Some bytes
        → (((r.status ≡ 1) ⊎ (r.status ≡ 3)) × (r.sink_new.bytes ≡ Some bytes) × (r.kept ≡ []))
        ⊎ ((r.status ≡ code due.status) × (r.sink_new.bytes ≡ Some (bytes ++ due.text))
        × (r.kept ≡ due.kept))
        ⊎ ((r.status ≡ 4) × (r.kept ≡ due.kept)
        × ((n : ℕ) × (n < length due.text)
        × (r.sink_new.bytes ≡ Some (bytes ++ take n due.text)))) }
{}

/// What `race` prints is legal for `audit`: it is the text of a record of the match, which has the
/// logs that are kept, and what is due for it is the verdict that it is legal, with the number of
/// its events. So an audit of what a whole race printed ends with status 0, if memory is found and
/// no call fails.
pub fn races_are_legal_for_audit()
    ensures legal { (m : MatchData) (due : Due) → 0 < m.pace → IsRaced m due
        → IsLegalAnswer m due }
    ensures parts { (m : MatchData) (due : Due) (h : IsLegalAnswer m due)
        → IsRecordText h.r due.text × (h.r.game ≡ m) × (h.r.logs ≡ due.kept)
        × IsLegalRecord (arena_shown m) (opening_world m.layout) h.r }
    ensures verdict { (watchers : List Behaviour) (m : MatchData) (due audited : Due)
        → 0 < m.pace → IsRaced m due → IsAnswer watchers Audit due.text audited
        → audited ≡ due_of_verdict (Legal (event_count due.kept)) }
    ensures run { (r s : Run) (text : List ℕ) → IsRun r → asked r ≡ Some (OfMatch Race)
        → r.status ≡ 0 → r.sink_old.bytes ≡ Some [] → r.sink_new.bytes ≡ Some text
        → IsRun s → asked s ≡ Some Audit → s.source_old.left ≡ Some text
        → (s.status ≡ 0) ⊎ (s.status ≡ 1) ⊎ (s.status ≡ 3) ⊎ (s.status ≡ 4) }
{}

/// A log of a mirror of a race, as one of a mirror that was played: after each front of it the mirror
/// is staggered, an arrival would be answered Late there exactly where the command is new and older
/// than the last copy's clock, and the whole of it leads to the mirror.
pub fn raced_logs_are_as_played_ones<G: Game>()
    ensures staggered { (m : MatchData) (opening : G) (mirrors : List (MirrorState G)) (number : ℕ)
        (t : MirrorState G) (front rest : List Event)
        → IsMatch m → AreRaced G.rules m opening mirrors → slice_get mirrors number ≡ Some t
        → t.history ≡ front ++ rest → IsStaggered (after (opening_of t) front) }
    ensures late { (m : MatchData) (opening : G) (mirrors : List (MirrorState G)) (number : ℕ)
        (t : MirrorState G) (front rest : List Event) (x : Command) (bound : ℕ)
        → AreRaced G.rules m opening mirrors → slice_get mirrors number ≡ Some t
        → t.history ≡ front ++ rest → let s = after (opening_of t) front in
        (said s (Arrive x) ≡ ToArrive (Late bound))
        ↔ ((is_repeat s x ≡ false) × (x.time < last_clock s.runs) × (bound ≡ last_clock s.runs)) }
    ensures leads { (m : MatchData) (opening : G) (mirrors : List (MirrorState G)) (number : ℕ)
        (t : MirrorState G)
        → AreRaced G.rules m opening mirrors → slice_get mirrors number ≡ Some t
        → after (opening_of t) t.history ≡ t }
{}

/// Which statuses there are, and the cause of each.
pub fn statuses_have_causes()
    ensures at_most_seven { (r : Run) → IsRun r → r.status ≤ 7 }
    ensures wrong_words { (r : Run) → IsRun r → asked r ≡ None → (r.status ≡ 2) ⊎ (r.status ≡ 4) }
    ensures only_wrong_words { (r : Run) → IsRun r → r.status ≡ 2 → asked r ≡ None }
    ensures only_audited { (r : Run) → IsRun r → r.status ≡ 6 → asked r ≡ Some Audit }
    ensures only_joined { (r : Run) → IsRun r → r.status ≡ 7
        → (number : ℕ) × (lines : ℕ) × (asked r ≡ Some (OfMatch (Join number lines))) }
    ensures read_fault { (r : Run) → IsRun r → r.status ≡ 3
        → Rose r.source_old.faults r.source_new.faults }
    ensures write_fault { (r : Run) → IsRun r → r.status ≡ 4
        → Rose r.sink_old.faults r.sink_new.faults }
    ensures read_steady { (r : Run) → IsRun r
        → (r.status ≡ 3) ⊎ (r.source_new.faults ≡ r.source_old.faults) }
    ensures write_steady { (r : Run) → IsRun r
        → (r.status ≡ 4) ⊎ (r.sink_new.faults ≡ r.sink_old.faults) }
    ensures usage { (r : Run) → IsRun r → r.status ≡ 2
        → Gains r.sink_old.bytes usage_text r.sink_new.bytes }
    ensures verdict { (r : Run) (input : List ℕ) → IsRun r → r.source_old.left ≡ Some input
        → r.status ≡ 6
        → (record_read : RaceRecord) × (mirror : ℕ) × (place : ℕ) × (why : Why)
        × IsRecordText record_read input
        × Tells (arena_shown record_read.game) (opening_world record_read.game.layout) record_read
        (NotLegal mirror place why)
        × Gains r.sink_old.bytes (verdict_text (NotLegal mirror place why)) r.sink_new.bytes }
{}

/// What a refusal tells: the line that was written names a line and a cause. A text of nothing that
/// the words ask to read is refused at its first faulty line, for that line's first failing check; a
/// text of a match for what the match lacks, by the words `race`, `join` and `rewind` alone.
pub fn refusals_name_the_first_fault()
    ensures of_match { (r : Run) (input : List ℕ) (task : MatchTask) → IsRun r
        → asked r ≡ Some (OfMatch task) → r.source_old.left ≡ Some input → r.status ≡ 5
        → (refused : Refused) × Gains r.sink_old.bytes (refused_text refused) r.sink_new.bytes
        × ((IsNoMatch input × IsFirst input (text_faults.Refused refused))
        ⊎ ((m : MatchData) × IsMatchText m input × LacksWhatIsAsked task m refused)) }
    ensures of_record { (r : Run) (input : List ℕ) → IsRun r → asked r ≡ Some Audit
        → r.source_old.left ≡ Some input → r.status ≡ 5
        → (refused : Refused) × Gains r.sink_old.bytes (refused_text refused) r.sink_new.bytes
        × IsNoRecord input × IsFirstOfRecord input (text_faults.Refused refused) }
    ensures of_lossy { (r : Run) (input : List ℕ) → IsRun r → asked r ≡ Some Lossy
        → r.source_old.left ≡ Some input → r.status ≡ 5
        → (refused : Refused) × Gains r.sink_old.bytes (refused_text refused) r.sink_new.bytes
        × IsNoLossy input × IsFirstOfLossy input (text_faults.Refused refused) }
    ensures only_reading { (r : Run) → IsRun r → r.status ≡ 5
        → ((task : MatchTask) × (asked r ≡ Some (OfMatch task))) ⊎ (asked r ≡ Some Audit)
        ⊎ (asked r ≡ Some Lossy) }
    ensures lacks { (task : MatchTask) (m : MatchData) (refused : Refused)
        → LacksWhatIsAsked task m refused
        → ((task ≡ Race) × (m.pace ≡ 0) × (refused ≡ record { line = 6; cause = Number }))
        ⊎ ((number : ℕ) × (lines : ℕ) × (task ≡ Join number lines) × (m.mirrors ≤ number)
        × (refused ≡ record { line = 4; cause = Number }))
        ⊎ ((every : ℕ) × (room : ℕ) × (ticks : List ℕ) × (task ≡ Rewind every room ticks)
        × ((tick : ℕ) × Contains ticks tick × (m.length < tick))
        × (refused ≡ record { line = 2; cause = Number })) }
{}

/// What was read and written: at status 0, 5, 6 and 7 the input up to its end, or to one byte past the
/// limit of what the words ask to read; at status 1 and 3 nothing was written.
pub fn runs_read_and_write()
    ensures read { (r : Run) → IsRun r
        → (r.status ≡ 0) ⊎ (r.status ≡ 5) ⊎ (r.status ≡ 6) ⊎ (r.status ≡ 7)
        → r.source_new.left ≡ behind (most_asked (asked r)) r.source_old.left }
    ensures most { (r : Run) → IsRun r
        → ReadsAtMost (most_asked (asked r)) r.source_old r.source_new }
    ensures silent { (r : Run) → IsRun r → (r.status ≡ 1) ⊎ (r.status ≡ 3)
        → Gains r.sink_old.bytes [] r.sink_new.bytes }
{}

/// What is read of a source that tells its input is a front of it, in no more calls than it may have
/// bytes: those of the longest text of what the words ask to read, and one more. At status 0, 6 and 7
/// that text was read to its end, at status 5 the input to its end or to that one byte more. Where
/// the words ask for nothing to be read all of it is left.
pub fn what_is_read_is_a_front()
    ensures front { (r : Run) (input : List ℕ) → IsRun r → r.source_old.left ≡ Some input
        → (read : List ℕ) × (rest : List ℕ) × (input ≡ read ++ rest)
        × (length read ≤ most_asked (asked r)) × (r.source_new.left ≡ Some rest) }
    ensures calls { (r : Run) → IsRun r
        → r.source_new.calls ≤ r.source_old.calls + most_asked (asked r) }
    ensures whole { (r : Run) (input : List ℕ) → IsRun r → r.source_old.left ≡ Some input
        → 0 < most_asked (asked r) → (r.status ≡ 0) ⊎ (r.status ≡ 6) ⊎ (r.status ≡ 7)
        → r.source_new.left ≡ Some [] }
    ensures refused { (r : Run) (input : List ℕ) → IsRun r → r.source_old.left ≡ Some input
        → r.status ≡ 5 → r.source_new.left ≡ Some (drop (most_asked (asked r)) input) }
    ensures nothing { (r : Run) (input : List ℕ) → IsRun r → r.source_old.left ≡ Some input
        → most_asked (asked r) ≡ 0 → r.source_new.left ≡ Some input }
    ensures most { (task : MatchTask) (number : ℕ) → (most_asked (Some (OfMatch task)) ≡ 8388609)
        × (most_asked (Some Audit) ≡ 33554433) × (most_asked (Some Lossy) ≡ 16777217)
        × (most_asked (Some (Soak number)) ≡ 0) × (most_asked None ≡ 0) }
{}

/// What is kept: the logs of the match that is played or raced, of which playing and racing promise
/// what they do, and nothing elsewhere.
pub fn runs_keep_what_is_played()
    ensures logs { (r : Run) → IsRun r → (r.kept ≡ []) ⊎ KeepsSome r }
    ensures whole { (r : Run) (s : Subcommand) → IsRun r → asked r ≡ Some s → keeps_logs s ≡ true
        → r.status ≡ 0 → KeepsAMatch s r.source_old.left r.kept }
    ensures nothing { (r : Run) → IsRun r
        → (r.status ≡ 1) ⊎ (r.status ≡ 2) ⊎ (r.status ≡ 3) ⊎ (r.status ≡ 5) ⊎ (r.status ≡ 6)
        ⊎ (r.status ≡ 7) → r.kept ≡ [] }
    ensures only_playing { (r : Run) → IsRun r
        → ((s : Subcommand) → asked r ≡ Some s → keeps_logs s ≡ true → ⊥) → r.kept ≡ [] }
{}

/// Logs that are kept are those of what was played or raced for the run's words and the input that
/// the source tells.
pub fn kept_logs_are_of_the_match()
    ensures asked { (r : Run) (h : KeepsSome r) → (asked r ≡ Some h.subcommand)
        × KeepsAMatch h.subcommand r.source_old.left r.kept }
    ensures told { (s : Subcommand) (left : Option (List ℕ)) (kept : List MirrorLog)
        (h : KeepsAMatch s left kept) (input : List ℕ) → left ≡ Some input
        → (h.input ≡ input) × Keeps s input kept }
    ensures played { (input : List ℕ) (kept : List MirrorLog) → Keeps (OfMatch Play) input kept
        → (m : MatchData) × IsMatch m × (input ≡ match_text m)
        × AllPlayed arena_rules (opening_world m.layout) m 0 (played (opening_world m.layout) m)
        kept }
    ensures scored { (input : List ℕ) (kept : List MirrorLog) → Keeps (OfMatch Score) input kept
        → (m : MatchData) × IsMatch m × (input ≡ match_text m)
        × AllPlayed arena_rules (opening_world m.layout) m 0 (played (opening_world m.layout) m)
        kept }
    ensures painted { (input : List ℕ) (kept : List MirrorLog)
        → Keeps (OfMatch PaintPlay) input kept
        → (m : MatchData) × IsMatch m × (input ≡ match_text m)
        × AllPlayed paint_rules (opening_paint m.layout) m 0 (played (opening_paint m.layout) m)
        kept }
    ensures raced { (input : List ℕ) (kept : List MirrorLog) → Keeps (OfMatch Race) input kept
        → (m : MatchData) × IsMatch m × (input ≡ match_text m) × (0 < m.pace)
        × ((mirrors : List (MirrorState World))
        × AreRaced arena_rules m (opening_world m.layout) mirrors × (kept ≡ logs_from 0 mirrors)) }
    ensures netted { (input : List ℕ) (kept : List MirrorLog) → Keeps Lossy input kept
        → (x : LossyData) × IsLossyText x input
        × IsEndedNet arena_rules x (opening_world x.game.layout) (net_of x)
        × (kept ≡ logs_from 0 (net_of x).mirrors) }
    ensures soaked { (number : ℕ) (input : List ℕ) (kept : List MirrorLog)
        → Keeps (Soak number) input kept
        → let m = match_of_number number in
        AllPlayed arena_rules (opening_world m.layout) m 0 (played (opening_world m.layout) m)
        kept }
{}

/// Where the source tells a text of what the words play or race, the logs are kept also where the
/// text that is due was written in part alone.
pub fn logs_are_kept_of_what_is_told()
    ensures played { (r : Run) (input : List ℕ) (m : MatchData) → IsRun r
        → (asked r ≡ Some (OfMatch Play)) ⊎ (asked r ≡ Some (OfMatch Score))
        → r.source_old.left ≡ Some input → IsMatchText m input
        → (r.status ≡ 0) ⊎ (r.status ≡ 4) → KeepsPlayed m r.kept }
    ensures painted { (r : Run) (input : List ℕ) (m : MatchData) → IsRun r
        → asked r ≡ Some (OfMatch PaintPlay)
        → r.source_old.left ≡ Some input → IsMatchText m input
        → (r.status ≡ 0) ⊎ (r.status ≡ 4) → KeepsPainted m r.kept }
    ensures raced { (r : Run) (input : List ℕ) (m : MatchData) → IsRun r
        → asked r ≡ Some (OfMatch Race) → r.source_old.left ≡ Some input → IsMatchText m input
        → 0 < m.pace → (r.status ≡ 0) ⊎ (r.status ≡ 4) → KeepsRaced m r.kept }
    ensures soaked { (r : Run) (number : ℕ) → IsRun r → asked r ≡ Some (Soak number)
        → (r.status ≡ 0) ⊎ (r.status ≡ 4) → KeepsPlayed (match_of_number number) r.kept }
{}

/// A soak that ends with status 0 made, played and told the whole match of its number.
pub fn soaks_are_whole()
    ensures { (r : Run) (number : ℕ) → IsRun r → asked r ≡ Some (Soak number) → r.status ≡ 0
        → SoaksWhole number r.sink_old.bytes r.sink_new.bytes r.kept }
{}

/// What a whole soak is: the match of its number has 8 mirrors, each of which was played as soaking
/// promises, and whose logs are kept. The text has a line for each of them and says that the copies
/// agree.
pub fn a_whole_soak_tells_of_each_mirror()
    ensures mirrors { (number : ℕ) (old new : Option (List ℕ)) (kept : List MirrorLog)
        → SoaksWhole number old new kept → (length (soaked number) ≡ 8)
        × AllByRecursion (IsSoaked arena_rules soak_opening number) (soaked number)
        × (kept ≡ logs_from 0 (soaked number)) }
    ensures text { (number : ℕ) (old new : Option (List ℕ)) (kept : List MirrorLog)
        (bytes : List ℕ) → SoaksWhole number old new kept → old ≡ Some bytes
        → (repairs : List ℕ) × (length repairs ≡ 8)
        × (new ≡ Some (bytes ++ (soak_line number 4096
        ++ (whole_lines 0 repairs ++ (same_line true ++ done_line))))) }
{}

/// A mirror that joins late: at status 7 no tick was left for it, and the line that says so was put;
/// where none is left for it, the status is 7, if memory is found and no call fails. At status 0 what
/// was put tells of the mirror and of it, and whether their last worlds are one.
pub fn joins_tell_of_both()
    ensures too_late { (r : Run) (input : List ℕ) (m : MatchData) (number lines : ℕ) → IsRun r
        → asked r ≡ Some (OfMatch (Join number lines)) → r.source_old.left ≡ Some input
        → IsMatchText m input → r.status ≡ 7 → IsTooLate (opening_world m.layout) m number lines }
    ensures late_text { (r : Run) (input : List ℕ) (m : MatchData) (number lines : ℕ) → IsRun r
        → asked r ≡ Some (OfMatch (Join number lines)) → r.source_old.left ≡ Some input
        → IsMatchText m input → r.status ≡ 7
        → Gains r.sink_old.bytes (too_late_text m.length m.length) r.sink_new.bytes }
    ensures only_too_late { (r : Run) (input : List ℕ) (m : MatchData) (number lines : ℕ)
        → IsRun r → asked r ≡ Some (OfMatch (Join number lines))
        → r.source_old.left ≡ Some input → IsMatchText m input → number < m.mirrors
        → IsTooLate (opening_world m.layout) m number lines
        → (r.status ≡ 1) ⊎ (r.status ≡ 3) ⊎ (r.status ≡ 4) ⊎ (r.status ≡ 7) }
    ensures told { (r : Run) (input : List ℕ) (m : MatchData) (number lines : ℕ) → IsRun r
        → asked r ≡ Some (OfMatch (Join number lines)) → r.source_old.left ≡ Some input
        → IsMatchText m input → r.status ≡ 0 → (text : List ℕ)
        × TellsOfBoth (arena_shown m) (opening_world m.layout) m number lines text
        × Gains r.sink_old.bytes text r.sink_new.bytes }
{}

/// A lossy net loses nothing: whatever its lines, the logs that are kept are those of mirrors each
/// of which has every issued command once, accepted or turned away, and where it turned none away
/// all of whose copies are at the time-ordered execution of what was issued.
pub fn nets_lose_nothing()
    ensures { (r : Run) (input : List ℕ) (x : LossyData) → IsRun r → asked r ≡ Some Lossy
        → r.source_old.left ≡ Some input → IsLossyText x input
        → (r.status ≡ 0) ⊎ (r.status ≡ 4) → KeepsNet x r.kept }
{}

/// An audit's status, where it is 0 or 6, says whether the record that was read is legal.
pub fn audits_say_if_legal()
    ensures some { (r : Run) → IsRun r → asked r ≡ Some Audit
        → (r.status ≡ 0) ⊎ (r.status ≡ 6) → AuditsARecord r.source_old.left r.status }
    ensures told { (r : Run) (input : List ℕ) (record_read : RaceRecord) → IsRun r
        → asked r ≡ Some Audit → r.source_old.left ≡ Some input → IsRecordText record_read input
        → (r.status ≡ 0) ⊎ (r.status ≡ 6) → (r.status ≡ 0) ↔ IsLegalOne record_read }
{}

/// An audit that says whether a record is legal says so of the record whose text the source tells:
/// status 0 comes exactly where each log is legal and each stated world is the block of its copy.
pub fn an_audit_says_so_of_the_record()
    ensures says { (left : Option (List ℕ)) (status : ℕ) (h : AuditsARecord left status)
        → (status ≡ 0) ↔ IsLegalRecord (arena_shown h.r.game) (opening_world h.r.game.layout) h.r }
    ensures told { (left : Option (List ℕ)) (status : ℕ) (h : AuditsARecord left status)
        (input : List ℕ) → left ≡ Some input → IsRecord h.r × (input ≡ record_text h.r) }
{}

/// A match has one text, and a text is that of one match.
pub fn one_match_each_text()
    ensures { (m n : MatchData) → IsMatch m → IsMatch n → match_text m ≡ match_text n → m ≡ n }
{}

/// Status 4 comes with a proper front of the due text only: where the whole of it was taken, the
/// status is another.
pub fn whole_text_is_no_write_fault()
    ensures { (r : Run) (input bytes : List ℕ) (due : Due) → IsDue r.watchers r.words input due
        → IsPut due r.sink_old r.sink_new r.status r.kept → r.sink_old.bytes ≡ Some bytes
        → r.sink_new.bytes ≡ Some (bytes ++ due.text) → r.status ≡ 4 → ⊥ }
{}

/// Lifting a match keeps its time-ordered execution, as a world and as it is printed, what its
/// script and draining do to its mirrors, and what playing prints.
pub fn lifting_keeps<G: Game>()
    ensures world { (opening : G) (m : MatchData)
        → time_ordered G.rules opening (lifted m).commands (lifted m).length
        ≡ time_ordered G.rules opening m.commands m.length }
    ensures order { (show : Showing G) (opening : G) (m : MatchData)
        → order_text show opening (lifted m) ≡ order_text show opening m }
    ensures script { (opening : G) (m : MatchData)
        → scripted opening (lifted m) ≡ scripted opening m }
    ensures played { (opening : G) (m : MatchData) → played opening (lifted m) ≡ played opening m }
    ensures text { (show : Showing G) (opening : G) (m : MatchData)
        → play_text show opening (lifted m) ≡ play_text show opening m }
{}

/// What follows a run: at status 1, 3 and 4 a line that says in words what failed, and nothing at
/// another status. It was put whole, or a put failed and a proper front of it was.
pub fn failures_are_said_in_words()
    ensures lines { (failure_line 1 ≡ Some (as_line (codes "tss: out of memory")))
        × (failure_line 3 ≡ Some (as_line (codes "tss: reading standard input failed")))
        × (failure_line 4 ≡ Some (as_line (codes "tss: writing standard output failed"))) }
    ensures nothing { (failure_line 0 ≡ None) × (failure_line 2 ≡ None)
        × (failure_line 5 ≡ None) × (failure_line 6 ≡ None) × (failure_line 7 ≡ None) }
    ensures none { (old new : Taken) → Says (λ (t : Taken). t) None old new → new ≡ old }
    ensures some { (line : List ℕ) (old new : Taken)
        → Says (λ (t : Taken). t) (Some line) old new → IsSaid line old new }
    ensures put { (line bytes : List ℕ) (old new : Taken) → IsSaid line old new
        → old.bytes ≡ Some bytes
        → ((new.faults ≡ old.faults) × (new.bytes ≡ Some (bytes ++ line)))
        ⊎ (Rose old.faults new.faults × ((n : ℕ) × (n < length line)
        × (new.bytes ≡ Some (bytes ++ take n line)))) }
{}
