//! What live mirrors told is legal for `audit`. Each is the contract of a function without parameters
//! that does nothing.

ghost use Rattle.std.specs.Prelude.{◌≡◌, ◌+◌, ◌++◌, ◌<◌, ◌≤◌, ◌↔◌, ℕ, false, true, Contains, List, [], Ok, Err, codes, flat_map, length, map, min};
ghost use Rattle.std.specs.List.{AllByRecursion};
ghost use Rattle.game_trait.specs.declared.command.Act.{Act};
ghost use Rattle.game_trait.specs.declared.command.Command.{Command};
ghost use Rattle.game_trait.specs.declared.event.Arrived.TheVariants.{Taken};
ghost use Rattle.game_trait.specs.declared.event.Event.TheVariants as events;
ghost use Rattle.game_trait.specs.declared.event.Reply.TheVariants.{Arrive as ToArrive};
ghost use Rattle.game_trait.specs.Keys.{NamesDiffer};
ghost use Rattle.game_trait.specs.Ordered.{time_ordered};
ghost use Rattle.game_trait.specs.Run.{IsPrefix, world_of};
ghost use Rattle.tss_io.specs.Kinds.{is_long};
ghost use Rattle.tss_io.specs.Lines.{as_line};
ghost use Rattle.tss_io.specs.Reading.{refused_at};
ghost use Rattle.tss_io.specs.declared.cause.Cause.{Cause};
ghost use Rattle.report_text.specs.Ends.{refused_text};
ghost use Rattle.line_talk.specs.Talk.{IsTorn};
ghost use Rattle.line_talk.specs.Hearing.{fresh, hear_each, told_of_each};
ghost use Rattle.sync_model.specs.Change.{after, is_late, said};
ghost use Rattle.sync_model.specs.Consistent.{IsConsistent};
ghost use Rattle.sync_model.specs.Schedule.{longest_delay};
ghost use Rattle.sync_model.specs.Staggered.{IsUnchangedPlan};
ghost use Rattle.sync_model.specs.State.{delays_of};
ghost use Rattle.sync_model.specs.History.{without_room};
ghost use Rattle.sync_model.specs.Legal.{IsLegal};
ghost use Rattle.report_text.specs.Ends.{done_line};
ghost use Rattle.report_text.specs.Worlds.{Showing};
ghost use Rattle.match_data.specs.Data.{MatchData, IsCommand, IsMatch, most_commands};
ghost use Rattle.run_auditor.specs.Arena.{arena_shown};
ghost use Rattle.run_auditor.specs.Audit.{IsLegalRecord, Tells, event_count};
ghost use Rattle.run_auditor.specs.declared.verdict.Verdict.{Verdict};
ghost use Rattle.run_auditor.specs.declared.verdict.Verdict.TheVariants.{Legal};
ghost use Rattle.run_recorder.specs.Data.{IsRecord};
ghost use Rattle.run_recorder.specs.Reading.{read_record};
ghost use Rattle.run_recorder.specs.Text.{record_text};
ghost use Rattle.live_text.specs.declared.request.Request.{Request};
ghost use Rattle.live_text.specs.declared.request.Request.TheVariants as requests;
ghost use Rattle.live_text.specs.Requests.{request_at};
ghost use Rattle.live_text.specs.Texts.{MayAsk};
ghost use Rattle.command_lines.specs.CommandLine.{command_line};
ghost use Rattle.live_mirror.specs.Events.{after_requests, FitAlong};
ghost use Rattle.live_laws.specs.Events.{IsAmong, audited_from};
ghost use Rattle.live_mirror.specs.Led.{IsOfSetup, begun};
ghost use Rattle.match_file.specs.Reading.{read_text};
ghost use Rattle.match_file.specs.Text.{match_lines};
ghost use Rattle.live_talk.specs.Lines.{ok_line};
ghost use Rattle.live_mirror.specs.Session.{AreBelow, SessionState, after_request, opening_session, own_command, terms_of};
ghost use Rattle.live_laws.specs.Record.{AreAllEnds, AreEnds, MayBeCommands, put_together, record_of, with_commands};
ghost use Rattle.live_laws.specs.Talks.{EndedTalk, IsTalkOf, AreTalksOf, ArrivedAtOne, AreTheCommands, AreAllTalks, HasThemAll, states_of};
ghost use Rattle.live_mirror.specs.Told.{answer_text, record_part};
ghost use Rattle.arena_rules.specs.World.{World, opening_world};
ghost use Rattle.live_talk.specs.Head.{asking, opening_headed, refused};
ghost use Rattle.live_talk.specs.Staging.{staging, shown_by};
ghost use Rattle.live_talk.specs.Talked.{TalkState, asked_heard, asked_way};
ghost use Rattle.live_laws.specs.Arena.{arena_staging};
ghost use Rattle.live_mirror.specs.Way.{live_due, live_heard, live_way};

use game_trait::Game;
use live_talk::{Asked, Begins};

/// The log that `end` tells is legal as an audit has it, in a match that has the commands which the
/// log names, and it leads to the mirror whose copies' blocks are told behind it.
pub fn the_log_of_the_end_is_legal<G: Game>()
    ensures { (opening : G) (m : MatchData) (number : ℕ) (rs : List Request)
        (commands : List Command)
        → let start = opening_session opening m number in
        let ended = (after_requests start rs).mirror in
        IsMatch m → FitAlong start rs → AllByRecursion (IsAmong commands) ended.history
        → IsLegal commands (audited_from opening m) ended.history
        × (without_room (after (audited_from opening m) ended.history) ≡ without_room ended) }
{}

/// What mirrors of one setup told at their ends, each from its log on, put behind the head of a record
/// and the match with the commands that arrived, and closed by `done`, is how a record is written whose
/// logs and worlds are legal; no verdict on that record is another. No two of the commands have one
/// name, and they are no more than a match may have. That the text is read so is a law of the arena.
pub fn the_record_of_the_ends_is_legal<G: Game>()
    ensures told { (show : Showing G) (s : SessionState G) → let ended = after_request s requests.End in
        (front : List ℕ) × (answer_text show s requests.End ≡ front ++ record_part show s.number ended.mirror) }
    ensures game { (m : MatchData) (commands : List Command) → IsMatch m → MayBeCommands m commands
        → IsMatch (with_commands m commands) }
    ensures text { (show : Showing G) (m : MatchData) (ends : List (SessionState G))
        → put_together show m ends ≡ record_text (record_of show m ends) }
    ensures legal { (show : Showing G) (opening : G) (m : MatchData) (commands : List Command)
        (ends : List (SessionState G))
        → IsMatch m → MayBeCommands m commands → AreEnds opening m commands 0 ends
        → IsLegalRecord show opening (record_of show (with_commands m commands) ends) }
    ensures verdict { (show : Showing G) (opening : G) (m : MatchData) (commands : List Command)
        (ends : List (SessionState G)) (v : Verdict)
        → IsMatch m → MayBeCommands m commands → AreEnds opening m commands 0 ends
        → let made = record_of show (with_commands m commands) ends in
        Tells show opening made v → v ≡ Legal (event_count made.logs) }
{}

/// In the arena the text that is put together of what the mirrors of a match told at their ends, one
/// of each number, is that of a record: reading it gives exactly this record, which is legal, and no
/// verdict on it is another. So an audit finds it legal. No limit of such a text is passed, whatever
/// the mirrors were asked: no log has more events than a log may have, each world is shown by lines of
/// a block, and the text is no longer than one may be.
pub fn the_text_of_the_ends_is_read_as_a_legal_record()
    ensures record { (m : MatchData) (commands : List Command) (ends : List (SessionState World))
        → IsMatch m → MayBeCommands m commands → AreAllEnds opening_world m commands ends
        → IsRecord (record_of (arena_shown m) (with_commands m commands) ends) }
    ensures read { (m : MatchData) (commands : List Command) (ends : List (SessionState World))
        → IsMatch m → MayBeCommands m commands → AreAllEnds opening_world m commands ends
        → let game = with_commands m commands in
        read_record (put_together (arena_shown m) game ends) ≡ Ok (record_of (arena_shown m) game ends) }
    ensures verdict { (m : MatchData) (commands : List Command) (ends : List (SessionState World))
        (v : Verdict) → IsMatch m → MayBeCommands m commands → AreAllEnds opening_world m commands ends
        → let made = record_of (arena_shown m) (with_commands m commands) ends in
        Tells (arena_shown m) (opening_world m.layout) made v ↔ (v ≡ Legal (event_count made.logs)) }
{}

/// What live mirrors of one setup told that came to their ends, whatever else they were told. Each
/// closed with what a record has of it, and `done`. Where just these commands were taken or turned away
/// by them, of which no two have one name and which are no more than a match may have, they stand as
/// the laws of ends ask.
pub fn what_live_mirrors_told_closes_with_their_parts<G: Begins>()
    ensures closes { (m : MatchData) (number : ℕ) (t : EndedTalk G)
        → let g = staging G.rules G.lines G.opening in IsTalkOf g m number t
        → (front : List ℕ) × (t.state.number ≡ number) × (live_due g number t.bytes
        ≡ front ++ (record_part (shown_by g m.names) number t.state.mirror ++ done_line)) }
    ensures ends { (m : MatchData) (commands : List Command) (talks : List (EndedTalk G))
        → AreAllTalks (staging G.rules G.lines G.opening) m commands talks
        → MayBeCommands m commands × AreAllEnds G.opening m commands (states_of talks) }
{}

/// In the arena the text that is put together of those parts is read as a record that is legal, on
/// which no verdict is another.
pub fn what_live_mirrors_told_is_read_as_a_legal_record()
    ensures read { (m : MatchData) (commands : List Command) (talks : List (EndedTalk World))
        → IsMatch m → AreAllTalks arena_staging m commands talks
        → let game = with_commands m commands in
        read_record (put_together (arena_shown m) game (states_of talks))
        ≡ Ok (record_of (arena_shown m) game (states_of talks)) }
    ensures verdict { (m : MatchData) (commands : List Command) (talks : List (EndedTalk World))
        (v : Verdict) → IsMatch m → AreAllTalks arena_staging m commands talks
        → let made = record_of (arena_shown m) (with_commands m commands) (states_of talks) in
        Tells (arena_shown m) (opening_world m.layout) made v ↔ (v ≡ Legal (event_count made.logs)) }
{}

/// Live mirrors that were told all in time end at one world. Where the mirrors of a match came to their
/// ends, and each of the commands that arrived at them arrived at every one of them, its own or as the
/// others told it, and none too late, all copies of all mirrors are at the time-ordered execution of
/// those commands.
pub fn live_mirrors_end_at_one_world<G: Begins>()
    ensures { (m : MatchData) (commands : List Command) (talks : List (EndedTalk G)) → IsMatch m
        → AreAllTalks (staging G.rules G.lines G.opening) m commands talks
        → AllByRecursion (HasThemAll commands) talks
        → AllByRecursion (λ t. AllByRecursion
        (λ run. world_of G.rules (G.opening m.layout) run
        ≡ time_ordered G.rules (G.opening m.layout) commands m.length) t.state.mirror.runs) talks }
{}

/// Whatever a live mirror was told, it is consistent, and an own command is taken and repairs nothing.
/// Where its plan was never changed, a command is in time that isn't older than its clock less the last
/// copy's delay.
pub fn a_live_mirror_is_consistent<G: Begins>()
    ensures consistent { (number : ℕ) (bytes : List ℕ) (t : TalkState (SessionState G))
        → (live_heard (staging G.rules G.lines G.opening) number bytes).state.place ≡ asking t
        → IsConsistent t.session.mirror }
    ensures own { (number : ℕ) (bytes : List ℕ) (t : TalkState (SessionState G)) (player : ℕ) (act : Act)
        → (live_heard (staging G.rules G.lines G.opening) number bytes).state.place ≡ asking t
        → said t.session.mirror (events.Arrive (own_command t.session player act))
        ≡ ToArrive (Taken 0) }
    ensures in_time { (number : ℕ) (bytes : List ℕ) (t : TalkState (SessionState G)) (x : Command)
        → (live_heard (staging G.rules G.lines G.opening) number bytes).state.place ≡ asking t
        → let s = t.session.mirror in IsUnchangedPlan s
        → s.clock ≤ x.time + longest_delay (delays_of s) → is_late s x ≡ false }
{}

/// What a mirror tells to `own` is the line of a command of the match, and each mirror of the setup that
/// has room for one more arrival reads such a line as that command.
pub fn others_read_what_own_tells<G: Begins>()
    ensures own { (m : MatchData) (number : ℕ) (bytes : List ℕ) (t : TalkState (SessionState G))
        (player : ℕ) (act : Act)
        → (live_heard (staging G.rules G.lines G.opening) number bytes).state.place ≡ asking t
        → IsOfSetup G.opening m t.session → t.session.mirror.clock < t.session.mirror.length
        → MayAsk (terms_of t.session) (requests.Own player act)
        → IsCommand m (own_command t.session player act) }
    ensures read { (m : MatchData) (number : ℕ) (bytes : List ℕ) (t : TalkState (SessionState G))
        (x : Command)
        → (live_heard (staging G.rules G.lines G.opening) number bytes).state.place ≡ asking t
        → IsOfSetup G.opening m t.session → IsMatch m → IsCommand m x
        → 0 < t.session.mirror.spare
        → request_at (terms_of t.session) (command_line x) ≡ Ok (requests.Cmd x) }
{}

/// A mirror that begins anew before its first tick goes on. Handed the commands that another one told to
/// `commands`, each as a request, it has accepted just these, in that order, and turned none away; and
/// the numbers of its own among them are below that of its next one. No two of them have one name,
/// since a mirror accepts no two that have.
pub fn a_mirror_begins_anew<G: Begins>()
    ensures told { (number : ℕ) (bytes : List ℕ) (t : TalkState (SessionState G))
        → (live_heard (staging G.rules G.lines G.opening) number bytes).state.place ≡ asking t
        → NamesDiffer t.session.mirror.accepted }
    ensures handed { (opening : G) (m : MatchData) (number : ℕ) (commands : List Command)
        → IsMatch m → NamesDiffer commands
        → let start = opening_session opening m number in
        let asked = map (λ x. requests.Cmd x) commands in
        FitAlong start asked → let then = after_requests start asked in
        (then.mirror.accepted ≡ commands) × (then.mirror.turned ≡ []) × AreBelow then }
{}

/// What is asked of talks for the laws of ends is nothing but these facts.
pub fn talks_of_all_mirrors<G: Begins>()
    ensures talk { (m : MatchData) (number line : ℕ) (t : EndedTalk G)
        → let g = staging G.rules G.lines G.opening in
        (live_heard g number t.bytes).state.place
        ≡ asking (record { session = t.state; line = line; is_over = true })
        → IsOfSetup G.opening m t.state → IsTalkOf g m number t }
    ensures commands { (m : MatchData) (commands : List Command) (talks : List (EndedTalk G))
        → NamesDiffer commands → length commands ≤ most_commands m.version
        → AllByRecursion (λ t. AllByRecursion (IsAmong commands) t.state.mirror.history) talks
        → AllByRecursion (ArrivedAtOne talks) commands → AreTheCommands m commands talks }
    ensures all { (m : MatchData) (commands : List Command) (talks : List (EndedTalk G))
        → let g = staging G.rules G.lines G.opening in length talks ≡ m.mirrors
        → AreTalksOf g m 0 talks → AreTheCommands m commands talks → AreAllTalks g m commands talks }
    ensures has { (commands : List Command) (t : EndedTalk G)
        → AllByRecursion (λ x. Contains t.state.mirror.history (events.Arrive x)) commands
        → t.state.mirror.turned ≡ [] → HasThemAll commands t }
{}

/// The head of a live text opens the match whose text it is, as that text is read, wherever it is cut:
/// behind its last line the mirror of that match is asked, as the match begins, and `ok` alone was told.
/// No other text opens a mirror.
pub fn a_live_text_opens_its_match<G: Begins>()
    ensures opened { (number : ℕ) (text : List ℕ) (m : MatchData) (pieces : List (List ℕ))
        → read_text text ≡ Ok m → number < m.mirrors
        → flat_map (λ piece. piece) pieces ≡ as_line (codes "tss live 1") ++ text
        → let g = staging G.rules G.lines G.opening in
        let start = fresh (opening_headed number) in
        (hear_each (live_way g) start pieces ≡ fresh (record {
          number = number;
          place = asking (record {
            session = begun G.opening m number;
            line = min (2 + length (match_lines m)) 4294967295;
            is_over = false;
          });
        })) × (told_of_each (live_way g) start pieces ≡ ok_line) }
    ensures only { (number : ℕ) (bytes : List ℕ) (t : TalkState (SessionState G))
        → (live_heard (staging G.rules G.lines G.opening) number bytes).state.place ≡ asking t
        → (text : List ℕ) × (m : MatchData) × (read_text text ≡ Ok m) × (number < m.mirrors)
        × IsPrefix (as_line (codes "tss live 1") ++ text) bytes }
{}

/// The head of a text opens the match whose text it is, as that text is read, wherever it is cut: behind
/// its last line the mirror of that match is asked, and `ok` alone was told; or that line is refused,
/// where there is no such mirror. No other text opens one.
pub fn a_head_opens_its_match<S: Asked>()
    ensures opened { (number : ℕ) (text : List ℕ) (m : MatchData) (s : S) (pieces : List (List ℕ))
        → IsTorn S.asking.first_line → is_long S.asking.first_line ≡ false
        → read_text text ≡ Ok m → S.asking.begun m number ≡ Ok s
        → flat_map (λ piece. piece) pieces ≡ as_line S.asking.first_line ++ text
        → let start = fresh (opening_headed number) in
        (hear_each (asked_way S.asking) start pieces ≡ fresh (record {
          number = number;
          place = asking (record {
            session = s;
            line = min (2 + length (match_lines m)) 4294967295;
            is_over = false;
          });
        })) × (told_of_each (asked_way S.asking) start pieces ≡ ok_line) }
    ensures turned_away { (number : ℕ) (text : List ℕ) (m : MatchData) (cause : Cause)
        (pieces : List (List ℕ))
        → IsTorn S.asking.first_line → is_long S.asking.first_line ≡ false
        → read_text text ≡ Ok m → S.asking.begun m number ≡ Err cause
        → flat_map (λ piece. piece) pieces ≡ as_line S.asking.first_line ++ text
        → let start = fresh (opening_headed number) in
        (hear_each (asked_way S.asking) start pieces
        ≡ fresh (record { number = number; place = refused }))
        × (told_of_each (asked_way S.asking) start pieces
        ≡ refused_text (refused_at (min (1 + length (match_lines m)) 4294967295) cause)) }
    ensures only { (number : ℕ) (bytes : List ℕ) (t : TalkState S)
        → (asked_heard S.asking number bytes).state.place ≡ asking t
        → (text : List ℕ) × (m : MatchData) × (s : S)
        × (read_text text ≡ Ok m) × (S.asking.begun m number ≡ Ok s)
        × IsPrefix (as_line S.asking.first_line ++ text) bytes }
{}
