//! What the words of a race's promise come to. Each is the contract of a function without
//! parameters that does nothing.

ghost use Rattle.std.specs.Prelude.{◌≡◌, List};
ghost use Rattle.arena_rules.specs.World.{World, opening_world, arena_rules};
ghost use Rattle.sync_model.specs.State.{MirrorState};
ghost use Rattle.match_data.specs.Data.{MatchData, IsMatch};
ghost use Rattle.match_hall.specs.Report.{Showing};
ghost use Rattle.match_hall.specs.Script.{logs_from};
ghost use Rattle.race_hall.specs.Raced.{AreRaced};
ghost use Rattle.run_recorder.specs.Data.{IsRecord};
ghost use Rattle.run_auditor.specs.declared.verdict.Verdict.{Verdict};
ghost use Rattle.run_auditor.specs.declared.verdict.Verdict.TheVariants.{Legal};
ghost use Rattle.run_auditor.specs.Audit.{IsLegalRecord, Tells, event_count};
ghost use Rattle.tss_race.specs.Record.{record_of, arena_shown, FitsText};

use game_trait::Game;

/// The record of a race is legal, whatever the game: the log of each mirror is a legal one of the
/// match, and each stated world is exactly the block of its copy after that log. No verdict on it
/// is another than that it is legal, with the number of its events.
pub fn the_record_of_a_race_is_legal<G: Game>()
    ensures legal { (show : Showing G) (opening : G) (m : MatchData)
        (mirrors : List (MirrorState G))
        → AreRaced show.rules m opening mirrors
        → IsLegalRecord show opening (record_of show m mirrors) }
    ensures verdict { (show : Showing G) (opening : G) (m : MatchData)
        (mirrors : List (MirrorState G)) (v : Verdict)
        → AreRaced show.rules m opening mirrors
        → Tells show opening (record_of show m mirrors) v
        → v ≡ Legal (event_count (logs_from 0 mirrors)) }
{}

/// The record of a race in the arena is one that a text can give: each log is of its mirror, has no
/// more events than a log may have, and names what the match has; of each mirror there is a block
/// for each copy, with a head that tells its copy and its clock, and behind it lines of a block; and
/// its text is no longer than one may be.
pub fn the_record_of_a_race_is_one_of_a_text()
    ensures { (m : MatchData) (mirrors : List (MirrorState World))
        → IsMatch m → AreRaced arena_rules m (opening_world m.layout) mirrors
        → IsRecord (record_of (arena_shown m) m mirrors) }
{}

/// The same of any game whose races keep within the lengths and the lines of such a text.
pub fn a_record_that_fits_is_one_of_a_text<G: Game>()
    ensures { (show : Showing G) (opening : G) (m : MatchData) (mirrors : List (MirrorState G))
        → IsMatch m → AreRaced show.rules m opening mirrors → FitsText show opening m mirrors
        → IsRecord (record_of show m mirrors) }
{}
