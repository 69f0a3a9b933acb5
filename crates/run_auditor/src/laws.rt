//! What the words of an audit come to, so that none can be read more weakly. Each is the contract
//! of a function without parameters that does nothing.

ghost use Rattle.std.specs.Prelude.{◌≡◌};
ghost use Rattle.run_recorder.specs.declared.race_record.RaceRecord.{RaceRecord};
ghost use Rattle.run_recorder.specs.Data.{IsRecord};
ghost use Rattle.run_auditor.specs.declared.verdict.Verdict.{Verdict};
ghost use Rattle.report_text.specs.Worlds.{Showing};
ghost use Rattle.run_auditor.specs.Audit.{Tells};

use game_trait::Game;

/// Exactly one verdict tells of a record.
pub fn one_verdict<G: Game>()
    ensures some { (show : Showing G) (opening : G) (r : RaceRecord) → IsRecord r
        → (v : Verdict) × Tells show opening r v }
    ensures one { (show : Showing G) (opening : G) (r : RaceRecord) (v w : Verdict)
        → Tells show opening r v → Tells show opening r w → v ≡ w }
{}
