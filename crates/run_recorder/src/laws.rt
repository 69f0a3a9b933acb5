//! What the words of a refused record text mean. Each is the contract of a function without
//! parameters that does nothing.

ghost use Rattle.std.specs.Prelude.{◌≡◌, ◌<◌, ◌≤◌, ◌⊎◌, ℕ, List, length};
ghost use Rattle.game_trait.specs.declared.limits.TheConstants.{LONGEST_RECORD_TEXT};
ghost use Rattle.tss_io.specs.declared.cause.Cause.TheVariants.{Long};
ghost use Rattle.tss_io.specs.declared.fault.Refused.{Refused};
ghost use Rattle.tss_io.specs.declared.fault.TextFault.TheVariants as text_faults;
ghost use Rattle.tss_io.specs.Lines.{lines_of};
ghost use Rattle.tss_io.specs.Reading.{refused_at};
ghost use Rattle.tss_io.specs.Runs.{FirstFault};
ghost use Rattle.match_file.specs.Around.{first_due, around};
ghost use Rattle.run_recorder.specs.Reading.{IsFirstOfRecord, record_machine, no_tail};
ghost use Rattle.run_recorder.specs.Text.{record_head};

/// A record text has one first fault: of two refusals that name it, both are the same.
pub fn one_first_fault()
    ensures { (text : List ℕ) (a b : Refused) → IsFirstOfRecord text (text_faults.Refused a)
        → IsFirstOfRecord text (text_faults.Refused b) → a ≡ b }
{}

/// The first fault of a record text is the whole text's length, at line 0, or that of the first line
/// that isn't good where it stands, and is then that line's first check that fails. Lines are
/// counted over the whole text.
pub fn a_first_fault_is_of_a_line()
    ensures { (text : List ℕ) (refused : Refused) → IsFirstOfRecord text (text_faults.Refused refused)
        → let machine = around record_head record_machine no_tail in
        ((LONGEST_RECORD_TEXT < length text) × (refused ≡ refused_at 0 Long))
        ⊎ ((length text ≤ LONGEST_RECORD_TEXT)
        × FirstFault machine.take machine.checks machine.is_last 1 first_due (lines_of text)
        refused) }
{}
