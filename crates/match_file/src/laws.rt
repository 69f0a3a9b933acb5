//! What the words of a refused match text mean. Each is the contract of a function without
//! parameters that does nothing.

ghost use Rattle.std.specs.Prelude.{◌≡◌, ◌<◌, ◌≤◌, ◌⊎◌, ℕ, List, length};
ghost use Rattle.game_trait.specs.declared.limits.TheConstants.{LONGEST_MATCH_TEXT};
ghost use Rattle.tss_io.specs.declared.cause.Cause.TheVariants.{Long};
ghost use Rattle.tss_io.specs.declared.fault.Refused.{Refused};
ghost use Rattle.tss_io.specs.declared.fault.TextFault.TheVariants as text_faults;
ghost use Rattle.tss_io.specs.Lines.{lines_of};
ghost use Rattle.tss_io.specs.Reading.{refused_at};
ghost use Rattle.tss_io.specs.Runs.{FirstFault};
ghost use Rattle.match_file.specs.Reading.{IsFirst, IsFirstAt, take_line, checks_of, at_last, head_due};

/// A match text has one first fault: of two refusals that name it, both are the same.
pub fn one_first_fault()
    ensures { (text : List ℕ) (a b : Refused) → IsFirst text (text_faults.Refused a)
        → IsFirst text (text_faults.Refused b) → a ≡ b }
{}

/// The first fault of a match text is the whole text's length, at line 0, or that of the first line
/// that isn't good where it stands, and is then that line's first check that fails; so is that of a
/// match text which begins at another line.
pub fn a_first_fault_is_of_a_line()
    ensures whole { (text : List ℕ) (refused : Refused) → IsFirst text (text_faults.Refused refused)
        → ((LONGEST_MATCH_TEXT < length text) × (refused ≡ refused_at 0 Long))
        ⊎ ((length text ≤ LONGEST_MATCH_TEXT)
        × FirstFault take_line checks_of at_last 1 head_due (lines_of text) refused) }
    ensures at { (n : ℕ) (text : List ℕ) (refused : Refused)
        → IsFirstAt n text (text_faults.Refused refused)
        → FirstFault take_line checks_of at_last n head_due (lines_of text) refused }
{}
