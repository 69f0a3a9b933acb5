//! What is asked of a line, check by check, and where a text ends. No call takes memory.

ghost use Rattle.std.specs.Prelude.{◌≡◌, true, false, IfOk, IfErr};
ghost use Rattle.tss_io.specs.Lines.{lines_of};
ghost use Rattle.tss_io.specs.Runs.{is_end};

use crate::cause::Cause;

/// `Ok` where this holds, else the cause. A line is read by one call for each of its checks, in their
/// order.
pub fn check(holds: bool, cause: Cause) -> Result<(), Cause>
    ensures ok { IfOk result (λ _. holds ≡ true) }
    ensures err { IfErr result (λ e. (e ≡ cause) × (holds ≡ false)) }
{
    if holds { Ok(()) } else { Err(cause) }
}

/// Whether no byte is left, so that the text ends here.
pub fn at_end(text: &[u8]) -> bool
    ensures { result ≡ is_end (lines_of text.now) }
{
    text.is_empty()
}
