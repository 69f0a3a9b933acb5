//! Reading lossy texts.

ghost use Rattle.std.specs.Prelude.{◌≡◌, IfOk, IfErr, Ok};
ghost use Rattle.tss_io.specs.Reading.{Gives};
ghost use Rattle.lossy_text.specs.Data.{LossyData, IsLossy};
ghost use Rattle.lossy_text.specs.Reading.{read_lossy, IsFirstOfLossy};
ghost use Rattle.lossy_text.specs.Text.{lossy_text};

use crate::tail::Tail;
use crate::text::LossyText;
use game_trait::limits::LONGEST_LOSSY_TEXT;
use match_file::read_around;
use std::alloc::Global;
use tss_io::TextFault;

fn read_exactly(alloc: Global, text: &[u8]) -> Result<LossyText, TextFault>
    ensures { Gives (λ x. x) result (read_lossy text.now) }
{
    let head = b"tss lossy 1".as_slice();
    let (game, tail) = read_around::<Tail>(alloc, LONGEST_LOSSY_TEXT, head, text)?;
    let Tail { lines, .. } = tail;
    Ok(LossyText { game, lines })
}

/// Reads a lossy text (this project's own form): `tss lossy 1`, the lines of a match, `net E`, as
/// many lines of the net as that says, and `done`, with no byte behind it, and at most 16,777,216
/// bytes. `Refused` is the first faulty line with that line's first failing check, or line 0 where
/// the text is too long; `NoMemory` says nothing of the text.
pub fn read_lossy(alloc: Global, text: &[u8]) -> Result<LossyText, TextFault>
    // What is read is a match and lines of a net for it, and the text is their text.
    ensures found { IfOk result (λ x. IsLossy x × (text.now ≡ lossy_text x)) }
    // The text of these is read as them, unless memory runs out.
    ensures only { (x : LossyData) → IsLossy x → text.now ≡ lossy_text x
        → Gives (λ v. v) result (Ok x) }
    // What is read, or the refusal, is what reading gives, unless memory runs out.
    ensures exact { Gives (λ v. v) result (read_lossy text.now) }
    // A refusal names the first faulty line and its first failing check, or the whole text for its
    // length.
    ensures refused { IfErr result (IsFirstOfLossy text.now) }
{
    read_exactly(alloc, text)
}
