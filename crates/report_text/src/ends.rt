//! The last line of a text, and the texts that are one line.

ghost use Rattle.std.specs.Prelude.{◌≡◌, ◌++◌, OnOk, OnErr};
ghost use Rattle.report_text.specs.Ends.{done_line, refused_text, usage_text};

use arrayvec::ArrayString;
use itoa::Buffer;
use tss_base::NoMemory;
use tss_io::{Refused, Word, push_line};

/// Appends the last line, `done`. On `NoMemory` `out` is unchanged.
#[tactic(auto, unfolding(crate::specs::Ends::done_line))]
pub fn done_line(out: &mut Vec<u8>) -> Result<(), NoMemory>
    ensures ok { OnOk result (out.new.items ≡ out.old.items ++ done_line) }
    ensures err { OnErr result (out.new.items ≡ out.old.items) }
{
    push_line(out, &[Word::Text(b"done")])
}

/// What tells of a refused text, `refused line L cause C WORD` and a newline. It takes no memory, so
/// that a fault that was found can't come out as want of it.
#[tactic(auto, unfolding(crate::specs::Ends::refused_text))]
pub fn refusal_text(refused: &Refused) -> ArrayString<64>
    ensures { result.bytes ≡ refused_text refused.now }
{
    let mut line = ArrayString::new();
    line.push_str("refused line ");
    line.push_str(Buffer::new().format(refused.line));
    line.push_str(" cause ");
    line.push_str(Buffer::new().format(refused.cause.number()));
    line.push_str(" ");
    line.push_str(refused.cause.word());
    line.push_str("\n");
    line
}

/// Appends the line of `refusal_text`. On `NoMemory` `out` is unchanged.
pub fn refused_line(out: &mut Vec<u8>, refused: &Refused) -> Result<(), NoMemory>
    ensures ok { OnOk result (out.new.items ≡ out.old.items ++ refused_text refused.now) }
    ensures err { OnErr result (out.new.items ≡ out.old.items) }
{
    Ok(out.extend_from_slice(refusal_text(refused).as_bytes())?)
}

/// The line for words that ask for nothing. It takes no memory.
#[tactic(auto, unfolding(crate::specs::Ends::usage_text))]
pub fn usage_line() -> &'static str
    ensures { result.now ≡ usage_text }
{
    "usage: tss order|play|race|audit|score|lift|soak N|paint order|paint play|lossy|join M K|rewind E C T ...\n"
}
