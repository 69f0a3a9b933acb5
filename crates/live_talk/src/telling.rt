//! What is told beside the answers themselves.

ghost use Rattle.std.specs.Prelude.{◌≡◌, ◌++◌, OnOk, OnErr};
ghost use Rattle.tss_io.specs.Reading.{refused_at};
ghost use Rattle.report_text.specs.Ends.{refused_text};
ghost use Rattle.live_talk.specs.Lines.{ok_line, cut_short, torn_told, is_end, last_line};

use live_text::Request;
use report_text::{done_line, refused_line};
use tss_base::NoMemory;
use tss_io::{Cause, LONGEST_LINE, Refused, Word, push_line};

/// Appends `ok`. On `NoMemory` `out` is unchanged.
#[tactic(auto, unfolding(tss_io::specs::Lines::spaced))]
pub fn push_ok(out: &mut Vec<u8>) -> Result<(), NoMemory>
    ensures ok { OnOk result (out.new.items ≡ out.old.items ++ ok_line) }
    ensures err { OnErr result (out.new.items ≡ out.old.items) }
{
    push_line(out, &[Word::Text(b"ok")])
}

/// Appends the refusal of a line. On `NoMemory` `out` is unchanged.
pub fn push_refusal(out: &mut Vec<u8>, line: u32, cause: Cause) -> Result<(), NoMemory>
    ensures ok { OnOk result
        (out.new.items ≡ out.old.items ++ refused_text (refused_at line cause)) }
    ensures err { OnErr result (out.new.items ≡ out.old.items) }
{
    refused_line(out, &Refused { line, cause })
}

/// Why a head is refused that ends behind these bytes of a line.
pub fn cut_short(begun: &[u8]) -> Cause
    ensures { result ≡ cut_short begun.now }
{
    if begun.len() > LONGEST_LINE {
        Cause::Long
    } else {
        Cause::End
    }
}

/// Whether no line comes behind it.
pub fn is_end(request: Request) -> bool
    ensures { result ≡ is_end request }
{
    match request {
        Request::End => true,
        _ => false,
    }
}

/// Appends the line that ends the answer. On `NoMemory` `out` is unchanged.
pub fn push_last(out: &mut Vec<u8>, request: Request) -> Result<(), NoMemory>
    ensures ok { OnOk result (out.new.items ≡ out.old.items ++ last_line request) }
    ensures err { OnErr result (out.new.items ≡ out.old.items) }
{
    if is_end(request) {
        done_line(out)
    } else {
        push_ok(out)
    }
}

/// Appends what is told of bytes behind the last newline. On `NoMemory` `out` is unchanged.
pub fn push_torn(out: &mut Vec<u8>, line: u32, begun: &[u8]) -> Result<(), NoMemory>
    ensures ok { OnOk result (out.new.items ≡ out.old.items ++ torn_told line begun.now) }
    ensures err { OnErr result (out.new.items ≡ out.old.items) }
{
    match begun {
        [] => Ok(()),
        [_, ..] => push_refusal(out, line, Cause::End),
    }
}
