//! The lines of the watchers.

ghost use Rattle.std.specs.Prelude.{◌≡◌, ◌++◌, length, take, OnOk, OnErr};
ghost use Rattle.tss_io.specs.Words.{word_bytes};
ghost use Rattle.watch_board.specs.Watchers.{watch_line};

use tss_base::NoMemory;
use tss_io::{Word, push_decimal};

// Appends the parts of a line. On `NoMemory` some may have been appended.
#[tactic(auto, unfolding(crate::specs::Watchers::watch_line, tss_io::specs::Lines::spaced))]
fn push_parts(out: &mut Vec<u8>, what: &[u8], value: &[u8]) -> Result<(), NoMemory>
    ensures ok { OnOk result (out.new.items ≡ out.old.items ++ watch_line what.now value.now) }
    ensures front { take (length out.old.items) out.new.items ≡ out.old.items }
{
    out.extend_from_slice(b"watch ")?;
    out.extend_from_slice(what)?;
    out.push(b' ')?;
    out.extend_from_slice(value)?;
    Ok(())
}

/// Appends what a watcher has to say of what it watches, without a newline. On `NoMemory` `out` is
/// unchanged.
pub fn push_watch(out: &mut Vec<u8>, what: &[u8], value: &[u8]) -> Result<(), NoMemory>
    ensures ok { OnOk result (out.new.items ≡ out.old.items ++ watch_line what.now value.now) }
    ensures err { OnErr result (out.new.items ≡ out.old.items) }
{
    let length = out.len();
    match push_parts(out, what, value) {
        Ok(()) => Ok(()),
        Err(fault) => {
            out.truncate(length);
            Err(fault)
        }
    }
}
