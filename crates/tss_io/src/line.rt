//! Lines of words, as they are printed.

ghost use Rattle.std.specs.Prelude.{◌≡◌, ◌++◌, length, map, take, OnOk, OnErr};
ghost use Rattle.tss_io.specs.Lines.{as_line, spaced};
ghost use Rattle.tss_io.specs.Words.{word_bytes, behind_spaces};

use crate::decimals::{push_count, push_decimal};
use tss_base::NoMemory;

/// A word of a printed line.
#[derive(Clone, Copy)]
pub enum Word<'a> {
    /// The bytes as they are.
    Text(&'a [u8]),
    /// The number in decimal.
    Number(i64),
    /// The count in decimal.
    Count(u64),
}

impl Word<'_> {
    fn push(&self, out: &mut Vec<u8>) -> Result<(), NoMemory>
        ensures ok { OnOk result (out.new.items ≡ out.old.items ++ word_bytes self.now) }
        ensures err { OnErr result (out.new.items ≡ out.old.items) }
    {
        match *self {
            Word::Text(text) => Ok(out.extend_from_slice(text)?),
            Word::Number(number) => push_decimal(out, i128::from(number)),
            Word::Count(count) => push_count(out, count),
        }
    }
}

// Appends each word behind a space. On `NoMemory` some may have been appended.
fn push_behind_spaces(out: &mut Vec<u8>, words: &[Word]) -> Result<(), NoMemory>
    ensures ok { OnOk result (out.new.items ≡ out.old.items ++ behind_spaces word_bytes words.now) }
    ensures front { take (length out.old.items) out.new.items ≡ out.old.items }
{
    for word in words {
        out.push(b' ')?;
        word.push(out)?;
    }
    Ok(())
}

// Appends the words with single spaces between them. On `NoMemory` some may have been appended.
fn push_spaced(out: &mut Vec<u8>, words: &[Word]) -> Result<(), NoMemory>
    ensures ok { OnOk result (out.new.items ≡ out.old.items ++ spaced (map word_bytes words.now)) }
    ensures front { take (length out.old.items) out.new.items ≡ out.old.items }
{
    let Some((first, others)) = words.split_first() else {
        return Ok(());
    };
    first.push(out)?;
    push_behind_spaces(out, others)?;
    Ok(())
}

// Appends the line. On `NoMemory` a front of it may have been appended.
fn push_whole(out: &mut Vec<u8>, words: &[Word]) -> Result<(), NoMemory>
    ensures ok { OnOk result
        (out.new.items ≡ out.old.items ++ as_line (spaced (map word_bytes words.now))) }
    ensures front { take (length out.old.items) out.new.items ≡ out.old.items }
{
    push_spaced(out, words)?;
    out.push(b'\n')?;
    Ok(())
}

/// Appends a line: the words with single spaces between them, and a newline. On `NoMemory` `out` is
/// unchanged.
pub fn push_line(out: &mut Vec<u8>, words: &[Word]) -> Result<(), NoMemory>
    ensures ok { OnOk result
        (out.new.items ≡ out.old.items ++ as_line (spaced (map word_bytes words.now))) }
    ensures err { OnErr result (out.new.items ≡ out.old.items) }
{
    let length = out.len();
    match push_whole(out, words) {
        Ok(()) => Ok(()),
        Err(fault) => {
            out.truncate(length);
            Err(fault)
        }
    }
}
