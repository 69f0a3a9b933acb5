//! The lines that tell of a mirror, and of the run of one of its copies.

ghost use Rattle.std.specs.Prelude.{◌≡◌, ◌++◌, ◌∷◌, [], length, take, OnOk, OnErr};
ghost use Rattle.report_text.specs.Mirrors.{mirror_line, item_mark, run_head};

use game_trait::{Item, MirrorId};
use tss_base::NoMemory;
use tss_io::{Word, push_count, push_line};

/// Appends `mirror M accepted A turned Z repairs R`: how many commands the mirror accepted, how
/// many arrivals it turned away, and how many copies it repaired. On `NoMemory` `out` is unchanged.
#[tactic(auto, unfolding(crate::specs::Mirrors::mirror_line))]
pub fn mirror_line(
    out: &mut Vec<u8>,
    mirror: MirrorId,
    accepted: u32,
    turned: u32,
    repairs: u64,
) -> Result<(), NoMemory>
    ensures ok { OnOk result
        (out.new.items ≡ out.old.items ++ mirror_line mirror accepted turned repairs) }
    ensures err { OnErr result (out.new.items ≡ out.old.items) }
{
    push_line(
        out,
        &[
            Word::Text(b"mirror"),
            Word::Count(u64::from(mirror)),
            Word::Text(b"accepted"),
            Word::Count(u64::from(accepted)),
            Word::Text(b"turned"),
            Word::Count(u64::from(turned)),
            Word::Text(b"repairs"),
            Word::Count(repairs),
        ],
    )
}

// Appends the parts of a run line's head. On `NoMemory` some may have been appended.
#[tactic(auto, unfolding(crate::specs::Mirrors::run_head, tss_io::specs::Lines::spaced))]
fn push_run_parts(out: &mut Vec<u8>, mirror: MirrorId, copy: u8) -> Result<(), NoMemory>
    ensures ok { OnOk result (out.new.items ≡ out.old.items ++ run_head mirror copy) }
    ensures front { take (length out.old.items) out.new.items ≡ out.old.items }
{
    out.extend_from_slice(b"run ")?;
    push_count(out, u64::from(mirror))?;
    out.push(b' ')?;
    push_count(out, u64::from(copy))?;
    out.push(b':')?;
    Ok(())
}

/// Appends what a run line begins with, `run M C:`. On `NoMemory` `out` is unchanged.
pub fn run_head(out: &mut Vec<u8>, mirror: MirrorId, copy: u8) -> Result<(), NoMemory>
    ensures ok { OnOk result (out.new.items ≡ out.old.items ++ run_head mirror copy) }
    ensures err { OnErr result (out.new.items ≡ out.old.items) }
{
    let length = out.len();
    match push_run_parts(out, mirror, copy) {
        Ok(()) => Ok(()),
        Err(fault) => {
            out.truncate(length);
            Err(fault)
        }
    }
}

// Appends a space and the parts of an item's mark. On `NoMemory` some may have been appended.
#[tactic(auto, unfolding(crate::specs::Mirrors::item_mark))]
fn push_mark_parts(out: &mut Vec<u8>, item: &Item) -> Result<(), NoMemory>
    ensures ok { OnOk result (out.new.items ≡ out.old.items ++ 32 ∷ item_mark item.now) }
    ensures front { take (length out.old.items) out.new.items ≡ out.old.items }
{
    out.push(b' ')?;
    match *item {
        Item::Cmd(x) => {
            push_count(out, u64::from(x.from))?;
            out.push(b'.')?;
            push_count(out, u64::from(x.number))
        }
        Item::Beat => Ok(out.push(b'|')?),
    }
}

/// Appends a space and the mark of an item of a run: `F.N` for a command, and `|` for a beat. On
/// `NoMemory` `out` is unchanged.
pub fn run_mark(out: &mut Vec<u8>, item: &Item) -> Result<(), NoMemory>
    ensures ok { OnOk result (out.new.items ≡ out.old.items ++ 32 ∷ item_mark item.now) }
    ensures err { OnErr result (out.new.items ≡ out.old.items) }
{
    let length = out.len();
    match push_mark_parts(out, item) {
        Ok(()) => Ok(()),
        Err(fault) => {
            out.truncate(length);
            Err(fault)
        }
    }
}

/// Appends the newline that ends a line. On `NoMemory` `out` is unchanged.
pub fn line_end(out: &mut Vec<u8>) -> Result<(), NoMemory>
    ensures ok { OnOk result (out.new.items ≡ out.old.items ++ 10 ∷ []) }
    ensures err { OnErr result (out.new.items ≡ out.old.items) }
{
    Ok(out.push(b'\n')?)
}
