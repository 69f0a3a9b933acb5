//! The blocks that show worlds.

ghost use Rattle.std.specs.Prelude.{◌≡◌, ◌++◌, ◌∷◌, [], length, take, map, decimal, OnOk, OnErr};
ghost use Rattle.tss_io.specs.Words.{word_bytes};
ghost use Rattle.report_text.specs.Worlds.{block_text, copy_head};

use game_trait::{MirrorId, Tick};
use match_setup::{Roster, Shown};
use tss_base::NoMemory;
use tss_io::{Word, push_line};

// Appends a head line and the lines of a world. On `NoMemory` the head line may have been appended.
fn push_parts<G: Shown>(
    out: &mut Vec<u8>,
    head: &[Word],
    world: &G,
    roster: &Roster,
) -> Result<(), NoMemory>
    ensures ok { OnOk result (out.new.items ≡ out.old.items
        ++ block_text G.lines roster.now (map word_bytes head.now) world.now) }
    ensures front { take (length out.old.items) out.new.items ≡ out.old.items }
{
    push_line(out, head)?;
    world.block(roster, out)
}

// Appends a block: a head line and the lines of a world. On `NoMemory` `out` is unchanged.
fn push_block<G: Shown>(
    out: &mut Vec<u8>,
    head: &[Word],
    world: &G,
    roster: &Roster,
) -> Result<(), NoMemory>
    ensures ok { OnOk result (out.new.items ≡ out.old.items
        ++ block_text G.lines roster.now (map word_bytes head.now) world.now) }
    ensures err { OnErr result (out.new.items ≡ out.old.items) }
{
    let length = out.len();
    match push_parts(out, head, world, roster) {
        Ok(()) => Ok(()),
        Err(fault) => {
            out.truncate(length);
            Err(fault)
        }
    }
}

/// Appends the block of a copy, with the head `world M C TIME`: its mirror, its number, and its
/// clock in ticks. On `NoMemory` `out` is unchanged.
pub fn copy_block<G: Shown>(
    out: &mut Vec<u8>,
    mirror: MirrorId,
    copy: u8,
    clock: Tick,
    world: &G,
    roster: &Roster,
) -> Result<(), NoMemory>
    ensures ok { OnOk result (out.new.items ≡ out.old.items
        ++ block_text G.lines roster.now (copy_head mirror copy clock) world.now) }
    ensures err { OnErr result (out.new.items ≡ out.old.items) }
{
    push_block(
        out,
        &[
            Word::Text(b"world"),
            Word::Count(u64::from(mirror)),
            Word::Count(u64::from(copy)),
            Word::Count(u64::from(clock)),
        ],
        world,
        roster,
    )
}

/// Appends the block of a world with any head: the head line is the head, a space, and the number of
/// ticks that led to the world. On `NoMemory` `out` is unchanged.
pub fn world_block<G: Shown>(
    out: &mut Vec<u8>,
    head: &[u8],
    time: Tick,
    world: &G,
    roster: &Roster,
) -> Result<(), NoMemory>
    ensures ok { OnOk result (out.new.items ≡ out.old.items
        ++ block_text G.lines roster.now (head.now ∷ decimal time ∷ []) world.now) }
    ensures err { OnErr result (out.new.items ≡ out.old.items) }
{
    push_block(
        out,
        &[Word::Text(head), Word::Count(u64::from(time))],
        world,
        roster,
    )
}
