//! The lines that tell of a mirror that joined late.

ghost use Rattle.std.specs.Prelude.{◌≡◌, ◌++◌, OnOk, OnErr};
ghost use Rattle.match_join.specs.Join.{join_head, joined_text, joiner_counts, joiner_head, too_late_text};
ghost use Rattle.report_text.specs.Worlds.{block_text};

use game_trait::{MirrorId, Number, Tick};
use late_joiner::Joined;
use match_setup::{Roster, Shown};
use report_text::world_block;
use tss_base::NoMemory;
use tss_io::{Word, push_line};

/// Appends `join M K clock C`: the mirror, how many script lines were made before, and the
/// snapshot's clock in ticks. On `NoMemory` `out` is unchanged.
#[tactic(auto, unfolding(crate::specs::Join::join_head))]
pub fn join_head(
    out: &mut Vec<u8>,
    mirror: MirrorId,
    lines: u32,
    clock: Tick,
) -> Result<(), NoMemory>
    ensures ok { OnOk result (out.new.items ≡ out.old.items ++ join_head mirror lines clock) }
    ensures err { OnErr result (out.new.items ≡ out.old.items) }
{
    push_line(
        out,
        &[
            Word::Text(b"join"),
            Word::Count(u64::from(mirror)),
            Word::Count(u64::from(lines)),
            Word::Text(b"clock"),
            Word::Count(u64::from(clock)),
        ],
    )
}

/// Appends what an arrival at the joiner prints, of the command with this sender and number:
/// `repeat F N`, `before F N TIME CLOCK`, `late F N BOUND`, or nothing. On `NoMemory` `out` is
/// unchanged.
#[tactic(auto, unfolding(crate::specs::Join::joined_text))]
pub fn joined_line(
    out: &mut Vec<u8>,
    from: MirrorId,
    number: Number,
    joined: Joined,
) -> Result<(), NoMemory>
    ensures ok { OnOk result (out.new.items ≡ out.old.items ++ joined_text from number joined) }
    ensures err { OnErr result (out.new.items ≡ out.old.items) }
{
    let (sender, name) = (Word::Count(u64::from(from)), Word::Count(u64::from(number)));
    match joined {
        Joined::Taken { .. } => Ok(()),
        Joined::Repeat => push_line(out, &[Word::Text(b"repeat"), sender, name]),
        Joined::Before { time, clock } => push_line(
            out,
            &[
                Word::Text(b"before"),
                sender,
                name,
                Word::Count(u64::from(time)),
                Word::Count(u64::from(clock)),
            ],
        ),
        Joined::Late { bound } => push_line(
            out,
            &[
                Word::Text(b"late"),
                sender,
                name,
                Word::Count(u64::from(bound)),
            ],
        ),
    }
}

/// Appends `joiner accepted A turned Z repairs R`. On `NoMemory` `out` is unchanged.
#[tactic(auto, unfolding(crate::specs::Join::joiner_counts))]
pub fn joiner_counts(
    out: &mut Vec<u8>,
    accepted: u32,
    turned: u32,
    repairs: u64,
) -> Result<(), NoMemory>
    ensures ok { OnOk result (out.new.items ≡ out.old.items ++ joiner_counts accepted turned repairs) }
    ensures err { OnErr result (out.new.items ≡ out.old.items) }
{
    push_line(
        out,
        &[
            Word::Text(b"joiner"),
            Word::Text(b"accepted"),
            Word::Count(u64::from(accepted)),
            Word::Text(b"turned"),
            Word::Count(u64::from(turned)),
            Word::Text(b"repairs"),
            Word::Count(repairs),
        ],
    )
}

/// Appends the block of the joiner's last copy, with the head `world joiner L`: the match's length
/// in ticks. On `NoMemory` `out` is unchanged.
pub fn joiner_block<G: Shown>(
    out: &mut Vec<u8>,
    length: Tick,
    world: &G,
    roster: &Roster,
) -> Result<(), NoMemory>
    ensures ok { OnOk result (out.new.items ≡ out.old.items
        ++ block_text G.lines roster.now (joiner_head length) world.now) }
    ensures err { OnErr result (out.new.items ≡ out.old.items) }
{
    world_block(out, b"world joiner", length, world, roster)
}

/// Appends `too late C L`: the snapshot's clock and the match's length, in ticks. On `NoMemory`
/// `out` is unchanged.
#[tactic(auto, unfolding(crate::specs::Join::too_late_text))]
pub fn too_late_line(out: &mut Vec<u8>, clock: Tick, length: Tick) -> Result<(), NoMemory>
    ensures ok { OnOk result (out.new.items ≡ out.old.items ++ too_late_text clock length) }
    ensures err { OnErr result (out.new.items ≡ out.old.items) }
{
    push_line(
        out,
        &[
            Word::Text(b"too"),
            Word::Text(b"late"),
            Word::Count(u64::from(clock)),
            Word::Count(u64::from(length)),
        ],
    )
}
