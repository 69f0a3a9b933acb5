//! The lines that tell of answers to events.

ghost use Rattle.std.specs.Prelude.{◌≡◌, ◌++◌, OnOk, OnErr};
ghost use Rattle.report_text.specs.Replies.{repair_line, tick_text, arrival_text, step_text};

use game_trait::{Arrived, MirrorId, Number, Stepped, Ticked};
use tss_base::NoMemory;
use tss_io::{Word, push_line};

/// Appends `repair M R`: at this mirror R copies were repaired. It appends nothing where none was.
/// On `NoMemory` `out` is unchanged. The line is this project's own, as all others are.
#[tactic(auto, unfolding(crate::specs::Replies::repair_line))]
pub fn repair_line(out: &mut Vec<u8>, mirror: MirrorId, repaired: u8) -> Result<(), NoMemory>
    ensures ok { OnOk result (out.new.items ≡ out.old.items ++ repair_line mirror repaired) }
    ensures err { OnErr result (out.new.items ≡ out.old.items) }
{
    if repaired == 0 {
        return Ok(());
    }
    push_line(
        out,
        &[
            Word::Text(b"repair"),
            Word::Count(u64::from(mirror)),
            Word::Count(u64::from(repaired)),
        ],
    )
}

/// Appends what the answer to a tick prints: `over M` where the mirror's clock stands at its end,
/// and else nothing. On `NoMemory` `out` is unchanged.
#[tactic(auto, unfolding(crate::specs::Replies::tick_text))]
pub fn tick_line(out: &mut Vec<u8>, mirror: MirrorId, ticked: Ticked) -> Result<(), NoMemory>
    ensures ok { OnOk result (out.new.items ≡ out.old.items ++ tick_text mirror ticked) }
    ensures err { OnErr result (out.new.items ≡ out.old.items) }
{
    match ticked {
        Ticked::Moved => Ok(()),
        Ticked::Over => push_line(out, &[Word::Text(b"over"), Word::Count(u64::from(mirror))]),
    }
}

/// Appends what the answer to an arrival prints, at this mirror of the command with this sender and
/// number: `repeat M F N`, `late M F N BOUND` with the bound in ticks, or the line of a repair. On
/// `NoMemory` `out` is unchanged.
#[tactic(auto, unfolding(crate::specs::Replies::arrival_text))]
pub fn arrival_line(
    out: &mut Vec<u8>,
    mirror: MirrorId,
    from: MirrorId,
    number: Number,
    arrived: &Arrived,
) -> Result<(), NoMemory>
    ensures ok { OnOk result
        (out.new.items ≡ out.old.items ++ arrival_text mirror from number arrived.now) }
    ensures err { OnErr result (out.new.items ≡ out.old.items) }
{
    let (at, sender, name) = (
        Word::Count(u64::from(mirror)),
        Word::Count(u64::from(from)),
        Word::Count(u64::from(number)),
    );
    match *arrived {
        Arrived::Taken { repaired } => repair_line(out, mirror, repaired),
        Arrived::Repeat => push_line(out, &[Word::Text(b"repeat"), at, sender, name]),
        Arrived::Late { bound } => push_line(
            out,
            &[
                Word::Text(b"late"),
                at,
                sender,
                name,
                Word::Count(u64::from(bound)),
            ],
        ),
    }
}

/// Appends what the answer to a copy's step prints: `idle M C` where it stands at its limit, or the
/// line of a repair. On `NoMemory` `out` is unchanged.
#[tactic(auto, unfolding(crate::specs::Replies::step_text))]
pub fn step_line(
    out: &mut Vec<u8>,
    mirror: MirrorId,
    copy: u8,
    stepped: Stepped,
) -> Result<(), NoMemory>
    ensures ok { OnOk result (out.new.items ≡ out.old.items ++ step_text mirror copy stepped) }
    ensures err { OnErr result (out.new.items ≡ out.old.items) }
{
    match stepped {
        Stepped::Ran { repaired } => repair_line(out, mirror, repaired),
        Stepped::Idle => push_line(
            out,
            &[
                Word::Text(b"idle"),
                Word::Count(u64::from(mirror)),
                Word::Count(u64::from(copy)),
            ],
        ),
    }
}
