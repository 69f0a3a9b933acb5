//! What a mirror of a session without an end tells. The mirror is only looked at here.

ghost use Rattle.std.specs.Prelude.{◌≡◌, ◌++◌, ◌+◌, ◌^◌, ◌<◌, length, take, map, OnOk, OnErr};
ghost use Rattle.std.specs.List.{AllByRecursion};
ghost use Rattle.game_trait.specs.Later.{later};
ghost use Rattle.tss_io.specs.Lines.{lines_text};
ghost use Rattle.command_lines.specs.CommandLine.{command_line};
ghost use Rattle.report_text.specs.Worlds.{Showing};
ghost use Rattle.endless_mirror.specs.Told.{far_line, arrival_told, turn_reply_text, replies_told, copy_told, commands_text, base_line, base_block, log_line, last_copy, end_text};

use command_lines::push_command;
use game_trait::{Arrived, Command, Game, MirrorId, Reply, Stepped, Tick};
use match_setup::{Roster, Shown};
use report_text::{arrival_line, copy_block, repair_line, tick_line};
use rolling_mirror::{Arrival, RollingMirror};
use tss_base::NoMemory;
use tss_io::{Word, push_line};

// Appends `far M F N END`: at this mirror the window doesn't reach the command. On `NoMemory` `out` is
// unchanged.
#[tactic(auto, unfolding(tss_io::specs::Lines::spaced))]
fn push_far(out: &mut Vec<u8>, number: MirrorId, x: &Command, end: Tick) -> Result<(), NoMemory>
    ensures ok { OnOk result (out.new.items ≡ out.old.items ++ far_line number x.now end) }
    ensures err { OnErr result (out.new.items ≡ out.old.items) }
{
    push_line(
        out,
        &[
            Word::Text(b"far"),
            Word::Count(u64::from(number)),
            Word::Count(u64::from(x.from)),
            Word::Count(u64::from(x.number)),
            Word::Count(u64::from(end)),
        ],
    )
}

/// Appends the line of the answer to a command. On `NoMemory` `out` is unchanged.
#[tactic(auto, unfolding(crate::specs::Told::arrival_told))]
pub fn push_arrival(
    out: &mut Vec<u8>,
    number: MirrorId,
    x: &Command,
    arrival: Arrival,
) -> Result<(), NoMemory>
    ensures ok { OnOk result (out.new.items ≡ out.old.items ++ arrival_told number x.now arrival) }
    ensures err { OnErr result (out.new.items ≡ out.old.items) }
{
    let arrived = match arrival {
        Arrival::Far { end } => return push_far(out, number, x, end),
        Arrival::Full => return Ok(()),
        Arrival::Taken { repaired } => Arrived::Taken { repaired },
        Arrival::Repeat => Arrived::Repeat,
        Arrival::Late { bound } => Arrived::Late { bound },
    };
    arrival_line(out, number, x.from, x.number, &arrived)
}

// Appends the line of an answer of a turn: of a tick that moved nothing, or of a repair. On `NoMemory`
// `out` is unchanged.
#[tactic(auto, unfolding(crate::specs::Told::turn_reply_text))]
fn push_turn_reply(out: &mut Vec<u8>, number: MirrorId, reply: &Reply) -> Result<(), NoMemory>
    ensures ok { OnOk result (out.new.items ≡ out.old.items ++ turn_reply_text number reply.now) }
    ensures err { OnErr result (out.new.items ≡ out.old.items) }
{
    match reply {
        Reply::Tick(ticked) => tick_line(out, number, *ticked),
        Reply::Step(Stepped::Ran { repaired }) => repair_line(out, number, *repaired),
        _ => Ok(()),
    }
}

/// Appends the lines of the answers of a turn. On `NoMemory` some may have been appended.
pub fn push_replies(out: &mut Vec<u8>, number: MirrorId, replies: &[Reply]) -> Result<(), NoMemory>
    ensures ok { OnOk result (out.new.items ≡ out.old.items ++ replies_told number replies.now) }
    ensures front { take (length out.old.items) out.new.items ≡ out.old.items }
{
    for reply in replies {
        push_turn_reply(out, number, reply)?;
    }
    Ok(())
}

/// Appends the block of a copy, which is there. On `NoMemory` `out` is unchanged.
pub fn push_copy<G: Game + Shown>(
    out: &mut Vec<u8>,
    number: MirrorId,
    mirror: &RollingMirror<G>,
    copy: u8,
    roster: &Roster,
) -> Result<(), NoMemory>
    requires { copy < length mirror.now.left.runs }
    ensures ok { let show : Showing G =
        record { rules = G.rules; lines = G.lines; names = roster.now } in
        OnOk result (out.new.items ≡ out.old.items ++ copy_told show number mirror.now copy) }
    ensures err { OnErr result (out.new.items ≡ out.old.items) }
{
    let world = mirror.world(copy);
    copy_block(out, number, copy, mirror.copy_clock(copy), &world, roster)
}

// Appends the line of each command, which is due so many ticks later. On `NoMemory` some may have been
// appended.
fn push_later(out: &mut Vec<u8>, by: Tick, commands: &[Command]) -> Result<(), NoMemory>
    requires { AllByRecursion (λ x. by + x.time < 2 ^ 32) commands.now }
    ensures ok { OnOk result (out.new.items
        ≡ out.old.items ++ lines_text (map command_line (map (later by) commands.now))) }
    ensures front { take (length out.old.items) out.new.items ≡ out.old.items }
{
    for x in commands {
        let due = Command {
            time: x.time + by,
            ..*x
        };
        push_command(out, &due)?;
    }
    Ok(())
}

/// Appends the line of each command that is remembered. On `NoMemory` some may have been appended.
pub fn push_remembered<G: Game>(
    out: &mut Vec<u8>,
    mirror: &RollingMirror<G>,
) -> Result<(), NoMemory>
    ensures ok { OnOk result (out.new.items ≡ out.old.items ++ commands_text mirror.now) }
    ensures front { take (length out.old.items) out.new.items ≡ out.old.items }
{
    mirror.always();
    push_later(out, mirror.base(), mirror.accepted())
}

// Appends the tick from which on all is told, and the block of the world there, as one of the last
// copy. On `NoMemory` some may have been appended.
#[tactic(auto, unfolding(tss_io::specs::Lines::spaced))]
fn push_base<G: Game + Shown>(
    out: &mut Vec<u8>,
    number: MirrorId,
    mirror: &RollingMirror<G>,
    roster: &Roster,
) -> Result<(), NoMemory>
    ensures ok { let show : Showing G =
        record { rules = G.rules; lines = G.lines; names = roster.now } in
        OnOk result (out.new.items ≡ out.old.items
        ++ (base_line number mirror.now.base ++ base_block show number mirror.now)) }
    ensures front { take (length out.old.items) out.new.items ≡ out.old.items }
{
    let base = mirror.base();
    push_line(
        out,
        &[
            Word::Text(b"base"),
            Word::Count(u64::from(number)),
            Word::Count(u64::from(base)),
        ],
    )?;
    let last = mirror.copies() - 1;
    copy_block(out, number, last, base, mirror.opening(), roster)
}

// Appends the commands that are remembered: a line that counts them, and a line for each. On `NoMemory`
// some may have been appended.
#[tactic(auto, unfolding(tss_io::specs::Lines::spaced))]
fn push_log<G: Game>(
    out: &mut Vec<u8>,
    number: MirrorId,
    mirror: &RollingMirror<G>,
) -> Result<(), NoMemory>
    ensures ok { OnOk result (out.new.items ≡ out.old.items
        ++ (log_line number (length mirror.now.left.accepted) ++ commands_text mirror.now)) }
    ensures front { take (length out.old.items) out.new.items ≡ out.old.items }
{
    push_line(
        out,
        &[
            Word::Text(b"log"),
            Word::Count(u64::from(number)),
            Word::Count(mirror.accepted().len() as u64),
        ],
    )?;
    push_remembered(out, mirror)
}

/// Appends a mirror's lines at its end: the world at its base, the commands that are remembered, and
/// the block of the last copy. On `NoMemory` some may have been appended.
pub fn push_end<G: Game + Shown>(
    out: &mut Vec<u8>,
    number: MirrorId,
    mirror: &RollingMirror<G>,
    roster: &Roster,
) -> Result<(), NoMemory>
    ensures ok { let show : Showing G =
        record { rules = G.rules; lines = G.lines; names = roster.now } in
        OnOk result (out.new.items ≡ out.old.items ++ end_text show number mirror.now) }
    ensures front { take (length out.old.items) out.new.items ≡ out.old.items }
{
    push_base(out, number, mirror, roster)?;
    push_log(out, number, mirror)?;
    push_copy(out, number, mirror, mirror.copies() - 1, roster)
}
