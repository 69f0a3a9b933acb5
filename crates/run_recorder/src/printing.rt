//! Printing records.

ghost use Rattle.std.specs.Prelude.{◌≡◌, ◌++◌, [], length, map, OnOk, IfOk};
ghost use Rattle.tss_io.specs.Lines.{as_line, lines_text, spaced};
ghost use Rattle.report_text.specs.Logs.{event_line, log_text};
ghost use Rattle.run_recorder.specs.Text.{blocks_text, record_mirrors_text, record_text};

use crate::block::Block;
use crate::race_record::RaceRecord;
use game_trait::{Command, Event};
use match_data::MirrorLog;
use match_file::print_match;
use std::alloc::Global;
use tss_base::{NoMemory, Seq};
use tss_io::{Word, push_count, push_line};

fn push_event(out: &mut Vec<u8>, event: &Event) -> Result<(), NoMemory>
    ensures { OnOk result (out.new.items ≡ out.old.items ++ as_line (event_line event.now)) }
{
    match event {
        Event::Tick => Ok(out.extend_from_slice(b"tick\n")?),
        Event::Arrive(x) => push_arrive(out, x),
        Event::Step(copy) => push_step(out, *copy),
        Event::Restagger(plan) => push_line(
            out,
            &[Word::Text(b"restagger"), Word::Count(u64::from(*plan))],
        ),
    }
}

// Appends the line of an arrival.
#[tactic(auto, unfolding(tss_io::specs::Lines::spaced))]
fn push_arrive(out: &mut Vec<u8>, x: &Command) -> Result<(), NoMemory>
    ensures { OnOk result
        (out.new.items ≡ out.old.items ++ as_line (event_line (Event.Arrive x.now))) }
{
    out.extend_from_slice(b"arrive ")?;
    push_count(out, u64::from(x.from))?;
    out.push(b' ')?;
    push_count(out, u64::from(x.number))?;
    Ok(out.push(b'\n')?)
}

// Appends the line of a step, the most frequent of a record.
#[tactic(auto, unfolding(tss_io::specs::Lines::spaced))]
fn push_step(out: &mut Vec<u8>, copy: u8) -> Result<(), NoMemory>
    ensures { OnOk result
        (out.new.items ≡ out.old.items ++ as_line (event_line (Event.Step copy))) }
{
    out.extend_from_slice(b"step ")?;
    push_count(out, u64::from(copy))?;
    Ok(out.push(b'\n')?)
}

// Appends a line of a single word, or of words that stand in it as they are.
#[tactic(auto, unfolding(tss_io::specs::Lines::spaced))]
fn push_whole(out: &mut Vec<u8>, line: &[u8]) -> Result<(), NoMemory>
    ensures { OnOk result (out.new.items ≡ out.old.items ++ as_line line.now) }
{
    push_line(out, &[Word::Text(line)])
}

#[tactic(auto, using(tss_io::proofs::Printing::lines_none))]
fn push_events(out: &mut Vec<u8>, events: &[Event]) -> Result<(), NoMemory>
    ensures { OnOk result
        (out.new.items ≡ out.old.items ++ lines_text (map event_line events.now)) }
{
    for event in events {
        push_event(out, event)?;
    }
    Ok(())
}

// Appends a log: its first line, and a line for each event.
fn push_log(out: &mut Vec<u8>, log: &MirrorLog) -> Result<(), NoMemory>
    ensures { OnOk result
        (out.new.items
        ≡ out.old.items ++ log_text log.now.mirror (length log.now.events) log.now.events) }
{
    let words = [
        Word::Text(b"log"),
        Word::Count(u64::from(log.mirror)),
        Word::Count(log.events.len() as u64),
    ];
    push_line(out, &words)?;
    push_events(out, log.events.as_slice())?;
    Ok(())
}

fn push_block(out: &mut Vec<u8>, block: &Block) -> Result<(), NoMemory>
    ensures { OnOk result (out.new.items ≡ out.old.items ++ block.now) }
{
    out.extend_from_slice(block.as_bytes())?;
    Ok(())
}

fn push_blocks(out: &mut Vec<u8>, blocks: &[Block]) -> Result<(), NoMemory>
    ensures { OnOk result (out.new.items ≡ out.old.items ++ blocks_text blocks.now) }
{
    for block in blocks {
        push_block(out, block)?;
    }
    Ok(())
}

// Appends a mirror's log, and the blocks of its copies.
fn push_mirror(out: &mut Vec<u8>, log: &MirrorLog, blocks: &[Block]) -> Result<(), NoMemory>
    ensures { OnOk result
        (out.new.items
        ≡ out.old.items
        ++ (log_text log.now.mirror (length log.now.events) log.now.events
        ++ blocks_text blocks.now)) }
{
    push_log(out, log)?;
    push_blocks(out, blocks)?;
    Ok(())
}

// Appends the log and the blocks of each mirror.
fn push_mirrors(
    out: &mut Vec<u8>,
    logs: &[MirrorLog],
    worlds: &[Seq<Block>],
) -> Result<(), NoMemory>
    ensures { OnOk result
        (out.new.items ≡ out.old.items ++ record_mirrors_text logs.now worlds.now) }
{
    let mut logs = logs;
    let mut worlds = worlds;
    while let Some((log, more)) = logs.split_first() {
        let Some((blocks, others)) = worlds.split_first() else {
            return Ok(());
        };
        push_mirror(out, log, blocks.as_slice())?;
        logs = more;
        worlds = others;
    }
    Ok(())
}

/// The one text of the record.
pub fn print_record(alloc: Global, r: &RaceRecord) -> Result<Vec<u8>, NoMemory>
    ensures { IfOk result (λ text. text.items ≡ record_text r.now) }
{
    let game = print_match(alloc, &r.game)?;
    let mut out = Vec::new(alloc);
    push_whole(&mut out, b"tss record 1")?;
    out.extend_from_slice(&game)?;
    push_mirrors(&mut out, r.logs.as_slice(), r.worlds.as_slice())?;
    push_whole(&mut out, b"done")?;
    Ok(out)
}
