//! The log of a mirror: the events that changed it, line by line.

ghost use Rattle.std.specs.Prelude.{◌≡◌, ◌++◌, length, take, map, OnOk};
ghost use Rattle.tss_io.specs.Lines.{as_line, lines_text};
ghost use Rattle.report_text.specs.Logs.{event_line, log_text};

use game_trait::{Event, MirrorId};
use tss_base::NoMemory;
use tss_io::{Word, push_line};

// Appends the line of an event of a log. On `NoMemory` some may have been appended.
#[tactic(auto, unfolding(tss_io::specs::Lines::spaced))]
fn push_event(out: &mut Vec<u8>, event: &Event) -> Result<(), NoMemory>
    ensures ok { OnOk result (out.new.items ≡ out.old.items ++ as_line (event_line event.now)) }
    ensures front { take (length out.old.items) out.new.items ≡ out.old.items }
{
    match event {
        Event::Tick => push_line(out, &[Word::Text(b"tick")]),
        Event::Arrive(x) => push_line(
            out,
            &[
                Word::Text(b"arrive"),
                Word::Count(u64::from(x.from)),
                Word::Count(u64::from(x.number)),
            ],
        ),
        Event::Step(copy) => push_line(out, &[Word::Text(b"step"), Word::Count(u64::from(*copy))]),
        Event::Restagger(plan) => push_line(
            out,
            &[Word::Text(b"restagger"), Word::Count(u64::from(*plan))],
        ),
    }
}

// Appends the line of each event. On `NoMemory` some may have been appended.
fn push_events(out: &mut Vec<u8>, events: &[Event]) -> Result<(), NoMemory>
    ensures ok { OnOk result
        (out.new.items ≡ out.old.items ++ lines_text (map event_line events.now)) }
    ensures front { take (length out.old.items) out.new.items ≡ out.old.items }
{
    for event in events {
        push_event(out, event)?;
    }
    Ok(())
}

/// Appends a log: its first line, and a line for each event. On `NoMemory` some may have been
/// appended.
#[tactic(auto, unfolding(tss_io::specs::Lines::lines_text))]
pub fn push_log(out: &mut Vec<u8>, number: MirrorId, events: &[Event]) -> Result<(), NoMemory>
    ensures ok { OnOk result
        (out.new.items ≡ out.old.items ++ log_text number (length events.now) events.now) }
    ensures front { take (length out.old.items) out.new.items ≡ out.old.items }
{
    push_line(
        out,
        &[
            Word::Text(b"log"),
            Word::Count(u64::from(number)),
            Word::Count(events.len() as u64),
        ],
    )?;
    push_events(out, events)?;
    Ok(())
}
