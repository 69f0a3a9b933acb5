//! Texts that are put together, and compared line by line.

use crate::tests::stage::asserts::assert_same;
use game_trait::Event;
use std::alloc::Global;
use std::process::Abort;

// The pieces in one.
pub(crate) fn joined(rt: &impl Abort, alloc: Global, pieces: &[&str]) -> String {
    let mut text = String::new(alloc);
    for piece in pieces {
        text.push_str(piece).expect(rt, "memory");
    }
    text
}

// Asserts that a text has just the lines that are due.
pub(crate) fn assert_lines(rt: &impl Abort, name: &str, text: &str, due: &str) {
    if text == due {
        return;
    }
    let mut lines = text.split('\n');
    for (place, line) in due.split('\n').enumerate() {
        let found = lines.next().unwrap_or("no line");
        assert_same(rt, found, line, (name, "line, from 0 on", place));
    }
    let more = lines.next();
    assert_same(rt, more, None, (name, "a line more than is due"));
}

// Appends an event in one word: a tick, an arrival by its mirror and number, a step by its copy, a
// change of the plan by the plan.
fn push_event(rt: &impl Abort, alloc: Global, out: &mut String, event: &Event) {
    let word = match event {
        Event::Tick => format!(in alloc; "t"),
        Event::Arrive(x) => format!(in alloc; "{}.{}", x.from, x.number),
        Event::Step(copy) => format!(in alloc; "s{copy}"),
        Event::Restagger(plan) => format!(in alloc; "p{plan}"),
    };
    out.push_str(word.expect(rt, "memory").as_str())
        .expect(rt, "memory");
}

// Appends events in a line.
pub(crate) fn push_events(rt: &impl Abort, alloc: Global, out: &mut String, events: &[Event]) {
    for (place, event) in events.iter().enumerate() {
        if place > 0 {
            out.push_str(" ").expect(rt, "memory");
        }
        push_event(rt, alloc, out, event);
    }
    out.push_str("\n").expect(rt, "memory");
}
