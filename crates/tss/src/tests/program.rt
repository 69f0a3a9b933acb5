//! Runs of the program: words and a text in, a status, a text and the events that are kept out.

use crate::tests::ends::{finished, line_at};
use crate::tests::stage::asserts::assert_same;
use crate::tests::stage::lines::{assert_lines, joined, push_events};
use crate::tests::tables::audits::{AUDITED, AUDITS};
use crate::tests::tables::faults::TWO_FAULTS;
use crate::tests::tables::games::{PAINTED, PAINTS};
use crate::tests::tables::joins::JOINS;
use crate::tests::tables::lifts::LIFTS;
use crate::tests::tables::nets::{NETS, REPEATED};
use crate::tests::tables::orders::{ORDERED, ORDERS};
use crate::tests::tables::plays::{LONG_DRAIN, PLAYED, PLAYS};
use crate::tests::tables::refusals::{FAULTY_RECORDS, REFUSALS, REFUSED, TORN};
use crate::tests::tables::rewinds::REWINDS;
use crate::tests::tables::words::{USED_WRONG, WORDS};
use copy_workers::OpenGate;
use match_file::{TextFault, read_match};
use std::alloc::Global;
use std::process::{Abort, ExitCode};
use std::sync::Wait;
use std::thread::Threads;
use tss_io::{MemSink, MemSource};
use tss_program::{Done, asks_race, run_race, run_watched};

// What a run is given, and how it has to end. Its text is a front that other rows may have, too,
// and the rest.
#[derive(Clone, Copy)]
pub(super) struct Row {
    pub name: &'static str,
    pub words: &'static [&'static str],
    pub front: &'static str,
    pub rest: &'static str,
    pub status: u8,
    pub written: &'static str,
    // how many mirrors' events are kept, and which, a line for each mirror
    pub logs: usize,
    pub kept: &'static str,
}

// How the streams of a run go: how many bytes a call moves, and which call fails.
#[derive(Clone, Copy)]
pub(super) struct Streams {
    pub read: usize,
    pub put: usize,
    pub failing_read: Option<u32>,
    pub failing_put: Option<u32>,
}

pub(super) const WHOLE: Streams = Streams {
    read: 4096,
    put: 4096,
    failing_read: None,
    failing_put: None,
};

// A run by the words, as `main` makes it.
fn ran<R: Threads + Wait + Sync + Abort>(
    rt: &R,
    alloc: Global,
    words: &[&str],
    source: &mut MemSource,
    sink: &mut MemSink,
) -> Done {
    let mut owned = Vec::new(alloc);
    for word in words {
        let word = String::from_str(alloc, word).expect(rt, "memory");
        owned.push(word).expect(rt, "memory");
    }
    let words = owned.as_slice();
    if asks_race(words) {
        run_race(rt, alloc, words, source, sink, &OpenGate)
    } else {
        run_watched(alloc, words, source, sink)
    }
}

// The call that fails, where one does.
fn fails(rt: &impl Abort, alloc: Global, call: Option<u32>) -> Vec<u32> {
    let mut calls = Vec::new(alloc);
    if let Some(call) = call {
        calls.push(call).expect(rt, "memory");
    }
    calls
}

// How a run ended: its status, what it said of a failure and the exit code, what it wrote, how many
// logs it kept, and the events of these, a line for each.
#[derive(Drop)]
pub(super) struct Ended {
    pub status: u8,
    pub said: String,
    pub code: ExitCode,
    pub written: String,
    pub logs: usize,
    pub kept: String,
}

// A run on a text, over such streams.
pub(super) fn run_on<R: Threads + Wait + Sync + Abort>(
    rt: &R,
    alloc: Global,
    words: &[&str],
    text: &str,
    streams: Streams,
) -> Ended {
    assert!(rt; streams.read > 0 && streams.put > 0);
    let input = Vec::from_slice(alloc, text.as_bytes()).expect(rt, "memory");
    let room = text.len().saturating_mul(4).saturating_add(65_536);
    let failing_reads = fails(rt, alloc, streams.failing_read);
    let mut source = MemSource::new(input, streams.read, failing_reads);
    let failing_puts = fails(rt, alloc, streams.failing_put);
    let mut sink = MemSink::new(alloc, room, streams.put, failing_puts).expect(rt, "memory");
    let done = ran(rt, alloc, words, &mut source, &mut sink);
    let mut kept = String::new(alloc);
    for log in done.kept.as_slice() {
        push_events(rt, alloc, &mut kept, log.events.as_slice());
    }
    let written = String::from_utf8_lossy(alloc, sink.taken()).expect(rt, "memory");
    let status = done.status;
    let logs = done.kept.len();
    let (said, code) = finished(rt, alloc, done);
    Ended {
        status,
        said,
        code,
        written,
        logs,
        kept,
    }
}

// Asserts that a run of this row ends so over these streams, in which a call may fail, with this
// many bytes of what is due: at a failed call a front of it, and else all.
fn assert_ends<R: Threads + Wait + Sync + Abort>(
    rt: &R,
    alloc: Global,
    row: &Row,
    streams: Streams,
    status: u8,
    written: &str,
) {
    let text = joined(rt, alloc, &[row.front, row.rest]);
    let found = run_on(rt, alloc, row.words, text.as_str(), streams);
    assert_same(rt, found.status, status, ("the status of", row.name));
    assert_same(
        rt,
        found.code,
        ExitCode::from(status),
        ("the exit code of", row.name),
    );
    assert_lines(rt, row.name, found.said.as_str(), line_at(status));
    assert_lines(rt, row.name, found.written.as_str(), written);
    let is_read = streams.failing_read.is_none();
    let logs = if is_read { row.logs } else { 0 };
    assert_same(rt, found.logs, logs, ("the logs of", row.name));
    if is_read {
        assert_lines(rt, row.name, found.kept.as_str(), row.kept);
    }
}

// Asserts that a run of each row ends so.
fn assert_rows<R: Threads + Wait + Sync + Abort>(rt: &R, alloc: Global, rows: &[Row]) {
    for row in rows {
        assert_ends(rt, alloc, row, WHOLE, row.status, row.written);
    }
}

#[test]
fn words_are_answered(rt: HostRuntime) {
    assert_rows(&rt, rt.alloc(), &WORDS);
}

#[test]
fn matches_are_answered(rt: HostRuntime) {
    assert_rows(&rt, rt.alloc(), &ORDERS);
    assert_rows(&rt, rt.alloc(), &LIFTS);
    assert_rows(&rt, rt.alloc(), &PAINTS);
    assert_rows(&rt, rt.alloc(), &JOINS);
    assert_rows(&rt, rt.alloc(), &REWINDS);
}

#[test]
fn matches_are_played(rt: HostRuntime) {
    assert_rows(&rt, rt.alloc(), &PLAYS);
    assert_rows(&rt, rt.alloc(), &NETS);
}

#[test]
fn records_are_audited(rt: HostRuntime) {
    assert_rows(&rt, rt.alloc(), &AUDITS);
}

// Asserts that where this row's text is no match its refusal is shown as the line that is written.
fn assert_shown(rt: &impl Abort, alloc: Global, row: &Row) {
    let text = joined(rt, alloc, &[row.front, row.rest]);
    let Err(TextFault::Refused(refused)) = read_match(alloc, text.as_bytes()) else {
        return;
    };
    let shown = format!(in alloc; "{refused}\n").expect(rt, "memory");
    assert_lines(rt, row.name, shown.as_str(), row.written);
}

#[test]
fn texts_are_refused(rt: HostRuntime) {
    assert_rows(&rt, rt.alloc(), &REFUSALS);
    assert_rows(&rt, rt.alloc(), &TWO_FAULTS);
    assert_rows(&rt, rt.alloc(), &FAULTY_RECORDS);
    for row in &REFUSALS {
        assert_shown(&rt, rt.alloc(), row);
    }
}

// What is kept of a match whose copy is 40 ticks behind when its script ends.
fn long_drain(rt: &impl Abort, alloc: Global) -> String {
    let mut kept = joined(rt, alloc, &["0.7 t"]);
    for clock in 2..=940 {
        let events = if clock > 40 { " t s0" } else { " t" };
        kept.push_str(events).expect(rt, "memory");
    }
    kept.push_str("\n").expect(rt, "memory");
    kept
}

#[test]
fn a_long_drain_keeps_each_event(rt: HostRuntime) {
    let name = LONG_DRAIN.name;
    let found = run_on(&rt, rt.alloc(), LONG_DRAIN.words, LONG_DRAIN.rest, WHOLE);
    assert_lines(&rt, name, found.written.as_str(), LONG_DRAIN.written);
    let kept = long_drain(&rt, rt.alloc());
    assert_lines(&rt, name, found.kept.as_str(), kept.as_str());
}

// Asserts that a run whose source gives a byte a call has nothing to write where one of its calls
// fails, of which there are one more than the text has bytes.
fn assert_reads<R: Threads + Wait + Sync + Abort>(rt: &R, alloc: Global, row: &Row) {
    let text = joined(rt, alloc, &[row.front, row.rest]);
    for call in 0..=text.len() {
        assert!(rt; call < 1_000_000);
        let streams = Streams {
            read: 1,
            failing_read: Some(call as u32),
            ..WHOLE
        };
        assert_ends(rt, alloc, row, streams, 3, "");
    }
    let streams = Streams { read: 1, ..WHOLE };
    assert_ends(rt, alloc, row, streams, row.status, row.written);
}

// Asserts that a run whose sink takes this number of bytes a call writes what the calls before took,
// where one of its calls fails, and all where none does.
fn assert_puts<R: Threads + Wait + Sync + Abort>(rt: &R, alloc: Global, row: &Row, put: usize) {
    assert!(rt; put > 0);
    let written = row.written;
    for call in 0..written.len().div_ceil(put) {
        assert!(rt; call < 1_000_000);
        let length = (call * put).min(written.len());
        assert!(rt; written.is_char_boundary(length));
        let (front, _) = written.split_at(length);
        let streams = Streams {
            put,
            failing_put: Some(call as u32),
            ..WHOLE
        };
        assert_ends(rt, alloc, row, streams, 4, front);
    }
    let streams = Streams { put, ..WHOLE };
    assert_ends(rt, alloc, row, streams, row.status, written);
}

#[test]
fn a_source_fails_anywhere(rt: HostRuntime) {
    assert_reads(&rt, rt.alloc(), &ORDERED);
    assert_reads(&rt, rt.alloc(), &PLAYED);
    assert_reads(&rt, rt.alloc(), &AUDITED);
    assert_reads(&rt, rt.alloc(), &REPEATED);
    assert_reads(&rt, rt.alloc(), &PAINTED);
}

#[test]
fn a_sink_fails_anywhere(rt: HostRuntime) {
    assert_puts(&rt, rt.alloc(), &ORDERED, 1);
    assert_puts(&rt, rt.alloc(), &ORDERED, 8);
    assert_puts(&rt, rt.alloc(), &USED_WRONG, 1);
    assert_puts(&rt, rt.alloc(), &REFUSED, 1);
    assert_puts(&rt, rt.alloc(), &AUDITED, 1);
    assert_puts(&rt, rt.alloc(), &REPEATED, 8);
    assert_puts(&rt, rt.alloc(), &PAINTED, 1);
}

#[test]
fn a_sink_fails_in_a_play(rt: HostRuntime) {
    for row in &PLAYS {
        assert_puts(&rt, rt.alloc(), row, 8);
    }
}

// Asserts that each proper front of the text of this row is refused at its last line, which isn't
// closed.
fn assert_torn<R: Threads + Wait + Sync + Abort>(rt: &R, alloc: Global, row: &Row) {
    let text = joined(rt, alloc, &[row.front, row.rest]);
    let mut line = 1u32;
    for (length, byte) in text.bytes().enumerate() {
        assert!(rt; text.is_char_boundary(length));
        let (front, _) = text.as_str().split_at(length);
        let found = run_on(rt, alloc, row.words, front, WHOLE);
        let due = format!(in alloc; "refused line {line} cause 8 end\n").expect(rt, "memory");
        assert_same(rt, found.status, 5, (length, "bytes of", row.name));
        assert_lines(rt, row.name, found.written.as_str(), due.as_str());
        if byte == b'\n' {
            line = line.saturating_add(1);
        }
    }
}

#[test]
fn texts_are_torn_anywhere(rt: HostRuntime) {
    for row in &TORN {
        assert_torn(&rt, rt.alloc(), row);
    }
}
