//! What follows a run: the line that says what failed, and the exit code.

use crate::tests::stage::asserts::assert_same;
use crate::tests::stage::lines::assert_lines;
use std::alloc::Global;
use std::process::{Abort, ExitCode};
use tss_base::Seq;
use tss_io::MemSink;
use tss_program::{Done, Status};

// Each status, its number, and the line that is said of it.
const ENDS: [(Status, u8, &str); 8] = [
    (Status::Complete, 0, ""),
    (Status::NoMemory, 1, "tss: out of memory\n"),
    (Status::WrongWords, 2, ""),
    (Status::ReadFault, 3, "tss: reading standard input failed\n"),
    (
        Status::WriteFault,
        4,
        "tss: writing standard output failed\n",
    ),
    (Status::Refusal, 5, ""),
    (Status::NotLegal, 6, ""),
    (Status::TooLate, 7, ""),
];

// The line that is said where a run ended with this status.
pub(super) fn line_at(status: u8) -> &'static str {
    match ENDS.get(usize::from(status)) {
        Some((_, _, line)) => line,
        None => "",
    }
}

// What a run said over this sink at its end, and its exit code.
fn said_over(
    rt: &impl Abort,
    alloc: Global,
    done: Done,
    mut errors: MemSink,
) -> (String, ExitCode) {
    let code = done.finish(&mut errors);
    let said = String::from_utf8_lossy(alloc, errors.taken()).expect(rt, "memory");
    (said, code)
}

// A sink for a line that takes a number of bytes a call, and none at some calls.
fn sink(rt: &impl Abort, alloc: Global, put: usize, failing: &[u32]) -> MemSink {
    assert!(rt; put > 0);
    let failing = Vec::from_slice(alloc, failing).expect(rt, "memory");
    MemSink::new(alloc, 4096, put, failing).expect(rt, "memory")
}

// What a run says at its end where nothing fails, and its exit code.
pub(super) fn finished(rt: &impl Abort, alloc: Global, done: Done) -> (String, ExitCode) {
    said_over(rt, alloc, done, sink(rt, alloc, 4096, &[]))
}

// Asserts that a run that ended so ends the process with its number, and says this over the sink.
fn assert_said(
    rt: &impl Abort,
    alloc: Global,
    end: &(Status, u8, &str),
    errors: MemSink,
    line: &str,
) {
    let (status, number, _) = *end;
    let done = Done::of(status, Seq::new(alloc));
    assert_same(rt, done.status, number, "the status");
    let (said, code) = said_over(rt, alloc, done, errors);
    assert_same(
        rt,
        code,
        ExitCode::from(number),
        ("the exit code at status", number),
    );
    assert_lines(rt, "what is said", said.as_str(), line);
}

#[test]
fn each_status_is_the_exit_code(rt: HostRuntime) {
    let alloc = rt.alloc();
    for end in &ENDS {
        let (_, _, line) = *end;
        assert_said(&rt, alloc, end, sink(&rt, alloc, 4096, &[]), line);
        assert_said(&rt, alloc, end, sink(&rt, alloc, 1, &[]), line);
    }
}

// Where standard error takes nothing, or fails behind a number of bytes, the exit code still tells.
#[test]
fn a_line_that_cannot_be_said_leaves_the_exit_code(rt: HostRuntime) {
    let alloc = rt.alloc();
    for end in &ENDS {
        let (_, _, line) = *end;
        assert_said(&rt, alloc, end, sink(&rt, alloc, 4096, &[0]), "");
        let front = line.get(..8).unwrap_or("");
        assert_said(&rt, alloc, end, sink(&rt, alloc, 4, &[2]), front);
    }
}

#[test]
fn words_without_memory_are_no_run(rt: HostRuntime) {
    let done = Done::unbegun(rt.alloc());
    assert_same(&rt, done.kept.len(), 0, "what is kept");
    let (said, code) = finished(&rt, rt.alloc(), done);
    assert_lines(&rt, "what is said", said.as_str(), "tss: out of memory\n");
    assert_same(&rt, code, ExitCode::from(1), "the exit code");
}
