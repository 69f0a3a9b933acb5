//! The office match: 3 mirrors of 4 copies, 900 ticks, and 200 commands that arrive up to 250 ticks
//! late; played and raced.

ghost use Rattle.std.specs.Prelude.{◌<◌};

use crate::tests::program::{WHOLE, run_on};
use crate::tests::races::{assert_legal, assert_worlds};
use crate::tests::stage::asserts::{assert_same, assert_that};
use crate::tests::stage::lines::{assert_lines, joined};
use std::alloc::Global;
use std::process::Abort;
use std::sync::Wait;
use std::thread::Threads;

const HEAD: &str = "tss match 1\n\
    length 900\n\
    grid 20 10\n\
    mirrors 3\n\
    delays 0 100 300 600\n";

const PLAYERS: &str = "pickup 10 2 gold\n\
    player ann 2 2 e\n\
    player bob 17 2 w\n\
    player cat 10 7 n\n";

const ACTS: [&str; 5] = ["go", "go", "right", "shoot", "go"];

// Its world at the end, and how many repairs its mirrors make, both by a slow model of the
// definitions.
const WORLD: &str = "live ann 5 3 s 3 0 0\n\
    live bob 15 0 n 3 0 0\n\
    live cat 13 6 s 3 0 0\n\
    item 10 2 gold 0\n";

const REPAIRS: [u32; 3] = [106, 113, 112];

// The clock at which command j arrives at a mirror: at its own tick at home, and later elsewhere.
fn arrival(j: u32, mirror: u32) -> u32
    requires command { j < 200 }
    requires mirror { mirror < 3 }
{
    if mirror == j % 3 {
        4 * j
    } else {
        4 * j + 20 + (37 * j + 11 * mirror) % 231
    }
}

// Appends a line.
fn push(rt: &impl Abort, out: &mut String, line: &str) {
    out.push_str(line).expect(rt, "memory");
}

// Appends the arrivals at a mirror at a clock, by rising number.
fn push_arrivals(rt: &impl Abort, alloc: Global, out: &mut String, clock: u32, mirror: u32)
    requires { mirror < 3 }
{
    for j in 0..200 {
        if arrival(j, mirror) == clock {
            let line = format!(in alloc; "arrive {mirror} {} {j}\n", j % 3);
            push(rt, out, line.expect(rt, "memory").as_str());
        }
    }
}

// Appends the script: at each clock and mirror the arrivals, and a turn.
fn push_script(rt: &impl Abort, alloc: Global, out: &mut String) {
    for place in 0..4500u32 {
        let (clock, mirror) = (place / 3, place % 3);
        push_arrivals(rt, alloc, out, clock, mirror);
        let line = format!(in alloc; "turn {mirror}\n").expect(rt, "memory");
        push(rt, out, line.as_str());
    }
}

// The text of the match, with this line of its pace.
fn office(rt: &impl Abort, alloc: Global, pace: &str) -> String {
    let mut text = joined(rt, alloc, &[HEAD, pace, PLAYERS]);
    for j in 0..200u32 {
        let act = ACTS[(j % 5) as usize];
        let line = format!(in alloc; "cmd {} {} {j} {} {act}\n", 4 * j, j % 3, j % 3);
        push(rt, &mut text, line.expect(rt, "memory").as_str());
    }
    push(rt, &mut text, "script\n");
    push_script(rt, alloc, &mut text);
    push(rt, &mut text, "end\n");
    text
}

// Appends the worlds of a mirror at the end, all alike.
fn push_worlds(rt: &impl Abort, alloc: Global, out: &mut String, mirror: usize) {
    for copy in 0..4 {
        let line = format!(in alloc; "world {mirror} {copy} 900\n").expect(rt, "memory");
        push(rt, out, line.as_str());
        push(rt, out, WORLD);
    }
}

// What `play` prints of its mirrors after draining.
fn played(rt: &impl Abort, alloc: Global) -> String {
    let mut text = String::new(alloc);
    for mirror in 0..3usize {
        let repairs = REPAIRS[mirror];
        let line = format!(in alloc; "mirror {mirror} accepted 200 turned 0 repairs {repairs}\n");
        push(rt, &mut text, line.expect(rt, "memory").as_str());
        push_worlds(rt, alloc, &mut text, mirror);
    }
    push(rt, &mut text, "done\n");
    text
}

// Before it `play` prints repairs alone; 5,300 events are kept of each mirror: 1,500 ticks, 900
// steps of each copy and 200 arrivals.
fn assert_played<R: Threads + Wait + Sync + Abort>(rt: &R, alloc: Global) {
    let text = office(rt, alloc, "pace 50\n");
    let found = run_on(rt, alloc, &["play"], text.as_str(), WHOLE);
    let due = played(rt, alloc);
    assert_same(
        rt,
        (found.status, found.logs),
        (0, 3),
        "the status and the logs of the office match",
    );
    let at = found.written.as_str().find("mirror").unwrap_or(0);
    assert!(rt; found.written.is_char_boundary(at));
    let (repairs, end) = found.written.as_str().split_at(at);
    for line in repairs.lines() {
        assert_that(
            rt,
            line.starts_with("repair "),
            ("the office match prints", line),
        );
    }
    assert_lines(rt, "the office match", end, due.as_str());
    for line in found.kept.as_str().lines() {
        assert_same(
            rt,
            line.split(' ').count(),
            5300,
            "the events of an office mirror",
        );
    }
}

#[test]
fn the_office_match_is_played(rt: HostRuntime) {
    assert_played(&rt, rt.alloc());
}

// A race prints the match, and then a record that is legal, in which each world is that of `order`.
fn assert_raced<R: Threads + Wait + Sync + Abort>(rt: &R, alloc: Global) {
    let text = office(rt, alloc, "pace 50\n");
    let found = run_on(rt, alloc, &["race"], text.as_str(), WHOLE);
    assert_same(
        rt,
        (found.status, found.logs),
        (0, 3),
        "the status and the logs of the office race",
    );
    let front = joined(rt, alloc, &["tss record 1\n", text.as_str()]);
    assert_that(
        rt,
        found.written.as_str().starts_with(front.as_str()),
        "the record has another match",
    );
    assert_legal(rt, alloc, "the office race", found.written.as_str());
    assert_worlds(rt, "the office race", found.written.as_str(), WORLD, 12);
}

// `order` prints that world, and a race at a pace over the longest delay is refused.
fn assert_ordered<R: Threads + Wait + Sync + Abort>(rt: &R, alloc: Global) {
    let text = office(rt, alloc, "pace 601\n");
    let found = run_on(rt, alloc, &["race"], text.as_str(), WHOLE);
    assert_same(rt, found.status, 5, "the status of a race at pace 601");
    assert_lines(
        rt,
        "a race at pace 601",
        found.written.as_str(),
        "refused line 6 cause 3 number\n",
    );
    let text = office(rt, alloc, "pace 50\n");
    let found = run_on(rt, alloc, &["order"], text.as_str(), WHOLE);
    let due = joined(rt, alloc, &["order 900\n", WORLD, "done\n"]);
    assert_lines(
        rt,
        "the office match in order",
        found.written.as_str(),
        due.as_str(),
    );
}

#[test]
fn the_office_match_is_raced(rt: HostRuntime) {
    assert_raced(&rt, rt.alloc());
    assert_ordered(&rt, rt.alloc());
}
