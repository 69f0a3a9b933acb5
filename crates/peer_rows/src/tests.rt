//! Each worked row is made, and none of its calls answers otherwise.

mod calls;
mod line;
mod looks;
mod nothing;
mod row;
mod rows;
mod said;
mod session;

use crate::tests::nothing::Nothing;
use crate::tests::row::first_difference;
use crate::tests::rows::ROWS;
use std::process::Abort;

// Asserts that a row's first call that answers otherwise, counted from its first line on, is this one.
fn assert_differs_at(rt: &impl Abort, found: Option<usize>, due: Option<usize>, name: &str) {
    assert_eq!(rt; found, due, "{name}");
}

#[test]
fn each_row_is_answered_so(rt: HostRuntime) {
    let alloc = rt.alloc();
    for (name, lines) in &ROWS {
        let found = first_difference(alloc, &Nothing, lines);
        assert_differs_at(&rt, found, None, name);
    }
}

// A row with another answer, with other bytes put out, with other things told, and with a line that isn't one.
#[test]
fn a_changed_row_is_found(rt: HostRuntime) {
    let alloc = rt.alloc();
    let front = "session 72623859790382856 2 4 16 4 3 8\na new 0 = 7 0 0\na turn = 0 0 0\n";
    let changed = [
        ("the kind", "a own 0 x01 = 24 1 0\n"),
        ("other", "a own 0 x01 = 2 0 0\n"),
        ("value", "a own 0 x01 = 2 1 1\n"),
        (
            "bytes",
            "a packet 1 64 = 6 0 28 x01080706050403020100010001000000000000000000000000000001\n",
        ),
        (
            "what is told",
            "a slot_of 1 = 6 0 0 0 0 0 0 0 0 0 1 0 0 0 0 0\n",
        ),
        ("what isn't told", "a slot_of 1 = 6 0 0\n"),
        ("a call that there isn't", "a sing = 0 0 0\n"),
        ("a peer that there isn't", "b turn = 0 0 0\n"),
    ];
    for (name, line) in &changed {
        let row = format!(in alloc; "{front}{line}").expect(&rt, "memory");
        let found = first_difference(alloc, &Nothing, row.as_str());
        assert_differs_at(&rt, found, Some(4), name);
    }
}
