//! Matches that are made from numbers: their texts, and what soaking them prints.

use crate::tests::program::{Streams, WHOLE, run_on};
use crate::tests::stage::asserts::assert_same;
use crate::tests::stage::lines::{assert_lines, joined};
use match_file::print_match;
use match_maker::make_match;
use std::alloc::Global;
use std::process::Abort;
use std::sync::Wait;
use std::thread::Threads;

// A number, how many bytes the text of its match has, and their checksum. Both are by two other
// makers of these matches.
const TEXTS: [(u32, usize, u32); 4] = [
    (0, 599_121, 3_545_361_654),
    (1, 599_045, 1_263_601_542),
    (7, 599_342, 3_027_609_600),
    (4_294_967_295, 599_328, 1_925_979_860),
];

// The length of the text of a number's match, and its checksum: 31 times what stands before, and the
// byte.
fn measured(rt: &impl Abort, alloc: Global, number: u32) -> (usize, u32) {
    let m = make_match(alloc, number).expect(rt, "memory");
    let text = print_match(alloc, &m).expect(rt, "memory");
    let mut sum = 0u32;
    for byte in &text {
        sum = sum.wrapping_mul(31).wrapping_add(u32::from(*byte));
    }
    (text.len(), sum)
}

#[test]
fn matches_are_made_from_numbers(rt: HostRuntime) {
    for (number, length, sum) in TEXTS {
        assert_same(
            &rt,
            measured(&rt, rt.alloc(), number),
            (length, sum),
            ("of", number),
        );
    }
}

// What each mirror accepts and turns away, and how many copies it repairs.
const SEVEN: [&str; 3] = [
    "soak 7 commands 4096\n",
    "mirror 0 accepted 4096 turned 0 repairs 8396\n\
    mirror 1 accepted 4096 turned 0 repairs 8292\n\
    mirror 2 accepted 4096 turned 0 repairs 8336\n\
    mirror 3 accepted 4096 turned 0 repairs 8293\n\
    mirror 4 accepted 4096 turned 0 repairs 8415\n\
    mirror 5 accepted 4096 turned 0 repairs 8402\n\
    mirror 6 accepted 4096 turned 0 repairs 8465\n\
    mirror 7 accepted 4096 turned 0 repairs 8274\n",
    "same yes\ndone\n",
];

// The same of 0; repairs are by a slow model of the definitions.
const ZERO: [&str; 3] = [
    "soak 0 commands 4096\n",
    "mirror 0 accepted 4096 turned 0 repairs 8373\n\
    mirror 1 accepted 4096 turned 0 repairs 8356\n\
    mirror 2 accepted 4096 turned 0 repairs 8412\n\
    mirror 3 accepted 4096 turned 0 repairs 8411\n\
    mirror 4 accepted 4096 turned 0 repairs 8270\n\
    mirror 5 accepted 4096 turned 0 repairs 8373\n\
    mirror 6 accepted 4096 turned 0 repairs 8404\n\
    mirror 7 accepted 4096 turned 0 repairs 8505\n",
    "same yes\ndone\n",
];

// The same of the greatest number.
const GREATEST: [&str; 3] = [
    "soak 4294967295 commands 4096\n",
    "mirror 0 accepted 4096 turned 0 repairs 8269\n\
    mirror 1 accepted 4096 turned 0 repairs 8468\n\
    mirror 2 accepted 4096 turned 0 repairs 8377\n\
    mirror 3 accepted 4096 turned 0 repairs 8351\n\
    mirror 4 accepted 4096 turned 0 repairs 8267\n\
    mirror 5 accepted 4096 turned 0 repairs 8367\n\
    mirror 6 accepted 4096 turned 0 repairs 8353\n\
    mirror 7 accepted 4096 turned 0 repairs 8316\n",
    "same yes\ndone\n",
];

// Asserts that a number is soaked so, from a source that would fail at once.
fn assert_soaked<R: Threads + Wait + Sync + Abort>(
    rt: &R,
    alloc: Global,
    number: &str,
    lines: &[&str],
) {
    let streams = Streams {
        failing_read: Some(0),
        ..WHOLE
    };
    let found = run_on(rt, alloc, &["soak", number], "", streams);
    assert_same(
        rt,
        (found.status, found.logs),
        (0, 8),
        ("the status and the logs of", number),
    );
    let due = joined(rt, alloc, lines);
    assert_lines(rt, number, found.written.as_str(), due.as_str());
}

#[test]
fn numbers_are_soaked(rt: HostRuntime) {
    assert_soaked(&rt, rt.alloc(), "7", &SEVEN);
    assert_soaked(&rt, rt.alloc(), "0", &ZERO);
    assert_soaked(&rt, rt.alloc(), "4294967295", &GREATEST);
}
