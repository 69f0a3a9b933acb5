//! Talks that are cut anywhere, end anywhere, or fail anywhere, and words that name no mirror.

use crate::tests::refusals::REFUSED_HEAD;
use crate::tests::rows::{GOES_ON, HEAD, LATE, OWN};
use crate::tests::sessions::EACH;
use crate::tests::stage::{
    Calls, Row, WHOLE, assert_row, assert_rows, assert_same, assert_talk, joined, make_talk,
    told_in,
};
use line_talk::Said;
use std::alloc::Global;
use std::process::Abort;

// Words that name no mirror: nothing is heard.
const USED_WRONG: Row = Row {
    name: "a ninth mirror",
    words: &["8"],
    front: HEAD,
    rest: "turn\n",
    status: 2,
    told: "usage: tss_mirror M\n",
};

const WORDS: [Row; 8] = [
    USED_WRONG,
    Row {
        name: "no words",
        words: &[],
        ..USED_WRONG
    },
    Row {
        name: "an empty word",
        words: &[""],
        ..USED_WRONG
    },
    Row {
        name: "two mirrors",
        words: &["0", "1"],
        ..USED_WRONG
    },
    Row {
        name: "a zero in front",
        words: &["00"],
        ..USED_WRONG
    },
    Row {
        name: "a number below 0",
        words: &["-1"],
        ..USED_WRONG
    },
    Row {
        name: "no number",
        words: &["--help"],
        ..USED_WRONG
    },
    Row {
        name: "the last mirror, which the match lacks",
        words: &["7"],
        status: 5,
        told: "refused line 9 cause 3 number\n",
        ..USED_WRONG
    },
];

// Whether something was heard.
fn is_heard(said: &[Said]) -> bool {
    said.iter().any(|one| match one {
        Said::Heard(_) => true,
        _ => false,
    })
}

#[test]
fn words_are_answered(rt: HostRuntime) {
    assert_rows(&rt, rt.alloc(), &WORDS);
    let found = assert_row(&rt, rt.alloc(), &USED_WRONG, 1);
    assert_same(&rt, is_heard(found.peer.said()), false, "what is heard");
}

// Asserts that the talk of a row comes out the same in pieces of each length.
fn assert_cut(rt: &impl Abort, alloc: Global, row: &Row) {
    for piece in 1..=row.front.len().saturating_add(row.rest.len()) {
        let _ = assert_row(rt, alloc, row, piece);
    }
}

#[test]
fn answers_are_the_same_however_a_talk_is_cut(rt: HostRuntime) {
    assert_cut(&rt, rt.alloc(), &OWN);
    assert_cut(&rt, rt.alloc(), &LATE);
    assert_cut(&rt, rt.alloc(), &GOES_ON);
    assert_cut(&rt, rt.alloc(), &EACH);
    assert_cut(&rt, rt.alloc(), &REFUSED_HEAD);
}

// The status of a talk whose next call, which is this one, fails.
fn status_where_fails(call: &Said) -> u8 {
    match call {
        Said::Heard(_) => 3,
        Said::Told(_) | Said::Flushed => 4,
    }
}

// Asserts that where any call fails nothing is told but what was told before, with the status of that
// call.
fn assert_fails(rt: &impl Abort, alloc: Global, row: &Row, piece: usize) {
    let input = joined(rt, alloc, &[row.front, row.rest]);
    let whole = assert_row(rt, alloc, row, piece);
    let said = whole.peer.said();
    for (place, call) in said.iter().enumerate() {
        assert!(rt; place < 1_000_000 && place <= said.len());
        let calls = Calls {
            piece,
            failing: Some(place as u32),
        };
        let found = make_talk(rt, alloc, row.words, input.as_str(), calls);
        let (before, _) = said.split_at(place);
        let due = told_in(rt, alloc, before);
        let status = status_where_fails(call);
        assert_talk(rt, alloc, row.name, &found, status, due.as_str());
    }
}

#[test]
fn a_peer_fails_anywhere(rt: HostRuntime) {
    assert_fails(&rt, rt.alloc(), &OWN, 1);
    assert_fails(&rt, rt.alloc(), &OWN, 8);
    assert_fails(&rt, rt.alloc(), &OWN, WHOLE.piece);
    assert_fails(&rt, rt.alloc(), &LATE, 1);
    assert_fails(&rt, rt.alloc(), &GOES_ON, 1);
    assert_fails(&rt, rt.alloc(), &EACH, WHOLE.piece);
    assert_fails(&rt, rt.alloc(), &REFUSED_HEAD, 1);
    assert_fails(&rt, rt.alloc(), &USED_WRONG, 1);
}

// The line that refuses the end of an input in this line.
fn torn_line(rt: &impl Abort, alloc: Global, line: u32) -> String {
    format!(in alloc; "refused line {line} cause 8 end\n").expect(rt, "memory")
}

// Asserts that the talk of a row goes as far as its input does. An end in the head refuses the head,
// with status 5; behind it an end is no fault, but bytes behind the last newline are refused.
fn assert_torn(rt: &impl Abort, alloc: Global, row: &Row) {
    let input = joined(rt, alloc, &[row.front, row.rest]);
    let mut line = 1u32;
    let mut answered = String::new(alloc);
    for (length, byte) in input.bytes().enumerate() {
        assert!(rt; input.is_char_boundary(length));
        let (front, _) = input.as_str().split_at(length);
        let found = make_talk(rt, alloc, row.words, front, WHOLE);
        let is_in_head = length < row.front.len();
        let mut torn = torn_line(rt, alloc, line);
        if !is_in_head && front.ends_with("\n") {
            let told = found.told(rt, alloc);
            let is_more = told.len() > answered.len();
            assert_same(rt, is_more, true, ("whether it is answered, line", line));
            let is_front = row.told.starts_with(told.as_str());
            assert_same(
                rt,
                is_front,
                true,
                ("whether it is answered so, line", line),
            );
            answered = told;
            torn.clear();
        }
        let due = joined(rt, alloc, &[answered.as_str(), torn.as_str()]);
        let status = if is_in_head { 5 } else { 0 };
        assert_talk(rt, alloc, row.name, &found, status, due.as_str());
        if byte == b'\n' {
            line = line.saturating_add(1);
        }
    }
}

#[test]
fn a_talk_ends_anywhere(rt: HostRuntime) {
    assert_torn(&rt, rt.alloc(), &OWN);
    assert_torn(&rt, rt.alloc(), &LATE);
    assert_torn(&rt, rt.alloc(), &GOES_ON);
    assert_torn(&rt, rt.alloc(), &EACH);
}
