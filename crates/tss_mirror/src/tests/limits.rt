//! Limits, and one past them.

use crate::tests::rows::HEAD;
use crate::tests::sessions::HEAD as SESSION;
use crate::tests::stage::{WHOLE, assert_talk, joined, make_talk};
use std::alloc::Global;
use std::process::Abort;

// A text that is put together line by line.
#[derive(Drop)]
struct Text {
    text: String,
}

impl Text {
    fn of(rt: &impl Abort, alloc: Global, text: &str) -> Text {
        Text {
            text: joined(rt, alloc, &[text]),
        }
    }

    fn push(&mut self, rt: &impl Abort, text: &str) {
        self.text.push_str(text).expect(rt, "memory");
    }

    fn push_times(&mut self, rt: &impl Abort, text: &str, times: usize) {
        for _ in 0..times {
            self.push(rt, text);
        }
    }
}

// Asserts that mirror 0 answers this input so, without a fault.
fn assert_answers(rt: &impl Abort, alloc: Global, name: &str, input: &Text, due: &Text) {
    let found = make_talk(rt, alloc, &["0"], input.text.as_str(), WHOLE);
    assert_talk(rt, alloc, name, &found, 0, due.text.as_str());
}

#[test]
fn a_line_has_120_bytes_at_most(rt: HostRuntime) {
    let mut input = Text::of(&rt, rt.alloc(), HEAD);
    let mut due = Text::of(&rt, rt.alloc(), "ok\n");
    for (bytes, told) in [
        (120, "refused line 10 cause 2 shape\n"),
        (121, "refused line 11 cause 9 long\n"),
        (100_000, "refused line 12 cause 9 long\n"),
    ] {
        input.push_times(&rt, "x", bytes);
        input.push(&rt, "\n");
        due.push(&rt, told);
    }
    assert_answers(&rt, rt.alloc(), "long lines", &input, &due);
}

#[test]
fn a_torn_line_is_refused_as_the_end(rt: HostRuntime) {
    for bytes in [1, 120, 121, 100_000] {
        let mut input = Text::of(&rt, rt.alloc(), HEAD);
        input.push_times(&rt, "x", bytes);
        let due = Text::of(&rt, rt.alloc(), "ok\nrefused line 10 cause 8 end\n");
        assert_answers(&rt, rt.alloc(), "a torn line", &input, &due);
    }
}

#[test]
fn own_numbers_end_at_999_999(rt: HostRuntime) {
    let mut input = Text::of(&rt, rt.alloc(), HEAD);
    let mut due = Text::of(&rt, rt.alloc(), "ok\n");
    input.push(
        &rt,
        "cmd 3 0 999998 0 go\nown 0 left\nown 0 go\ncmd 2 0 0 0 go\nown 9 go\n",
    );
    due.push(
        &rt,
        "ok\ncmd 0 0 999999 0 left\nok\nrefused line 12 cause 7 many\nok\n",
    );
    due.push(&rt, "refused line 14 cause 7 many\n");
    assert_answers(&rt, rt.alloc(), "own numbers", &input, &due);
}

#[test]
fn plans_change_1_024_times(rt: HostRuntime) {
    let mut input = Text::of(&rt, rt.alloc(), HEAD);
    let mut due = Text::of(&rt, rt.alloc(), "ok\n");
    // a refused change is none
    input.push(&rt, "restagger 1\n");
    due.push(&rt, "refused line 10 cause 3 number\n");
    input.push_times(&rt, "restagger 0\n", 1_024);
    due.push_times(&rt, "ok\n", 1_024);
    input.push(&rt, "restagger 0\nrestagger 1\nrestagger 0 0\nturn\n");
    due.push(
        &rt,
        "refused line 1035 cause 7 many\nrefused line 1036 cause 7 many\n",
    );
    due.push(&rt, "refused line 1037 cause 2 shape\nok\n");
    assert_answers(&rt, rt.alloc(), "changes of the plan", &input, &due);
}

// Requests behind the last command, each with the cause of its refusal: one of a form is refused for
// want of room, whatever else is wrong of it.
const PAST: [(&str, &str); 10] = [
    ("own 0 go", "7 many"),
    ("cmd 0 0 0 0 go", "7 many"),
    ("cmd 7 0 999999 0 go", "7 many"),
    ("own 0 fly", "2 shape"),
    ("cmd 0 0 0 0", "2 shape"),
    ("own 99 go", "7 many"),
    ("own 9 go", "7 many"),
    ("cmd 8 0 0 0 go", "7 many"),
    ("cmd 0 0 0 9 go", "7 many"),
    ("step 3", "3 number"),
];

// Appends the requests behind the last command, the first of which is in this line, and what is told
// of them.
fn push_past(rt: &impl Abort, alloc: Global, input: &mut Text, due: &mut Text, first: usize) {
    for (place, (line, cause)) in PAST.iter().enumerate() {
        let number = first.saturating_add(place);
        input.push(rt, line);
        input.push(rt, "\n");
        let told = format!(in alloc; "refused line {number} cause {cause}\n").expect(rt, "memory");
        due.push(rt, told.as_str());
    }
}

// Appends so many own commands at the opening, and their answers.
fn push_own(rt: &impl Abort, alloc: Global, input: &mut Text, due: &mut Text, count: usize) {
    for number in 0..count {
        input.push(rt, "own 0 go\n");
        let told = format!(in alloc; "cmd 0 0 {number} 0 go\nok\n").expect(rt, "memory");
        due.push(rt, told.as_str());
    }
}

// Asserts that a mirror of this head takes so many commands and no more. A repeat is none.
fn assert_room(rt: &impl Abort, alloc: Global, head: &str, commands: usize) {
    let mut input = Text::of(rt, alloc, head);
    let mut due = Text::of(rt, alloc, "ok\n");
    push_own(rt, alloc, &mut input, &mut due, commands.saturating_sub(1));
    input.push_times(rt, "cmd 5 0 3 0 go\n", 3);
    due.push_times(rt, "repeat 0 0 3\nok\n", 3);
    input.push(rt, "cmd 5 0 999999 0 go\n");
    due.push(rt, "ok\n");
    push_past(rt, alloc, &mut input, &mut due, commands.saturating_add(13));
    assert_answers(rt, alloc, "a match's commands", &input, &due);
}

#[test]
fn a_match_has_16_384_commands(rt: HostRuntime) {
    assert_room(&rt, rt.alloc(), HEAD, 16_384);
}

// The head in version 2.
const HEAD_2: &str =
    "tss live 1\ntss match 2\nlength 8\ngrid 9 1\nmirrors 1\ndelays 0 2 4\npace 0\n\
    player ann 0 0 e\nend\n";

#[test]
fn a_match_of_version_2_has_32_768_commands(rt: HostRuntime) {
    assert_room(&rt, rt.alloc(), HEAD_2, 32_768);
}

// A session is refused a command while as many are remembered as a match may have, also one that is
// remembered, and takes one again once a tick forgot.
#[test]
fn a_session_remembers_16_384_commands(rt: HostRuntime) {
    let mut input = Text::of(&rt, rt.alloc(), SESSION);
    let mut due = Text::of(&rt, rt.alloc(), "ok\n");
    push_own(&rt, rt.alloc(), &mut input, &mut due, 16_384);
    input.push(&rt, "own 0 go\ncmd 0 0 5 0 go\ncmd 9 1 0 0 go\n");
    due.push(
        &rt,
        "refused line 16395 cause 7 many\nrefused line 16396 cause 7 many\n",
    );
    due.push(&rt, "refused line 16397 cause 7 many\n");
    input.push_times(&rt, "turn\n", 9);
    due.push_times(&rt, "ok\n", 9);
    input.push(&rt, "own 0 go\n");
    due.push(&rt, "cmd 9 0 16384 0 go\nok\n");
    assert_answers(&rt, rt.alloc(), "what is remembered at once", &input, &due);
}
