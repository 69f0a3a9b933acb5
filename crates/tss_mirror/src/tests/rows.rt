//! Talks byte by byte: a look and an end, a command that is late, refusals, and two mirrors that hand
//! each other what they tell.

use crate::tests::stage::{Row, WHOLE, assert_lines, assert_rows, assert_same, joined, make_talk};
use std::alloc::Global;
use std::process::Abort;

// A match of one mirror.
pub(super) const HEAD: &str =
    "tss live 1\ntss match 1\nlength 8\ngrid 9 1\nmirrors 1\ndelays 0 2 4\npace 0\n\
    player ann 0 0 e\nend\n";

pub(super) const OWN: Row = Row {
    name: "an own command, a turn, a look, the end",
    words: &["0"],
    front: HEAD,
    rest: "own 0 go\nturn\nworld 0\nend\n",
    status: 0,
    told: "ok\ncmd 0 0 0 0 go\nok\nok\nworld 0 0 1\nlive ann 1 0 e 3 5 0\nok\n\
        mirror 0 accepted 1 turned 0 repairs 0\nlog 0 37\narrive 0 0\ntick\nstep 0\ntick\n\
        step 0\ntick\nstep 0\nstep 1\ntick\nstep 0\nstep 1\ntick\nstep 0\nstep 1\nstep 2\n\
        tick\nstep 0\nstep 1\nstep 2\ntick\nstep 0\nstep 1\nstep 2\ntick\nstep 0\nstep 1\n\
        step 2\ntick\nstep 1\nstep 2\ntick\nstep 1\nstep 2\ntick\nstep 2\ntick\nstep 2\n\
        world 0 0 8\nlive ann 1 0 e 3 5 0\nworld 0 1 8\nlive ann 1 0 e 3 5 0\nworld 0 2 8\n\
        live ann 1 0 e 3 5 0\ndone\n",
};

pub(super) const LATE: Row = Row {
    name: "a command that is late, and the own number behind it",
    rest: "turn\nturn\nturn\nturn\nturn\nturn\ncmd 1 0 0 0 go\nown 0 go\n",
    told: "ok\nok\nok\nok\nok\nok\nok\nlate 0 0 0 2\nok\ncmd 6 0 1 0 go\nok\n",
    ..OWN
};

pub(super) const GOES_ON: Row = Row {
    name: "refusals, behind each of which the mirror goes on",
    rest: "cmd 1 0 0 9 go\nstep 3\njump\n\
        xxxxxxxxxxxxxxxxxxxxxxxxxxxxxxxxxxxxxxxxxxxxxxxxxxxxxxxxxxxxxxxxxxxxxxxxxxxxxxxxxxxx\
        xxxxxxxxxxxxxxxxxxxxxxxxxxxxxxxxxxxxx\nturn\n",
    told: "ok\nrefused line 10 cause 5 name\nrefused line 11 cause 3 number\n\
        refused line 12 cause 2 shape\nrefused line 13 cause 9 long\nok\n",
    ..OWN
};

// A match of two mirrors.
const HEAD_OF_TWO: &str =
    "tss live 1\ntss match 1\nlength 4\ngrid 3 1\nmirrors 2\ndelays 0 2\npace 0\n\
    player ann 0 0 e\nplayer bob 2 0 w\nend\n";

// A mirror, a line that it is asked, and its whole answer.
type Asked = (usize, &'static str, &'static str);

// What is handed over is held back by a tick.
const HELD_BACK: [Asked; 12] = [
    (0, "own 0 go", "cmd 0 0 0 0 go\nok\n"),
    (1, "own 1 go", "cmd 0 1 0 1 go\nok\n"),
    (0, "turn", "ok\n"),
    (1, "turn", "ok\n"),
    (1, "cmd 0 0 0 0 go", "ok\n"),
    (0, "cmd 0 1 0 1 go", "ok\n"),
    (0, "turn", "ok\n"),
    (1, "turn", "ok\n"),
    (0, "turn", "repair 0 1\nok\n"),
    (1, "turn", "repair 1 1\nok\n"),
    (0, "end", END_0),
    (1, "end", END_1),
];

const END_0: &str = "mirror 0 accepted 2 turned 0 repairs 1\nlog 0 16\narrive 0 0\ntick\nstep 0\n\
    arrive 1 0\ntick\nstep 0\ntick\nstep 0\nstep 1\ntick\nstep 0\nstep 1\ntick\nstep 1\n\
    tick\nstep 1\nworld 0 0 4\nlive ann 1 0 e 3 5 0\nlive bob 2 0 w 3 5 0\nworld 0 1 4\n\
    live ann 1 0 e 3 5 0\nlive bob 2 0 w 3 5 0\ndone\n";

const END_1: &str = "mirror 1 accepted 2 turned 0 repairs 1\nlog 1 16\narrive 1 0\ntick\nstep 0\n\
    arrive 0 0\ntick\nstep 0\ntick\nstep 0\nstep 1\ntick\nstep 0\nstep 1\ntick\nstep 1\n\
    tick\nstep 1\nworld 1 0 4\nlive ann 1 0 e 3 5 0\nlive bob 2 0 w 3 5 0\nworld 1 1 4\n\
    live ann 1 0 e 3 5 0\nlive bob 2 0 w 3 5 0\ndone\n";

// What is handed over is handed over at once.
const AT_ONCE: [Asked; 12] = [
    (0, "own 0 go", "cmd 0 0 0 0 go\nok\n"),
    (1, "own 1 go", "cmd 0 1 0 1 go\nok\n"),
    (1, "cmd 0 0 0 0 go", "ok\n"),
    (0, "cmd 0 1 0 1 go", "ok\n"),
    (0, "turn", "ok\n"),
    (1, "turn", "ok\n"),
    (0, "turn", "ok\n"),
    (1, "turn", "ok\n"),
    (0, "turn", "ok\n"),
    (1, "turn", "ok\n"),
    (0, "end", SOON_0),
    (1, "end", SOON_1),
];

const SOON_0: &str =
    "mirror 0 accepted 2 turned 0 repairs 0\nlog 0 16\narrive 0 0\narrive 1 0\ntick\n\
    step 0\ntick\nstep 0\ntick\nstep 0\nstep 1\ntick\nstep 0\nstep 1\ntick\nstep 1\n\
    tick\nstep 1\nworld 0 0 4\nlive ann 1 0 e 3 5 0\nlive bob 2 0 w 3 5 0\nworld 0 1 4\n\
    live ann 1 0 e 3 5 0\nlive bob 2 0 w 3 5 0\ndone\n";

const SOON_1: &str =
    "mirror 1 accepted 2 turned 0 repairs 0\nlog 1 16\narrive 1 0\narrive 0 0\ntick\n\
    step 0\ntick\nstep 0\ntick\nstep 0\nstep 1\ntick\nstep 0\nstep 1\ntick\nstep 1\n\
    tick\nstep 1\nworld 1 0 4\nlive ann 1 0 e 3 5 0\nlive bob 2 0 w 3 5 0\nworld 1 1 4\n\
    live ann 1 0 e 3 5 0\nlive bob 2 0 w 3 5 0\ndone\n";

#[test]
fn talks_come_out_byte_by_byte(rt: HostRuntime) {
    assert_rows(&rt, rt.alloc(), &[OWN, LATE, GOES_ON]);
}

// Whether a mirror answered one of these with this line first.
fn is_told(rt: &impl Abort, alloc: Global, before: &[Asked], line: &str) -> bool {
    let line = joined(rt, alloc, &[line, "\n"]);
    before
        .iter()
        .any(|(_, _, answer)| answer.starts_with(line.as_str()))
}

// Asserts that each command that is handed over was told before.
fn assert_handed_over(rt: &impl Abort, alloc: Global, conversation: &[Asked]) {
    for (place, (_, line, _)) in conversation.iter().enumerate() {
        if line.starts_with("cmd ") && place <= conversation.len() {
            let (before, _) = conversation.split_at(place);
            let was_told = is_told(rt, alloc, before, line);
            assert_same(rt, was_told, true, ("whether it was told", *line));
        }
    }
}

// Asserts that each mirror answers what it is asked in a conversation.
fn assert_answers(rt: &impl Abort, alloc: Global, conversation: &[Asked]) {
    for (mirror, word) in ["0", "1"].iter().enumerate() {
        let mut input = joined(rt, alloc, &[HEAD_OF_TWO]);
        let mut due = joined(rt, alloc, &["ok\n"]);
        for (asked, line, answer) in conversation {
            if *asked == mirror {
                input.push_str(line).expect(rt, "memory");
                input.push_str("\n").expect(rt, "memory");
                due.push_str(answer).expect(rt, "memory");
            }
        }
        let found = make_talk(rt, alloc, &[word], input.as_str(), WHOLE);
        assert_same(rt, found.status, 0, ("mirror", *word));
        assert_lines(rt, word, found.told(rt, alloc).as_str(), due.as_str());
    }
}

#[test]
fn mirrors_hand_each_other_what_they_tell(rt: HostRuntime) {
    assert_handed_over(&rt, rt.alloc(), &HELD_BACK);
    assert_answers(&rt, rt.alloc(), &HELD_BACK);
    assert_handed_over(&rt, rt.alloc(), &AT_ONCE);
    assert_answers(&rt, rt.alloc(), &AT_ONCE);
}
