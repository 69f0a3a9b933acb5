//! Talks with a mirror of a session without an end: each request, commands that are late or far, own
//! numbers, refused heads, and a session that forgets beside a match that remembers.

use crate::tests::stage::{
    Row, WHOLE, assert_lines, assert_rows, assert_same, assert_talk, joined, make_talk,
};
use std::alloc::Global;
use std::process::Abort;

// A session of two mirrors, whose window has 16 ticks: a tick forgets once the last copy ran four.
pub(super) const HEAD: &str =
    "tss live 2\ntss match 1\nlength 16\ngrid 9 1\nmirrors 2\ndelays 0 2 4\npace 0\nplan 0 1 3\n\
    player ann 0 0 e\nend\n";

// Each request. The plan that is changed to lets the last copy run a tick earlier.
pub(super) const EACH: Row = Row {
    name: "each request of a session",
    words: &["0"],
    front: HEAD,
    rest: "own 0 go\ncmd 0 1 0 0 go\ntick\nstep 0\nturn\ncmd 1 1 1 0 go\nworld 0\nworld 2\n\
        run 0\nrun 3\nrestagger 1\nstep 2\nstep 2\ncommands\nturn\nturn\nend\n",
    status: 0,
    told: "ok\ncmd 0 0 0 0 go\nok\nok\nok\nok\nok\nok\nworld 0 0 2\nlive ann 3 0 e 3 5 0\nok\n\
        world 0 2 0\nlive ann 0 0 e 3 5 0\nok\nrefused line 19 cause 2 shape\n\
        refused line 20 cause 3 number\nok\nidle 0 2\nok\nidle 0 2\nok\ncmd 0 0 0 0 go\n\
        cmd 0 1 0 0 go\ncmd 1 1 1 0 go\nok\nok\nrepair 0 1\nok\nbase 0 0\nworld 0 2 0\n\
        live ann 0 0 e 3 5 0\nlog 0 3\ncmd 0 0 0 0 go\ncmd 0 1 0 0 go\ncmd 1 1 1 0 go\n\
        world 0 2 1\nlive ann 2 0 e 3 5 0\ndone\n",
};

const LATE: Row = Row {
    name: "a command that is late, one that repairs, and one that comes again",
    rest: "turn\nturn\nturn\nturn\nturn\nturn\ncmd 1 1 0 0 go\ncmd 2 1 1 0 go\ncmd 2 1 1 0 go\n\
        own 0 left\nturn\nworld 0\n",
    told: "ok\nok\nok\nok\nok\nok\nok\nlate 0 1 0 2\nok\nrepair 0 1\nok\nrepeat 0 1 1\nok\n\
        cmd 6 0 0 0 left\nok\nrepair 0 2\nok\nworld 0 0 7\nlive ann 1 0 n 3 5 0\nok\n",
    ..EACH
};

// The window reaches tick 15, and then, behind the tick that forgets, tick 19.
const FAR: Row = Row {
    name: "commands that the window doesn't reach, one of which comes again",
    rest: "turn\nturn\nturn\nturn\ncmd 16 1 0 0 go\ncmd 15 1 1 0 left\nturn\nturn\nturn\nturn\n\
        turn\ncmd 16 1 0 0 go\ncmd 20 1 2 0 go\ncmd 4294967294 1 2 0 go\n\
        cmd 4294967295 1 2 0 go\ncommands\n",
    told: "ok\nok\nok\nok\nok\nfar 0 1 0 16\nok\nok\nok\nok\nok\nok\nok\nok\nfar 0 1 2 20\nok\n\
        far 0 1 2 20\nok\nrefused line 25 cause 3 number\ncmd 15 1 1 0 left\ncmd 16 1 0 0 go\n\
        ok\n",
    ..EACH
};

// No tick is made until the last copy runs.
const HELD: Row = Row {
    name: "a last copy a whole window behind",
    words: &["1"],
    rest: "tick\ntick\ntick\ntick\ntick\ntick\ntick\ntick\ntick\ntick\ntick\ntick\ntick\ntick\n\
        tick\ntick\nown 0 go\nstep 0\nstep 1\nstep 2\ntick\nturn\nworld 2\n",
    told: "ok\nok\nok\nok\nok\nok\nok\nok\nok\nok\nok\nok\nok\nok\nok\nok\nover 1\nok\n\
        cmd 15 1 0 0 go\nok\nok\nok\nok\nok\nover 1\nok\nworld 1 2 2\nlive ann 0 0 e 3 5 0\n\
        ok\n",
    ..EACH
};

// Behind 999999 own numbers begin again, and a name that is remembered isn't given again. A number that
// comes again from behind takes them nowhere.
const NUMBERS: Row = Row {
    name: "own numbers behind the greatest one",
    rest: "own 0 go\ncmd 0 0 499999 0 left\ncmd 0 0 999998 0 left\nown 0 go\nown 0 go\n\
        cmd 0 0 0 0 go\nturn\nturn\nturn\nturn\nturn\nturn\nturn\nturn\nturn\nown 0 go\n\
        cmd 0 0 900000 0 go\nown 0 left\ncommands\nend\n",
    told: "ok\ncmd 0 0 0 0 go\nok\nok\nok\ncmd 0 0 999999 0 go\nok\n\
        refused line 15 cause 7 many\nrepeat 0 0 0\nok\nok\nok\nok\nok\nok\nok\nok\nok\nok\n\
        cmd 9 0 1 0 go\nok\nlate 0 0 900000 5\nok\ncmd 9 0 2 0 left\nok\n\
        cmd 9 0 1 0 go\ncmd 9 0 2 0 left\nok\nbase 0 4\nworld 0 2 4\nlive ann 0 0 w 3 5 0\n\
        log 0 2\ncmd 9 0 1 0 go\ncmd 9 0 2 0 left\nworld 0 2 5\nlive ann 0 0 w 3 5 0\ndone\n",
    ..EACH
};

// A match of the same that is longer than what is made of it here.
const LONG_MATCH: &str =
    "tss live 1\ntss match 1\nlength 256\ngrid 9 1\nmirrors 2\ndelays 0 2 4\npace 0\nplan 0 1 3\n\
    player ann 0 0 e\nend\n";

#[test]
fn sessions_come_out_byte_by_byte(rt: HostRuntime) {
    assert_rows(&rt, rt.alloc(), &[EACH, LATE, FAR, HELD, NUMBERS]);
}

// A session that is refused in its head: what it is, its mirror, its lines behind the first and their
// refusal.
type Refused = (&'static str, &'static str, &'static str, &'static str);

const REFUSED: [Refused; 8] = [
    ("no match", "0", "", "line 2 cause 8 end"),
    (
        "the first line again",
        "0",
        "tss live 2\n",
        "line 2 cause 1 head",
    ),
    (
        "a window that is too short by a tick",
        "0",
        "tss match 1\nlength 5\ngrid 9 1\nmirrors 2\ndelays 0 2 4\npace 0\nplayer ann 0 0 e\nend\n",
        "line 9 cause 3 number",
    ),
    (
        "a window too short for another plan",
        "0",
        "tss match 1\nlength 16\ngrid 9 1\nmirrors 2\ndelays 0 2 4\npace 0\nplan 0 1 15\n\
            player ann 0 0 e\nend\n",
        "line 10 cause 3 number",
    ),
    (
        "a window too short, and a player outside the grid",
        "0",
        "tss match 1\nlength 5\ngrid 9 1\nmirrors 2\ndelays 0 2 4\npace 0\nplayer ann 9 0 e\nend\n",
        "line 8 cause 4 place",
    ),
    (
        "a mirror that the match lacks",
        "2",
        "tss match 1\nlength 16\ngrid 9 1\nmirrors 2\ndelays 0 2 4\npace 0\nplayer ann 0 0 e\nend\n",
        "line 9 cause 3 number",
    ),
    (
        "a head cut in its last line",
        "0",
        "tss match 1\nlength 16\ngrid 9 1\nmirrors 2\ndelays 0 2 4\npace 0\nplayer ann 0 0 e\nend",
        "line 9 cause 8 end",
    ),
    (
        "a line that is too long",
        "0",
        TOO_LONG,
        "line 2 cause 9 long",
    ),
];

const TOO_LONG: &str =
    "xxxxxxxxxxxxxxxxxxxxxxxxxxxxxxxxxxxxxxxxxxxxxxxxxxxxxxxxxxxxxxxxxxxxxxxxxxxxxxxxxxxx\
    xxxxxxxxxxxxxxxxxxxxxxxxxxxxxxxxxxxxx\n";

#[test]
fn sessions_are_refused_in_their_heads(rt: HostRuntime) {
    for (name, word, rest, cause) in &REFUSED {
        let input = joined(&rt, rt.alloc(), &["tss live 2\n", rest]);
        let due = joined(&rt, rt.alloc(), &["refused ", cause, "\n"]);
        let found = make_talk(&rt, rt.alloc(), &[word], input.as_str(), WHOLE);
        assert_talk(&rt, rt.alloc(), name, &found, 5, due.as_str());
    }
}

// How many turns are made.
const TURNS: u32 = 200;

// What ann is told, in turn.
const ACTS: [&str; 4] = ["go", "left", "go", "right"];

// What mirror 0 has her do at a tick, if anything.
fn own_act(tick: u32) -> Option<&'static str> {
    if tick % 3 == 1 {
        Some(ACTS[(tick % 4) as usize])
    } else {
        None
    }
}

// What mirror 1 has her do at a tick, if anything: mirror 0 hears of it a tick later.
fn other_act(tick: u32) -> Option<&'static str> {
    if tick % 5 == 2 {
        Some(ACTS[(tick / 5 % 4) as usize])
    } else {
        None
    }
}

// The turns, each with the commands of its tick, and a look now and then.
fn turns(rt: &impl Abort, alloc: Global) -> String {
    let mut requests = String::new(alloc);
    for turn in 0..TURNS {
        requests.push_str("turn\n").expect(rt, "memory");
        if let Some(act) = own_act(turn + 1) {
            let own = format!(in alloc; "own 0 {act}\n").expect(rt, "memory");
            requests.push_str(own.as_str()).expect(rt, "memory");
        }
        if let Some(act) = other_act(turn) {
            let cmd = format!(in alloc; "cmd {turn} 1 {turn} 0 {act}\nworld 2\n").expect(
                rt, "memory",
            );
            requests.push_str(cmd.as_str()).expect(rt, "memory");
        }
    }
    requests
}

#[test]
fn a_session_answers_as_a_match_does(rt: HostRuntime) {
    let requests = turns(&rt, rt.alloc());
    let session = joined(&rt, rt.alloc(), &[HEAD, requests.as_str()]);
    let whole = joined(&rt, rt.alloc(), &[LONG_MATCH, requests.as_str()]);
    let due = make_talk(&rt, rt.alloc(), &["0"], whole.as_str(), WHOLE);
    let found = make_talk(&rt, rt.alloc(), &["0"], session.as_str(), WHOLE);
    assert_same(&rt, found.status, 0, "the status of the session");
    let (due, told) = (due.told(&rt, rt.alloc()), found.told(&rt, rt.alloc()));
    assert_lines(&rt, "a session", told.as_str(), due.as_str());
}

// Ann alone in a row of nine cells, told of plainly: where she is, and which way she looks.
#[derive(Drop)]
struct Ann {
    x: u32,
    facing: usize,
}

// The ways that she may look, each to the right of the one before.
const FACINGS: [&str; 4] = ["n", "e", "s", "w"];

impl Ann {
    fn make(&mut self, act: Option<&'static str>) {
        match act {
            Some("go") if self.facing == 1 => self.x = self.x.saturating_add(1).min(8),
            Some("go") if self.facing == 3 => self.x = self.x.saturating_sub(1),
            Some("left") => self.facing = self.facing.wrapping_add(3) % 4,
            Some("right") => self.facing = self.facing.wrapping_add(1) % 4,
            _ => {}
        }
    }
}

#[test]
fn a_last_copy_is_where_its_commands_lead(rt: HostRuntime) {
    let requests = turns(&rt, rt.alloc());
    let session = joined(&rt, rt.alloc(), &[HEAD, requests.as_str(), "world 2\n"]);
    let mut ann = Ann { x: 0, facing: 1 };
    let last = TURNS - 4;
    for tick in 0..last {
        ann.make(own_act(tick));
        ann.make(other_act(tick));
    }
    let x = ann.x;
    let facing = FACINGS[ann.facing % 4];
    let block = format!(in rt.alloc();
        "world 0 2 {last}\nlive ann {x} 0 {facing} 3 5 0\nok\n"
    ).expect(&rt, "memory");
    let found = make_talk(&rt, rt.alloc(), &["0"], session.as_str(), WHOLE);
    let told = found.told(&rt, rt.alloc());
    let is_so = told.ends_with(block.as_str());
    assert_same(
        &rt,
        is_so,
        true,
        (told.as_str(), "ends with", block.as_str()),
    );
}
