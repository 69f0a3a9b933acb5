//! Refusals, each at its line and with its cause, and of two faults the first check's.

use crate::tests::stage::{Row, WHOLE, assert_rows, assert_talk, joined, make_talk};
use std::alloc::Global;
use std::process::Abort;

// A head that is refused, and lines behind it, which nobody answers.
pub(super) const REFUSED_HEAD: Row = Row {
    name: "a refused head",
    words: &["0"],
    front: "tss live 1\ntss match 1\nlength 04\n",
    rest: "grid 3  1\nend\nturn\nend\n",
    status: 5,
    told: "refused line 3 cause 3 number\n",
};

// A head that is refused: what it is, its lines, and what is told of it.
type Head = (&'static str, &'static str, &'static str);

const HEADS: [Head; 25] = [
    ("no head", "", "line 1 cause 8 end"),
    (
        "a head of version 3",
        "tss live 3\ntss match 1\n",
        "line 1 cause 1 head",
    ),
    (
        "a space behind the first line",
        "tss live 1 \ntss match 1\n",
        "line 1 cause 1 head",
    ),
    (
        "an empty first line",
        "\ntss live 1\n",
        "line 1 cause 1 head",
    ),
    (
        "a first line of 121 bytes",
        "xxxxxxxxxxxxxxxxxxxxxxxxxxxxxxxxxxxxxxxxxxxxxxxxxxxxxxxxxxxxxxxxxxxxxxxxxxxxxxxxxxxx\
            xxxxxxxxxxxxxxxxxxxxxxxxxxxxxxxxxxxxx\n",
        "line 1 cause 9 long",
    ),
    (
        "a match of version 3",
        "tss live 1\ntss match 3\nlength 4\n",
        "line 2 cause 1 head",
    ),
    ("no match", "tss live 1\nown 0 go\n", "line 2 cause 1 head"),
    (
        "a record",
        "tss live 1\ntss record 1\n",
        "line 2 cause 1 head",
    ),
    (
        "two spaces",
        "tss live 1\ntss match 1\nlength 4\ngrid 3  1\nmirrors 2\ndelays 0 2\npace 0\n",
        "line 4 cause 2 shape",
    ),
    (
        "no mirrors line",
        "tss live 1\ntss match 1\nlength 4\ngrid 3 1\ndelays 0 2\npace 0\n",
        "line 5 cause 2 shape",
    ),
    (
        "length 04",
        "tss live 1\ntss match 1\nlength 04\ngrid 3 1\nmirrors 2\ndelays 0 2\npace 0\n",
        "line 3 cause 3 number",
    ),
    (
        "length 0",
        "tss live 1\ntss match 1\nlength 0\ngrid 3 1\nmirrors 2\ndelays 0 2\npace 0\n",
        "line 3 cause 3 number",
    ),
    (
        "nine mirrors",
        "tss live 1\ntss match 1\nlength 4\ngrid 3 1\nmirrors 9\ndelays 0 2\npace 0\n",
        "line 5 cause 3 number",
    ),
    (
        "a player outside the grid",
        "tss live 1\ntss match 1\nlength 4\ngrid 3 1\nmirrors 2\ndelays 0 2\npace 0\n\
            player ann 3 0 e\n",
        "line 8 cause 4 place",
    ),
    (
        "a cell taken twice",
        "tss live 1\ntss match 1\nlength 4\ngrid 3 1\nmirrors 2\ndelays 0 2\npace 0\n\
            player ann 0 0 e\nplayer bob 0 0 e\n",
        "line 9 cause 4 place",
    ),
    (
        "a name taken twice",
        "tss live 1\ntss match 1\nlength 4\ngrid 3 1\nmirrors 2\ndelays 0 2\npace 0\n\
            player ann 0 0 e\nplayer ann 1 0 e\n",
        "line 9 cause 5 name",
    ),
    (
        "a command of a player who isn't there",
        "tss live 1\ntss match 1\nlength 4\ngrid 3 1\nmirrors 2\ndelays 0 2\npace 0\n\
            player ann 0 0 e\ncmd 0 0 0 1 go\nend\n",
        "line 9 cause 5 name",
    ),
    (
        "delays that don't rise",
        "tss live 1\ntss match 1\nlength 4\ngrid 3 1\nmirrors 2\ndelays 2 2\npace 0\n",
        "line 6 cause 6 order",
    ),
    (
        "nine delays",
        "tss live 1\ntss match 1\nlength 4\ngrid 3 1\nmirrors 2\ndelays 0 1 2 3 4 5 6 7 8\n\
            pace 0\n",
        "line 6 cause 7 many",
    ),
    (
        "a line of 121 bytes",
        "tss live 1\ntss match 1\nlength 4\ngrid 3 1\nmirrors 2\ndelays 0 2\npace 0\n\
            player aaaaaaaaaaaaaaaaaaaaaaaaaaaaaaaaaaaaaaaaaaaaaaaaaaaaaaaaaaaaaaaaaaaaaaaaaaaaa\
            aaaaaaaaaaaaaaaaaaaaaaaaaaaaaaaaaaaaa\n",
        "line 8 cause 9 long",
    ),
    (
        "a head cut behind its player",
        "tss live 1\ntss match 1\nlength 4\ngrid 3 1\nmirrors 2\ndelays 0 2\npace 0\n\
            player ann 0 0 e\n",
        "line 9 cause 8 end",
    ),
    (
        "a head cut in its last line",
        "tss live 1\ntss match 1\nlength 4\ngrid 3 1\nmirrors 2\ndelays 0 2\npace 0\n\
            player ann 0 0 e\nend",
        "line 9 cause 8 end",
    ),
    (
        "a head cut in a line of 121 bytes",
        "tss live 1\ntss match 1\nlength 4\ngrid 3 1\nmirrors 2\ndelays 0 2\npace 0\n\
            player ann 0 0 e\n\
            xxxxxxxxxxxxxxxxxxxxxxxxxxxxxxxxxxxxxxxxxxxxxxxxxxxxxxxxxxxxxxxxxxxxxxxxxxxxxxxxxxxx\
            xxxxxxxxxxxxxxxxxxxxxxxxxxxxxxxxxxxxx",
        "line 9 cause 9 long",
    ),
    (
        "no player",
        "tss live 1\ntss match 1\nlength 4\ngrid 3 1\nmirrors 2\ndelays 0 2\npace 0\nend\n",
        "line 8 cause 2 shape",
    ),
    (
        "a request in the head",
        "tss live 1\ntss match 1\nlength 4\ngrid 3 1\nmirrors 2\ndelays 0 2\npace 0\n\
            player ann 0 0 e\nturn\nend\n",
        "line 9 cause 2 shape",
    ),
];

// Of two faults in a line the first check's is told, and of two lines the first one's.
const TWO_FAULTS: [Head; 6] = [
    (
        "a first line that is too long and no head",
        "tss live 1xxxxxxxxxxxxxxxxxxxxxxxxxxxxxxxxxxxxxxxxxxxxxxxxxxxxxxxxxxxxxxxxxxxxxx\
            xxxxxxxxxxxxxxxxxxxxxxxxxxxxxxxxxxxxxxxxx\n",
        "line 1 cause 9 long",
    ),
    (
        "a line that is too long and of no form",
        "tss live 1\ntss match 1\nlength 4\ngrid 3 1\nmirrors 2\ndelays 0 2\npace 0\n\
            xxxxxxxxxxxxxxxxxxxxxxxxxxxxxxxxxxxxxxxxxxxxxxxxxxxxxxxxxxxxxxxxxxxxxxxxxxxxxxxxxxxx\
            xxxxxxxxxxxxxxxxxxxxxxxxxxxxxxxxxxxxx\n",
        "line 8 cause 9 long",
    ),
    (
        "a name and a number, of which the line before is the first",
        "tss live 1\ntss match 1\nlength 4\ngrid 3 1\nmirrors 2\ndelays 0 2\npace 00\n\
            player ann 9 9 e\n",
        "line 7 cause 3 number",
    ),
    (
        "no form and numbers out of range",
        "tss live 1\ntss match 1\nlength 4\ngrid 65 65 1\nmirrors 2\ndelays 0 2\npace 0\n",
        "line 4 cause 2 shape",
    ),
    (
        "too many delays that don't rise",
        "tss live 1\ntss match 1\nlength 4\ngrid 3 1\nmirrors 2\ndelays 0 0 0 0 0 0 0 0 0\n\
            pace 0\n",
        "line 6 cause 7 many",
    ),
    (
        "a bad name outside the grid",
        "tss live 1\ntss match 1\nlength 4\ngrid 3 1\nmirrors 2\ndelays 0 2\npace 0\n\
            player Ann 9 9 e\n",
        "line 8 cause 5 name",
    ),
];

// Heads of a match of two mirrors, for mirror 2.
const HEADS_OF_ANOTHER: [Head; 3] = [
    (
        "a mirror that the match lacks",
        "tss live 1\ntss match 1\nlength 4\ngrid 3 1\nmirrors 2\ndelays 0 2\npace 0\n\
            player ann 0 0 e\nend\nturn\n",
        "line 9 cause 3 number",
    ),
    (
        "a mirror that the match lacks, and an end cut off",
        "tss live 1\ntss match 1\nlength 4\ngrid 3 1\nmirrors 2\ndelays 0 2\npace 0\n\
            player ann 0 0 e\nend",
        "line 9 cause 8 end",
    ),
    (
        "a mirror that the match lacks, and a faulty line",
        "tss live 1\ntss match 1\nlength 4\ngrid 3 1\nmirrors 2\ndelays 0 2\npace 0\n\
            player ann 0 0 e\nends\n",
        "line 9 cause 2 shape",
    ),
];

// Asserts that each head is refused so by the mirror that this word names.
fn assert_refused(rt: &impl Abort, alloc: Global, word: &str, heads: &[Head]) {
    for (name, head, cause) in heads {
        let due = joined(rt, alloc, &["refused ", cause, "\n"]);
        let found = make_talk(rt, alloc, &[word], head, WHOLE);
        assert_talk(rt, alloc, name, &found, 5, due.as_str());
    }
}

#[test]
fn heads_are_refused(rt: HostRuntime) {
    assert_rows(&rt, rt.alloc(), &[REFUSED_HEAD]);
    assert_refused(&rt, rt.alloc(), "0", &HEADS);
    assert_refused(&rt, rt.alloc(), "0", &TWO_FAULTS);
    assert_refused(&rt, rt.alloc(), "2", &HEADS_OF_ANOTHER);
}

// A match of two mirrors, two copies, two plans and two players.
const OPENING: &str = "tss live 1\ntss match 1\nlength 4\ngrid 3 1\nmirrors 2\ndelays 0 2\npace 0\n\
    plan 0 3\nplayer ann 0 0 e\nplayer bob 2 0 w\nend\n";

// The same in version 2.
const OPENING_2: &str =
    "tss live 1\ntss match 2\nlength 4\ngrid 3 1\nmirrors 2\ndelays 0 2\npace 0\n\
    plan 0 3\nplayer ann 0 0 e\nplayer bob 2 0 w\nend\n";

// How many lines each of the two has.
const OPENING_LINES: u32 = 11;

// A request that is refused, and its cause.
type Refused = (&'static str, &'static str);

const REQUESTS: [Refused; 66] = [
    // The words are no form of a request.
    ("", "2 shape"),
    (" ", "2 shape"),
    ("jump", "2 shape"),
    ("End", "2 shape"),
    (
        "xxxxxxxxxxxxxxxxxxxxxxxxxxxxxxxxxxxxxxxxxxxxxxxxxxxxxxxxxxxxxxxxxxxxxxxxxxxxxxxxxxxxxxxxxxxxxxxxxxxxxxxxxxxxxxxxxxxxxxxx",
        "2 shape",
    ),
    ("tick ", "2 shape"),
    (" tick", "2 shape"),
    ("turn 0", "2 shape"),
    ("commands 0", "2 shape"),
    ("end 0", "2 shape"),
    ("own", "2 shape"),
    ("own 0", "2 shape"),
    ("own 0 fly", "2 shape"),
    ("own 0 dash", "2 shape"),
    ("own 0 go 1", "2 shape"),
    ("own  0 go", "2 shape"),
    ("cmd 0 0 0 0", "2 shape"),
    ("cmd 0 0 0 0 go go", "2 shape"),
    ("cmd 0 0 0 0 dash", "2 shape"),
    ("step", "2 shape"),
    ("step 0 0", "2 shape"),
    ("restagger", "2 shape"),
    ("restagger 0 0", "2 shape"),
    ("world", "2 shape"),
    ("world\t0", "2 shape"),
    ("run", "2 shape"),
    ("run 0 ", "2 shape"),
    // A number is none, or out of range.
    ("own 16 go", "3 number"),
    ("own 00 go", "3 number"),
    ("own -1 go", "3 number"),
    ("own x go", "3 number"),
    ("cmd 4 0 0 0 go", "3 number"),
    ("cmd 00 0 0 0 go", "3 number"),
    ("cmd 4294967296 0 0 0 go", "3 number"),
    ("cmd 0 2 0 0 go", "3 number"),
    ("cmd 0 0 1000000 0 go", "3 number"),
    ("cmd 0 0 00 0 go", "3 number"),
    ("cmd 0 0 0 16 go", "3 number"),
    ("step 2", "3 number"),
    ("step 01", "3 number"),
    ("restagger 2", "3 number"),
    ("restagger x", "3 number"),
    ("world 2", "3 number"),
    ("run 2", "3 number"),
    ("run 255", "3 number"),
    // A player isn't there.
    ("own 2 go", "5 name"),
    ("own 15 go", "5 name"),
    ("cmd 0 0 0 2 go", "5 name"),
    ("cmd 0 1 999999 15 left", "5 name"),
    // The line is too long.
    (
        "xxxxxxxxxxxxxxxxxxxxxxxxxxxxxxxxxxxxxxxxxxxxxxxxxxxxxxxxxxxxxxxxxxxxxxxxxxxxxxxxxxxxxxxxxxxxxxxxxxxxxxxxxxxxxxxxxxxxxxxxx",
        "9 long",
    ),
    (
        "own 0 go                                                                                                                 ",
        "9 long",
    ),
    // Of two faults the first check's is told: too long before all,
    (
        "cmd 4 0 0 2 fly                                                                                                          ",
        "9 long",
    ),
    (
        "own 00000000000000000000000000000000000000000000000000000000000000000000000000000000000000000000000000000000000000000 go  ",
        "9 long",
    ),
    (
        "own 2 go                                                                                                                 ",
        "9 long",
    ),
    // the form before numbers and players,
    ("own 16 fly", "2 shape"),
    ("own 2 fly", "2 shape"),
    ("cmd 4 0 0 0 fly", "2 shape"),
    ("cmd 0 0 0 2 fly", "2 shape"),
    ("step 2 0", "2 shape"),
    ("restagger 2 0", "2 shape"),
    ("world 2 0", "2 shape"),
    ("run  2", "2 shape"),
    // and numbers before players.
    ("own 16 left", "3 number"),
    ("cmd 4 0 0 2 go", "3 number"),
    ("cmd 0 2 0 2 go", "3 number"),
    ("cmd 0 0 1000000 2 go", "3 number"),
];

const REQUESTS_2: [Refused; 7] = [
    // In version 2 there are more players, and `dash`.
    ("own 32 dash", "3 number"),
    ("own 31 dash", "5 name"),
    ("own 2 dash", "5 name"),
    ("own 0 run", "2 shape"),
    ("cmd 0 0 0 32 go", "3 number"),
    ("cmd 0 0 0 31 dash", "5 name"),
    ("cmd 4 0 0 31 dash", "3 number"),
];

// Asserts that each request is refused with its cause and changes nothing: no command is there, and
// no copy ran.
fn assert_unchanged(rt: &impl Abort, alloc: Global, head: &str, requests: &[Refused]) {
    let mut input = joined(rt, alloc, &[head]);
    let mut due = joined(rt, alloc, &["ok\n"]);
    let mut number = OPENING_LINES;
    for (line, cause) in requests {
        number = number.saturating_add(1);
        input.push_str(line).expect(rt, "memory");
        input.push_str("\n").expect(rt, "memory");
        let told = format!(in alloc; "refused line {number} cause {cause}\n").expect(rt, "memory");
        due.push_str(told.as_str()).expect(rt, "memory");
    }
    input.push_str("commands\nrun 0\n").expect(rt, "memory");
    due.push_str("ok\nrun 0 0:\nok\n").expect(rt, "memory");
    let found = make_talk(rt, alloc, &["0"], input.as_str(), WHOLE);
    assert_talk(rt, alloc, "refused requests", &found, 0, due.as_str());
}

#[test]
fn requests_are_refused(rt: HostRuntime) {
    assert_unchanged(&rt, rt.alloc(), OPENING, &REQUESTS);
    assert_unchanged(&rt, rt.alloc(), OPENING_2, &REQUESTS_2);
}
