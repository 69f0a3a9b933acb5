//! Command lines that ask for nothing, and matches that are scored.

use crate::tests::program::Row;
use crate::tests::tables::texts::{OPENING, THREE_COPIES};

// Words that ask for nothing.
pub const USED_WRONG: Row = Row {
    name: "no words",
    words: &[],
    front: OPENING,
    rest: "",
    status: 2,
    written: "usage: tss order|play|race|audit|score|lift|soak N|paint order|paint play|lossy|\
        join M K|rewind E C T ...\n",
    logs: 0,
    kept: "",
};

// A match that is scored, with the watchers that `main` hands in.
pub const SCORED: Row = Row {
    name: "score",
    words: &["score"],
    front: THREE_COPIES,
    rest: "script\nturn 0\nturn 0\nturn 0\nturn 0\nturn 0\narrive 0 0 0\nrun 0 0\nrun 0 1\n\
            run 0 2\nturn 0\nrun 0 0\nend\n",
    status: 0,
    written: "{\"mirrors\":[{\"accepted\":1,\"mirror\":0,\"repairs\":3,\"scores\":[0],\"turned\":0}],\
        \"names\":[\"ann\"]}\n\
            watch first 0\nwatch repairs 3\nwatch late 0\ndone\n",
    logs: 1,
    kept: "t s0 t s0 t s0 s1 t s0 s1 t s0 s1 s2 0.0 t s0 s1 s2 t s0 s1 s2 t s0 s1 s2 t \
            s1 s2 t s1 s2 t s2 t s2\n",
};

// Wrong words, for which no byte is read, and scores with what the watchers say.
pub const WORDS: [Row; 35] = [
    USED_WRONG,
    Row {
        name: "play extra",
        words: &["play", "extra"],
        ..USED_WRONG
    },
    Row {
        name: "soak 07",
        words: &["soak", "07"],
        ..USED_WRONG
    },
    Row {
        name: "soak 4294967296",
        words: &["soak", "4294967296"],
        ..USED_WRONG
    },
    Row {
        name: "soak -1",
        words: &["soak", "-1"],
        ..USED_WRONG
    },
    Row {
        name: "soak and an empty word",
        words: &["soak", ""],
        ..USED_WRONG
    },
    Row {
        name: "soak seven",
        words: &["soak", "seven"],
        ..USED_WRONG
    },
    Row {
        name: "soak",
        words: &["soak"],
        ..USED_WRONG
    },
    Row {
        name: "order extra",
        words: &["order", "extra"],
        ..USED_WRONG
    },
    Row {
        name: "--help",
        words: &["--help"],
        ..USED_WRONG
    },
    Row {
        name: "--version",
        words: &["--version"],
        ..USED_WRONG
    },
    Row {
        name: "paint",
        words: &["paint"],
        ..USED_WRONG
    },
    Row {
        name: "paint race",
        words: &["paint", "race"],
        ..USED_WRONG
    },
    Row {
        name: "paint order more",
        words: &["paint", "order", "more"],
        ..USED_WRONG
    },
    Row {
        name: "Paint order",
        words: &["Paint", "order"],
        ..USED_WRONG
    },
    Row {
        name: "lossy 0",
        words: &["lossy", "0"],
        ..USED_WRONG
    },
    Row {
        name: "join",
        words: &["join"],
        ..USED_WRONG
    },
    Row {
        name: "join 0",
        words: &["join", "0"],
        ..USED_WRONG
    },
    Row {
        name: "join 8 0",
        words: &["join", "8", "0"],
        ..USED_WRONG
    },
    Row {
        name: "join 0 262145",
        words: &["join", "0", "262145"],
        ..USED_WRONG
    },
    Row {
        name: "join 00 0",
        words: &["join", "00", "0"],
        ..USED_WRONG
    },
    Row {
        name: "join 0 0 0",
        words: &["join", "0", "0", "0"],
        ..USED_WRONG
    },
    Row {
        name: "rewind",
        words: &["rewind"],
        ..USED_WRONG
    },
    Row {
        name: "rewind 1 1",
        words: &["rewind", "1", "1"],
        ..USED_WRONG
    },
    Row {
        name: "rewind 0 1 0",
        words: &["rewind", "0", "1", "0"],
        ..USED_WRONG
    },
    Row {
        name: "rewind 8193 1 0",
        words: &["rewind", "8193", "1", "0"],
        ..USED_WRONG
    },
    Row {
        name: "rewind 1 65 0",
        words: &["rewind", "1", "65", "0"],
        ..USED_WRONG
    },
    Row {
        name: "rewind 1 0 0",
        words: &["rewind", "1", "0", "0"],
        ..USED_WRONG
    },
    Row {
        name: "rewind 1 1 8193",
        words: &["rewind", "1", "1", "8193"],
        ..USED_WRONG
    },
    Row {
        name: "rewind 1 1 0 01",
        words: &["rewind", "1", "1", "0", "01"],
        ..USED_WRONG
    },
    Row {
        name: "rewind with seventeen ticks",
        words: &[
            "rewind", "1", "1", "0", "0", "0", "0", "0", "0", "0", "0", "0", "0", "0", "0", "0",
            "0", "0", "0", "0",
        ],
        ..USED_WRONG
    },
    Row {
        name: "Order",
        words: &["Order"],
        ..USED_WRONG
    },
    Row {
        name: "an empty word",
        words: &[""],
        ..USED_WRONG
    },
    SCORED,
    Row {
        name: "two mirrors of two players",
        front: "",
        rest: "tss match 1\nlength 6\ngrid 4 1\nmirrors 2\ndelays 0\npace 0\npickup 2 0 gold\n\
            player ann 0 0 e\nplayer bob 3 0 w\ncmd 0 0 0 1 shoot\ncmd 0 0 1 1 shoot\n\
            cmd 0 0 2 1 shoot\ncmd 5 1 0 1 go\nscript\narrive 0 0 0\narrive 0 0 1\n\
            arrive 0 0 2\narrive 0 1 0\nturn 1\narrive 1 0 0\nend\n",
        written: "{\"mirrors\":[{\"accepted\":4,\"mirror\":0,\"repairs\":0,\"scores\":[0,2],\"turned\":0},{\"\
            accepted\":0,\"mirror\":1,\"repairs\":0,\"scores\":[0,0],\"turned\":1}],\"names\":[\"ann\",\"bob\"]}\n\
            watch repairs 0\nwatch late 1\nwatch first none\ndone\n",
        logs: 2,
        kept: "0.0 0.1 0.2 1.0 t s0 t s0 t s0 t s0 t s0 t s0\nt s0 0.0 t s0 t s0 t s0 t s0 t \
            s0\n",
        ..SCORED
    },
];
