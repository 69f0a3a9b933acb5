//! Lines with two faults: each pair of checks that follow one another in the order of the checks of a
//! line. The first of the two is told.

use crate::tests::program::Row;
use crate::tests::tables::refusals::REFUSED;
use crate::tests::tables::texts::{OPENING, RECORD_FRONT};

// The head of a match of one tick on a grid of 3 by 2 cells, with one mirror of two copies.
const HEAD: &str = "tss match 1\n\
    length 1\n\
    grid 3 2\n\
    mirrors 1\n\
    delays 0 1\n\
    pace 0\n";

// The same, with as many plans as there may be beside plan 0.
const WITH_PLANS: &str = "tss match 1\n\
    length 1\n\
    grid 3 2\n\
    mirrors 1\n\
    delays 0 1\n\
    pace 0\n\
    plan 0 1\n\
    plan 0 1\n\
    plan 0 1\n\
    plan 0 1\n\
    plan 0 1\n\
    plan 0 1\n\
    plan 0 1\n";

// With a wall, a pickup, a player and a command, up to the script.
const WITH_ALL: &str = "tss match 1\n\
    length 1\n\
    grid 3 2\n\
    mirrors 1\n\
    delays 0 1\n\
    pace 0\n\
    wall 1 1\n\
    pickup 2 1 gold\n\
    player ann 0 0 e\n\
    cmd 0 0 0 0 go\n";

const WITH_WALL: &str = "tss match 1\n\
    length 1\n\
    grid 3 2\n\
    mirrors 1\n\
    delays 0 1\n\
    pace 0\n\
    wall 1 1\n";

// A match of two mirrors, in front of the first log of its record.
const TWO_LOGS: &str = "tss record 1\n\
    tss match 1\n\
    length 1\n\
    grid 3 1\n\
    mirrors 2\n\
    delays 0 1\n\
    pace 0\n\
    player ann 0 0 e\n\
    end\n";

const FAULTY: Row = Row {
    front: HEAD,
    ..REFUSED
};

const FAULTY_RECORD: Row = Row {
    words: &["audit"],
    front: RECORD_FRONT,
    ..REFUSED
};

// Of match texts and of records.
pub const TWO_FAULTS: [Row; 29] = [
    Row {
        name: "not closed, and no head",
        front: "",
        rest: "tss match 7",
        written: "refused line 1 cause 8 end\n",
        ..FAULTY
    },
    Row {
        name: "not closed, and a kind that isn't there",
        rest: "plyer ann 0 0 e",
        written: "refused line 7 cause 8 end\n",
        ..FAULTY
    },
    Row {
        name: "no head, and two spaces",
        front: "",
        rest: "tss  match 1\n",
        written: "refused line 1 cause 1 head\n",
        ..FAULTY
    },
    Row {
        name: "a width of one number, and an eighth plan",
        front: WITH_PLANS,
        rest: "plan 0\n",
        written: "refused line 14 cause 2 shape\n",
        ..FAULTY
    },
    Row {
        name: "an eighth plan, and no canonical number",
        front: WITH_PLANS,
        rest: "plan 00 1\n",
        written: "refused line 14 cause 7 many\n",
        ..FAULTY
    },
    Row {
        name: "nine delays, and one out of range",
        front: "tss match 1\nlength 1\ngrid 3 2\nmirrors 1\n",
        rest: "delays 0 1 2 3 4 5 6 7 1025\n",
        written: "refused line 5 cause 7 many\n",
        ..FAULTY
    },
    Row {
        name: "a delay out of range, and delays that fall",
        front: "tss match 1\nlength 1\ngrid 3 2\nmirrors 1\n",
        rest: "delays 1025 4\n",
        written: "refused line 5 cause 3 number\n",
        ..FAULTY
    },
    Row {
        name: "a plan's delay that isn't canonical, and delays that fall",
        rest: "plan 04 3\n",
        written: "refused line 7 cause 3 number\n",
        ..FAULTY
    },
    Row {
        name: "a wall's number, and its place",
        rest: "wall 03 0\n",
        written: "refused line 7 cause 3 number\n",
        ..FAULTY
    },
    Row {
        name: "a wall outside, and not behind the last",
        front: WITH_WALL,
        rest: "wall 3 0\n",
        written: "refused line 8 cause 4 place\n",
        ..FAULTY
    },
    Row {
        name: "a kind that is none, and a pickup's number",
        rest: "pickup 00 0 silver\n",
        written: "refused line 7 cause 2 shape\n",
        ..FAULTY
    },
    Row {
        name: "a pickup's number, and its place",
        rest: "pickup 03 0 gold\n",
        written: "refused line 7 cause 3 number\n",
        ..FAULTY
    },
    Row {
        name: "a facing that is none, and a player's number",
        rest: "player ann 00 0 north\n",
        written: "refused line 7 cause 2 shape\n",
        ..FAULTY
    },
    Row {
        name: "a player's number, and a name that is none",
        rest: "player Ann 0 00 n\n",
        written: "refused line 7 cause 3 number\n",
        ..FAULTY
    },
    Row {
        name: "a name that is none, and a cell outside",
        rest: "player Ann 3 0 n\n",
        written: "refused line 7 cause 5 name\n",
        ..FAULTY
    },
    Row {
        name: "a name that is none, and a cell with a wall",
        front: WITH_WALL,
        rest: "player Ann 1 1 n\n",
        written: "refused line 8 cause 5 name\n",
        ..FAULTY
    },
    Row {
        name: "a name and a home that are there already",
        rest: "player ann 0 0 n\nplayer ann 0 0 n\n",
        written: "refused line 8 cause 5 name\n",
        ..FAULTY
    },
    Row {
        name: "an act that is none, and a command's time",
        rest: "player ann 0 0 n\ncmd 1 0 0 0 fly\n",
        written: "refused line 8 cause 2 shape\n",
        ..FAULTY
    },
    Row {
        name: "a command's time, and a player who isn't there",
        rest: "player ann 0 0 n\ncmd 1 0 0 1 go\n",
        written: "refused line 8 cause 3 number\n",
        ..FAULTY
    },
    Row {
        name: "a command's number, and a name that stands already",
        rest: "player ann 0 0 n\ncmd 0 0 0 0 go\ncmd 1 0 0 0 go\n",
        written: "refused line 9 cause 3 number\n",
        ..FAULTY
    },
    Row {
        name: "a word too many, and a mirror that isn't there",
        front: WITH_ALL,
        rest: "script\ntick 1 0\nend\n",
        written: "refused line 12 cause 2 shape\n",
        ..FAULTY
    },
    Row {
        name: "an arrival's mirror, and a command that isn't there",
        front: WITH_ALL,
        rest: "script\narrive 1 0 7\nend\n",
        written: "refused line 12 cause 3 number\n",
        ..FAULTY
    },
    Row {
        name: "not closed, and behind the end",
        front: OPENING,
        rest: "x",
        written: "refused line 9 cause 8 end\n",
        ..FAULTY
    },
    Row {
        name: "a record that isn't closed, and no head",
        front: "",
        rest: "tss record 2",
        written: "refused line 1 cause 8 end\n",
        ..FAULTY_RECORD
    },
    Row {
        name: "a log with a word too many, and too many events",
        rest: "log 0 131073 0\n",
        written: "refused line 10 cause 2 shape\n",
        ..FAULTY_RECORD
    },
    Row {
        name: "a log's number that isn't canonical, and another mirror's turn",
        front: TWO_LOGS,
        rest: "log 1 00\n",
        written: "refused line 10 cause 3 number\n",
        ..FAULTY_RECORD
    },
    Row {
        name: "a recorded arrival's mirror, and a command that isn't there",
        rest: "log 0 1\narrive 1 7\n",
        written: "refused line 11 cause 3 number\n",
        ..FAULTY_RECORD
    },
    Row {
        name: "a world's time that isn't canonical, and another copy's turn",
        rest: "log 0 0\nworld 0 1 00\n",
        written: "refused line 11 cause 3 number\n",
        ..FAULTY_RECORD
    },
    Row {
        name: "a line too long, where no world is under way",
        rest: "log 0 0\n\
            live aaaaaaaaaaaaaaaaaaaaaaaaaaaaaaaaaaaaaaaaaaaaaaaaaaaaaaaaaaaaaaaaaaaaaaaaa\
            aaaaaaaaaaaaaaaaaaaaaaaaaaaaaaaaaaaaaaaaaaa\n",
        written: "refused line 11 cause 9 long\n",
        ..FAULTY_RECORD
    },
];
