//! Texts that are refused, each at the line and with the cause of its first fault.

use crate::tests::program::Row;
use crate::tests::tables::texts::{ONE_COPY, OPENING, RECORD_FRONT, THREE_COPIES};

// A text that is refused, with the line and the cause of its first fault.
pub const REFUSED: Row = Row {
    name: "nothing at all",
    words: &["order"],
    front: "",
    rest: "",
    status: 5,
    written: "refused line 1 cause 8 end\n",
    logs: 0,
    kept: "",
};

// A record that is refused.
const FAULTY: Row = Row {
    words: &["audit"],
    ..REFUSED
};

// Match texts.
pub const REFUSALS: [Row; 25] = [
    REFUSED,
    Row {
        name: "a head of version 7",
        front: "",
        rest: "tss match 7\nlength 1\ngrid 3 1\nmirrors 1\ndelays 0\npace 0\nplayer ann 0 0 e\n\
            end\n",
        written: "refused line 1 cause 1 head\n",
        ..REFUSED
    },
    Row {
        name: "length 07",
        front: "",
        rest: "tss match 1\nlength 07\ngrid 3 1\nmirrors 1\ndelays 0\npace 0\nplayer ann 0 0 e\n\
            end\n",
        written: "refused line 2 cause 3 number\n",
        ..REFUSED
    },
    Row {
        name: "two spaces",
        front: "",
        rest: "tss match 1\nlength 1\ngrid 3  1\nmirrors 1\ndelays 0\npace 0\nplayer ann 0 0 e\n\
            end\n",
        written: "refused line 3 cause 2 shape\n",
        ..REFUSED
    },
    Row {
        name: "delays 3 3",
        front: "",
        rest: "tss match 1\nlength 1\ngrid 3 1\nmirrors 1\ndelays 3 3\npace 0\nplayer ann 0 0 e\n\
            end\n",
        written: "refused line 5 cause 6 order\n",
        ..REFUSED
    },
    Row {
        name: "nine delays",
        front: "",
        rest: "tss match 1\nlength 1\ngrid 3 1\nmirrors 1\ndelays 0 1 2 3 4 5 6 7 8\npace 0\n\
            player ann 0 0 e\nend\n",
        written: "refused line 5 cause 7 many\n",
        ..REFUSED
    },
    Row {
        name: "a player outside the grid",
        front: "",
        rest: "tss match 1\nlength 1\ngrid 3 1\nmirrors 1\ndelays 0\npace 0\nplayer ann 3 0 e\n\
            end\n",
        written: "refused line 7 cause 4 place\n",
        ..REFUSED
    },
    Row {
        name: "a name taken twice",
        front: "",
        rest: "tss match 1\nlength 1\ngrid 3 1\nmirrors 1\ndelays 0\npace 0\nplayer ann 0 0 e\n\
            player ann 1 0 e\nend\n",
        written: "refused line 8 cause 5 name\n",
        ..REFUSED
    },
    Row {
        name: "a command at the end of the match",
        front: "",
        rest: "tss match 1\nlength 1\ngrid 3 1\nmirrors 1\ndelays 0\npace 0\nplayer ann 0 0 e\n\
            cmd 1 0 0 0 go\nend\n",
        written: "refused line 8 cause 3 number\n",
        ..REFUSED
    },
    Row {
        name: "no end",
        front: "",
        rest: "tss match 1\nlength 1\ngrid 3 1\nmirrors 1\ndelays 0\npace 0\nplayer ann 0 0 e\n",
        written: "refused line 8 cause 8 end\n",
        ..REFUSED
    },
    Row {
        name: "an end without its newline",
        front: "",
        rest: "tss match 1\nlength 1\ngrid 3 1\nmirrors 1\ndelays 0\npace 0\nplayer ann 0 0 e\nend",
        written: "refused line 8 cause 8 end\n",
        ..REFUSED
    },
    Row {
        name: "a line behind the end",
        front: OPENING,
        rest: "x\n",
        written: "refused line 9 cause 8 end\n",
        ..REFUSED
    },
    Row {
        name: "a line of 121 bytes",
        front: "",
        rest: "tss match 1\nlength 1\ngrid 3 1\nmirrors 1\ndelays 0\npace 0\n\
            player aaaaaaaaaaaaaaaaaaaaaaaaaaaaaaaaaaaaaaaaaaaaaaaaaaaaaaaaaaaaaaaaaaaaaaa\
            aaaaaaaaaaaaaaaaaaaaaaaaaaaaaaaaaaaaaaaaaaa\nend\n",
        written: "refused line 7 cause 9 long\n",
        ..REFUSED
    },
    Row {
        name: "two spaces, by play",
        words: &["play"],
        front: "",
        rest: "tss match 1\nlength 1\ngrid 3  1\nmirrors 1\ndelays 0\npace 0\nplayer ann 0 0 e\n\
            end\n",
        written: "refused line 3 cause 2 shape\n",
        ..REFUSED
    },
    Row {
        name: "two spaces, by race",
        words: &["race"],
        front: "",
        rest: "tss match 1\nlength 1\ngrid 3  1\nmirrors 1\ndelays 0\npace 0\nplayer ann 0 0 e\n\
            end\n",
        written: "refused line 3 cause 2 shape\n",
        ..REFUSED
    },
    Row {
        name: "two spaces, by score",
        words: &["score"],
        front: "",
        rest: "tss match 1\nlength 1\ngrid 3  1\nmirrors 1\ndelays 0\npace 0\nplayer ann 0 0 e\n\
            end\n",
        written: "refused line 3 cause 2 shape\n",
        ..REFUSED
    },
    Row {
        name: "two spaces, by lift",
        words: &["lift"],
        front: "",
        rest: "tss match 1\nlength 1\ngrid 3  1\nmirrors 1\ndelays 0\npace 0\nplayer ann 0 0 e\n\
            end\n",
        written: "refused line 3 cause 2 shape\n",
        ..REFUSED
    },
    Row {
        name: "dash in version 1",
        front: "",
        rest: "tss match 1\nlength 1\ngrid 4 1\nmirrors 1\ndelays 0\npace 0\nplayer ann 0 0 e\n\
            cmd 0 0 0 0 dash\nend\n",
        written: "refused line 8 cause 2 shape\n",
        ..REFUSED
    },
    Row {
        name: "a race without a pace",
        words: &["race"],
        front: OPENING,
        rest: "",
        written: "refused line 6 cause 3 number\n",
        ..REFUSED
    },
    Row {
        name: "a race without a pace, with a fault behind",
        words: &["race"],
        front: "",
        rest: "tss match 1\nlength 1\ngrid 3 1\nmirrors 1\ndelays 0\npace 0\nplayer ann 3 0 e\n\
            end\n",
        written: "refused line 7 cause 4 place\n",
        ..REFUSED
    },
    Row {
        name: "a race with a pace over the longest delay",
        words: &["race"],
        front: "",
        rest: "tss match 1\nlength 1\ngrid 3 1\nmirrors 1\ndelays 4\npace 5\nplayer ann 0 0 e\n\
            end\n",
        written: "refused line 6 cause 3 number\n",
        ..REFUSED
    },
    Row {
        name: "an arrival of no command",
        words: &["play"],
        front: ONE_COPY,
        rest: "script\narrive 0 0 1\nend\n",
        written: "refused line 10 cause 5 name\n",
        ..REFUSED
    },
    Row {
        name: "an act that is none",
        front: "",
        rest: "tss match 1\nlength 6\ngrid 7 1\nmirrors 1\ndelays 2\npace 1\nplayer ann 0 0 e\n\
            cmd 1 0 0 0 go\ncmd 3 0 1 0 go\ncmd 4 0 2 0 rihgt\nscript\nturn 0\nturn 0\n\
            arrive 0 0 1\nturn 0\narrive 0 0 0\narrive 0 0 0\nturn 0\nturn 0\nturn 0\nturn 0\n\
            arrive 0 0 2\nend\n",
        written: "refused line 10 cause 2 shape\n",
        ..REFUSED
    },
    Row {
        name: "a match is no record",
        words: &["audit"],
        front: OPENING,
        rest: "",
        written: "refused line 1 cause 1 head\n",
        ..REFUSED
    },
    Row {
        name: "a record is no match",
        front: RECORD_FRONT,
        rest: "log 0 4\ntick\nstep 0\ntick\nstep 1\nworld 0 0 1\nlive ann 0 0 e 3 5 0\n\
            world 0 1 1\nlive ann 0 0 e 3 5 0\ndone\n",
        written: "refused line 1 cause 1 head\n",
        ..REFUSED
    },
];

// Records.
pub const FAULTY_RECORDS: [Row; 28] = [
    Row {
        name: "an event before a log",
        front: RECORD_FRONT,
        rest: "tick\n",
        written: "refused line 10 cause 2 shape\n",
        ..FAULTY
    },
    Row {
        name: "as many events as a log may have",
        front: RECORD_FRONT,
        rest: "log 0 131072\n",
        written: "refused line 11 cause 8 end\n",
        ..FAULTY
    },
    Row {
        name: "more events than a log may have",
        front: RECORD_FRONT,
        rest: "log 0 131073\n",
        written: "refused line 10 cause 7 many\n",
        ..FAULTY
    },
    Row {
        name: "the same of a log that is not there",
        front: RECORD_FRONT,
        rest: "log 1 131073\n",
        written: "refused line 10 cause 7 many\n",
        ..FAULTY
    },
    Row {
        name: "a log that is not there",
        front: RECORD_FRONT,
        rest: "log 1 0\n",
        written: "refused line 10 cause 3 number\n",
        ..FAULTY
    },
    Row {
        name: "a canonical number",
        front: RECORD_FRONT,
        rest: "log 0 01\n",
        written: "refused line 10 cause 3 number\n",
        ..FAULTY
    },
    Row {
        name: "an event too many",
        front: RECORD_FRONT,
        rest: "log 0 1\ntick\ntick\n",
        written: "refused line 12 cause 2 shape\n",
        ..FAULTY
    },
    Row {
        name: "an arrival of no command",
        front: RECORD_FRONT,
        rest: "log 0 1\narrive 0 7\n",
        written: "refused line 11 cause 5 name\n",
        ..FAULTY
    },
    Row {
        name: "a step of no copy",
        front: RECORD_FRONT,
        rest: "log 0 1\nstep 2\n",
        written: "refused line 11 cause 3 number\n",
        ..FAULTY
    },
    Row {
        name: "a plan that is not there",
        front: RECORD_FRONT,
        rest: "log 0 1\nrestagger 1\n",
        written: "refused line 11 cause 3 number\n",
        ..FAULTY
    },
    Row {
        name: "an event too few",
        front: RECORD_FRONT,
        rest: "log 0 1\nworld 0 0 0\n",
        written: "refused line 11 cause 2 shape\n",
        ..FAULTY
    },
    Row {
        name: "the second world first",
        front: RECORD_FRONT,
        rest: "log 0 0\nworld 0 1 0\n",
        written: "refused line 11 cause 6 order\n",
        ..FAULTY
    },
    Row {
        name: "a world of no copy",
        front: RECORD_FRONT,
        rest: "log 0 0\nworld 0 2 0\n",
        written: "refused line 11 cause 3 number\n",
        ..FAULTY
    },
    Row {
        name: "a time of 2 to the 32",
        front: RECORD_FRONT,
        rest: "log 0 0\nworld 0 0 4294967296\n",
        written: "refused line 11 cause 3 number\n",
        ..FAULTY
    },
    Row {
        name: "a line before a world",
        front: RECORD_FRONT,
        rest: "log 0 0\nlive ann\n",
        written: "refused line 11 cause 2 shape\n",
        ..FAULTY
    },
    Row {
        name: "two spaces in a line",
        front: RECORD_FRONT,
        rest: "log 0 0\nworld 0 0 0\nlive  ann\n",
        written: "refused line 12 cause 2 shape\n",
        ..FAULTY
    },
    Row {
        name: "a line of 121 bytes",
        front: RECORD_FRONT,
        rest: "log 0 0\nworld 0 0 0\n\
            live aaaaaaaaaaaaaaaaaaaaaaaaaaaaaaaaaaaaaaaaaaaaaaaaaaaaaaaaaaaaaaaaaaaaaaaaa\
            aaaaaaaaaaaaaaaaaaaaaaaaaaaaaaaaaaaaaaaaaaa\n",
        written: "refused line 12 cause 9 long\n",
        ..FAULTY
    },
    Row {
        name: "a world too few",
        front: RECORD_FRONT,
        rest: "log 0 0\nworld 0 0 0\ndone\n",
        written: "refused line 12 cause 2 shape\n",
        ..FAULTY
    },
    Row {
        name: "a log too many",
        front: RECORD_FRONT,
        rest: "log 0 0\nworld 0 0 0\nworld 0 1 0\nlog 0 0\n",
        written: "refused line 13 cause 2 shape\n",
        ..FAULTY
    },
    Row {
        name: "no end",
        front: RECORD_FRONT,
        rest: "log 0 0\nworld 0 0 0\nworld 0 1 0\n",
        written: "refused line 13 cause 8 end\n",
        ..FAULTY
    },
    Row {
        name: "an end without its newline",
        front: RECORD_FRONT,
        rest: "log 0 0\nworld 0 0 0\nworld 0 1 0\ndone",
        written: "refused line 13 cause 8 end\n",
        ..FAULTY
    },
    Row {
        name: "an empty line behind the end",
        front: RECORD_FRONT,
        rest: "log 0 0\nworld 0 0 0\nworld 0 1 0\ndone\n\n",
        written: "refused line 14 cause 8 end\n",
        ..FAULTY
    },
    Row {
        name: "nothing at all",
        front: "",
        rest: "",
        written: "refused line 1 cause 8 end\n",
        ..FAULTY
    },
    Row {
        name: "a head of version 2",
        front: "",
        rest: "tss record 2\n",
        written: "refused line 1 cause 1 head\n",
        ..FAULTY
    },
    Row {
        name: "a match of version 3",
        front: "",
        rest: "tss record 1\ntss match 3\n",
        written: "refused line 2 cause 1 head\n",
        ..FAULTY
    },
    Row {
        name: "a fault of the match",
        front: "",
        rest: "tss record 1\ntss match 1\nlength 0\n",
        written: "refused line 3 cause 3 number\n",
        ..FAULTY
    },
    Row {
        name: "a player outside the grid",
        front: "",
        rest: "tss record 1\ntss match 1\nlength 1\ngrid 3 1\nmirrors 1\ndelays 0\npace 0\n\
            player ann 3 0 e\n",
        written: "refused line 8 cause 4 place\n",
        ..FAULTY
    },
    Row {
        name: "the second log first",
        front: "",
        rest: "tss record 1\ntss match 1\nlength 1\ngrid 3 1\nmirrors 2\ndelays 0\npace 0\n\
            player ann 0 0 e\nend\nlog 1 0\n",
        written: "refused line 10 cause 6 order\n",
        ..FAULTY
    },
];

// Texts that are torn in each place: each front is refused at its last line, which is not closed.
pub const TORN: [Row; 3] = [
    Row {
        name: "a match with a script",
        words: &["play"],
        front: THREE_COPIES,
        rest: "script\nturn 0\nend\n",
        ..REFUSED
    },
    Row {
        name: "a small record",
        words: &["audit"],
        front: RECORD_FRONT,
        rest: "log 0 4\ntick\nstep 0\ntick\nstep 1\nworld 0 0 1\nlive ann 0 0 e 3 5 0\n\
            world 0 1 1\nlive ann 0 0 e 3 5 0\ndone\n",
        ..REFUSED
    },
    Row {
        name: "a record with lines of each kind",
        words: &["audit"],
        front: "",
        rest: "tss record 1\ntss match 1\nlength 3\ngrid 3 1\nmirrors 2\ndelays 0 1\npace 1\n\
            plan 1 2\nplayer ann 0 0 e\ncmd 0 1 7 0 go\nend\nlog 0 3\ntick\narrive 1 7\n\
            restagger 1\nworld 0 0 0\nlive ann 0 0 e 3 5 0\nworld 0 1 4294967295\nlog 1 2\n\
            tick\nstep 0\nworld 1 0 1\nworld 1 1 0\nshot\nitem . . .\ndone\n",
        ..REFUSED
    },
];
