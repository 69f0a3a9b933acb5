//! Match texts, read or refused: what `lift` prints.

use crate::tests::program::Row;
use crate::tests::tables::texts::{FIVE_BEHIND, OPENING};

// A text of version 1 is read, and lifted: the same match, in version 2.
pub const LIFTED: Row = Row {
    name: "lift",
    words: &["lift"],
    front: OPENING,
    rest: "",
    status: 0,
    written: "tss match 2\nlength 1\ngrid 3 1\nmirrors 1\ndelays 0\npace 0\nplayer ann 0 0 e\n\
            end\n",
    logs: 0,
    kept: "",
};

// Match texts of version 1, and the same in version 2 where they are read.
pub const LIFTS: [Row; 31] = [
    LIFTED,
    Row {
        name: "lift, and lift again",
        front: "",
        rest: "tss match 2\nlength 1\ngrid 3 1\nmirrors 1\ndelays 0\npace 0\nplayer ann 0 0 e\n\
            end\n",
        written: "tss match 2\nlength 1\ngrid 3 1\nmirrors 1\ndelays 0\npace 0\nplayer ann 0 0 e\n\
            end\n",
        ..LIFTED
    },
    Row {
        name: "several copies",
        front: "",
        rest: "tss match 1\nlength 1\ngrid 3 1\nmirrors 2\ndelays 0 2\npace 0\nplayer ann 0 0 e\n\
            end\n",
        written: "tss match 2\nlength 1\ngrid 3 1\nmirrors 2\ndelays 0 2\npace 0\nplayer ann 0 0 e\n\
            end\n",
        ..LIFTED
    },
    Row {
        name: "lines of each kind",
        front: "",
        rest: "tss match 1\nlength 2\ngrid 3 2\nmirrors 2\ndelays 0 5\npace 5\nplan 1 2\nwall 1 0\n\
            pickup 1 1 gold\nplayer ann 2 0 n\ncmd 1 1 9 0 go\nscript\nturn 1\narrive 0 1 9\n\
            restagger 1 1\nworld 0 1\nrun 1 0\nend\n",
        written: "tss match 2\nlength 2\ngrid 3 2\nmirrors 2\ndelays 0 5\npace 5\nplan 1 2\nwall 1 0\n\
            pickup 1 1 gold\nplayer ann 2 0 n\ncmd 1 1 9 0 go\nscript\nturn 1\narrive 0 1 9\n\
            restagger 1 1\nworld 0 1\nrun 1 0\nend\n",
        ..LIFTED
    },
    Row {
        name: "least",
        front: FIVE_BEHIND,
        rest: "pace 0\nplayer ann 0 0 e\nend\n",
        written: "tss match 2\nlength 2\ngrid 3 1\nmirrors 1\ndelays 5\npace 0\nplayer ann 0 0 e\n\
            end\n",
        ..LIFTED
    },
    Row {
        name: "two commands",
        front: FIVE_BEHIND,
        rest: "pace 5\nplayer ann 2 0 n\ncmd 1 0 9 0 go\ncmd 0 0 3 0 left\nend\n",
        written: "tss match 2\nlength 2\ngrid 3 1\nmirrors 1\ndelays 5\npace 5\nplayer ann 2 0 n\n\
            cmd 1 0 9 0 go\ncmd 0 0 3 0 left\nend\n",
        ..LIFTED
    },
    Row {
        name: "pace over the longest delay",
        front: FIVE_BEHIND,
        rest: "pace 6\nplayer ann 2 0 n\nend\n",
        status: 5,
        written: "refused line 6 cause 3 number\n",
        ..LIFTED
    },
    Row {
        name: "pace 05",
        front: FIVE_BEHIND,
        rest: "pace 05\nplayer ann 2 0 n\nend\n",
        status: 5,
        written: "refused line 6 cause 3 number\n",
        ..LIFTED
    },
    Row {
        name: "two spaces before a pace",
        front: FIVE_BEHIND,
        rest: "pace  5\nplayer ann 2 0 n\nend\n",
        status: 5,
        written: "refused line 6 cause 2 shape\n",
        ..LIFTED
    },
    Row {
        name: "a capital in a name",
        front: FIVE_BEHIND,
        rest: "pace 5\nplayer Ann 2 0 n\nend\n",
        status: 5,
        written: "refused line 7 cause 5 name\n",
        ..LIFTED
    },
    Row {
        name: "a player outside the grid",
        front: FIVE_BEHIND,
        rest: "pace 5\nplayer ann 3 0 n\nend\n",
        status: 5,
        written: "refused line 7 cause 4 place\n",
        ..LIFTED
    },
    Row {
        name: "a wall",
        front: FIVE_BEHIND,
        rest: "pace 5\nwall 1 0\nplayer ann 2 0 n\nend\n",
        written: "tss match 2\nlength 2\ngrid 3 1\nmirrors 1\ndelays 5\npace 5\nwall 1 0\n\
            player ann 2 0 n\nend\n",
        ..LIFTED
    },
    Row {
        name: "a command at the end",
        front: FIVE_BEHIND,
        rest: "pace 5\nplayer ann 2 0 n\ncmd 2 0 9 0 go\nend\n",
        status: 5,
        written: "refused line 8 cause 3 number\n",
        ..LIFTED
    },
    Row {
        name: "a number twice",
        front: FIVE_BEHIND,
        rest: "pace 5\nplayer ann 2 0 n\ncmd 1 0 9 0 go\ncmd 0 0 9 0 go\nend\n",
        status: 5,
        written: "refused line 9 cause 5 name\n",
        ..LIFTED
    },
    Row {
        name: "shoot",
        front: FIVE_BEHIND,
        rest: "pace 5\nplayer ann 2 0 n\ncmd 1 0 9 0 shoot\nend\n",
        written: "tss match 2\nlength 2\ngrid 3 1\nmirrors 1\ndelays 5\npace 5\nplayer ann 2 0 n\n\
            cmd 1 0 9 0 shoot\nend\n",
        ..LIFTED
    },
    Row {
        name: "an empty line behind the end",
        front: FIVE_BEHIND,
        rest: "pace 5\nplayer ann 2 0 n\nend\n\n",
        status: 5,
        written: "refused line 9 cause 8 end\n",
        ..LIFTED
    },
    Row {
        name: "an end without its newline",
        front: FIVE_BEHIND,
        rest: "pace 5\nplayer ann 2 0 n\nend",
        status: 5,
        written: "refused line 8 cause 8 end\n",
        ..LIFTED
    },
    Row {
        name: "events of each kind",
        front: FIVE_BEHIND,
        rest: "pace 5\nplayer ann 2 0 n\ncmd 1 0 9 0 go\nscript\ntick 0\narrive 0 0 9\nturn 0\n\
            step 0 0\nend\n",
        written: "tss match 2\nlength 2\ngrid 3 1\nmirrors 1\ndelays 5\npace 5\nplayer ann 2 0 n\n\
            cmd 1 0 9 0 go\nscript\ntick 0\narrive 0 0 9\nturn 0\nstep 0 0\nend\n",
        ..LIFTED
    },
    Row {
        name: "a script without lines",
        front: FIVE_BEHIND,
        rest: "pace 5\nplayer ann 2 0 n\nscript\nend\n",
        status: 5,
        written: "refused line 9 cause 2 shape\n",
        ..LIFTED
    },
    Row {
        name: "a script without an end",
        front: FIVE_BEHIND,
        rest: "pace 5\nplayer ann 2 0 n\nscript\ntick 0\n",
        status: 5,
        written: "refused line 10 cause 8 end\n",
        ..LIFTED
    },
    Row {
        name: "a script twice",
        front: FIVE_BEHIND,
        rest: "pace 5\nplayer ann 2 0 n\nscript\nscript\ntick 0\nend\n",
        status: 5,
        written: "refused line 9 cause 2 shape\n",
        ..LIFTED
    },
    Row {
        name: "a command in a script",
        front: FIVE_BEHIND,
        rest: "pace 5\nplayer ann 2 0 n\nscript\ntick 0\ncmd 1 0 9 0 go\nend\n",
        status: 5,
        written: "refused line 10 cause 2 shape\n",
        ..LIFTED
    },
    Row {
        name: "a world",
        front: FIVE_BEHIND,
        rest: "pace 5\nplayer ann 2 0 n\nscript\nworld 0 0\nend\n",
        written: "tss match 2\nlength 2\ngrid 3 1\nmirrors 1\ndelays 5\npace 5\nplayer ann 2 0 n\n\
            script\nworld 0 0\nend\n",
        ..LIFTED
    },
    Row {
        name: "a turn of no mirror",
        front: FIVE_BEHIND,
        rest: "pace 5\nplayer ann 2 0 n\nscript\nturn 1\nend\n",
        status: 5,
        written: "refused line 9 cause 3 number\n",
        ..LIFTED
    },
    Row {
        name: "step 0 00",
        front: FIVE_BEHIND,
        rest: "pace 5\nplayer ann 2 0 n\nscript\nstep 0 00\nend\n",
        status: 5,
        written: "refused line 9 cause 3 number\n",
        ..LIFTED
    },
    Row {
        name: "an arrival of no command",
        front: FIVE_BEHIND,
        rest: "pace 5\nplayer ann 2 0 n\ncmd 1 0 9 0 go\nscript\narrive 0 0 8\nend\n",
        status: 5,
        written: "refused line 10 cause 5 name\n",
        ..LIFTED
    },
    Row {
        name: "the plan in force",
        front: FIVE_BEHIND,
        rest: "pace 5\nplayer ann 2 0 n\nscript\nrestagger 0 0\nend\n",
        written: "tss match 2\nlength 2\ngrid 3 1\nmirrors 1\ndelays 5\npace 5\nplayer ann 2 0 n\n\
            script\nrestagger 0 0\nend\n",
        ..LIFTED
    },
    Row {
        name: "another plan",
        front: FIVE_BEHIND,
        rest: "pace 5\nplan 6\nplayer ann 2 0 n\nscript\nrestagger 0 1\nend\n",
        written: "tss match 2\nlength 2\ngrid 3 1\nmirrors 1\ndelays 5\npace 5\nplan 6\n\
            player ann 2 0 n\nscript\nrestagger 0 1\nend\n",
        ..LIFTED
    },
    Row {
        name: "a plan that is not there",
        front: FIVE_BEHIND,
        rest: "pace 5\nplan 6\nplayer ann 2 0 n\nscript\nrestagger 0 2\nend\n",
        status: 5,
        written: "refused line 10 cause 3 number\n",
        ..LIFTED
    },
    Row {
        name: "dash in version 1",
        front: FIVE_BEHIND,
        rest: "pace 5\nplayer ann 2 0 n\ncmd 1 0 9 0 dash\nend\n",
        status: 5,
        written: "refused line 8 cause 2 shape\n",
        ..LIFTED
    },
    Row {
        name: "a wall twice",
        front: FIVE_BEHIND,
        rest: "pace 5\nwall 1 0\nwall 1 0\nplayer ann 2 0 n\nend\n",
        status: 5,
        written: "refused line 8 cause 6 order\n",
        ..LIFTED
    },
];
