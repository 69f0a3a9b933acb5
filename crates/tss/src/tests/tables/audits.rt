//! Records, and what `audit` says of them.

use crate::tests::program::Row;
use crate::tests::tables::texts::RECORD_FRONT;

// One mirror with two copies, and a record that is legal.
pub const AUDITED: Row = Row {
    name: "audit small record",
    words: &["audit"],
    front: RECORD_FRONT,
    rest: "log 0 4\ntick\nstep 0\ntick\nstep 1\nworld 0 0 1\nlive ann 0 0 e 3 5 0\n\
            world 0 1 1\nlive ann 0 0 e 3 5 0\ndone\n",
    status: 0,
    written: "legal 4\ndone\n",
    logs: 0,
    kept: "",
};

// Records, and the verdict on each.
pub const AUDITS: [Row; 12] = [
    AUDITED,
    Row {
        name: "audit small record, a step before its tick",
        front: RECORD_FRONT,
        rest: "log 0 4\nstep 0\ntick\ntick\nstep 1\nworld 0 0 1\nlive ann 0 0 e 3 5 0\n\
            world 0 1 1\nlive ann 0 0 e 3 5 0\ndone\n",
        status: 6,
        written: "not legal mirror 0 place 0 why idle\n",
        ..AUDITED
    },
    Row {
        name: "the same command arrives again",
        front: "",
        rest: "tss record 1\ntss match 1\nlength 1\ngrid 3 1\nmirrors 1\ndelays 0\npace 0\n\
            player ann 0 0 e\ncmd 0 0 7 0 go\nend\nlog 0 4\narrive 0 7\ntick\narrive 0 7\nstep 0\n\
            world 0 0 1\nlive ann 1 0 e 3 5 0\ndone\n",
        status: 6,
        written: "not legal mirror 0 place 2 why repeat\n",
        ..AUDITED
    },
    Row {
        name: "a step that is idle",
        front: RECORD_FRONT,
        rest: "log 0 5\ntick\nstep 0\nstep 0\ntick\nstep 1\nworld 0 0 1\nlive ann 0 0 e 3 5 0\n\
            world 0 1 1\nlive ann 0 0 e 3 5 0\ndone\n",
        status: 6,
        written: "not legal mirror 0 place 2 why idle\n",
        ..AUDITED
    },
    Row {
        name: "audit small record, another world",
        front: RECORD_FRONT,
        rest: "log 0 4\ntick\nstep 0\ntick\nstep 1\nworld 0 0 1\nlive ann 0 0 e 3 5 0\n\
            world 0 1 1\nlive ann 1 0 e 3 5 0\ndone\n",
        status: 6,
        written: "not legal mirror 0 place 1 why world\n",
        ..AUDITED
    },
    Row {
        name: "over in a log",
        front: RECORD_FRONT,
        rest: "log 0 5\ntick\nstep 0\ntick\ntick\nstep 1\nworld 0 0 1\nlive ann 0 0 e 3 5 0\n\
            world 0 1 1\nlive ann 0 0 e 3 5 0\ndone\n",
        status: 6,
        written: "not legal mirror 0 place 3 why over\n",
        ..AUDITED
    },
    Row {
        name: "a copy that stands still",
        front: RECORD_FRONT,
        rest: "log 0 2\ntick\nstep 0\nworld 0 0 1\nlive ann 0 0 e 3 5 0\nworld 0 1 1\n\
            live ann 0 0 e 3 5 0\ndone\n",
        status: 6,
        written: "not legal mirror 0 place 1 why world\n",
        ..AUDITED
    },
    Row {
        name: "a world of another time",
        front: RECORD_FRONT,
        rest: "log 0 4\ntick\nstep 0\ntick\nstep 1\nworld 0 0 0\nlive ann 0 0 e 3 5 0\n\
            world 0 1 1\nlive ann 0 0 e 3 5 0\ndone\n",
        status: 6,
        written: "not legal mirror 0 place 0 why world\n",
        ..AUDITED
    },
    Row {
        name: "worlds without lines",
        front: RECORD_FRONT,
        rest: "log 0 1\ntick\nworld 0 0 0\nworld 0 1 0\ndone\n",
        status: 6,
        written: "not legal mirror 0 place 0 why world\n",
        ..AUDITED
    },
    Row {
        name: "lines that no block has",
        front: RECORD_FRONT,
        rest: "log 0 0\nworld 0 0 0\nlive\nworld 0 1 9\nitem x\ndone\n",
        status: 6,
        written: "not legal mirror 0 place 0 why world\n",
        ..AUDITED
    },
    Row {
        name: "a match that was played",
        front: "",
        rest: "tss record 1\ntss match 1\nlength 6\ngrid 7 1\nmirrors 1\ndelays 2\npace 1\n\
            player ann 0 0 e\ncmd 1 0 0 0 go\ncmd 3 0 1 0 go\ncmd 4 0 2 0 right\nscript\n\
            turn 0\nturn 0\narrive 0 0 1\nturn 0\narrive 0 0 0\narrive 0 0 0\nturn 0\nturn 0\n\
            turn 0\nturn 0\narrive 0 0 2\nend\nlog 0 17\ntick\ntick\narrive 0 1\ntick\nstep 0\n\
            arrive 0 0\ntick\nstep 0\ntick\nstep 0\ntick\nstep 0\ntick\nstep 0\narrive 0 2\n\
            tick\nstep 0\nworld 0 0 6\nlive ann 2 0 e 3 5 0\ndone\n",
        status: 0,
        written: "legal 17\ndone\n",
        ..AUDITED
    },
    Row {
        name: "two mirrors of three copies",
        front: "",
        rest: "tss record 1\ntss match 1\nlength 10\ngrid 9 1\nmirrors 2\ndelays 0 2 4\npace 4\n\
            player ann 0 0 e\ncmd 1 0 0 0 go\ncmd 4 0 1 0 go\ncmd 3 0 2 0 go\ncmd 5 0 3 0 go\n\
            cmd 0 0 4 0 go\nend\nlog 0 49\ntick\nstep 0\narrive 0 0\ntick\nstep 0\ntick\n\
            step 0\nstep 1\ntick\nstep 0\nstep 1\narrive 0 1\ntick\nstep 0\nstep 1\nstep 2\n\
            arrive 0 2\ntick\nstep 0\nstep 1\nstep 2\ntick\nstep 0\nstep 1\nstep 2\ntick\n\
            step 0\nstep 1\nstep 2\narrive 0 3\ntick\nstep 0\nstep 1\nstep 2\narrive 0 4\ntick\n\
            step 0\nstep 1\nstep 2\ntick\nstep 1\nstep 2\ntick\nstep 1\nstep 2\ntick\nstep 2\n\
            tick\nstep 2\nworld 0 0 10\nlive ann 4 0 e 3 5 0\nworld 0 1 10\n\
            live ann 4 0 e 3 5 0\nworld 0 2 10\nlive ann 4 0 e 3 5 0\nlog 1 48\ntick\nstep 0\n\
            tick\nstep 0\ntick\nstep 0\nstep 1\narrive 0 0\narrive 0 4\ntick\nstep 0\nstep 1\n\
            tick\nstep 0\nstep 1\nstep 2\ntick\nstep 0\nstep 1\nstep 2\narrive 0 2\ntick\n\
            step 0\nstep 1\nstep 2\narrive 0 1\ntick\nstep 0\nstep 1\nstep 2\ntick\nstep 0\n\
            step 1\nstep 2\ntick\nstep 0\nstep 1\nstep 2\ntick\nstep 1\nstep 2\ntick\nstep 1\n\
            step 2\ntick\nstep 2\ntick\nstep 2\nworld 1 0 10\nlive ann 4 0 e 3 5 0\n\
            world 1 1 10\nlive ann 4 0 e 3 5 0\nworld 1 2 10\nlive ann 4 0 e 3 5 0\ndone\n",
        status: 0,
        written: "legal 97\ndone\n",
        ..AUDITED
    },
];
