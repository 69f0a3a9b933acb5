//! Whole plays: worlds and runs on the way, repairs, and delays that change.

use crate::tests::program::Row;
use crate::tests::tables::texts::{ONE_COPY, SHOTS, THREE_COPIES, TIES, TWO_COPIES};

// The match that README follows: a command just in time, the same once more, and one that is late.
pub const PLAYED: Row = Row {
    name: "the match that README follows",
    words: &["play"],
    front: "",
    rest: "tss match 1\nlength 6\ngrid 7 1\nmirrors 1\ndelays 2\npace 1\nplayer ann 0 0 e\n\
            cmd 1 0 0 0 go\ncmd 3 0 1 0 go\ncmd 4 0 2 0 right\nscript\nturn 0\nturn 0\n\
            arrive 0 0 1\nturn 0\narrive 0 0 0\narrive 0 0 0\nturn 0\nturn 0\nturn 0\nturn 0\n\
            arrive 0 0 2\nend\n",
    status: 0,
    written: "repeat 0 0 0\nlate 0 0 2 5\nmirror 0 accepted 2 turned 1 repairs 0\nworld 0 0 6\n\
            live ann 2 0 e 3 5 0\ndone\n",
    logs: 1,
    kept: "t t 0.1 t s0 0.0 t s0 t s0 t s0 t s0 0.2 t s0\n",
};

// Scripts, what playing them prints, and which events are kept.
pub const PLAYS: [Row; 23] = [
    PLAYED,
    Row {
        name: "ties go by mirror",
        front: TIES,
        rest: "script\narrive 0 1 0\narrive 0 0 0\narrive 1 0 0\narrive 1 1 0\nend\n",
        written: "mirror 0 accepted 2 turned 0 repairs 0\nworld 0 0 4\nlive ann 1 0 e 3 5 0\n\
            live bob 2 0 w 3 5 0\nworld 0 1 4\nlive ann 1 0 e 3 5 0\nlive bob 2 0 w 3 5 0\n\
            mirror 1 accepted 2 turned 0 repairs 0\nworld 1 0 4\nlive ann 1 0 e 3 5 0\n\
            live bob 2 0 w 3 5 0\nworld 1 1 4\nlive ann 1 0 e 3 5 0\nlive bob 2 0 w 3 5 0\n\
            done\n",
        logs: 2,
        kept: "1.0 0.0 t s0 t s0 t s0 s1 t s0 s1 t s1 t s1\n0.0 1.0 t s0 t s0 t s0 s1 t s0 \
            s1 t s1 t s1\n",
        ..PLAYED
    },
    Row {
        name: "late by one",
        front: ONE_COPY,
        rest: "script\nturn 0\nturn 0\nturn 0\narrive 0 0 0\nend\n",
        written: "late 0 0 0 3\nmirror 0 accepted 0 turned 1 repairs 0\nworld 0 0 4\n\
            live ann 0 0 e 3 5 0\ndone\n",
        kept: "t s0 t s0 t s0 0.0 t s0\n",
        ..PLAYED
    },
    Row {
        name: "just in time",
        front: ONE_COPY,
        rest: "script\nturn 0\nturn 0\narrive 0 0 0\nend\n",
        written: "mirror 0 accepted 1 turned 0 repairs 0\nworld 0 0 4\nlive ann 1 0 e 3 5 0\ndone\n",
        kept: "t s0 t s0 0.0 t s0 t s0\n",
        ..PLAYED
    },
    Row {
        name: "late at the leading copy alone",
        front: THREE_COPIES,
        rest: "script\nturn 0\nturn 0\nturn 0\narrive 0 0 0\nrun 0 0\nrun 0 1\nrun 0 2\nend\n",
        written: "run 0 0: | | | 0.0\nrun 0 1: |\nrun 0 2:\nrepair 0 1\n\
            mirror 0 accepted 1 turned 0 repairs 1\nworld 0 0 8\nlive ann 1 0 e 3 5 0\n\
            world 0 1 8\nlive ann 1 0 e 3 5 0\nworld 0 2 8\nlive ann 1 0 e 3 5 0\ndone\n",
        kept: "t s0 t s0 t s0 s1 0.0 t s0 s1 t s0 s1 s2 t s0 s1 s2 t s0 s1 s2 t s0 s1 s2 t \
            s1 s2 t s1 s2 t s2 t s2\n",
        ..PLAYED
    },
    Row {
        name: "repaired by the next copy",
        front: THREE_COPIES,
        rest: "script\nturn 0\nturn 0\nturn 0\narrive 0 0 0\nrun 0 0\ntick 0\nstep 0 1\nrun 0 0\n\
            end\n",
        written: "run 0 0: | | | 0.0\nrepair 0 1\nrun 0 0: | 0.0 | |\n\
            mirror 0 accepted 1 turned 0 repairs 1\nworld 0 0 8\nlive ann 1 0 e 3 5 0\n\
            world 0 1 8\nlive ann 1 0 e 3 5 0\nworld 0 2 8\nlive ann 1 0 e 3 5 0\ndone\n",
        kept: "t s0 t s0 t s0 s1 0.0 t s1 t s0 s1 s2 t s0 s1 s2 t s0 s1 s2 t s0 s1 s2 t s0 \
            s1 s2 t s1 s2 t s2 t s2\n",
        ..PLAYED
    },
    Row {
        name: "repaired twice",
        front: THREE_COPIES,
        rest: "script\nturn 0\nturn 0\nturn 0\nturn 0\nturn 0\narrive 0 0 0\nrun 0 0\nrun 0 1\n\
            run 0 2\nturn 0\nrun 0 0\nend\n",
        written: "repair 0 1\nrun 0 0: | | | 0.0 | |\nrun 0 1: | | | 0.0\nrun 0 2: |\nrepair 0 2\n\
            run 0 0: | 0.0 | | | | |\nmirror 0 accepted 1 turned 0 repairs 3\nworld 0 0 8\n\
            live ann 1 0 e 3 5 0\nworld 0 1 8\nlive ann 1 0 e 3 5 0\nworld 0 2 8\n\
            live ann 1 0 e 3 5 0\ndone\n",
        kept: "t s0 t s0 t s0 s1 t s0 s1 t s0 s1 s2 0.0 t s0 s1 s2 t s0 s1 s2 t s0 s1 s2 t \
            s1 s2 t s1 s2 t s2 t s2\n",
        ..PLAYED
    },
    Row {
        name: "equal clocks",
        front: THREE_COPIES,
        rest: "script\ntick 0\ntick 0\ntick 0\ntick 0\ntick 0\nstep 0 0\nstep 0 0\nstep 0 0\n\
            step 0 1\nstep 0 1\nstep 0 1\narrive 0 0 0\nrun 0 0\nrun 0 1\nend\n",
        written: "run 0 0: | | | 0.0\nrun 0 1: | | | 0.0\nrepair 0 2\n\
            mirror 0 accepted 1 turned 0 repairs 2\nworld 0 0 8\nlive ann 1 0 e 3 5 0\n\
            world 0 1 8\nlive ann 1 0 e 3 5 0\nworld 0 2 8\nlive ann 1 0 e 3 5 0\ndone\n",
        kept: "t t t t t s0 s0 s0 s1 s1 s1 0.0 t s0 s1 s2 t s0 s1 s2 t s0 s1 s2 t s0 s1 s2 t \
            s0 s1 s2 t s2 t s2 s2\n",
        ..PLAYED
    },
    Row {
        name: "no passing",
        front: THREE_COPIES,
        rest: "script\ntick 0\ntick 0\ntick 0\ntick 0\ntick 0\nstep 0 0\nstep 0 1\nstep 0 1\nend\n",
        written: "idle 0 1\nmirror 0 accepted 0 turned 0 repairs 0\nworld 0 0 8\n\
            live ann 0 0 e 3 5 0\nworld 0 1 8\nlive ann 0 0 e 3 5 0\nworld 0 2 8\n\
            live ann 0 0 e 3 5 0\ndone\n",
        kept: "t t t t t s0 s1 t s0 s1 s2 t s0 s1 s2 t s0 s1 s2 t s0 s1 s2 t s0 s1 s2 t s0 \
            s1 s2 t s0 s1 s2 s2\n",
        ..PLAYED
    },
    Row {
        name: "repeat",
        front: ONE_COPY,
        rest: "script\narrive 0 0 0\narrive 0 0 0\nend\n",
        written: "repeat 0 0 0\nmirror 0 accepted 1 turned 0 repairs 0\nworld 0 0 4\n\
            live ann 1 0 e 3 5 0\ndone\n",
        kept: "0.0 t s0 t s0 t s0 t s0\n",
        ..PLAYED
    },
    Row {
        name: "late again",
        front: ONE_COPY,
        rest: "script\nturn 0\nturn 0\nturn 0\narrive 0 0 0\narrive 0 0 0\nend\n",
        written: "late 0 0 0 3\nlate 0 0 0 3\nmirror 0 accepted 0 turned 2 repairs 0\nworld 0 0 4\n\
            live ann 0 0 e 3 5 0\ndone\n",
        kept: "t s0 t s0 t s0 0.0 0.0 t s0\n",
        ..PLAYED
    },
    Row {
        name: "over and idle",
        front: TWO_COPIES,
        rest: "script\nturn 0\nturn 0\ntick 0\nstep 0 0\nstep 0 1\nend\n",
        written: "over 0\nidle 0 0\nidle 0 1\nmirror 0 accepted 0 turned 0 repairs 0\nworld 0 0 1\n\
            live ann 0 0 e 3 5 0\nworld 0 1 1\nlive ann 0 0 e 3 5 0\ndone\n",
        kept: "t s0 t s1\n",
        ..PLAYED
    },
    Row {
        name: "command for later",
        front: "",
        rest: "tss match 1\nlength 8\ngrid 9 1\nmirrors 1\ndelays 0 2 4\npace 0\nplayer ann 0 0 e\n\
            cmd 7 0 0 0 go\nscript\narrive 0 0 0\nrun 0 0\nend\n",
        written: "run 0 0:\nmirror 0 accepted 1 turned 0 repairs 0\nworld 0 0 8\n\
            live ann 1 0 e 3 5 0\nworld 0 1 8\nlive ann 1 0 e 3 5 0\nworld 0 2 8\n\
            live ann 1 0 e 3 5 0\ndone\n",
        kept: "0.0 t s0 t s0 t s0 s1 t s0 s1 t s0 s1 s2 t s0 s1 s2 t s0 s1 s2 t s0 s1 s2 t \
            s1 s2 t s1 s2 t s2 t s2\n",
        ..PLAYED
    },
    Row {
        name: "opposite orders",
        front: TIES,
        rest: "script\narrive 0 0 0\narrive 0 1 0\narrive 1 1 0\nturn 1\narrive 1 0 0\nrun 1 0\n\
            world 1 0\nend\n",
        written: "run 1 0: 1.0 | 0.0\nworld 1 0 1\nlive ann 0 0 e 3 5 0\nlive bob 1 0 w 3 5 0\n\
            repair 1 1\nmirror 0 accepted 2 turned 0 repairs 0\nworld 0 0 4\n\
            live ann 1 0 e 3 5 0\nlive bob 2 0 w 3 5 0\nworld 0 1 4\nlive ann 1 0 e 3 5 0\n\
            live bob 2 0 w 3 5 0\nmirror 1 accepted 2 turned 0 repairs 1\nworld 1 0 4\n\
            live ann 1 0 e 3 5 0\nlive bob 2 0 w 3 5 0\nworld 1 1 4\nlive ann 1 0 e 3 5 0\n\
            live bob 2 0 w 3 5 0\ndone\n",
        logs: 2,
        kept: "0.0 1.0 t s0 t s0 t s0 s1 t s0 s1 t s1 t s1\n1.0 t s0 0.0 t s0 t s0 s1 t s0 \
            s1 t s1 t s1\n",
        ..PLAYED
    },
    Row {
        name: "kill by a repaired move",
        front: SHOTS,
        rest: "script\narrive 0 0 0\narrive 0 0 1\narrive 0 0 2\nturn 0\nturn 0\narrive 0 1 0\n\
            world 0 0\nturn 0\nworld 0 0\nend\n",
        written: "world 0 0 2\nlive ann 0 0 e 3 2 0\nlive bob 2 0 n 3 5 0\nshot ann 2 0 e 6\n\
            shot ann 2 0 e 6\nshot ann 2 0 e 6\nrepair 0 1\nworld 0 0 3\nlive ann 0 0 e 3 2 1\n\
            dead bob 8 0\nmirror 0 accepted 4 turned 0 repairs 1\nworld 0 0 4\n\
            live ann 0 0 e 3 2 1\ndead bob 7 0\nworld 0 1 4\nlive ann 0 0 e 3 2 1\n\
            dead bob 7 0\nmirror 1 accepted 0 turned 0 repairs 0\nworld 1 0 4\n\
            live ann 0 0 e 3 5 0\nlive bob 2 1 n 3 5 0\nworld 1 1 4\nlive ann 0 0 e 3 5 0\n\
            live bob 2 1 n 3 5 0\ndone\n",
        logs: 2,
        kept: "0.0 0.1 0.2 t s0 t s0 1.0 t s0 s1 t s0 s1 t s1 t s1\nt s0 t s0 t s0 s1 t s0 \
            s1 t s1 t s1\n",
        ..PLAYED
    },
    Row {
        name: "arrival between ticks",
        front: THREE_COPIES,
        rest: "script\nturn 0\nturn 0\nturn 0\narrive 0 0 0\ntick 0\nstep 0 1\nend\n",
        written: "repair 0 1\nmirror 0 accepted 1 turned 0 repairs 1\nworld 0 0 8\n\
            live ann 1 0 e 3 5 0\nworld 0 1 8\nlive ann 1 0 e 3 5 0\nworld 0 2 8\n\
            live ann 1 0 e 3 5 0\ndone\n",
        kept: "t s0 t s0 t s0 s1 0.0 t s1 t s0 s1 s2 t s0 s1 s2 t s0 s1 s2 t s0 s1 s2 t s0 \
            s1 s2 t s1 s2 t s2 t s2\n",
        ..PLAYED
    },
    Row {
        name: "restagger forward",
        front: "",
        rest: "tss match 1\nlength 8\ngrid 9 1\nmirrors 1\ndelays 0 2 4\npace 0\nplan 0 1 2\n\
            player ann 0 0 e\ncmd 1 0 0 0 go\nscript\nturn 0\nturn 0\nturn 0\nturn 0\nturn 0\n\
            restagger 0 1\nstep 0 1\nstep 0 2\nstep 0 2\nstep 0 2\nrun 0 2\narrive 0 0 0\nend\n",
        written: "idle 0 2\nrun 0 2: | | |\nlate 0 0 0 3\nmirror 0 accepted 0 turned 1 repairs 0\n\
            world 0 0 8\nlive ann 0 0 e 3 5 0\nworld 0 1 8\nlive ann 0 0 e 3 5 0\nworld 0 2 8\n\
            live ann 0 0 e 3 5 0\ndone\n",
        kept: "t s0 t s0 t s0 s1 t s0 s1 t s0 s1 s2 p1 s1 s2 s2 0.0 t s0 s1 s2 t s0 s1 s2 t \
            s0 s1 s2 t s1 s2 t s2\n",
        ..PLAYED
    },
    Row {
        name: "restagger back",
        front: "",
        rest: "tss match 1\nlength 8\ngrid 9 1\nmirrors 1\ndelays 0 2 4\npace 0\nplan 0 4 8\n\
            player ann 0 0 e\ncmd 1 0 0 0 go\nscript\nturn 0\nturn 0\nturn 0\nturn 0\nturn 0\n\
            restagger 0 1\nturn 0\nrun 0 1\nrun 0 2\narrive 0 0 0\nend\n",
        written: "run 0 1: | | |\nrun 0 2: |\nrepair 0 1\nrepair 0 2\n\
            mirror 0 accepted 1 turned 0 repairs 3\nworld 0 0 8\nlive ann 1 0 e 3 5 0\n\
            world 0 1 8\nlive ann 1 0 e 3 5 0\nworld 0 2 8\nlive ann 1 0 e 3 5 0\ndone\n",
        kept: "t s0 t s0 t s0 s1 t s0 s1 t s0 s1 s2 p1 t s0 0.0 t s0 t s0 s1 t s1 t s1 s2 t \
            s1 s2 t s1 s2 t s2 t s2 t s2 t s2\n",
        ..PLAYED
    },
    Row {
        name: "just in time, and once more",
        front: ONE_COPY,
        rest: "script\nturn 0\nturn 0\narrive 0 0 0\narrive 0 0 0\nend\n",
        written: "repeat 0 0 0\nmirror 0 accepted 1 turned 0 repairs 0\nworld 0 0 4\n\
            live ann 1 0 e 3 5 0\ndone\n",
        kept: "t s0 t s0 0.0 t s0 t s0\n",
        ..PLAYED
    },
    Row {
        name: "no script, drained from the opening",
        front: "",
        rest: "tss match 1\nlength 1\ngrid 3 1\nmirrors 2\ndelays 0 2\npace 0\nplayer ann 0 0 e\n\
            end\n",
        written: "mirror 0 accepted 0 turned 0 repairs 0\nworld 0 0 1\nlive ann 0 0 e 3 5 0\n\
            world 0 1 1\nlive ann 0 0 e 3 5 0\nmirror 1 accepted 0 turned 0 repairs 0\n\
            world 1 0 1\nlive ann 0 0 e 3 5 0\nworld 1 1 1\nlive ann 0 0 e 3 5 0\ndone\n",
        logs: 2,
        kept: "t s0 t t s1\nt s0 t t s1\n",
        ..PLAYED
    },
    Row {
        name: "the tour's match",
        front: "",
        rest: "tss match 1\nlength 8\ngrid 7 1\nmirrors 2\ndelays 0 2 4\npace 0\nplayer ann 2 0 e\n\
            player bob 4 0 w\ncmd 1 0 0 0 go\ncmd 1 1 0 1 go\nscript\narrive 0 0 0\n\
            arrive 0 1 0\narrive 1 1 0\nturn 1\nturn 1\nturn 1\nturn 1\nturn 1\nrun 1 0\n\
            run 1 1\nrun 1 2\nworld 1 0\narrive 1 0 0\nrun 1 0\nrun 1 1\nrun 1 2\nworld 1 0\n\
            turn 1\nrun 1 0\nrun 1 1\nrun 1 2\nworld 1 0\nend\n",
        written: "run 1 0: | 1.0 | | | |\nrun 1 1: | 1.0 | |\nrun 1 2: |\nworld 1 0 5\n\
            live ann 2 0 e 3 5 0\nlive bob 3 0 w 3 5 0\nrepair 1 1\nrun 1 0: | 1.0 | | 0.0 | |\n\
            run 1 1: | 1.0 | | 0.0\nrun 1 2: |\nworld 1 0 5\nlive ann 2 0 e 3 5 0\n\
            live bob 3 0 w 3 5 0\nrepair 1 2\nrun 1 0: | 0.0 1.0 | | | | |\n\
            run 1 1: | 0.0 1.0 | | |\nrun 1 2: | 0.0 1.0 |\nworld 1 0 6\nlive ann 3 0 e 3 5 0\n\
            live bob 4 0 w 3 5 0\nmirror 0 accepted 2 turned 0 repairs 0\nworld 0 0 8\n\
            live ann 3 0 e 3 5 0\nlive bob 4 0 w 3 5 0\nworld 0 1 8\nlive ann 3 0 e 3 5 0\n\
            live bob 4 0 w 3 5 0\nworld 0 2 8\nlive ann 3 0 e 3 5 0\nlive bob 4 0 w 3 5 0\n\
            mirror 1 accepted 2 turned 0 repairs 3\nworld 1 0 8\nlive ann 3 0 e 3 5 0\n\
            live bob 4 0 w 3 5 0\nworld 1 1 8\nlive ann 3 0 e 3 5 0\nlive bob 4 0 w 3 5 0\n\
            world 1 2 8\nlive ann 3 0 e 3 5 0\nlive bob 4 0 w 3 5 0\ndone\n",
        logs: 2,
        kept: "0.0 1.0 t s0 t s0 t s0 s1 t s0 s1 t s0 s1 s2 t s0 s1 s2 t s0 s1 s2 t s0 s1 s2 \
            t s1 s2 t s1 s2 t s2 t s2\n1.0 t s0 t s0 t s0 s1 t s0 s1 t s0 s1 s2 0.0 t s0 \
            s1 s2 t s0 s1 s2 t s0 s1 s2 t s1 s2 t s1 s2 t s2 t s2\n",
        ..PLAYED
    },
    Row {
        name: "lines whose numbers differ",
        front: "",
        rest: "tss match 1\nlength 3\ngrid 9 1\nmirrors 3\ndelays 1 2\npace 0\nplayer ann 0 0 e\n\
            player bob 8 0 w\ncmd 0 1 7 1 go\ncmd 2 1 9 0 go\nscript\narrive 2 1 9\n\
            arrive 2 1 9\nturn 2\nturn 2\nturn 2\nturn 2\nrun 2 0\nrun 2 1\nstep 2 1\n\
            arrive 2 1 7\nworld 2 1\nturn 2\ntick 2\nend\n",
        written: "repeat 2 1 9\nrun 2 0: | | 1.9 |\nrun 2 1: | |\nidle 2 1\nlate 2 1 7 2\n\
            world 2 1 2\nlive ann 0 0 e 3 5 0\nlive bob 8 0 w 3 5 0\nover 2\n\
            mirror 0 accepted 0 turned 0 repairs 0\nworld 0 0 3\nlive ann 0 0 e 3 5 0\n\
            live bob 8 0 w 3 5 0\nworld 0 1 3\nlive ann 0 0 e 3 5 0\nlive bob 8 0 w 3 5 0\n\
            mirror 1 accepted 0 turned 0 repairs 0\nworld 1 0 3\nlive ann 0 0 e 3 5 0\n\
            live bob 8 0 w 3 5 0\nworld 1 1 3\nlive ann 0 0 e 3 5 0\nlive bob 8 0 w 3 5 0\n\
            mirror 2 accepted 1 turned 1 repairs 0\nworld 2 0 3\nlive ann 1 0 e 3 5 0\n\
            live bob 8 0 w 3 5 0\nworld 2 1 3\nlive ann 1 0 e 3 5 0\nlive bob 8 0 w 3 5 0\n\
            done\n",
        logs: 3,
        kept: "t t s0 t s0 s1 t s0 s1 t s1\nt t s0 t s0 s1 t s0 s1 t s1\n1.9 t t s0 t s0 s1 \
            t s0 s1 1.7 t s1\n",
        ..PLAYED
    },
    Row {
        name: "each answer that a mirror gives",
        front: "",
        rest: "tss match 1\nlength 8\ngrid 4 2\nmirrors 1\ndelays 4\npace 0\nplan 2\nwall 1 1\n\
            player ann 0 0 e\nplayer bob 2 0 s\ncmd 2 0 7 0 go\ncmd 1 0 8 0 go\ncmd 3 0 9 0 go\n\
            script\narrive 0 0 7\narrive 0 0 7\ntick 0\ntick 0\ntick 0\ntick 0\ntick 0\n\
            step 0 0\nstep 0 0\nrestagger 0 1\nstep 0 0\nstep 0 0\nstep 0 0\narrive 0 0 8\n\
            restagger 0 0\nstep 0 0\ntick 0\ntick 0\nstep 0 0\narrive 0 0 9\ntick 0\nstep 0 0\n\
            restagger 0 1\ntick 0\ntick 0\ntick 0\nrestagger 0 0\ntick 0\nstep 0 0\nstep 0 0\n\
            step 0 0\nstep 0 0\ntick 0\nstep 0 0\nstep 0 0\ntick 0\nrun 0 0\nend\n",
        written: "repeat 0 0 7\nidle 0 0\nidle 0 0\nlate 0 0 8 3\nidle 0 0\nidle 0 0\nover 0\n\
            idle 0 0\nidle 0 0\nover 0\nrun 0 0: | | 0.7 | 0.9 | | | | |\n\
            mirror 0 accepted 2 turned 1 repairs 0\nworld 0 0 8\nlive ann 1 0 e 3 5 0\n\
            live bob 2 0 s 3 5 0\ndone\n",
        kept: "0.7 t t t t t s0 p1 s0 s0 0.8 p0 t t 0.9 t s0 p1 t t p0 t s0 s0 s0 t s0\n",
        ..PLAYED
    },
];

// A script whose draining takes long: nothing has run when it begins.
pub const LONG_DRAIN: Row = Row {
    name: "a long drain",
    front: "",
    rest: "tss match 1\nlength 900\ngrid 5 1\nmirrors 1\ndelays 40\npace 3\nplayer ann 0 0 e\n\
    cmd 800 0 7 0 right\nscript\nstep 0 0\narrive 0 0 7\ntick 0\nend\n",
    written: "idle 0 0\nmirror 0 accepted 1 turned 0 repairs 0\nworld 0 0 900\n\
    live ann 0 0 s 3 5 0\ndone\n",
    kept: "",
    ..PLAYED
};
