//! Mirrors that join late.

use crate::tests::program::Row;
use crate::tests::tables::texts::{THREE_COPIES, TIES};

// A mirror that joins after its only command was executed by the last copy.
const JOINED: Row = Row {
    name: "a mirror joins after the command",
    words: &["join", "0", "7"],
    front: THREE_COPIES,
    rest: "script\narrive 0 0 0\nturn 0\nturn 0\nturn 0\nturn 0\nturn 0\nturn 0\nend\n",
    status: 0,
    written: "join 0 7 clock 2\nmirror 0 accepted 1 turned 0 repairs 0\nworld 0 2 8\n\
        live ann 1 0 e 3 5 0\njoiner accepted 0 turned 0 repairs 0\nworld joiner 8\n\
        live ann 1 0 e 3 5 0\nsame yes\ndone\n",
    logs: 0,
    kept: "",
};

// Two mirrors of two copies, each with a command.
const TWO_JOINED: &str = "tss match 1\nlength 8\ngrid 9 1\nmirrors 2\ndelays 0 2\npace 0\n\
    player ann 0 0 e\nplayer bob 8 0 w\ncmd 1 0 0 0 go\ncmd 4 1 0 1 go\n";

// Matches of which a mirror is joined, and what is told.
pub const JOINS: [Row; 16] = [
    JOINED,
    Row {
        name: "a command from before the joiner's start",
        words: &["join", "0", "6"],
        rest: "script\nturn 0\nturn 0\nturn 0\nturn 0\nturn 0\nturn 0\narrive 0 0 0\nend\n",
        written: "join 0 6 clock 2\nbefore 0 0 1 2\nmirror 0 accepted 0 turned 1 repairs 0\n\
            world 0 2 8\nlive ann 0 0 e 3 5 0\njoiner accepted 0 turned 0 repairs 0\n\
            world joiner 8\nlive ann 0 0 e 3 5 0\nsame yes\ndone\n",
        ..JOINED
    },
    Row {
        name: "a second mirror's command from before the joiner's start",
        words: &["join", "0", "7"],
        front: TWO_JOINED,
        rest: "script\nturn 0\nturn 0\nturn 0\nturn 0\nturn 0\nturn 0\nturn 0\narrive 0 1 0\nend\n",
        written: "join 0 7 clock 5\nbefore 1 0 4 5\nmirror 0 accepted 0 turned 1 repairs 0\n\
            world 0 1 8\nlive ann 0 0 e 3 5 0\nlive bob 8 0 w 3 5 0\n\
            joiner accepted 0 turned 0 repairs 0\nworld joiner 8\nlive ann 0 0 e 3 5 0\n\
            live bob 8 0 w 3 5 0\nsame yes\ndone\n",
        ..JOINED
    },
    Row {
        name: "a mirror joins behind more lines than there are",
        words: &["join", "0", "100"],
        front: TWO_JOINED,
        rest: "script\nturn 0\nturn 0\nturn 0\nturn 0\nturn 0\nturn 0\nturn 0\nend\n",
        written: "join 0 100 clock 5\nmirror 0 accepted 0 turned 0 repairs 0\nworld 0 1 8\n\
            live ann 0 0 e 3 5 0\nlive bob 8 0 w 3 5 0\njoiner accepted 0 turned 0 repairs 0\n\
            world joiner 8\nlive ann 0 0 e 3 5 0\nlive bob 8 0 w 3 5 0\nsame yes\ndone\n",
        ..JOINED
    },
    Row {
        name: "a command that the snapshot passes on, and comes again",
        words: &["join", "0", "1"],
        rest: "script\narrive 0 0 0\narrive 0 0 0\nturn 0\nend\n",
        written: "join 0 1 clock 0\nrepeat 0 0\nmirror 0 accepted 1 turned 0 repairs 0\nworld 0 2 8\n\
            live ann 1 0 e 3 5 0\njoiner accepted 1 turned 0 repairs 0\nworld joiner 8\n\
            live ann 1 0 e 3 5 0\nsame yes\ndone\n",
        ..JOINED
    },
    Row {
        name: "a command that is late for the joiner, too",
        words: &["join", "0", "0"],
        rest: "script\nturn 0\nturn 0\nturn 0\nturn 0\nturn 0\nturn 0\narrive 0 0 0\nend\n",
        written: "join 0 0 clock 0\nlate 0 0 2\nmirror 0 accepted 0 turned 1 repairs 0\nworld 0 2 8\n\
            live ann 0 0 e 3 5 0\njoiner accepted 0 turned 1 repairs 0\nworld joiner 8\n\
            live ann 0 0 e 3 5 0\nsame yes\ndone\n",
        ..JOINED
    },
    Row {
        name: "lines are counted over the whole script",
        words: &["join", "0", "4"],
        front: TIES,
        rest: "script\nturn 1\nturn 1\nturn 1\nturn 0\nturn 0\nturn 0\nend\n",
        written: "join 0 4 clock 0\nmirror 0 accepted 0 turned 0 repairs 0\nworld 0 1 4\n\
            live ann 0 0 e 3 5 0\nlive bob 2 0 w 3 5 0\n\
            joiner accepted 0 turned 0 repairs 0\nworld joiner 4\nlive ann 0 0 e 3 5 0\n\
            live bob 2 0 w 3 5 0\nsame yes\ndone\n",
        ..JOINED
    },
    Row {
        name: "a command that had passed comes again",
        words: &["join", "0", "7"],
        rest: "script\narrive 0 0 0\nturn 0\nturn 0\nturn 0\nturn 0\nturn 0\nturn 0\n\
            arrive 0 0 0\nend\n",
        written: "join 0 7 clock 2\nrepeat 0 0\nmirror 0 accepted 1 turned 0 repairs 0\n\
            world 0 2 8\nlive ann 1 0 e 3 5 0\njoiner accepted 0 turned 0 repairs 0\n\
            world joiner 8\nlive ann 1 0 e 3 5 0\nsame yes\ndone\n",
        ..JOINED
    },
    Row {
        name: "a repair at the joiner, which takes what its mirror turns away",
        words: &["join", "0", "7"],
        rest: "cmd 3 0 1 0 go\ncmd 2 0 2 0 left\nscript\narrive 0 0 0\nturn 0\nturn 0\n\
            turn 0\nturn 0\nturn 0\nturn 0\narrive 0 0 0\nturn 0\nturn 0\nturn 0\n\
            arrive 0 0 1\nturn 0\nturn 0\nturn 0\narrive 0 0 2\nend\n",
        written: "join 0 7 clock 2\nrepeat 0 0\nlate 0 2 4\n\
            mirror 0 accepted 1 turned 2 repairs 0\nworld 0 2 8\nlive ann 1 0 e 3 5 0\n\
            joiner accepted 1 turned 1 repairs 1\nworld joiner 8\nlive ann 2 0 e 3 5 0\n\
            same no\ndone\n",
        ..JOINED
    },
    Row {
        name: "one mirror of two, after its command had passed",
        words: &["join", "1", "7"],
        front: TWO_JOINED,
        rest: "script\nturn 0\narrive 1 0 0\nturn 1\nturn 1\nturn 1\nturn 0\nturn 1\n\
            arrive 1 1 0\nturn 1\narrive 1 0 0\nturn 1\nturn 1\narrive 1 1 0\nend\n",
        written: "join 1 7 clock 2\nrepeat 0 0\nrepeat 1 0\n\
            mirror 1 accepted 2 turned 0 repairs 0\nworld 1 1 8\nlive ann 1 0 e 3 5 0\n\
            live bob 7 0 w 3 5 0\njoiner accepted 1 turned 0 repairs 0\nworld joiner 8\n\
            live ann 1 0 e 3 5 0\nlive bob 7 0 w 3 5 0\nsame yes\ndone\n",
        ..JOINED
    },
    Row {
        name: "the same before it had",
        words: &["join", "1", "5"],
        front: TWO_JOINED,
        rest: "script\nturn 0\narrive 1 0 0\nturn 1\nturn 1\nturn 1\nturn 0\nturn 1\n\
            arrive 1 1 0\nturn 1\narrive 1 0 0\nturn 1\nturn 1\narrive 1 1 0\nend\n",
        written: "join 1 5 clock 1\nrepeat 0 0\nrepeat 1 0\n\
            mirror 1 accepted 2 turned 0 repairs 0\nworld 1 1 8\nlive ann 1 0 e 3 5 0\n\
            live bob 7 0 w 3 5 0\njoiner accepted 2 turned 0 repairs 0\nworld joiner 8\n\
            live ann 1 0 e 3 5 0\nlive bob 7 0 w 3 5 0\nsame yes\ndone\n",
        ..JOINED
    },
    Row {
        name: "no tick is left",
        words: &["join", "0", "262144"],
        front: "tss match 1\nlength 1\ngrid 3 1\nmirrors 1\ndelays 0\npace 0\nplayer ann 0 0 e\n",
        rest: "script\nturn 0\nturn 0\nend\n",
        status: 7,
        written: "too late 1 1\n",
        ..JOINED
    },
    Row {
        name: "a mirror that isn't there",
        words: &["join", "1", "0"],
        status: 5,
        written: "refused line 4 cause 3 number\n",
        ..JOINED
    },
    Row {
        name: "the text's own fault comes first",
        words: &["join", "7", "0"],
        rest: "script\nturn 1\nend\n",
        status: 5,
        written: "refused line 10 cause 3 number\n",
        ..JOINED
    },
    Row {
        name: "a change of the plan behind the snapshot",
        words: &["join", "0", "3"],
        front: "tss match 2\nlength 6\ngrid 5 1\nmirrors 1\ndelays 0 1\npace 0\nplan 0 3\n\
            player ann 0 0 e\ncmd 1 0 0 0 go\ncmd 3 0 1 0 go\n",
        rest: "script\nturn 0\nturn 0\nturn 0\nrestagger 0 1\narrive 0 0 1\nturn 0\narrive 0 0 0\nend\n",
        written: "join 0 3 clock 2\nbefore 0 0 1 2\nmirror 0 accepted 1 turned 1 repairs 0\n\
            world 0 1 6\nlive ann 1 0 e 3 5 0\njoiner accepted 1 turned 0 repairs 0\n\
            world joiner 6\nlive ann 1 0 e 3 5 0\nsame yes\ndone\n",
        ..JOINED
    },
    Row {
        name: "changes of the plan in front of the snapshot and behind it",
        words: &["join", "0", "7"],
        front: "tss match 2\nlength 8\ngrid 9 1\nmirrors 1\ndelays 0 1\npace 0\nplan 0 3\n\
            player ann 0 0 e\ncmd 1 0 0 0 go\ncmd 4 0 1 0 go\ncmd 6 0 2 0 go\n",
        rest: "script\narrive 0 0 0\nturn 0\nturn 0\nrestagger 0 1\nturn 0\nturn 0\nturn 0\n\
            restagger 0 0\narrive 0 0 1\nturn 0\nturn 0\narrive 0 0 2\nturn 0\nend\n",
        written: "join 0 7 clock 2\nmirror 0 accepted 3 turned 0 repairs 1\nworld 0 1 8\n\
            live ann 3 0 e 3 5 0\njoiner accepted 2 turned 0 repairs 0\nworld joiner 8\n\
            live ann 3 0 e 3 5 0\nsame yes\ndone\n",
        ..JOINED
    },
];
