//! Matches that are looked at at ticks.

use crate::tests::program::Row;
use crate::tests::tables::texts::ONE_COPY;

// Looks at two ticks, with room for one of their worlds.
const LOOKED: Row = Row {
    name: "a look hits where its world is the one that is kept",
    words: &["rewind", "2", "1", "0", "1", "1", "0"],
    front: ONE_COPY,
    rest: "end\n",
    status: 0,
    written: "at 0\nlive ann 0 0 e 3 5 0\nat 1\nlive ann 0 0 e 3 5 0\nat 1\nlive ann 0 0 e 3 5 0\n\
        at 0\nlive ann 0 0 e 3 5 0\nhits 1\ndone\n",
    logs: 0,
    kept: "",
};

// Matches and ticks, and their worlds.
pub const REWINDS: [Row; 7] = [
    LOOKED,
    Row {
        name: "the example of the arena's rules",
        words: &["rewind", "1", "1", "1", "2", "3"],
        front: "tss match 1\nlength 3\ngrid 7 2\nmirrors 1\ndelays 0\npace 0\npickup 1 0 gold\n\
            player ann 0 0 e\nplayer bob 4 0 w\ncmd 0 0 0 0 go\ncmd 0 0 1 0 shoot\n\
            cmd 0 0 2 1 right\n",
        written: "at 1\nlive ann 1 0 e 3 4 1\nlive bob 4 0 n 3 5 0\nshot ann 2 0 e 7\n\
            item 1 0 gold 19\nat 2\nlive ann 1 0 e 3 4 1\nlive bob 4 0 n 3 5 0\nshot ann 3 0 e 6\n\
            item 1 0 gold 18\nat 3\nlive ann 1 0 e 3 4 1\nlive bob 4 0 n 2 5 0\nitem 1 0 gold 17\n\
            hits 0\ndone\n",
        ..LOOKED
    },
    Row {
        name: "looks that all miss",
        words: &["rewind", "2", "2", "4", "2", "3"],
        written: "at 4\nlive ann 1 0 e 3 5 0\nat 2\nlive ann 0 0 e 3 5 0\nat 3\n\
            live ann 1 0 e 3 5 0\nhits 0\ndone\n",
        ..LOOKED
    },
    Row {
        name: "a hit comes to the front, and the last is dropped",
        words: &["rewind", "8192", "2", "1", "2", "1", "3", "1", "2"],
        written: "at 1\nlive ann 0 0 e 3 5 0\nat 2\nlive ann 0 0 e 3 5 0\nat 1\n\
            live ann 0 0 e 3 5 0\nat 3\nlive ann 1 0 e 3 5 0\nat 1\nlive ann 0 0 e 3 5 0\nat 2\n\
            live ann 0 0 e 3 5 0\nhits 2\ndone\n",
        ..LOOKED
    },
    Row {
        name: "a tick past the end",
        words: &["rewind", "1", "1", "4", "5"],
        status: 5,
        written: "refused line 2 cause 3 number\n",
        ..LOOKED
    },
    Row {
        name: "the text's own fault comes first, too",
        words: &["rewind", "1", "1", "8192"],
        rest: "world 0 0\nend\n",
        status: 5,
        written: "refused line 9 cause 2 shape\n",
        ..LOOKED
    },
    Row {
        name: "sixteen ticks",
        words: &[
            "rewind", "64", "64", "0", "0", "0", "0", "0", "0", "0", "0", "0", "0", "0", "0", "0",
            "0", "0", "0",
        ],
        front: "tss match 1\nlength 1\ngrid 3 1\nmirrors 1\ndelays 0\npace 0\nplayer a 0 0 e\n",
        written: "at 0\nlive a 0 0 e 3 5 0\nat 0\nlive a 0 0 e 3 5 0\nat 0\nlive a 0 0 e 3 5 0\n\
            at 0\nlive a 0 0 e 3 5 0\nat 0\nlive a 0 0 e 3 5 0\nat 0\nlive a 0 0 e 3 5 0\n\
            at 0\nlive a 0 0 e 3 5 0\nat 0\nlive a 0 0 e 3 5 0\nat 0\nlive a 0 0 e 3 5 0\n\
            at 0\nlive a 0 0 e 3 5 0\nat 0\nlive a 0 0 e 3 5 0\nat 0\nlive a 0 0 e 3 5 0\n\
            at 0\nlive a 0 0 e 3 5 0\nat 0\nlive a 0 0 e 3 5 0\nat 0\nlive a 0 0 e 3 5 0\n\
            at 0\nlive a 0 0 e 3 5 0\nhits 15\ndone\n",
        ..LOOKED
    },
];
