//! Matches in key order: what `order` prints.

use crate::tests::program::Row;
use crate::tests::tables::texts::{ONE_COPY, OPENING};

// The sample that `main`'s own run has, too.
pub const ORDERED: Row = Row {
    name: "opening world",
    words: &["order"],
    front: OPENING,
    rest: "",
    status: 0,
    written: "order 1\nlive ann 0 0 e 3 5 0\ndone\n",
    logs: 0,
    kept: "",
};

// The commands of a match, by their keys, and the rules of the arena.
pub const ORDERS: [Row; 15] = [
    Row {
        name: "opening world",
        ..ORDERED
    },
    Row {
        name: "turn before move",
        front: "",
        rest: "tss match 1\nlength 2\ngrid 3 1\nmirrors 1\ndelays 0\npace 0\nplayer ann 0 0 e\n\
            cmd 0 0 1 0 go\ncmd 0 0 0 0 right\nend\n",
        written: "order 2\nlive ann 0 0 s 3 5 0\ndone\n",
        ..ORDERED
    },
    Row {
        name: "two mirrors ordered",
        front: "",
        rest: "tss match 1\nlength 1\ngrid 3 1\nmirrors 2\ndelays 0\npace 0\nplayer ann 0 0 e\n\
            end\n",
        written: "order 1\nlive ann 0 0 e 3 5 0\ndone\n",
        ..ORDERED
    },
    Row {
        name: "pickups",
        front: "",
        rest: "tss match 1\nlength 3\ngrid 4 1\nmirrors 1\ndelays 0\npace 0\npickup 1 0 gold\n\
            pickup 2 0 ammo\nplayer ann 0 0 e\ncmd 0 0 0 0 go\ncmd 1 0 1 0 go\nend\n",
        written: "order 3\nlive ann 2 0 e 3 9 1\nitem 1 0 gold 17\nitem 2 0 ammo 18\ndone\n",
        ..ORDERED
    },
    Row {
        name: "range, a shot in its last beat",
        front: "",
        rest: "tss match 1\nlength 7\ngrid 12 1\nmirrors 1\ndelays 0\npace 0\nplayer ann 0 0 e\n\
            cmd 0 0 0 0 shoot\nend\n",
        written: "order 7\nlive ann 0 0 e 3 4 0\nshot ann 7 0 e 1\ndone\n",
        ..ORDERED
    },
    Row {
        name: "range, a shot that has ended",
        front: "",
        rest: "tss match 1\nlength 8\ngrid 12 1\nmirrors 1\ndelays 0\npace 0\nplayer ann 0 0 e\n\
            cmd 0 0 0 0 shoot\nend\n",
        written: "order 8\nlive ann 0 0 e 3 4 0\ndone\n",
        ..ORDERED
    },
    Row {
        name: "return after death, still dead",
        front: "",
        rest: "tss match 1\nlength 10\ngrid 3 2\nmirrors 2\ndelays 0 2\npace 0\nplayer ann 0 0 e\n\
            player bob 2 1 n\ncmd 0 0 0 0 shoot\ncmd 0 0 1 0 shoot\ncmd 0 0 2 0 shoot\n\
            cmd 0 1 0 1 go\nend\n",
        written: "order 10\nlive ann 0 0 e 3 2 1\ndead bob 1 0\ndone\n",
        ..ORDERED
    },
    Row {
        name: "return after death, back at home",
        front: "",
        rest: "tss match 1\nlength 11\ngrid 3 2\nmirrors 2\ndelays 0 2\npace 0\nplayer ann 0 0 e\n\
            player bob 2 1 n\ncmd 0 0 0 0 shoot\ncmd 0 0 1 0 shoot\ncmd 0 0 2 0 shoot\n\
            cmd 0 1 0 1 go\nend\n",
        written: "order 11\nlive ann 0 0 e 3 2 1\nlive bob 2 1 n 3 5 0\ndone\n",
        ..ORDERED
    },
    Row {
        name: "own shot kills",
        front: "",
        rest: "tss match 1\nlength 2\ngrid 5 1\nmirrors 1\ndelays 0\npace 0\nplayer ann 0 0 e\n\
            cmd 0 0 0 0 shoot\ncmd 0 0 1 0 shoot\ncmd 0 0 2 0 shoot\ncmd 1 0 3 0 go\n\
            cmd 1 0 4 0 go\nend\n",
        written: "order 2\ndead ann 9 -1\ndone\n",
        ..ORDERED
    },
    Row {
        name: "dash",
        front: "",
        rest: "tss match 2\nlength 1\ngrid 4 1\nmirrors 1\ndelays 0\npace 0\nplayer ann 0 0 e\n\
            cmd 0 0 0 0 dash\nend\n",
        written: "order 1\nlive ann 2 0 e 3 5 0\ndone\n",
        ..ORDERED
    },
    Row {
        name: "dash over two pickups",
        front: "",
        rest: "tss match 2\nlength 1\ngrid 4 1\nmirrors 1\ndelays 0\npace 0\npickup 1 0 gold\n\
            pickup 2 0 ammo\nplayer ann 0 0 e\ncmd 0 0 0 0 dash\nend\n",
        written: "order 1\nlive ann 2 0 e 3 9 1\nitem 1 0 gold 19\nitem 2 0 ammo 19\ndone\n",
        ..ORDERED
    },
    Row {
        name: "each facing, gone in and shown",
        front: "",
        rest: "tss match 1\nlength 1\ngrid 5 5\nmirrors 1\ndelays 0\npace 0\nplayer ann 1 3 n\n\
            player bob 1 1 e\nplayer cat 3 1 s\nplayer dan 3 3 w\ncmd 0 0 0 0 go\n\
            cmd 0 0 1 1 go\ncmd 0 0 2 2 go\ncmd 0 0 3 3 go\nend\n",
        written: "order 1\nlive ann 1 2 n 3 5 0\nlive bob 2 1 e 3 5 0\nlive cat 3 2 s 3 5 0\n\
            live dan 2 3 w 3 5 0\ndone\n",
        ..ORDERED
    },
    Row {
        name: "the script is not looked at",
        front: ONE_COPY,
        rest: "script\nturn 0\nturn 0\narrive 0 0 0\narrive 0 0 0\nend\n",
        written: "order 4\nlive ann 1 0 e 3 5 0\ndone\n",
        ..ORDERED
    },
    Row {
        name: "the match that README follows",
        front: "",
        rest: "tss match 1\nlength 6\ngrid 7 1\nmirrors 1\ndelays 2\npace 1\nplayer ann 0 0 e\n\
            cmd 1 0 0 0 go\ncmd 3 0 1 0 go\ncmd 4 0 2 0 right\nscript\nturn 0\nturn 0\n\
            arrive 0 0 1\nturn 0\narrive 0 0 0\narrive 0 0 0\nturn 0\nturn 0\nturn 0\nturn 0\n\
            arrive 0 0 2\nend\n",
        written: "order 6\nlive ann 2 0 s 3 5 0\ndone\n",
        ..ORDERED
    },
    Row {
        name: "several mirrors and copies",
        front: "",
        rest: "tss match 1\nlength 1\ngrid 3 1\nmirrors 2\ndelays 0 2\npace 0\nplayer ann 0 0 e\n\
            end\n",
        written: "order 1\nlive ann 0 0 e 3 5 0\ndone\n",
        ..ORDERED
    },
];
