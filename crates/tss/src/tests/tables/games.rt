//! Matches in the game of painting.

use crate::tests::program::Row;

// A player paints the cell that it comes from and the one that it goes to.
pub const PAINTED: Row = Row {
    name: "paint a line",
    words: &["paint", "order"],
    front: "tss match 1\nlength 2\ngrid 3 1\nmirrors 1\ndelays 0\npace 0\n",
    rest: "player ann 0 0 e\ncmd 0 0 0 0 go\nend\n",
    status: 0,
    written: "order 2\npainter ann 1 0 e 2\nrow aa.\ndone\n",
    logs: 0,
    kept: "",
};

// Two mirrors of three copies, and commands of both.
const SEVERAL_FRONT: &str = "tss match 1\nlength 6\ngrid 6 1\nmirrors 2\ndelays 0 1 3\npace 0\n\
    player ann 0 0 e\nplayer bob 5 0 w\ncmd 0 0 0 0 go\ncmd 1 1 0 1 shoot\n\
    cmd 2 0 1 0 go\n";

// All of them arrive at both mirrors, some after copies executed their ticks.
const SEVERAL_SCRIPT: &str =
    "script\narrive 0 0 0\nturn 0\nturn 0\nturn 1\nturn 1\narrive 1 1 0\nturn 1\n\
    arrive 0 1 0\nturn 0\narrive 0 0 1\narrive 1 0 0\narrive 1 0 1\nturn 1\n\
    turn 0\nend\n";

// Matches, and what painting prints of them.
pub const PAINTS: [Row; 10] = [
    PAINTED,
    Row {
        name: "a pickup's cell becomes nobody's",
        rest: "pickup 1 0 gold\nplayer ann 0 0 e\ncmd 0 0 0 0 go\nend\n",
        written: "order 2\npainter ann 1 0 e 1\nrow a..\ndone\n",
        ..PAINTED
    },
    Row {
        name: "paint play",
        words: &["paint", "play"],
        rest: "player ann 0 0 e\ncmd 0 0 0 0 go\nscript\narrive 0 0 0\nend\n",
        written: "mirror 0 accepted 1 turned 0 repairs 0\nworld 0 0 2\npainter ann 1 0 e 2\nrow aa.\n\
            done\n",
        logs: 1,
        kept: "0.0 t s0 t s0\n",
        ..PAINTED
    },
    Row {
        name: "several copies, of which some are repaired",
        words: &["paint", "play"],
        front: SEVERAL_FRONT,
        rest: SEVERAL_SCRIPT,
        written: "repair 1 1\nrepair 0 1\nrepair 1 1\nrepair 1 1\nrepair 1 2\nrepair 0 1\n\
            mirror 0 accepted 3 turned 0 repairs 2\nworld 0 0 6\npainter ann 2 0 e 3\n\
            painter bob 5 0 w 3\nrow aaabbb\nworld 0 1 6\npainter ann 2 0 e 3\n\
            painter bob 5 0 w 3\nrow aaabbb\nworld 0 2 6\npainter ann 2 0 e 3\n\
            painter bob 5 0 w 3\nrow aaabbb\nmirror 1 accepted 3 turned 0 repairs 5\n\
            world 1 0 6\npainter ann 2 0 e 3\npainter bob 5 0 w 3\nrow aaabbb\n\
            world 1 1 6\npainter ann 2 0 e 3\npainter bob 5 0 w 3\nrow aaabbb\n\
            world 1 2 6\npainter ann 2 0 e 3\npainter bob 5 0 w 3\nrow aaabbb\ndone\n",
        logs: 2,
        kept: "0.0 t s0 t s0 s1 1.0 t s0 s1 0.1 t s0 s1 s2 t s0 s1 s2 t s0 s1 s2 t s1 s2 t s2 t s2\n\
            t s0 t s0 s1 1.0 t s0 s1 0.0 0.1 t s0 s1 s2 t s0 s1 s2 t s0 s1 s2 t s1 s2 t s2 t s2\n",
        ..PAINTED
    },
    Row {
        name: "these end as the match in order does",
        front: SEVERAL_FRONT,
        rest: SEVERAL_SCRIPT,
        written: "order 6\npainter ann 2 0 e 3\npainter bob 5 0 w 3\nrow aaabbb\ndone\n",
        ..PAINTED
    },
    Row {
        name: "a shot paints through a player and up to a wall",
        front: "tss match 1\nlength 2\ngrid 6 2\nmirrors 2\ndelays 0\npace 0\nwall 3 0\n",
        rest: "player ann 0 0 e\nplayer bob 1 0 n\ncmd 0 0 0 0 shoot\ncmd 1 1 0 1 shoot\nend\n",
        written: "order 2\npainter ann 0 0 e 3\npainter bob 1 0 n 0\nrow aaa#..\nrow ......\ndone\n",
        ..PAINTED
    },
    Row {
        name: "a cell changes its owner, and a blocked player paints nothing",
        front: "tss match 1\nlength 4\ngrid 6 1\nmirrors 2\ndelays 0\npace 0\n",
        rest: "player ann 0 0 e\nplayer bob 3 0 w\ncmd 0 0 0 0 shoot\ncmd 1 1 0 1 go\n\
            cmd 2 0 1 0 go\ncmd 3 0 2 0 go\nend\n",
        written: "order 4\npainter ann 1 0 e 3\npainter bob 2 0 w 1\nrow aaba..\ndone\n",
        ..PAINTED
    },
    Row {
        name: "a dash is two steps, and the facing turns",
        front: "tss match 2\nlength 3\ngrid 4 1\nmirrors 1\ndelays 0\npace 0\n",
        rest: "player ann 0 0 e\ncmd 0 0 0 0 dash\ncmd 1 0 1 0 left\ncmd 2 0 2 0 shoot\nend\n",
        written: "order 3\npainter ann 2 0 n 3\nrow aaa.\ndone\n",
        ..PAINTED
    },
    Row {
        name: "a fault of a painted match",
        rest: "player ann 3 0 e\nend\n",
        status: 5,
        written: "refused line 7 cause 4 place\n",
        ..PAINTED
    },
    Row {
        name: "thirty-two players",
        front: "tss match 2\nlength 1\ngrid 34 1\nmirrors 1\ndelays 0\npace 0\n",
        rest: "player p0 0 0 s\nplayer p1 1 0 n\nplayer p2 2 0 s\nplayer p3 3 0 n\n\
            player p4 4 0 s\nplayer p5 5 0 n\nplayer p6 6 0 s\nplayer p7 7 0 n\n\
            player p8 8 0 s\nplayer p9 9 0 n\nplayer p10 10 0 s\nplayer p11 11 0 n\n\
            player p12 12 0 s\nplayer p13 13 0 n\nplayer p14 14 0 s\nplayer p15 15 0 n\n\
            player p16 16 0 s\nplayer p17 17 0 n\nplayer p18 18 0 s\nplayer p19 19 0 n\n\
            player p20 20 0 s\nplayer p21 21 0 n\nplayer p22 22 0 s\nplayer p23 23 0 n\n\
            player p24 24 0 s\nplayer p25 25 0 n\nplayer p26 26 0 s\nplayer p27 27 0 n\n\
            player p28 28 0 s\nplayer p29 29 0 n\nplayer p30 30 0 s\nplayer p31 31 0 n\nend\n",
        written: "order 1\npainter p0 0 0 s 1\npainter p1 1 0 n 1\npainter p2 2 0 s 1\n\
            painter p3 3 0 n 1\npainter p4 4 0 s 1\npainter p5 5 0 n 1\n\
            painter p6 6 0 s 1\npainter p7 7 0 n 1\npainter p8 8 0 s 1\n\
            painter p9 9 0 n 1\npainter p10 10 0 s 1\npainter p11 11 0 n 1\n\
            painter p12 12 0 s 1\npainter p13 13 0 n 1\npainter p14 14 0 s 1\n\
            painter p15 15 0 n 1\npainter p16 16 0 s 1\npainter p17 17 0 n 1\n\
            painter p18 18 0 s 1\npainter p19 19 0 n 1\npainter p20 20 0 s 1\n\
            painter p21 21 0 n 1\npainter p22 22 0 s 1\npainter p23 23 0 n 1\n\
            painter p24 24 0 s 1\npainter p25 25 0 n 1\npainter p26 26 0 s 1\n\
            painter p27 27 0 n 1\npainter p28 28 0 s 1\npainter p29 29 0 n 1\n\
            painter p30 30 0 s 1\npainter p31 31 0 n 1\n\
            row abcdefghijklmnopqrstuvwxyzABCDEF..\ndone\n",
        ..PAINTED
    },
];
