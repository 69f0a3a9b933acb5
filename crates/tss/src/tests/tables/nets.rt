//! Matches over a lossy net.

use crate::tests::program::Row;

// The front of a lossy text: two mirrors of two copies, whose players both want one cell.
const LOSSY_FRONT: &str = "tss lossy 1\ntss match 1\nlength 4\ngrid 3 1\nmirrors 2\ndelays 0 2\n\
    pace 0\nplayer ann 0 0 e\nplayer bob 2 0 w\ncmd 0 0 0 0 go\ncmd 0 1 0 1 go\nend\n";

// Another: two mirrors of two copies, and two commands of the second mirror.
const AHEAD_FRONT: &str =
    "tss lossy 1\ntss match 1\nlength 4\ngrid 5 1\nmirrors 2\ndelays 0 2\npace 0\n\
    player ann 0 0 e\nplayer bob 4 0 w\ncmd 0 1 0 1 go\ncmd 1 1 1 1 left\nend\n";

// Three mirrors of two copies, and a command of each of the first two.
const THREE_FRONT: &str =
    "tss lossy 1\ntss match 1\nlength 4\ngrid 5 1\nmirrors 3\ndelays 0 1\npace 0\n\
    player ann 0 0 e\nplayer bob 4 0 w\ncmd 0 0 0 0 go\ncmd 0 1 0 1 go\nend\n";

// The match of `examples/net.lossy`.
const SAMPLE_FRONT: &str =
    "tss lossy 1\ntss match 1\nlength 6\ngrid 7 1\nmirrors 2\ndelays 0 3\npace 0\n\
    player ann 0 0 e\nplayer bob 6 0 w\ncmd 0 0 0 0 go\ncmd 1 1 0 1 go\n\
    cmd 3 1 1 1 go\nend\n";

// A packet that is sent twice arrives once, and what is left in the links arrives at the end.
pub const REPEATED: Row = Row {
    name: "a packet arrives once",
    words: &["lossy"],
    front: LOSSY_FRONT,
    rest: "net 6\nissue 0 0\nissue 1 0\nsend 0 1 0\nsend 0 1 0\ncarry 0 1 0\ncarry 0 1 0\ndone\n",
    status: 0,
    written: "drop 0 1 0\nmirror 0 accepted 2 turned 0 repairs 0\nworld 0 0 4\n\
        live ann 1 0 e 3 5 0\nlive bob 2 0 w 3 5 0\nworld 0 1 4\nlive ann 1 0 e 3 5 0\n\
        live bob 2 0 w 3 5 0\nmirror 1 accepted 2 turned 0 repairs 0\nworld 1 0 4\n\
        live ann 1 0 e 3 5 0\nlive bob 2 0 w 3 5 0\nworld 1 1 4\nlive ann 1 0 e 3 5 0\n\
        live bob 2 0 w 3 5 0\ndone\n",
    logs: 2,
    kept: "0.0 1.0 t s0 t s0 t s0 s1 t s0 s1 t s1 t s1\n1.0 0.0 t s0 t s0 t s0 s1 t s0 s1 t s1 \
        t s1\n",
};

// Another match over a net, which is refused.
const REFUSED_NET: Row = Row {
    status: 5,
    logs: 0,
    kept: "",
    ..REPEATED
};

// Lossy texts, and what is printed of each.
pub const NETS: [Row; 27] = [
    REPEATED,
    Row {
        name: "a command that the net brings too late",
        rest: "net 8\nissue 1 0\nturn 0\nturn 0\nturn 0\ncarry 1 0 0\nsend 1 0 0\nturn 0\ncarry 1 0 0\n\
            done\n",
        written: "nothing\nlate 0 1 0 2\nmirror 0 accepted 0 turned 1 repairs 0\nworld 0 0 4\n\
            live ann 0 0 e 3 5 0\nlive bob 2 0 w 3 5 0\nworld 0 1 4\nlive ann 0 0 e 3 5 0\n\
            live bob 2 0 w 3 5 0\nmirror 1 accepted 1 turned 0 repairs 0\nworld 1 0 4\n\
            live ann 0 0 e 3 5 0\nlive bob 1 0 w 3 5 0\nworld 1 1 4\nlive ann 0 0 e 3 5 0\n\
            live bob 1 0 w 3 5 0\ndone\n",
        kept: "t s0 t s0 t s0 s1 t s0 s1 1.0 t s1 t s1\n1.0 t s0 t s0 t s0 s1 t s0 s1 t s1 t s1\n",
        ..REPEATED
    },
    Row {
        name: "issued again, known to be received, and never flown",
        rest: "net 9\nissue 0 0\nissue 0 0\nsend 0 1 0\ncarry 0 1 0\nhear 0 1 1\nack 0 1\nhear 0 1 1\n\
            send 0 1 0\nsend 1 0 0\ndone\n",
        written: "again 0 0\nnothing\nnothing\nnothing\nmirror 0 accepted 1 turned 0 repairs 0\n\
            world 0 0 4\nlive ann 1 0 e 3 5 0\nlive bob 2 0 w 3 5 0\nworld 0 1 4\n\
            live ann 1 0 e 3 5 0\nlive bob 2 0 w 3 5 0\nmirror 1 accepted 1 turned 0 repairs 0\n\
            world 1 0 4\nlive ann 1 0 e 3 5 0\nlive bob 2 0 w 3 5 0\nworld 1 1 4\n\
            live ann 1 0 e 3 5 0\nlive bob 2 0 w 3 5 0\ndone\n",
        kept: "0.0 t s0 t s0 t s0 s1 t s0 s1 t s1 t s1\n0.0 t s0 t s0 t s0 s1 t s0 s1 t s1 t s1\n",
        ..REPEATED
    },
    Row {
        name: "a packet that is ahead",
        front: AHEAD_FRONT,
        rest: "net 7\nissue 1 0\nissue 1 1\nsend 1 0 0\nsend 1 0 1\ncarry 1 0 1\n\
            carry 1 0 0\ncarry 1 0 1\ndone\n",
        written: "drop 1 0 1\nmirror 0 accepted 2 turned 0 repairs 0\nworld 0 0 4\n\
            live ann 0 0 e 3 5 0\nlive bob 3 0 s 3 5 0\nworld 0 1 4\n\
            live ann 0 0 e 3 5 0\nlive bob 3 0 s 3 5 0\n\
            mirror 1 accepted 2 turned 0 repairs 0\nworld 1 0 4\nlive ann 0 0 e 3 5 0\n\
            live bob 3 0 s 3 5 0\nworld 1 1 4\nlive ann 0 0 e 3 5 0\n\
            live bob 3 0 s 3 5 0\ndone\n",
        kept: "1.0 1.1 t s0 t s0 t s0 s1 t s0 s1 t s1 t s1\n\
            1.0 1.1 t s0 t s0 t s0 s1 t s0 s1 t s1 t s1\n",
        ..REPEATED
    },
    Row {
        name: "a second mirror's first command is issued again",
        front: AHEAD_FRONT,
        rest: "net 3\nissue 1 0\nissue 1 0\nissue 1 1\ndone\n",
        written: "again 1 0\nmirror 0 accepted 2 turned 0 repairs 0\nworld 0 0 4\n\
            live ann 0 0 e 3 5 0\nlive bob 3 0 s 3 5 0\nworld 0 1 4\n\
            live ann 0 0 e 3 5 0\nlive bob 3 0 s 3 5 0\n\
            mirror 1 accepted 2 turned 0 repairs 0\nworld 1 0 4\nlive ann 0 0 e 3 5 0\n\
            live bob 3 0 s 3 5 0\nworld 1 1 4\nlive ann 0 0 e 3 5 0\n\
            live bob 3 0 s 3 5 0\ndone\n",
        kept: "1.0 1.1 t s0 t s0 t s0 s1 t s0 s1 t s1 t s1\n\
            1.0 1.1 t s0 t s0 t s0 s1 t s0 s1 t s1 t s1\n",
        ..REPEATED
    },
    Row {
        name: "the greatest number of a packet and of a count",
        front: AHEAD_FRONT,
        rest: "net 3\nsend 1 0 999999\ncarry 1 0 999999\nhear 1 0 999999\ndone\n",
        written: "nothing\nnothing\nnothing\nmirror 0 accepted 0 turned 0 repairs 0\n\
            world 0 0 4\nlive ann 0 0 e 3 5 0\nlive bob 4 0 w 3 5 0\nworld 0 1 4\n\
            live ann 0 0 e 3 5 0\nlive bob 4 0 w 3 5 0\n\
            mirror 1 accepted 0 turned 0 repairs 0\nworld 1 0 4\nlive ann 0 0 e 3 5 0\n\
            live bob 4 0 w 3 5 0\nworld 1 1 4\nlive ann 0 0 e 3 5 0\n\
            live bob 4 0 w 3 5 0\ndone\n",
        kept: "t s0 t s0 t s0 s1 t s0 s1 t s1 t s1\nt s0 t s0 t s0 s1 t s0 s1 t s1 t s1\n",
        ..REPEATED
    },
    Row {
        name: "cause 3: a number of a packet that is sent, one above the greatest",
        front: AHEAD_FRONT,
        rest: "net 1\nsend 1 0 1000000\ndone\n",
        written: "refused line 14 cause 3 number\n",
        ..REFUSED_NET
    },
    Row {
        name: "cause 3: the same of one that is carried",
        front: AHEAD_FRONT,
        rest: "net 1\ncarry 1 0 1000000\ndone\n",
        written: "refused line 14 cause 3 number\n",
        ..REFUSED_NET
    },
    Row {
        name: "cause 3: the same of a count that is heard",
        front: AHEAD_FRONT,
        rest: "net 1\nhear 1 0 1000000\ndone\n",
        written: "refused line 14 cause 3 number\n",
        ..REFUSED_NET
    },
    Row {
        name: "an older count is heard",
        front: AHEAD_FRONT,
        rest: "net 10\nissue 1 0\nissue 1 1\nack 1 0\nsend 1 0 0\ncarry 1 0 0\nack 1 0\n\
            hear 1 0 1\nhear 1 0 0\nsend 1 0 0\nsend 1 0 1\ndone\n",
        written: "nothing\nmirror 0 accepted 2 turned 0 repairs 0\nworld 0 0 4\n\
            live ann 0 0 e 3 5 0\nlive bob 3 0 s 3 5 0\nworld 0 1 4\n\
            live ann 0 0 e 3 5 0\nlive bob 3 0 s 3 5 0\n\
            mirror 1 accepted 2 turned 0 repairs 0\nworld 1 0 4\nlive ann 0 0 e 3 5 0\n\
            live bob 3 0 s 3 5 0\nworld 1 1 4\nlive ann 0 0 e 3 5 0\n\
            live bob 3 0 s 3 5 0\ndone\n",
        kept: "1.0 1.1 t s0 t s0 t s0 s1 t s0 s1 t s1 t s1\n\
            1.0 1.1 t s0 t s0 t s0 s1 t s0 s1 t s1 t s1\n",
        ..REPEATED
    },
    Row {
        name: "four links of three mirrors are left at the end",
        front: THREE_FRONT,
        rest: "net 8\nissue 0 0\nissue 1 0\nturn 0\nturn 0\nturn 1\nturn 1\nturn 2\nturn 2\n\
            done\n",
        written: "late 1 0 0 1\nlate 2 0 0 1\nlate 0 1 0 1\nlate 2 1 0 1\n\
            mirror 0 accepted 1 turned 1 repairs 0\nworld 0 0 4\nlive ann 1 0 e 3 5 0\n\
            live bob 4 0 w 3 5 0\nworld 0 1 4\nlive ann 1 0 e 3 5 0\n\
            live bob 4 0 w 3 5 0\nmirror 1 accepted 1 turned 1 repairs 0\nworld 1 0 4\n\
            live ann 0 0 e 3 5 0\nlive bob 3 0 w 3 5 0\nworld 1 1 4\n\
            live ann 0 0 e 3 5 0\nlive bob 3 0 w 3 5 0\n\
            mirror 2 accepted 0 turned 2 repairs 0\nworld 2 0 4\nlive ann 0 0 e 3 5 0\n\
            live bob 4 0 w 3 5 0\nworld 2 1 4\nlive ann 0 0 e 3 5 0\n\
            live bob 4 0 w 3 5 0\ndone\n",
        logs: 3,
        kept: "0.0 t s0 t s0 s1 1.0 t s0 s1 t s0 s1 t s1\n\
            1.0 t s0 t s0 s1 0.0 t s0 s1 t s0 s1 t s1\n\
            t s0 t s0 s1 0.0 1.0 t s0 s1 t s0 s1 t s1\n",
        ..REPEATED
    },
    Row {
        name: "a loss, and a packet that is sent again",
        front: SAMPLE_FRONT,
        rest: "net 23\nissue 0 0\nissue 1 0\nsend 0 1 0\nsend 1 0 0\ncarry 0 1 0\nack 0 1\n\
            hear 0 1 1\nsend 0 1 0\nturn 0\nturn 1\nturn 0\nturn 1\nissue 1 1\n\
            send 1 0 1\ncarry 1 0 1\nsend 1 0 0\ncarry 1 0 0\ncarry 1 0 0\ncarry 1 0 1\n\
            ack 1 0\nhear 1 0 2\nturn 0\nturn 1\ndone\n",
        written: "nothing\ndrop 1 0 1\ndrop 1 0 0\nrepair 0 1\n\
            mirror 0 accepted 3 turned 0 repairs 1\nworld 0 0 6\nlive ann 1 0 e 3 5 0\n\
            live bob 4 0 w 3 5 0\nworld 0 1 6\nlive ann 1 0 e 3 5 0\n\
            live bob 4 0 w 3 5 0\nmirror 1 accepted 3 turned 0 repairs 0\nworld 1 0 6\n\
            live ann 1 0 e 3 5 0\nlive bob 4 0 w 3 5 0\nworld 1 1 6\n\
            live ann 1 0 e 3 5 0\nlive bob 4 0 w 3 5 0\ndone\n",
        kept: "0.0 t s0 t s0 1.0 1.1 t s0 t s0 s1 t s0 s1 t s0 s1 t s1 t s1 t s1\n\
            1.0 0.0 t s0 t s0 1.1 t s0 t s0 s1 t s0 s1 t s0 s1 t s1 t s1 t s1\n",
        ..REPEATED
    },
    Row {
        name: "cause 1: no head of a lossy text",
        front: "tss lossy 2\n",
        rest: "",
        written: "refused line 1 cause 1 head\n",
        ..REFUSED_NET
    },
    Row {
        name: "cause 1: no head of a match behind it",
        front: "tss lossy 1\ntss record 1\n",
        rest: "",
        written: "refused line 2 cause 1 head\n",
        ..REFUSED_NET
    },
    Row {
        name: "cause 2: a line that no net has",
        rest: "net 1\ntick\ndone\n",
        written: "refused line 14 cause 2 shape\n",
        ..REFUSED_NET
    },
    Row {
        name: "cause 2: one line fewer than it says",
        rest: "net 2\nturn 0\ndone\n",
        written: "refused line 15 cause 2 shape\n",
        ..REFUSED_NET
    },
    Row {
        name: "cause 3: a link from a mirror to itself",
        rest: "net 1\nack 1 1\ndone\n",
        written: "refused line 14 cause 3 number\n",
        ..REFUSED_NET
    },
    Row {
        name: "cause 3: a mirror that isn't there",
        rest: "net 1\nsend 0 2 0\ndone\n",
        written: "refused line 14 cause 3 number\n",
        ..REFUSED_NET
    },
    Row {
        name: "cause 3: a number over the greatest, before the name",
        rest: "net 1\nissue 0 1000000\ndone\n",
        written: "refused line 14 cause 3 number\n",
        ..REFUSED_NET
    },
    Row {
        name: "cause 4: a player outside the grid of the match",
        front: "tss lossy 1\ntss match 1\nlength 4\ngrid 3 1\nmirrors 2\ndelays 0 2\npace 0\n",
        rest: "player ann 3 0 e\n",
        written: "refused line 8 cause 4 place\n",
        ..REFUSED_NET
    },
    Row {
        name: "cause 6: delays of the match that don't rise",
        front: "tss lossy 1\ntss match 1\nlength 4\ngrid 3 1\nmirrors 2\n",
        rest: "delays 2 2\n",
        written: "refused line 6 cause 6 order\n",
        ..REFUSED_NET
    },
    Row {
        name: "cause 5: a command that isn't there",
        rest: "net 1\nissue 0 7\ndone\n",
        written: "refused line 14 cause 5 name\n",
        ..REFUSED_NET
    },
    Row {
        name: "cause 2: as many lines as a net may have, and none is there",
        rest: "net 262144\ndone\n",
        written: "refused line 14 cause 2 shape\n",
        ..REFUSED_NET
    },
    Row {
        name: "cause 5: the greatest number, of no command",
        rest: "net 1\nissue 0 999999\ndone\n",
        written: "refused line 14 cause 5 name\n",
        ..REFUSED_NET
    },
    Row {
        name: "cause 7: more lines than a net may have",
        rest: "net 262145\ndone\n",
        written: "refused line 13 cause 7 many\n",
        ..REFUSED_NET
    },
    Row {
        name: "cause 8: a byte behind the end",
        rest: "net 0\ndone\n\n",
        written: "refused line 15 cause 8 end\n",
        ..REFUSED_NET
    },
    Row {
        name: "cause 9: a line too long",
        rest: "net 1\nissue 0 00000000000000000000000000000000000000000000000000000000000000000000000000\
            000000000000000000000000000000000000000000000000000000000000\ndone\n",
        written: "refused line 14 cause 9 long\n",
        ..REFUSED_NET
    },
];
