//! Each limit of a match text, and one past it: what stands at the limit is read, by `lift`, and
//! one more is refused, by `order`.

use crate::tests::program::{WHOLE, run_on};
use crate::tests::stage::asserts::assert_same;
use crate::tests::stage::lines::{assert_lines, joined};
use crate::tests::tables::texts::OPENING;
use std::alloc::Global;
use std::process::Abort;
use std::sync::Wait;
use std::thread::Threads;

// What stands between a text's first line and the lines that are counted.
const HEAD: &str = "length 1\ngrid 64 64\nmirrors 1\ndelays 0\npace 0\n";

const WITH_ANN: &str = "length 1\ngrid 64 64\nmirrors 1\ndelays 0\npace 0\nplayer ann 0 0 e\n";

const WITH_SCRIPT: &str =
    "length 1\ngrid 64 64\nmirrors 1\ndelays 0\npace 0\nplayer ann 0 0 e\nscript\n";

// What stands behind a line of the head.
const BEHIND_LENGTH: &str = "grid 3 1\nmirrors 1\ndelays 0\npace 0\nplayer ann 0 0 e\nend\n";

const BEHIND_GRID: &str = "mirrors 1\ndelays 0\npace 0\nplayer ann 0 0 e\nend\n";

const BEHIND_MIRRORS: &str = "delays 0\npace 0\nplayer ann 0 0 e\nend\n";

const BEHIND_DELAYS: &str = "pace 0\nplayer ann 0 0 e\nend\n";

// A number of lines may stand in a text of a version between a front and a back, and another number
// more, or as many past a limit, are refused. A line is in parts, between which its number stands,
// from 0 on.
#[derive(Clone, Copy)]
struct Limit {
    name: &'static str,
    version: &'static str,
    front: &'static str,
    line: &'static [&'static str],
    most: u32,
    past: &'static [&'static str],
    more: u32,
    back: &'static str,
    refused: &'static str,
}

const PLANS: Limit = Limit {
    name: "plans",
    version: "1",
    front: HEAD,
    line: &["plan ", "\n"],
    most: 7,
    past: &["plan ", "\n"],
    more: 1,
    back: "player ann 0 0 e\nend\n",
    refused: "refused line 14 cause 7 many\n",
};

const PICKUPS: Limit = Limit {
    name: "pickups",
    line: &["pickup ", " 1 gold\n"],
    most: 32,
    past: &["pickup ", " 1 gold\n"],
    refused: "refused line 39 cause 7 many\n",
    ..PLANS
};

const PLAYERS: Limit = Limit {
    name: "players",
    line: &["player p", " ", " 0 e\n"],
    most: 16,
    past: &["player p", " ", " 0 e\n"],
    back: "end\n",
    refused: "refused line 23 cause 7 many\n",
    ..PLANS
};

const COMMANDS: Limit = Limit {
    name: "commands",
    front: WITH_ANN,
    line: &["cmd 0 0 ", " 0 left\n"],
    most: 16_384,
    past: &["cmd 0 0 ", " 0 left\n"],
    back: "end\n",
    refused: "refused line 16392 cause 7 many\n",
    ..PLANS
};

const COMMAND: Limit = Limit {
    name: "a command's number",
    line: &["cmd 0 0 999999 0 go\n"],
    most: 1,
    past: &["cmd 0 0 1000000 0 go\n"],
    more: 0,
    refused: "refused line 8 cause 3 number\n",
    ..COMMANDS
};

const SCRIPT_LINES: Limit = Limit {
    name: "script lines",
    front: WITH_SCRIPT,
    line: &["tick 0\n"],
    most: 262_144,
    past: &["tick 0\n"],
    refused: "refused line 262153 cause 7 many\n",
    ..COMMANDS
};

const NAME: Limit = Limit {
    name: "a name",
    front: HEAD,
    line: &["player abcdefghijkl 0 0 e\n"],
    past: &["player abcdefghijklm 0 0 e\n"],
    refused: "refused line 7 cause 5 name\n",
    ..COMMAND
};

const LIMITS: [Limit; 22] = [
    PLANS,
    PICKUPS,
    PLAYERS,
    Limit {
        name: "players of version 2",
        version: "2",
        most: 32,
        refused: "refused line 39 cause 7 many\n",
        ..PLAYERS
    },
    COMMANDS,
    Limit {
        name: "commands of version 2",
        version: "2",
        most: 32_768,
        refused: "refused line 32776 cause 7 many\n",
        ..COMMANDS
    },
    Limit {
        name: "lines that show",
        front: WITH_SCRIPT,
        line: &["world 0 0\n"],
        most: 1_024,
        past: &["world 0 0\n"],
        refused: "refused line 1033 cause 7 many\n",
        ..COMMANDS
    },
    Limit {
        name: "length",
        front: "",
        line: &["length 8192\n"],
        past: &["length 8193\n"],
        back: BEHIND_LENGTH,
        refused: "refused line 2 cause 3 number\n",
        ..COMMAND
    },
    Limit {
        name: "width",
        front: "length 1\n",
        line: &["grid 64 1\n"],
        past: &["grid 65 1\n"],
        back: BEHIND_GRID,
        refused: "refused line 3 cause 3 number\n",
        ..COMMAND
    },
    Limit {
        name: "the least length",
        front: "",
        line: &["length 1\n"],
        past: &["length 0\n"],
        back: BEHIND_LENGTH,
        refused: "refused line 2 cause 3 number\n",
        ..COMMAND
    },
    Limit {
        name: "the least width",
        front: "length 1\n",
        line: &["grid 3 1\n"],
        past: &["grid 2 1\n"],
        back: BEHIND_GRID,
        refused: "refused line 3 cause 3 number\n",
        ..COMMAND
    },
    Limit {
        name: "the least height",
        front: "length 1\n",
        line: &["grid 3 1\n"],
        past: &["grid 3 0\n"],
        back: BEHIND_GRID,
        refused: "refused line 3 cause 3 number\n",
        ..COMMAND
    },
    Limit {
        name: "the fewest mirrors",
        front: "length 1\ngrid 3 1\n",
        line: &["mirrors 1\n"],
        past: &["mirrors 0\n"],
        back: BEHIND_MIRRORS,
        refused: "refused line 4 cause 3 number\n",
        ..COMMAND
    },
    Limit {
        name: "pace",
        front: "length 1\ngrid 3 1\nmirrors 1\ndelays 4\n",
        line: &["pace 4\n"],
        past: &["pace 5\n"],
        back: "player ann 0 0 e\nend\n",
        refused: "refused line 6 cause 3 number\n",
        ..COMMAND
    },
    Limit {
        name: "height",
        front: "length 1\n",
        line: &["grid 3 64\n"],
        past: &["grid 3 65\n"],
        back: BEHIND_GRID,
        refused: "refused line 3 cause 3 number\n",
        ..COMMAND
    },
    Limit {
        name: "mirrors",
        front: "length 1\ngrid 3 1\n",
        line: &["mirrors 8\n"],
        past: &["mirrors 9\n"],
        back: BEHIND_MIRRORS,
        refused: "refused line 4 cause 3 number\n",
        ..COMMAND
    },
    Limit {
        name: "copies",
        front: "length 1\ngrid 3 1\nmirrors 1\n",
        line: &["delays 0 1 2 3 4 5 6 7\n"],
        past: &["delays 0 1 2 3 4 5 6 7 8\n"],
        back: BEHIND_DELAYS,
        refused: "refused line 5 cause 7 many\n",
        ..COMMAND
    },
    Limit {
        name: "delay",
        front: "length 1\ngrid 3 1\nmirrors 1\n",
        line: &["delays 1024\n"],
        past: &["delays 1025\n"],
        back: BEHIND_DELAYS,
        refused: "refused line 5 cause 3 number\n",
        ..COMMAND
    },
    COMMAND,
    Limit {
        name: "a command's time",
        line: &["cmd 0 0 0 0 go\n"],
        past: &["cmd 1 0 0 0 go\n"],
        ..COMMAND
    },
    NAME,
    Limit {
        name: "a player's cell",
        line: &["player ann 63 63 e\n"],
        past: &["player ann 64 63 e\n"],
        refused: "refused line 7 cause 4 place\n",
        ..NAME
    },
];

// As many lines as there may be, and one more whose number isn't canonical: it is one too many.
const TOO_MANY: [Limit; 3] = [
    Limit {
        more: 0,
        back: "pickup 00 1 gold\nend\n",
        ..PICKUPS
    },
    Limit {
        more: 0,
        back: "player q 00 1 e\nend\n",
        ..PLAYERS
    },
    Limit {
        more: 0,
        back: "cmd 00 0 0 0 go\nend\n",
        ..COMMANDS
    },
];

const TOO_MANY_SCRIPT_LINES: Limit = Limit {
    more: 0,
    back: "tick 00\nend\n",
    ..SCRIPT_LINES
};

// A piece so many times.
fn repeated(rt: &impl Abort, alloc: Global, piece: &str, times: usize) -> String {
    let block = piece.repeat(alloc, 1024).expect(rt, "memory");
    let blocks = block.as_str().repeat(alloc, times / 1024);
    let mut text = blocks.expect(rt, "memory");
    let rest = piece.repeat(alloc, times % 1024).expect(rt, "memory");
    text.push_str(rest.as_str()).expect(rt, "memory");
    text
}

// Appends a line with this number between its parts.
fn push_line(rt: &impl Abort, alloc: Global, out: &mut String, line: &[&str], number: u32) {
    let number = format!(in alloc; "{number}").expect(rt, "memory");
    for (place, part) in line.iter().enumerate() {
        if place > 0 {
            out.push_str(number.as_str()).expect(rt, "memory");
        }
        out.push_str(part).expect(rt, "memory");
    }
}

// Appends lines numbered from 0 on.
fn push_lines(rt: &impl Abort, alloc: Global, out: &mut String, line: &[&str], lines: u32) {
    if let [whole] = line {
        let text = repeated(rt, alloc, whole, lines as usize);
        out.push_str(text.as_str()).expect(rt, "memory");
        return;
    }
    for number in 0..lines {
        push_line(rt, alloc, out, line, number);
    }
}

// A text of a version with this number of lines.
fn text_of(
    rt: &impl Abort,
    alloc: Global,
    limit: &Limit,
    version: &str,
    line: &[&str],
    lines: u32,
) -> String {
    let mut text = joined(rt, alloc, &["tss match "]);
    text.push_str(version).expect(rt, "memory");
    text.push_str("\n").expect(rt, "memory");
    text.push_str(limit.front).expect(rt, "memory");
    push_lines(rt, alloc, &mut text, line, lines);
    text.push_str(limit.back).expect(rt, "memory");
    text
}

// Asserts that what stands at the limit is read, and lifted to the same with version 2.
fn assert_read<R: Threads + Wait + Sync + Abort>(rt: &R, alloc: Global, limit: &Limit) {
    let text = text_of(rt, alloc, limit, limit.version, limit.line, limit.most);
    let lifted = text_of(rt, alloc, limit, "2", limit.line, limit.most);
    let found = run_on(rt, alloc, &["lift"], text.as_str(), WHOLE);
    assert_same(rt, found.status, 0, ("the status at", limit.name));
    assert_lines(rt, limit.name, found.written.as_str(), lifted.as_str());
}

// Asserts that what stands past it is refused.
fn assert_refused<R: Threads + Wait + Sync + Abort>(rt: &R, alloc: Global, limit: &Limit) {
    let lines = limit.most.saturating_add(limit.more);
    let text = text_of(rt, alloc, limit, limit.version, limit.past, lines);
    let found = run_on(rt, alloc, &["order"], text.as_str(), WHOLE);
    assert_same(
        rt,
        (found.status, found.written.as_str()),
        (5, limit.refused),
        ("past", limit.name),
    );
}

#[test]
fn so_much_and_no_more(rt: HostRuntime) {
    for limit in &LIMITS {
        assert_read(&rt, rt.alloc(), limit);
        assert_refused(&rt, rt.alloc(), limit);
    }
    for limit in &TOO_MANY {
        assert_refused(&rt, rt.alloc(), limit);
    }
}

#[test]
fn no_more_lines_of_a_script(rt: HostRuntime) {
    assert_read(&rt, rt.alloc(), &SCRIPT_LINES);
    assert_refused(&rt, rt.alloc(), &SCRIPT_LINES);
    assert_refused(&rt, rt.alloc(), &TOO_MANY_SCRIPT_LINES);
}

// 64 letters, of which long texts are made.
const LETTERS: &str = "xxxxxxxxxxxxxxxxxxxxxxxxxxxxxxxxxxxxxxxxxxxxxxxxxxxxxxxxxxxxxxxx";

// A word, a front, how long it is made by letters without an end of a line, and how it is refused. A
// line may have 120 bytes, a match text 8,388,608, a record 33,554,432 and a lossy text 16,777,216.
type Long = (&'static str, &'static str, usize, &'static str);

const LONG: [Long; 4] = [
    ("order", "", 120, "refused line 1 cause 8 end\n"),
    ("order", "", 121, "refused line 1 cause 9 long\n"),
    ("order", OPENING, 8_388_608, "refused line 9 cause 8 end\n"),
    ("order", OPENING, 8_388_609, "refused line 0 cause 9 long\n"),
];

const LONGEST_RECORD: Long = ("audit", "", 33_554_432, "refused line 1 cause 9 long\n");

const LONGER_RECORD: Long = ("audit", "", 33_554_433, "refused line 0 cause 9 long\n");

const LONG_LOSSY: [Long; 2] = [
    ("lossy", "", 16_777_216, "refused line 1 cause 9 long\n"),
    ("lossy", "", 16_777_217, "refused line 0 cause 9 long\n"),
];

// A front, filled up with letters to this length.
fn lengthened(rt: &impl Abort, alloc: Global, front: &str, length: usize) -> String {
    let mut text = joined(rt, alloc, &[front]);
    let letters = length.saturating_sub(front.len());
    let many = repeated(rt, alloc, LETTERS, letters / 64);
    text.push_str(many.as_str()).expect(rt, "memory");
    assert!(rt; LETTERS.is_char_boundary(letters % 64));
    let (rest, _) = LETTERS.split_at(letters % 64);
    text.push_str(rest).expect(rt, "memory");
    text
}

// Asserts that a text is refused so.
fn assert_long<R: Threads + Wait + Sync + Abort>(rt: &R, alloc: Global, row: &Long) {
    let (word, front, length, refused) = *row;
    let text = lengthened(rt, alloc, front, length);
    let found = run_on(rt, alloc, &[word], text.as_str(), WHOLE);
    let told = (found.status, found.written.as_str());
    assert_same(rt, told, (5, refused), (length, "bytes for", word));
}

#[test]
fn long_lines_and_long_texts(rt: HostRuntime) {
    for row in &LONG {
        assert_long(&rt, rt.alloc(), row);
    }
}

#[test]
fn the_longest_record(rt: HostRuntime) {
    assert_long(&rt, rt.alloc(), &LONGEST_RECORD);
}

#[test]
fn a_longer_record(rt: HostRuntime) {
    assert_long(&rt, rt.alloc(), &LONGER_RECORD);
}

#[test]
fn long_lossy_texts(rt: HostRuntime) {
    for row in &LONG_LOSSY {
        assert_long(&rt, rt.alloc(), row);
    }
}
