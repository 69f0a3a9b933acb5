//! A talk of the program with a peer in memory, and what of it is compared.

use crate::done::failure_line;
use crate::live::live;
use crate::memory::MemPeer;
use arena_rules::Arena;
use line_talk::Said;
use live_talk::Begins;
use std::alloc::Global;
use std::fmt::Debug;
use std::process::Abort;

// How many bytes a call of the peer moves, and which call fails.
#[derive(Clone, Copy)]
pub(super) struct Calls {
    pub piece: usize,
    pub failing: Option<u32>,
}

pub(super) const WHOLE: Calls = Calls {
    piece: 65_536,
    failing: None,
};

// What a talk comes to: the status, what is said of a failure, and the peer with all that was said.
#[derive(Drop)]
pub(super) struct Talk {
    pub status: u8,
    pub failure: &'static str,
    pub peer: MemPeer,
}

impl Talk {
    // All that was told.
    pub(super) fn told(&self, rt: &impl Abort, alloc: Global) -> String {
        told_in(rt, alloc, self.peer.said())
    }
}

// A talk that has to come out so: the words of the program, its input, which is a front that other
// rows may have, too, and the rest, the status, and all that is told.
#[derive(Clone, Copy)]
pub(super) struct Row {
    pub name: &'static str,
    pub words: &'static [&'static str],
    pub front: &'static str,
    pub rest: &'static str,
    pub status: u8,
    pub told: &'static str,
}

// The pieces in one.
pub(super) fn joined(rt: &impl Abort, alloc: Global, pieces: &[&str]) -> String {
    let mut text = String::new(alloc);
    for piece in pieces {
        text.push_str(piece).expect(rt, "memory");
    }
    text
}

// All that was told.
pub(super) fn told_in(rt: &impl Abort, alloc: Global, said: &[Said]) -> String {
    let mut told = Vec::new(alloc);
    for one in said {
        if let Said::Told(bytes) = one {
            told.extend_from_slice(bytes.as_slice())
                .expect(rt, "memory");
        }
    }
    String::from_utf8_lossy(alloc, told.as_slice()).expect(rt, "memory")
}

// Whether all that was told before something is heard was flushed.
fn is_flushed_in_time(said: &[Said]) -> bool {
    let mut is_flushed = true;
    for one in said {
        match one {
            Said::Heard(_) if !is_flushed => return false,
            Said::Heard(_) => {}
            Said::Told(_) => is_flushed = false,
            Said::Flushed => is_flushed = true,
        }
    }
    true
}

// The words as the system hands them over.
pub(super) fn words_of(rt: &impl Abort, alloc: Global, words: &[&str]) -> Vec<String> {
    let mut owned = Vec::new(alloc);
    for word in words {
        let word = String::from_str(alloc, word).expect(rt, "memory");
        owned.push(word).expect(rt, "memory");
    }
    owned
}

// The program's talk in the arena with a peer that says this input.
pub(super) fn make_talk(
    rt: &impl Abort,
    alloc: Global,
    words: &[&str],
    input: &str,
    calls: Calls,
) -> Talk {
    make_talk_of::<Arena>(rt, alloc, words, input, calls)
}

// The same in a game.
pub(super) fn make_talk_of<G: Begins>(
    rt: &impl Abort,
    alloc: Global,
    words: &[&str],
    input: &str,
    calls: Calls,
) -> Talk {
    assert!(rt; calls.piece > 0);
    let words = words_of(rt, alloc, words);
    let mut fails = Vec::new(alloc);
    if let Some(call) = calls.failing {
        fails.push(call).expect(rt, "memory");
    }
    let input = Vec::from_slice(alloc, input.as_bytes()).expect(rt, "memory");
    let mut peer = MemPeer::new(alloc, input, calls.piece, fails);
    let done = live::<G, _>(alloc, words.as_slice(), &mut peer);
    Talk {
        status: done.status,
        failure: failure_line(done.status).unwrap_or("nothing"),
        peer,
    }
}

// Asserts that two values are the same, and says where they stand if not. A call of it is proved much
// faster than the macro.
pub(super) fn assert_same<T: Copy + PartialEq + Debug, P: Copy + Debug>(
    rt: &impl Abort,
    found: T,
    due: T,
    place: P,
) {
    assert_eq!(rt; found, due, "{place:?}");
}

// Asserts that a text has just the lines that are due.
pub(super) fn assert_lines(rt: &impl Abort, name: &str, text: &str, due: &str) {
    let mut lines = text.split('\n');
    for (place, line) in due.split('\n').enumerate() {
        let found = lines.next().unwrap_or("no line");
        assert_same(rt, found, line, (name, "line, from 0 on", place));
    }
    let more = lines.next();
    assert_same(rt, more, None, (name, "a line more than is due"));
}

// Asserts that a talk over such calls came out with this status, what is said of it, and all that is
// due, and that what was told was flushed before more was heard.
pub(super) fn assert_talk(
    rt: &impl Abort,
    alloc: Global,
    name: &str,
    found: &Talk,
    status: u8,
    due: &str,
) {
    let failure = match status {
        3 => "tss_mirror: reading standard input failed\n",
        4 => "tss_mirror: writing standard output failed\n",
        _ => "nothing",
    };
    assert_same(rt, found.status, status, ("the status of", name));
    assert_same(rt, found.failure, failure, ("what is said of", name));
    let is_flushed = is_flushed_in_time(found.peer.said());
    assert_same(rt, is_flushed, true, ("whether it is flushed", name));
    assert_lines(rt, name, found.told(rt, alloc).as_str(), due);
}

// Asserts that the talk of a row comes out as it has to, where a call moves at most so many bytes, and
// answers it.
pub(super) fn assert_row(rt: &impl Abort, alloc: Global, row: &Row, piece: usize) -> Talk {
    let input = joined(rt, alloc, &[row.front, row.rest]);
    let calls = Calls { piece, ..WHOLE };
    let found = make_talk(rt, alloc, row.words, input.as_str(), calls);
    assert_talk(rt, alloc, row.name, &found, row.status, row.told);
    found
}

// Asserts that the talk of each row comes out as it has to.
pub(super) fn assert_rows(rt: &impl Abort, alloc: Global, rows: &[Row]) {
    for row in rows {
        let _ = assert_row(rt, alloc, row, WHOLE.piece);
    }
}
