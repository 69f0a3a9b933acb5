//! How a run ends its process: the exit code of each status, and the line on standard error.

use crate::live::end_of_run;
use crate::memory::MemPeer;
use crate::tests::refusals::REFUSED_HEAD;
use crate::tests::rows::OWN;
use crate::tests::stage::{Row, assert_lines, assert_same, joined, told_in, words_of};
use arena_rules::Arena;
use std::alloc::Global;
use std::process::{Abort, ExitCode};
use tss_base::NoMemory;
use tss_io::MemSink;

const NO_MEMORY: &str = "tss_mirror: out of memory\n";

const NOT_READ: &str = "tss_mirror: reading standard input failed\n";

const NOT_WRITTEN: &str = "tss_mirror: writing standard output failed\n";

// What a run does: it talks as a row says, which call of the peer fails, and whether memory is found
// for its words.
#[derive(Clone, Copy)]
struct Run {
    row: Row,
    failing: Option<u32>,
    has_words: bool,
}

// What it leaves: the exit code, what is said on standard error, and whether anything is told.
#[derive(Clone, Copy)]
struct Exit {
    code: u8,
    said: &'static str,
    is_told: bool,
}

// Asserts that a run ends its process so.
fn assert_exit(rt: &impl Abort, alloc: Global, run: &Run, due: &Exit) {
    let words = words_of(rt, alloc, run.row.words);
    let words = if run.has_words {
        Ok(words.as_slice())
    } else {
        Err(NoMemory)
    };
    let mut fails = Vec::new(alloc);
    if let Some(call) = run.failing {
        fails.push(call).expect(rt, "memory");
    }
    let input = joined(rt, alloc, &[run.row.front, run.row.rest]);
    let input = Vec::from_slice(alloc, input.as_bytes()).expect(rt, "memory");
    let mut peer = MemPeer::new(alloc, input, 65_536, fails);
    let mut errors = MemSink::new(alloc, 100, 100, Vec::new(alloc)).expect(rt, "memory");
    let code = end_of_run::<Arena, _, _>(alloc, words, &mut peer, &mut errors);
    assert_same(
        rt,
        code,
        ExitCode::from(due.code),
        ("the exit code of", run.row.name),
    );
    let said = String::from_utf8_lossy(alloc, errors.taken()).expect(rt, "memory");
    assert_lines(rt, run.row.name, said.as_str(), due.said);
    let is_told = !told_in(rt, alloc, peer.said()).is_empty();
    assert_same(
        rt,
        is_told,
        due.is_told,
        ("whether it is told", run.row.name),
    );
}

const WHOLE: Run = Run {
    row: OWN,
    failing: None,
    has_words: true,
};

const QUIET: Exit = Exit {
    code: 0,
    said: "",
    is_told: true,
};

// The call of the peer that tells the first answer: behind eleven that hear the first line, a flush, and
// one that hears the rest.
const FIRST_TOLD: u32 = 13;

const USED_WRONG: Row = Row {
    name: "a ninth mirror",
    words: &["8"],
    ..OWN
};

// Each status from 0 to 5 in turn: a whole talk, no memory for the words, words that name no mirror, a
// peer that isn't heard, one that isn't told, and a refused head. A usage line that isn't told is 4, too.
const EXITS: [(Run, Exit); 7] = [
    (WHOLE, QUIET),
    (
        Run {
            has_words: false,
            ..WHOLE
        },
        Exit {
            code: 1,
            said: NO_MEMORY,
            is_told: false,
        },
    ),
    (
        Run {
            row: USED_WRONG,
            ..WHOLE
        },
        Exit { code: 2, ..QUIET },
    ),
    (
        Run {
            failing: Some(0),
            ..WHOLE
        },
        Exit {
            code: 3,
            said: NOT_READ,
            is_told: false,
        },
    ),
    (
        Run {
            failing: Some(FIRST_TOLD),
            ..WHOLE
        },
        Exit {
            code: 4,
            said: NOT_WRITTEN,
            is_told: false,
        },
    ),
    (
        Run {
            row: USED_WRONG,
            failing: Some(0),
            ..WHOLE
        },
        Exit {
            code: 4,
            said: NOT_WRITTEN,
            is_told: false,
        },
    ),
    (
        Run {
            row: REFUSED_HEAD,
            ..WHOLE
        },
        Exit { code: 5, ..QUIET },
    ),
];

#[test]
fn runs_end_with_their_status(rt: HostRuntime) {
    for (run, due) in &EXITS {
        assert_exit(&rt, rt.alloc(), run, due);
    }
}
