//! Races: by the caller alone with known logs, by threads that meet, and many that are audited.

use crate::tests::program::{WHOLE, run_on};
use crate::tests::stage::asserts::{assert_same, assert_that};
use crate::tests::stage::lines::{assert_lines, joined, push_events};
use arena_rules::Arena;
use copy_workers::Gate;
use game_trait::Game;
use match_data::Match;
use match_file::read_match;
use match_setup::Shown;
use mirror_core::Mirror;
use race_hall::{budget_of, race, race_with};
use run_recorder::print_record;
use std::alloc::Global;
use std::process::Abort;
use std::sync::Wait;
use std::sync::atomic::{AtomicU64, Ordering};
use std::thread::{self, Threads};
use std::time::{Clock, Duration};
use tss_race::record_of;

// Two mirrors of two copies, whose players both want the cell between them.
const TIES: &str = "tss match 1\n\
    length 4\n\
    grid 3 1\n\
    mirrors 2\n\
    delays 0 2\n\
    pace 2\n\
    player ann 0 0 e\n\
    player bob 2 0 w\n\
    cmd 0 0 0 0 go\n\
    cmd 0 1 0 1 go\n\
    end\n";

const TIES_WORLD: &str = "live ann 1 0 e 3 5 0\n\
    live bob 2 0 w 3 5 0\n";

// Three mirrors of one copy, a pace of one tick, and commands up to the last one.
const THREE: &str = "tss match 1\n\
    length 6\n\
    grid 5 1\n\
    mirrors 3\n\
    delays 3\n\
    pace 1\n\
    player ann 0 0 e\n\
    player bob 4 0 w\n\
    cmd 5 0 0 0 go\n\
    cmd 0 1 0 1 go\n\
    cmd 2 2 0 0 go\n\
    cmd 2 2 1 1 shoot\n\
    end\n";

// One mirror alone, which has no link.
const ALONE: &str = "tss match 1\n\
    length 5\n\
    grid 5 1\n\
    mirrors 1\n\
    delays 0 1 4\n\
    pace 3\n\
    player ann 0 0 e\n\
    cmd 1 0 1 0 go\n\
    cmd 4 0 0 0 go\n\
    end\n";

// Asserts that a record is legal.
pub(super) fn assert_legal<R: Threads + Wait + Sync + Abort>(
    rt: &R,
    alloc: Global,
    name: &str,
    record: &str,
) {
    let found = run_on(rt, alloc, &["audit"], record, WHOLE);
    let is_legal = found.status == 0 && found.written.as_str().starts_with("legal ");
    assert_that(
        rt,
        is_legal,
        (name, "an audit says", found.written.as_str()),
    );
}

// The match of a text.
fn matched(rt: &impl Abort, alloc: Global, text: &str) -> Match {
    read_match(alloc, text.as_bytes()).expect(rt, "a match")
}

// Asserts that lines begin with a block, behind which the next world, the next log or the end of a
// record stands.
fn assert_block(rt: &impl Abort, name: &str, lines: &str, block: &str) {
    let mut found = lines.lines();
    for line in block.lines() {
        let first = found.next().unwrap_or("no line");
        assert_that(
            rt,
            first == line,
            (name, "a world has", first, "in place of", line),
        );
    }
    let behind = found.next().unwrap_or("done");
    let is_end = behind == "done" || behind.starts_with("log ");
    assert_that(rt, is_end, (name, "behind a world stands", behind));
}

// Asserts that a record states this number of worlds, each with this block.
pub(super) fn assert_worlds(rt: &impl Abort, name: &str, record: &str, block: &str, worlds: usize) {
    let mut found = 0usize;
    for (place, stated) in record.split("\nworld ").enumerate() {
        if place == 0 {
            continue;
        }
        let (_, lines) = stated.split_once('\n').unwrap_or(("", ""));
        assert_block(rt, name, lines, block);
        found = found.saturating_add(1);
    }
    assert_same(rt, found, worlds, ("the worlds of", name));
}

// The record of a race of this match, printed.
fn printed<G: Game + Shown>(
    rt: &impl Abort,
    alloc: Global,
    m: Match,
    mirrors: &[Mirror<G>],
) -> String {
    assert!(rt; mirrors.len() <= 8);
    let record = record_of(alloc, m, mirrors).expect(rt, "memory");
    let text = print_record(alloc, &record).expect(rt, "memory");
    String::from_utf8(text).expect(rt, "a text")
}

// The record of a race from this world, whose jobs the caller does where their bit is set, and its
// logs.
fn raced_from<R: Threads + Wait + Sync + Abort, P: Gate + Sync, G: Game + Shown + Send>(
    rt: &R,
    alloc: Global,
    m: Match,
    opening: &G,
    gate: &P,
    budget: u32,
    inline: u128,
) -> (String, String) {
    assert!(rt; budget <= 1_048_576);
    let mirrors = race_with(rt, alloc, &m, opening, gate, u64::from(budget), inline);
    let mirrors = mirrors.expect(rt, "memory");
    let mut logs = String::new(alloc);
    for mirror in &mirrors {
        push_events(rt, alloc, &mut logs, mirror.events());
    }
    (printed(rt, alloc, m, mirrors.as_slice()), logs)
}

// The same of a match from its opening.
fn raced<R: Threads + Wait + Sync + Abort, P: Gate + Sync>(
    rt: &R,
    alloc: Global,
    text: &str,
    gate: &P,
    budget: u32,
    inline: u128,
) -> (String, String) {
    let m = matched(rt, alloc, text);
    let opening = Arena::start(&m.setup);
    raced_from(rt, alloc, m, &opening, gate, budget, inline)
}

// Counts how often each of the six jobs of a race of `TIES` passes, and notes where a turn isn't
// the job's next one.
#[derive(Drop)]
struct Counts {
    passes: [AtomicU64; 6],
    wrong: AtomicU64,
}

impl Gate for Counts {
    fn pass(&self, mirror: u8, worker: u8, turn: u64) {
        let job = usize::from(mirror) * 3 + usize::from(worker);
        let next = match self.passes.get(job) {
            Some(passes) => passes.fetch_add(1, Ordering::SeqCst),
            None => u64::MAX,
        };
        if next != turn {
            self.wrong.store(1, Ordering::SeqCst);
        }
    }
}

fn counting() -> Counts {
    Counts {
        passes: [
            AtomicU64::new(0),
            AtomicU64::new(0),
            AtomicU64::new(0),
            AtomicU64::new(0),
            AtomicU64::new(0),
            AtomicU64::new(0),
        ],
        wrong: AtomicU64::new(0),
    }
}

// How many turns the jobs of a race of `TIES` make at least where their budget has them: a copy runs
// 4 ticks, and a feeder makes 6.
const LEAST: [u64; 6] = [4, 4, 6, 4, 4, 6];

// Asserts that each job made its turns in order, as many as it has to and no more than its budget.
fn assert_passes(rt: &impl Abort, name: &str, gate: &Counts, budget: u64) {
    for job in 0..6usize {
        let passes = gate.passes[job].load(Ordering::SeqCst);
        let least = LEAST[job].min(budget);
        assert_that(
            rt,
            least <= passes && passes <= budget,
            (name, "job", job, passes, "turns of", (least, budget)),
        );
    }
    let wrong = gate.wrong.load(Ordering::SeqCst);
    assert_same(rt, wrong, 0, (name, "turns that aren't the next one"));
}

// A race of `TIES`: its budget, the jobs that the caller does, and the logs of both mirrors where
// they are known: where the caller does all jobs, they are done one after another.
#[derive(Clone, Copy)]
struct Budget {
    name: &'static str,
    budget: u32,
    inline: u128,
    logs: &'static [&'static str],
}

// All six jobs of a race of `TIES`.
const ALL_JOBS: u128 = 63;

// The feeders of both mirrors.
const FEEDERS: u128 = 36;

const NO_BUDGET: Budget = Budget {
    name: "no budget, in threads",
    budget: 0,
    inline: 0,
    logs: &[
        "0.0 1.0 t s0 t s0 t s0 s1 t s0 s1 t s1 t s1\n",
        "0.0 1.0 t s0 t s0 t s0 s1 t s0 s1 t s1 t s1\n",
    ],
};

const BUDGET_1: Budget = Budget {
    name: "budget 1, in threads",
    budget: 1,
    logs: &[],
    ..NO_BUDGET
};

const BUDGET_7: Budget = Budget {
    name: "budget 7, in threads",
    budget: 7,
    ..BUDGET_1
};

const BUDGET_1000: Budget = Budget {
    name: "budget 1,000, in threads",
    budget: 1000,
    ..BUDGET_1
};

const BUDGET_MOST: Budget = Budget {
    name: "the greatest budget, in threads",
    budget: 1_048_576,
    ..BUDGET_1
};

const BUDGETS: [Budget; 14] = [
    NO_BUDGET,
    Budget {
        name: "no budget, by the caller",
        inline: ALL_JOBS,
        ..NO_BUDGET
    },
    Budget {
        name: "no budget, feeders by the caller",
        inline: FEEDERS,
        ..NO_BUDGET
    },
    BUDGET_1,
    Budget {
        name: "budget 1, by the caller",
        inline: ALL_JOBS,
        logs: &[
            "0.0 t 1.0 t s0 t s0 s1 t s0 s1 t s0 s1 t s1\n",
            "1.0 0.0 t t s0 t s0 s1 t s0 s1 t s0 s1 t s1\n",
        ],
        ..BUDGET_1
    },
    Budget {
        name: "budget 1, feeders by the caller",
        inline: FEEDERS,
        ..BUDGET_1
    },
    BUDGET_7,
    Budget {
        name: "budget 7, by the caller",
        inline: ALL_JOBS,
        logs: &[
            "0.0 t t 1.0 t s0 s1 t s0 s1 t s0 s1 t s0 s1\n",
            "1.0 0.0 t t t t t t s0 s1 s0 s1 s0 s1 s0 s1\n",
        ],
        ..BUDGET_7
    },
    Budget {
        name: "budget 7, feeders by the caller",
        inline: FEEDERS,
        ..BUDGET_7
    },
    BUDGET_1000,
    Budget {
        name: "budget 1,000, by the caller",
        inline: ALL_JOBS,
        logs: &[
            "0.0 t t 1.0 t s0 s1 t s0 s1 t s0 s1 t s0 s1\n",
            "1.0 0.0 t t t t t t s0 s1 s0 s1 s0 s1 s0 s1\n",
        ],
        ..BUDGET_1000
    },
    Budget {
        name: "budget 1,000, feeders by the caller",
        inline: FEEDERS,
        ..BUDGET_1000
    },
    BUDGET_MOST,
    Budget {
        name: "the greatest budget, by the caller",
        inline: ALL_JOBS,
        logs: &[
            "0.0 t t 1.0 t s0 s1 t s0 s1 t s0 s1 t s0 s1\n",
            "1.0 0.0 t t t t t t s0 s1 s0 s1 s0 s1 s0 s1\n",
        ],
        ..BUDGET_MOST
    },
];

// Asserts that a race with this budget is legal, ends in the known world, keeps the known logs, and
// that each job makes its turns.
fn assert_budget<R: Threads + Wait + Sync + Abort>(rt: &R, alloc: Global, row: &Budget) {
    let gate = counting();
    let (record, logs) = raced(rt, alloc, TIES, &gate, row.budget, row.inline);
    assert_passes(rt, row.name, &gate, u64::from(row.budget));
    if !row.logs.is_empty() {
        let due = joined(rt, alloc, row.logs);
        assert_lines(rt, row.name, logs.as_str(), due.as_str());
    }
    assert_legal(rt, alloc, row.name, record.as_str());
    assert_worlds(rt, row.name, record.as_str(), TIES_WORLD, 4);
}

// Two mirrors, each with a command of tick 0 and one of tick 1.
const OWN_TWO: &str = "tss match 1\n\
    length 4\n\
    grid 3 1\n\
    mirrors 2\n\
    delays 0 2\n\
    pace 2\n\
    player ann 0 0 e\n\
    player bob 2 0 w\n\
    cmd 0 0 0 0 left\n\
    cmd 0 1 0 1 left\n\
    cmd 1 0 1 0 left\n\
    cmd 1 1 1 1 left\n\
    end\n";

// The caller does all jobs, with one turn each: a feeder issues its command of tick 0. Mirror 1's
// finds mirror 0's in its link; mirror 0 is delivered mirror 1's from its link first, and then what
// was never issued, mirror 0's before mirror 1's.
#[test]
fn what_is_left_in_links_comes_first(rt: HostRuntime) {
    let (record, logs) = raced(&rt, rt.alloc(), OWN_TWO, &counting(), 1, ALL_JOBS);
    assert_lines(
        &rt,
        "one turn each",
        logs.as_str(),
        "0.0 t 1.0 0.1 1.1 t s0 t s0 s1 t s0 s1 t s0 s1 t s1\n\
        1.0 0.0 t 0.1 1.1 t s0 t s0 s1 t s0 s1 t s0 s1 t s1\n",
    );
    assert_legal(&rt, rt.alloc(), "one turn each", record.as_str());
}

#[test]
fn races_with_small_budgets(rt: HostRuntime) {
    for row in &BUDGETS {
        assert_budget(&rt, rt.alloc(), row);
    }
}

// The record of a race from this world in threads alone, with the budget that a race has.
fn raced_whole<R: Threads + Wait + Sync + Abort, P: Gate + Sync, G: Game + Shown + Send>(
    rt: &R,
    alloc: Global,
    m: Match,
    opening: &G,
    gate: &P,
) -> String {
    let mirrors = race(rt, alloc, &m, opening, gate).expect(rt, "memory");
    printed(rt, alloc, m, mirrors.as_slice())
}

// The same of a match of the arena from its opening.
fn arena_raced<R: Threads + Wait + Sync + Abort, P: Gate + Sync>(
    rt: &R,
    alloc: Global,
    text: &str,
    gate: &P,
) -> String {
    let m = matched(rt, alloc, text);
    let opening = Arena::start(&m.setup);
    raced_whole(rt, alloc, m, &opening, gate)
}

// 64 turns for each tick of a mirror's clock, which ends at the length and the longest delay, and 64
// more.
#[test]
fn a_race_has_turns_for_all_work(rt: HostRuntime) {
    for (text, budget) in [(TIES, 448), (THREE, 640), (ALONE, 640)] {
        let m = matched(&rt, rt.alloc(), text);
        assert_same(&rt, budget_of(&m), budget, ("the turns of a job of", text));
    }
}

// A race has a budget, of 448 turns a job here, and each job makes its turns.
fn assert_race<R: Threads + Wait + Sync + Abort>(rt: &R, alloc: Global) {
    let gate = counting();
    let record = arena_raced(rt, alloc, TIES, &gate);
    assert_passes(rt, "a race", &gate, 448);
    assert_legal(rt, alloc, "a race", record.as_str());
    assert_worlds(rt, "a race", record.as_str(), TIES_WORLD, 4);
}

#[test]
fn each_job_of_a_race_makes_its_turns(rt: HostRuntime) {
    for _ in 0..20 {
        assert_race(&rt, rt.alloc());
    }
}

// Two mirrors of two copies, with 6,656 turns for each job.
const LONG: &str = "tss match 1\n\
    length 100\n\
    grid 3 1\n\
    mirrors 2\n\
    delays 0 3\n\
    pace 3\n\
    player ann 0 0 e\n\
    player bob 2 0 w\n\
    cmd 0 0 0 0 go\n\
    cmd 50 1 0 1 left\n\
    cmd 60 0 1 0 right\n\
    cmd 99 1 1 1 right\n\
    end\n";

// A gate at which mirror 1's feeder waits before its first turn until mirror 0's has begun so many.
// That one is held at an early tick, and has to make all its turns.
#[derive(Drop)]
struct HeldFeeder {
    turns: u64,
    begun: AtomicU64,
    missed: AtomicU64,
}

impl Gate for HeldFeeder {
    fn pass(&self, mirror: u8, worker: u8, turn: u64) {
        if (mirror, worker) == (0, 2) {
            self.begun.fetch_add(1, Ordering::SeqCst);
        }
        if (mirror, worker, turn) != (1, 2, 0) {
            return;
        }
        for _ in 0..200_000_000_u32 {
            if self.begun.load(Ordering::SeqCst) >= self.turns {
                return;
            }
            thread::yield_now();
        }
        self.missed.store(1, Ordering::SeqCst);
    }
}

// A race of a match has so many turns for each job, and a feeder that is held makes all of them.
fn assert_held<R: Threads + Wait + Sync + Abort>(rt: &R, alloc: Global, text: &str, turns: u64) {
    let gate = HeldFeeder {
        turns,
        begun: AtomicU64::new(0),
        missed: AtomicU64::new(0),
    };
    let record = arena_raced(rt, alloc, text, &gate);
    let made = (
        gate.begun.load(Ordering::SeqCst),
        gate.missed.load(Ordering::SeqCst),
    );
    assert_same(
        rt,
        made,
        (turns, 0),
        ("the turns of a feeder that is held", text),
    );
    assert_legal(rt, alloc, text, record.as_str());
}

#[test]
fn a_race_uses_its_budget(rt: HostRuntime) {
    assert_held(&rt, rt.alloc(), TIES, 448);
    assert_held(&rt, rt.alloc(), LONG, 6_656);
}

// A gate that holds mirror 1's feeder for a second at a turn, and counts.
#[derive(Drop)]
struct HeldLong<'a, R> {
    clock: &'a R,
    counts: Counts,
}

impl<'a, R: Clock> Gate for HeldLong<'a, R> {
    fn pass(&self, mirror: u8, worker: u8, turn: u64) {
        self.counts.pass(mirror, worker, turn);
        if (mirror, worker, turn) == (1, 2, 3) {
            thread::sleep(self.clock, Duration::from_secs(1));
        }
    }
}

// Asserts that each of the six jobs of a race was done before its budget was spent.
fn assert_turns_left(rt: &impl Abort, counts: &Counts, budget: u64) {
    for job in 0..6usize {
        let turns = counts.passes[job].load(Ordering::SeqCst);
        assert_that(rt, turns < budget, ("job", job, "has spent its turns"));
    }
}

// While one is held up, the others don't spend their turns: all jobs are done with turns left, so the
// threads have exchanged all commands and run all ticks.
#[test]
fn others_wait_for_one_that_is_held_up(rt: HostRuntime) {
    let gate = HeldLong {
        clock: &rt,
        counts: counting(),
    };
    let (record, _) = raced(&rt, rt.alloc(), LONG, &gate, 6_656, 0);
    assert_turns_left(&rt, &gate.counts, 6_656);
    assert_legal(&rt, rt.alloc(), "one is held up", record.as_str());
}

// A gate that yields at turns that follow from a seed.
#[derive(Drop)]
struct Yields {
    seed: u64,
}

impl Gate for Yields {
    fn pass(&self, mirror: u8, worker: u8, turn: u64) {
        let place = turn
            .wrapping_mul(31)
            .wrapping_add(u64::from(worker).wrapping_mul(7))
            .wrapping_add(u64::from(mirror).wrapping_mul(13));
        if place.wrapping_add(self.seed) % 3 == 0 {
            thread::yield_now();
        }
    }
}

#[test]
fn a_hundred_races_are_legal(rt: HostRuntime) {
    let alloc = rt.alloc();
    for budget in 0..43u32 {
        let gate = Yields {
            seed: u64::from(budget),
        };
        for text in [TIES, THREE, ALONE] {
            let (record, _) = raced(&rt, alloc, text, &gate, budget, u128::from(budget / 2));
            assert_legal(&rt, alloc, text, record.as_str());
        }
    }
}

// A gate at which worker 0 of mirror 0 waits for that mirror's feeder to come to its turn 2, and
// this one there for that worker's turn 2. It notes where one waited in vain.
#[derive(Drop)]
struct Meeting {
    feeder: AtomicU64,
    worker: AtomicU64,
    missed: AtomicU64,
}

impl Meeting {
    // Waits until the flag is set.
    fn wait_for(&self, flag: &AtomicU64) {
        for _ in 0..200_000_000_u32 {
            if flag.load(Ordering::SeqCst) == 1 {
                return;
            }
            thread::yield_now();
        }
        self.missed.store(1, Ordering::SeqCst);
    }
}

impl Gate for Meeting {
    fn pass(&self, mirror: u8, worker: u8, turn: u64) {
        match (mirror, worker, turn) {
            (0, 0, 0) => self.wait_for(&self.feeder),
            (0, 0, 2) => self.worker.store(1, Ordering::SeqCst),
            (0, 2, 2) => {
                self.feeder.store(1, Ordering::SeqCst);
                self.wait_for(&self.worker);
            }
            _ => {}
        }
    }
}

// Asserts that the first events of mirror 0, its arrivals aside, are two ticks, the two steps of
// copy 0 for which they make room, and a tick.
fn assert_met(rt: &impl Abort, record: &str) {
    let (_, log) = record.split_once("log 0 16\n").unwrap_or(("", ""));
    let mut due = ["tick", "tick", "step 0", "step 0", "tick"].iter();
    for line in log.lines() {
        if !line.starts_with("arrive ")
            && let Some(word) = due.next()
        {
            assert_that(
                rt,
                line == *word,
                ("an event of two who meet is", line, "in place of", word),
            );
        }
    }
    assert_that(rt, due.next().is_none(), "two who meet have too few events");
}

// Asserts that they meet, in a race in threads alone, or where the caller does this job beside the
// threads.
fn assert_meets<R: Threads + Wait + Sync + Abort>(rt: &R, alloc: Global, inline: Option<u128>) {
    let gate = Meeting {
        feeder: AtomicU64::new(0),
        worker: AtomicU64::new(0),
        missed: AtomicU64::new(0),
    };
    let record = match inline {
        None => arena_raced(rt, alloc, TIES, &gate),
        Some(job) => raced(rt, alloc, TIES, &gate, 448, job).0,
    };
    let missed = gate.missed.load(Ordering::SeqCst);
    assert_same(rt, missed, 0, "one waited in vain for the other");
    assert_met(rt, record.as_str());
}

// Worker 0 of mirror 0, and its feeder.
const WORKER: u128 = 1;

const FEEDER: u128 = 4;

#[test]
fn two_workers_meet(rt: HostRuntime) {
    for inline in [None, Some(WORKER), Some(FEEDER)] {
        assert_meets(&rt, rt.alloc(), inline);
    }
}
