//! One run of the program with the watchers of `score`.

ghost use Rattle.std.specs.Prelude.{◌≡◌, List, [], ◌∷◌, None, Err, map, false, IfOk, OnErr};
ghost use Rattle.std.specs.String.{string_bytes};
ghost use Rattle.watch_board.specs.Behaviour.{Behaviour};
ghost use Rattle.watch_board.specs.Watchers.{repair_count, late_count, first_repair};
ghost use Rattle.tss_words.specs.Subcommands.{subcommand_of, most_asked, races};
ghost use Rattle.tss_program.specs.Run.{Seen, seen, taken, Answers, IsRun};

use crate::done::Done;
use crate::plain::{ended, run_plain};
use crate::stop::Stop;
use std::alloc::Global;
use tss_base::NoMemory;
use tss_io::{Sink, Source};
use tss_words::Subcommand;
use watch_board::{FirstRepair, LateCount, RepairCount, Watcher};

// Why a run has no answer for which memory ran out before it began: words that ask for nothing are
// answered all the same. It takes no memory.
fn stop_at_start(words: &[String]) -> Stop
    ensures { (watchers : List Behaviour) (source : Seen) → Answers watchers
        (subcommand_of (map string_bytes words.now)) source source (Err result) }
{
    match Subcommand::of(words) {
        Some(_) => Stop::NoMemory,
        None => Stop::WrongWords,
    }
}

// Makes the watchers and runs the program. Where no memory is found for them, nothing is read and
// nothing is put.
fn run_told<S: Source, K: Sink>(
    alloc: Global,
    words: &[String],
    source: &mut S,
    sink: &mut K,
) -> Result<Done, NoMemory>
    requires { races (subcommand_of (map string_bytes words.now)) ≡ false }
    ensures run { IfOk result (λ done. IsRun (record {
      watchers = repair_count 0 ∷ late_count 0 ∷ first_repair None ∷ [];
      words = map string_bytes words.now;
      source_old = seen S.left S.faults S.calls source.old;
      source_new = seen S.left S.faults S.calls source.new;
      sink_old = taken K.taken K.faults sink.old;
      sink_new = taken K.taken K.faults sink.new;
      status = done.status;
      kept = done.kept;
    })) }
    ensures untouched { most_asked (subcommand_of (map string_bytes words.now)) ≡ 0
        → source.new ≡ source.old }
    ensures err { OnErr result ((source.new ≡ source.old) × (sink.new ≡ sink.old)) }
{
    let mut watchers: Vec<Box<dyn Watcher>> = Vec::new(alloc);
    watchers.push(Box::new(alloc, RepairCount::new())?)?;
    watchers.push(Box::new(alloc, LateCount::new())?)?;
    watchers.push(Box::new(alloc, FirstRepair::new())?)?;
    Ok(run_plain(alloc, words, source, sink, watchers))
}

/// Runs the program on the words behind its name, which are other than the one word `race`, as
/// `run_plain` does, with the watchers of `score` in the order in which they are told: a count of
/// repairs, a count of late commands, and the first repair. Where no memory is found for them it
/// ends with status 1, and wrong words are answered all the same.
pub fn run_watched<S: Source, K: Sink>(
    alloc: Global,
    words: &[String],
    source: &mut S,
    sink: &mut K,
) -> Done
    requires { races (subcommand_of (map string_bytes words.now)) ≡ false }
    ensures run { IsRun (record {
      watchers = repair_count 0 ∷ late_count 0 ∷ first_repair None ∷ [];
      words = map string_bytes words.now;
      source_old = seen S.left S.faults S.calls source.old;
      source_new = seen S.left S.faults S.calls source.new;
      sink_old = taken K.taken K.faults sink.old;
      sink_new = taken K.taken K.faults sink.new;
      status = result.status;
      kept = result.kept;
    }) }
    ensures untouched { most_asked (subcommand_of (map string_bytes words.now)) ≡ 0
        → source.new ≡ source.old }
{
    match run_told(alloc, words, source, sink) {
        Ok(done) => done,
        Err(NoMemory) => ended(alloc, sink, Err(stop_at_start(words))),
    }
}
