//! One run of the program that may race.

ghost use Rattle.std.specs.Prelude.{◌≡◌, [], map, Some, true};
ghost use Rattle.std.specs.String.{string_bytes};
ghost use Rattle.tss_words.specs.Subcommands.{subcommand_of, most_read, races};
ghost use Rattle.tss_words.specs.declared.subcommand.MatchTask.TheVariants.{Race};
ghost use Rattle.tss_words.specs.declared.subcommand.Subcommand.TheVariants.{OfMatch};
ghost use Rattle.tss_program.specs.Due.{IsRaced};
ghost use Rattle.tss_program.specs.Run.{seen, taken, Answers, Gives, ReadsAtMost, IsRun};

use crate::asked::read_match_text;
use crate::done::Done;
use crate::due::Due;
use crate::plain::ended;
use crate::status::Status;
use crate::stop::Stop;
use arena_rules::Arena;
use copy_workers::Gate;
use match_data::Match;
use match_file::{Cause, Refused};
use std::alloc::Global;
use std::sync::Wait;
use std::thread::Threads;
use tss_io::{Sink, Source};
use tss_race::{Raced, race_match};
use tss_words::{MatchTask, Subcommand};

// The line of a match text that states the pace.
const PACE_LINE: u32 = 6;

/// Whether the words are the one word `race`. It takes no memory.
pub fn asks_race(words: &[String]) -> bool
    ensures { result ≡ races (subcommand_of (map string_bytes words.now)) }
{
    match Subcommand::of(words) {
        Some(Subcommand::OfMatch(MatchTask::Race)) => true,
        _ => false,
    }
}

// The answer of `race` to a match: the record of a race of it, or its refusal where it has no pace.
fn race<R: Threads + Wait + Sync, P: Gate + Sync>(
    rt: &R,
    alloc: Global,
    m: Match,
    gate: &P,
) -> Result<Due, Stop>
    ensures { Gives (IsRaced m) result }
{
    if m.pace == 0 {
        return Err(Stop::Refused(Refused {
            line: PACE_LINE,
            cause: Cause::Number,
        }));
    }
    let opening = Arena::start(&m.setup);
    let Raced { text, kept } = race_match(rt, alloc, &opening, m, gate)?;
    Ok(Due {
        status: Status::Complete,
        text,
        kept,
    })
}

// Reads a match to its end, or to one byte past its limit, and races it.
fn answer_race<R: Threads + Wait + Sync, S: Source, P: Gate + Sync>(
    rt: &R,
    alloc: Global,
    source: &mut S,
    gate: &P,
) -> Result<Due, Stop>
    ensures due { Answers [] (Some (OfMatch Race)) (seen S.left S.faults S.calls source.old)
        (seen S.left S.faults S.calls source.new) result }
    ensures most { ReadsAtMost (most_read (OfMatch Race)) (seen S.left S.faults S.calls source.old)
        (seen S.left S.faults S.calls source.new) }
{
    let m = read_match_text(alloc, source)?;
    race(rt, alloc, m, gate)
}

/// Runs the program on the words behind its name, which are the one word `race`. It reads a match
/// text with a pace above 0, races it, and puts the record of that race: the whole of it at status 0,
/// a proper front of it at status 4, and nothing at status 1 or 3; another text is refused, at status
/// 5. All other words are `run_watched`'s.
pub fn run_race<R: Threads + Wait + Sync, S: Source, K: Sink, P: Gate + Sync>(
    rt: &R,
    alloc: Global,
    words: &[String],
    source: &mut S,
    sink: &mut K,
    gate: &P,
) -> Done
    requires { races (subcommand_of (map string_bytes words.now)) ≡ true }
    ensures { IsRun (record {
      watchers = [];
      words = map string_bytes words.now;
      source_old = seen S.left S.faults S.calls source.old;
      source_new = seen S.left S.faults S.calls source.new;
      sink_old = taken K.taken K.faults sink.old;
      sink_new = taken K.taken K.faults sink.new;
      status = result.status;
      kept = result.kept;
    }) }
{
    let _ = words;
    ended(alloc, sink, answer_race(rt, alloc, source, gate))
}
