//! One run of the program: words and a source in, bytes and a status out.

ghost use Rattle.std.specs.Prelude.{◌≡◌, map, false};
ghost use Rattle.std.specs.String.{string_bytes};
ghost use Rattle.tss_words.specs.Subcommands.{subcommand_of, most_asked, races};
ghost use Rattle.tss_program.specs.Run.{seen, taken, IsPut, IsStopped, IsEnded, IsRun};

use crate::asked::answer_words;
use crate::done::Done;
use crate::due::Due;
use crate::status::Status;
use crate::stop::Stop;
use match_data::MirrorLog;
use report_text::{refusal_text, usage_line};
use std::alloc::Global;
use tss_base::Seq;
use tss_io::{Failed, Sink, Source, put_all};
use watch_board::Watcher;

// Puts a text that is due, and ends with the status that goes with it, or with a write fault.
fn put<K: Sink>(sink: &mut K, status: Status, text: &[u8], kept: Seq<MirrorLog>) -> Done
    ensures { IsPut (record { status = status; text = text.now; kept = kept })
        (taken K.taken K.faults sink.old) (taken K.taken K.faults sink.new) result.status
        result.kept }
{
    match put_all(sink, text) {
        Ok(()) => Done::of(status, kept),
        Err(Failed) => Done::of(Status::WriteFault, kept),
    }
}

// Puts the line that tells why there is no answer, where one does, and ends with the status that
// goes with it. It takes no memory.
fn stopped<K: Sink>(alloc: Global, sink: &mut K, stop: Stop) -> Done
    ensures { IsStopped stop (taken K.taken K.faults sink.old) (taken K.taken K.faults sink.new)
        result.status result.kept }
{
    match stop {
        Stop::WrongWords => put(
            sink,
            Status::WrongWords,
            usage_line().as_bytes(),
            Seq::new(alloc),
        ),
        Stop::Refused(refused) => put(
            sink,
            Status::Refusal,
            refusal_text(&refused).as_bytes(),
            Seq::new(alloc),
        ),
        Stop::ReadFault => Done::of(Status::ReadFault, Seq::new(alloc)),
        Stop::NoMemory => Done::of(Status::NoMemory, Seq::new(alloc)),
    }
}

// Puts what is due, or the line that tells why nothing is, and ends with the status that goes with
// it. It takes no memory.
pub(crate) fn ended<K: Sink>(alloc: Global, sink: &mut K, answer: Result<Due, Stop>) -> Done
    ensures { IsEnded answer (taken K.taken K.faults sink.old) (taken K.taken K.faults sink.new)
        result.status result.kept }
{
    match answer {
        Ok(Due { status, text, kept }) => put(sink, status, text.as_slice(), kept),
        Err(stop) => stopped(alloc, sink, stop),
    }
}

/// Runs the program on the words behind its name, which are other than the one word `race`. It
/// reads the source where they ask for a subcommand that reads, and puts what is due to the sink:
/// the whole of it at status 0, 2, 5, 6 or 7, a proper front of it at status 4, and nothing at status
/// 1 or 3. The watchers are told where the words are `score`, and else they are dropped as they
/// are.
pub fn run_plain<S: Source, K: Sink>(
    alloc: Global,
    words: &[String],
    source: &mut S,
    sink: &mut K,
    watchers: Vec<Box<dyn Watcher>>,
) -> Done
    requires { races (subcommand_of (map string_bytes words.now)) ≡ false }
    ensures run { IsRun (record {
      watchers = map (λ w. behaviour w) watchers.items;
      words = map string_bytes words.now;
      source_old = seen S.left S.faults S.calls source.old;
      source_new = seen S.left S.faults S.calls source.new;
      sink_old = taken K.taken K.faults sink.old;
      sink_new = taken K.taken K.faults sink.new;
      status = result.status;
      kept = result.kept;
    }) }
    ensures untouched { most_asked (subcommand_of (map string_bytes words.now)) ≡ 0
        → source.new ≡ source.old }
{
    ended(alloc, sink, answer_words(alloc, words, source, watchers))
}
