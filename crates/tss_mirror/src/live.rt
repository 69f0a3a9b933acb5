//! One run of the program: words and a peer in, a status out.

ghost use Rattle.std.specs.Prelude.{◌≡◌, map, IfOk, OnErr};
ghost use Rattle.std.specs.Process.{exit_status};
ghost use Rattle.std.specs.String.{string_bytes};
ghost use Rattle.live_talk.specs.Staging.{staging};
ghost use Rattle.tss_words.specs.Ending.{taken, Says};
ghost use Rattle.tss_mirror.specs.Run.{failure_line, side, EndsUsage, IsRun};

use crate::done::{Done, Status};
use crate::talking::talk_as;
use crate::words::{mirror_named, usage_line};
use line_talk::{Peer, tell_flushed};
use live_talk::Begins;
use std::alloc::Global;
use std::process::ExitCode;
use tss_base::NoMemory;
use tss_io::Sink;

// Tells the usage line.
fn tell_usage<P: Peer>(peer: &mut P) -> Status
    ensures { EndsUsage (side P.left P.said P.faults peer.old)
        (side P.left P.said P.faults peer.new) result }
{
    match tell_flushed(peer, usage_line().as_bytes()) {
        Ok(()) => Status::WrongWords,
        Err(_) => Status::WriteFault,
    }
}

/// Runs the program on the words behind its name: it talks with the peer as the mirror of this game
/// that they name, or tells the usage line where they name none. What was told and how it ended is
/// what `IsRun` says.
pub fn live<G: Begins, P: Peer>(alloc: Global, words: &[String], peer: &mut P) -> Done
    ensures { IsRun (staging G.rules G.lines G.opening) (map string_bytes words.now) (side P.left P.said P.faults peer.old)
        (side P.left P.said P.faults peer.new) result.status }
{
    match mirror_named(words) {
        Some(number) => Done::of(talk_as::<G, P>(alloc, number, peer)),
        None => Done::of(tell_usage(peer)),
    }
}

/// Runs the program on the words behind its name, where memory was found for them, and ends the process
/// behind it: the exit code is the run's status, and `errors` takes the line that says what failed. Where
/// no memory was found nothing is heard or told, and the status is 1.
pub fn end_of_run<G: Begins, P: Peer, K: Sink>(
    alloc: Global,
    words: Result<&[String], NoMemory>,
    peer: &mut P,
    errors: &mut K,
) -> ExitCode
    ensures run { IfOk words.entry (λ words. IsRun (staging G.rules G.lines G.opening)
        (map string_bytes words.now) (side P.left P.said P.faults peer.old)
        (side P.left P.said P.faults peer.new) (exit_status result)) }
    ensures unbegun { OnErr words.entry ((exit_status result ≡ 1) × (peer.new ≡ peer.old)) }
    ensures said { Says (taken K.taken K.faults) (failure_line (exit_status result)) errors.old
        errors.new }
{
    let done = match words {
        Ok(words) => live::<G, P>(alloc, words, peer),
        Err(NoMemory) => Done::of(Status::NoMemory),
    };
    done.finish(errors)
}
