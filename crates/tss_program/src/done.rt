//! What a run of the program leaves, and what follows it.

ghost use Rattle.std.specs.Prelude.{◌≡◌, [], option_map};
ghost use Rattle.std.specs.Process.{exit_status};
ghost use Rattle.tss_program.specs.Due.{code};
ghost use Rattle.tss_program.specs.Finish.{failure_line, IsSaid, Says};
ghost use Rattle.tss_program.specs.Run.{taken};
ghost use Rattle.tss_program.specs.declared.status.Status.TheVariants.{NoMemory};

use crate::status::Status;
use match_data::MirrorLog;
use std::alloc::Global;
use std::process::ExitCode;
use tss_base::Seq;
use tss_io::{Failed, Sink, put_all};

/// What a run of the program leaves.
#[derive(Debug, Drop)]
pub struct Done {
    /// The exit status, from 0 to 7.
    pub status: u8,
    /// One log for each mirror, mirror 0 first, at status 0 of `play`, `score`, `paint play`,
    /// `lossy`, `race` and `soak`, and at status 4 where such a text was due; none elsewhere.
    pub kept: Seq<MirrorLog>,
}

// The line that says what failed, where a run that ended with this status says so.
fn failure_line(status: u8) -> Option<&'static str>
    ensures { option_map (λ line. line.now) result ≡ failure_line status }
{
    match status {
        1 => Some("tss: out of memory\n"),
        3 => Some("tss: reading standard input failed\n"),
        4 => Some("tss: writing standard output failed\n"),
        _ => None,
    }
}

// Puts a line. Where a put fails a front of it was put, and nobody can be told.
fn put_line<K: Sink>(errors: &mut K, line: &str)
    ensures { IsSaid line.now (taken K.taken K.faults errors.old)
        (taken K.taken K.faults errors.new) }
{
    match put_all(errors, line.as_bytes()) {
        Ok(()) => {}
        Err(Failed) => {}
    }
}

// Puts a line, where there is one to say.
fn say<K: Sink>(errors: &mut K, said: Option<&str>)
    ensures { Says (taken K.taken K.faults) (option_map (λ line. line.now) said.entry) errors.old
        errors.new }
{
    match said {
        Some(line) => put_line(errors, line),
        None => {}
    }
}

impl Done {
    /// A run that ended so, and kept these logs.
    pub fn of(status: Status, kept: Seq<MirrorLog>) -> Done
        ensures status { result.status ≡ code status }
        ensures kept { result.kept ≡ kept }
    {
        Done {
            status: status as u8,
            kept,
        }
    }

    /// A run that found no memory for its words: nothing was read, and nothing is kept.
    pub fn unbegun(alloc: Global) -> Done
        ensures status { result.status ≡ code NoMemory }
        ensures kept { result.kept ≡ [] }
    {
        Done::of(Status::NoMemory, Seq::new(alloc))
    }

    /// Ends the process behind a run: puts the line that says what failed to standard error, which
    /// is memory at status 1, reading at 3 and writing at 4, and nothing elsewhere; and gives the
    /// exit code, which is the status. Where that put fails too, a front of the line was put, and
    /// the exit code still tells.
    pub fn finish<K: Sink>(self, errors: &mut K) -> ExitCode
        ensures code { exit_status result ≡ self.status }
        ensures said { Says (taken K.taken K.faults) (failure_line self.status) errors.old
            errors.new }
    {
        say(errors, failure_line(self.status));
        ExitCode::from(self.status)
    }
}
