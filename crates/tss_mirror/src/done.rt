//! How the program ends.

ghost use Rattle.std.specs.Prelude.{◌≡◌, option_map};
ghost use Rattle.std.specs.Process.{exit_status};
ghost use Rattle.tss_words.specs.Ending.{taken, Says};
ghost use Rattle.tss_mirror.specs.Run.{code, failure_line};

use std::process::ExitCode;
use tss_io::Sink;
use tss_words::say;

/// How the program ends; `as u8` gives the exit status.
#[derive(Clone, Copy, Debug, PartialEq, Eq)]
pub enum Status {
    /// All that was due was told.
    Complete = 0,
    /// Memory ran out, and a front of what is due was told.
    NoMemory = 1,
    /// The words name no mirror; nothing was heard, and the usage line was told.
    WrongWords = 2,
    /// Hearing failed, and what is due of all that was heard was told.
    ReadFault = 3,
    /// Telling failed, and a front of what is due was told.
    WriteFault = 4,
    /// The head was refused, or the input is too long, and the line that says so was told.
    Refusal = 5,
}

/// What a run of the program leaves.
#[derive(Clone, Copy, Debug, PartialEq, Eq)]
pub struct Done {
    /// The exit status, from 0 to 5.
    pub status: u8,
}

// The line that says what failed, where a run that ended with this status says so.
pub(crate) fn failure_line(status: u8) -> Option<&'static str>
    ensures { option_map (λ line. line.now) result ≡ failure_line status }
{
    match status {
        1 => Some("tss_mirror: out of memory\n"),
        3 => Some("tss_mirror: reading standard input failed\n"),
        4 => Some("tss_mirror: writing standard output failed\n"),
        _ => None,
    }
}

impl Done {
    /// A run that ended so.
    pub fn of(status: Status) -> Done
        ensures { result.status ≡ code status }
    {
        Done {
            status: status as u8,
        }
    }

    /// Ends the process behind a run: puts the line that says what failed to standard error, which
    /// is memory at status 1, reading at 3 and writing at 4, and nothing elsewhere; and gives the
    /// exit code, which is the status. Where that put fails too, a front of the line was put, and
    /// the exit code still tells.
    pub fn finish<K: Sink>(self, errors: &mut K) -> ExitCode
        ensures code { exit_status result ≡ self.status }
        ensures said { Says (taken K.taken K.faults) (failure_line self.status) errors.old
            errors.new }
    {
        say(errors, failure_line(self.status));
        ExitCode::from(self.status)
    }
}
