//! What follows a run: what is said of it on standard error.

ghost use Rattle.std.specs.Prelude.{option_map};
ghost use Rattle.tss_words.specs.Ending.{taken, IsSaid, Says};

use tss_io::{Failed, Sink, put_all};

// Puts a line. Where a put fails a front of it was put, and nobody can be told.
fn put_line<K: Sink>(errors: &mut K, line: &str)
    ensures { IsSaid line.now (taken K.taken K.faults errors.old)
        (taken K.taken K.faults errors.new) }
{
    match put_all(errors, line.as_bytes()) {
        Ok(()) => {}
        Err(Failed) => {}
    }
}

/// Puts a line, where there is one to say. Where that put fails a front of it was put.
pub fn say<K: Sink>(errors: &mut K, said: Option<&str>)
    ensures { Says (taken K.taken K.faults) (option_map (λ line. line.now) said.entry) errors.old
        errors.new }
{
    match said {
        Some(line) => put_line(errors, line),
        None => {}
    }
}
