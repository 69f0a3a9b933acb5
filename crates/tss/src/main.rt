//! The program `tss`: the real arguments, streams and exit code. What it does with them is
//! `words_behind`, and `run_race` where the words are the one word `race`, which alone may wait, or
//! else `run_watched`, which returns: neither takes the other's words. What follows a run is `Done::finish`.
#![tactic(auto)]

#[cfg(test)]
mod tests;

use copy_workers::OpenGate;
use std::alloc::Global;
use std::process::ExitCode;
use std::rt::Env;
use std::{env, io};
use tss_base::NoMemory;
use tss_io::{StdSink, StdSource};
use tss_program::{Done, asks_race, run_race, run_watched, words_behind};

// The program's own name and the words behind it, as the system tells them.
fn arguments(rt: &(impl Env + Alloc<A = Global>)) -> io::Result<Vec<String>> {
    Ok(env::args(rt)?.collect(rt.alloc())?)
}

fn main(rt: HostRuntime) -> ExitCode {
    let alloc = rt.alloc();
    let arguments = arguments(&rt);
    let mut source = StdSource::new(rt.stdin());
    let mut sink = StdSink::new(rt.stdout());
    let done = match words_behind(&arguments) {
        Ok(words) if asks_race(words) => {
            run_race(&rt, alloc, words, &mut source, &mut sink, &OpenGate)
        }
        Ok(words) => run_watched(alloc, words, &mut source, &mut sink),
        Err(NoMemory) => Done::unbegun(alloc),
    };
    done.finish(&mut StdSink::new(rt.stderr()))
}
