//! The program `tss_mirror`: one mirror of a match or of a session without an end, which is spoken to
//! line by line over the standard streams. What it does is `end_of_run`.
#![tactic(auto)]

mod done;
pub mod laws;
mod live;
mod memory;
mod streams;
mod talking;
#[cfg(test)]
mod tests;
mod words;

use crate::live::end_of_run;
use crate::streams::StreamPeer;
use arena_rules::Arena;
use std::alloc::Global;
use std::process::ExitCode;
use std::rt::Env;
use std::{env, io};
use tss_io::StdSink;
use tss_words::words_behind;

// The program's own name and the words behind it, as the system tells them.
fn arguments(rt: &(impl Env + Alloc<A = Global>)) -> io::Result<Vec<String>> {
    Ok(env::args(rt)?.collect(rt.alloc())?)
}

fn main(rt: HostRuntime) -> ExitCode {
    let alloc = rt.alloc();
    let arguments = arguments(&rt);
    let mut peer = StreamPeer::new(rt.stdin(), rt.stdout());
    let mut errors = StdSink::new(rt.stderr());
    end_of_run::<Arena, _, _>(alloc, words_behind(&arguments), &mut peer, &mut errors)
}
