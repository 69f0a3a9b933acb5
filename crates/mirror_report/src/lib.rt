//! What one mirror prints: a turn's repairs, its draining, its line, a run, a copy's block, and its
//! log.
#![tactic(auto)]

mod drain;
mod log;
mod show;
mod turn;

pub use drain::drain_mirror;
pub use log::push_log;
pub use show::{push_copy, push_line_of_mirror, push_run};
pub use turn::push_turn;
