//! What a peer hands to one that joins: a snapshot of its session, put into a buffer.
#![tactic(auto)]

mod commands;
mod handing;
mod queue;
mod slots;

pub use handing::{last_tick, put_snapshot};
