//! Checks a record: that every log is legal, and every stated world is exactly the one that the log
//! leads to.
#![tactic(auto)]

mod auditing;
pub mod laws;
mod verdict;
mod walk;
mod why;

pub use auditing::audit;
pub use verdict::Verdict;
pub use walk::{LogWalk, Walked};
pub use why::Why;
