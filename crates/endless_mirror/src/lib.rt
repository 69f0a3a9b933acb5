//! A mirror of a session without an end that is asked line by line, and answers each line at once.
#![tactic(auto)]

mod asked;
pub mod laws;
mod session;
mod show;

pub use session::EndlessSession;
