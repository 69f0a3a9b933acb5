//! The model of a session of peers over a net that loses, repeats and reorders, and its laws.
#![tactic(auto)]

pub mod laws;
mod mark;
mod own;

pub use mark::Mark;
pub use own::{OwnAnswer, OwnNow, said_to_own};
