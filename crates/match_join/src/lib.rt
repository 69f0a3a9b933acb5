//! What `join` tells: a mirror of a match, and one that joins late from its snapshot, along the
//! match's script.
#![tactic(auto)]

mod answer;
mod ends;
pub mod laws;
mod lines;
mod mirror;
mod start;
mod text;

pub use answer::{JoinAnswer, join};
