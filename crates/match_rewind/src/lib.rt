//! What looks at the ticks of a match print: the world at each, and how many were cached.
#![tactic(auto)]

mod answer;
pub mod laws;

pub use answer::rewind;
