//! A plan of delays of a match's copies, and the match's length.
#![tactic(auto)]

mod plan;
mod stagger;

pub use stagger::Stagger;
