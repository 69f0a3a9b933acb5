//! The model of a mirror over whole lists, and its laws; stands on `game_trait` alone.
#![tactic(auto)]

pub mod laws;
pub mod pinned;
mod repaired;
mod turned;
pub mod worked;

pub use repaired::repaired_in;
pub use turned::Turned;
