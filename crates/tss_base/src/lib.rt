//! What all crates stand on: want of memory, and a list that contracts see plainly.
#![tactic(auto)]

mod no_memory;
mod seq;

pub use no_memory::NoMemory;
pub use seq::Seq;
