//! The copies of a mirror, each with its run and its live world; stands on the crates of the list
//! of runs, of the accepted commands and of what both are used for, and on `sync_model`.
#![tactic(auto)]

mod clocks;
mod due;
mod forget;
mod lazy;
mod repairs;
mod ticks;
mod worlds;

pub use lazy::LazyStack;
