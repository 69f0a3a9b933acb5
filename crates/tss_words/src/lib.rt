//! The words behind the program's name: what they ask for, and how much is read for it.
#![tactic(auto)]

mod arguments;
mod asking;
mod ending;
pub mod laws;
mod subcommand;
mod ticks;

pub use arguments::words_behind;
pub use ending::say;
pub use subcommand::{MatchTask, Subcommand};
pub use ticks::{MOST_LOOKS, Ticks};
