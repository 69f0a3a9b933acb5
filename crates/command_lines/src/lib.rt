//! The lines of commands, read and printed.
#![tactic(auto)]

mod print;
mod ranges;
mod read;
mod words;

pub use print::{print_command, push_command};
pub use ranges::{CommandRanges, last_player};
pub use read::{CommandFault, read_command};
pub use words::{CommandWords, act_of};
