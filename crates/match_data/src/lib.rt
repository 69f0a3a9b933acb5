//! A match as values: what a match text can give, and what its mirrors did.
#![tactic(auto)]

mod game_match;
mod log;
mod name;
mod script_line;
mod staggers;

pub use game_match::{Match, find_command, lift};
pub use log::MirrorLog;
pub use name::is_name;
pub use script_line::ScriptLine;
pub use staggers::plans_of;
