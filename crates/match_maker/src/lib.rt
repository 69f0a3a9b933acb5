//! A large match from a number: the same number makes the same match.
#![tactic(auto)]

mod arena;
mod commands;
mod draws;
mod lags;
mod make;
mod script;

pub use commands::COMMANDS;
pub use make::make_match;
