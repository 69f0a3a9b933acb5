//! Calls of the engines, as a caller writes them: each file's function is the one that the README of
//! the crate that it calls shows.
#![tactic(auto)]

mod carried_command;
mod counter;
mod ending_match;
mod going_session;
mod passing_message;
mod taking_turns;
mod talking;

pub use carried_command::carry;
pub use counter::Counter;
pub use ending_match::end_a_match;
pub use going_session::go_on;
pub use passing_message::pass;
pub use taking_turns::count_in_turns;
pub use talking::talk_to_the_end;
