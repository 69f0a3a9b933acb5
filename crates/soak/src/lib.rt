//! The match made from a number, played: its result, which is that no command is late at any
//! mirror; whether all copies of a hall have one world; and the text that tells of it.
#![tactic(auto)]

mod agree;
mod answer;
pub mod laws;

pub use agree::are_all_at;
pub use answer::soak;
pub use match_hall::Played as SoakAnswer;
