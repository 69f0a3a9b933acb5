//! The talk of a live mirror, whatever mirror it is: the head of a live text line by line, then
//! requests, each answered at once.
#![tactic(auto)]

mod asked;
mod begins;
mod fed;
mod games;
mod headed;
pub mod laws;
mod opens;
mod talked;
mod telling;

pub use asked::Asked;
pub use begins::Begins;
pub use fed::Fed;
pub use headed::Headed;
pub use opens::Opens;
pub use talked::{Talked, room_of};
