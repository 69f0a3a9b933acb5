//! The answer to a match of the arena that is played to watchers: the scoreboard, and what the
//! watchers have to say.
#![tactic(auto)]

mod answer;
mod rows;

pub use answer::score;
pub use match_hall::Played as ScoreAnswer;
