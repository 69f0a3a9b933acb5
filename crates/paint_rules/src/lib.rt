//! A second game over the setups of the arena: players paint the cells that they come to and shoot
//! at.
#![tactic(auto)]

mod block;
mod board;
mod cells;
pub mod laws;
mod paint;
mod painting;
mod players;
pub mod worked;

pub use paint::Paint;
