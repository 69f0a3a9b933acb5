//! Watchers, who are told what happens to mirrors, and the board that tells them. Stands on
//! `game_trait`, `sync_model` and `tss_io`.
#![tactic(auto)]

mod board;
mod counts;
mod first;
pub mod laws;
mod lines;
mod watcher;

pub use board::Board;
pub use counts::{LateCount, RepairCount};
pub use first::FirstRepair;
pub use watcher::{Stay, Watcher};
