//! The world of a match at any tick, from worlds kept at regular ticks and a bounded cache of those
//! that were looked at. The cache is `lru`'s.
#![tactic(auto)]

mod cache;
pub mod laws;
mod store;
mod ticks;

pub use store::{Looked, Rewind};
