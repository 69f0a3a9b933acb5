//! A peer that joins a session of `peer_model` by a snapshot, and what holds of it.
#![tactic(auto)]

pub mod laws;
mod open;

pub use open::open_mirror;
