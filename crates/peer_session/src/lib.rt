//! A peer: a mirror of a session without an end with its links to the others, without a socket, a clock or
//! worlds of its own.
#![tactic(auto)]

mod handing;
mod hearing;
mod joining;
pub mod laws;
mod looks;
mod moving;
mod peer;
mod sending;

pub use joining::JoinError;
pub use peer::Peer;
