//! What a peer keeps of each slot of its session.
#![tactic(auto)]

pub mod laws;
mod links;
mod marking;
mod opened;
mod other;
mod queues;

pub use links::Links;
pub use queues::Queues;
