//! Each call of a peer as a function of all that it knows, and what the session of `peer_model` makes of it.
#![tactic(auto)]

mod answers;
mod config;
pub mod laws;
mod newest;
mod told;

pub use answers::{HearAnswer, JoinRefusal, PacketAnswer, SnapshotAnswer, TurnAnswer};
pub use config::Config;
pub use newest::Newest;
pub use told::Told;
