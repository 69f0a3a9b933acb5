//! The commands of a slot that a peer remembers, in a room of a fixed size, and hearing a part.
#![tactic(auto)]

mod conflict;
mod due;
mod hear;
mod kept;
mod opened;
mod queue;
mod sent;
mod walk;

pub use hear::hear_part;
pub use queue::SlotQueue;
pub use sent::SentBytes;
