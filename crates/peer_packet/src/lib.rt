//! A peer's packets as bytes, read in place and put without taking memory.
#![tactic(auto)]

mod cursor;
mod fault;
mod fields;
mod filling;
mod front;
pub mod laws;
mod packet;
mod part;
mod put;
mod snapshot;
mod terms;
mod vector;
mod views;
mod walk;

pub use cursor::Cursor;
pub use fault::Fault;
pub use filling::{Commands, Piece, put_part};
pub use front::Front;
pub use packet::PacketView;
pub use part::{PartHead, SentView};
pub use put::{put_front, put_head, put_mark, put_opening, put_queue_head, put_sent, put_vector};
pub use snapshot::{Opening, QueueHead, SnapshotView};
pub use terms::Terms;
pub use views::{CommandsView, PartView, PartsView};
pub use walk::{QueueView, QueuesView};

#[cfg(test)]
mod tests;
