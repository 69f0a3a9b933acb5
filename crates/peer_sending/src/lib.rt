//! What a peer sends: a packet for another one, of what is due for it, put into a buffer.
#![tactic(auto)]

mod head;
mod later;
mod sending;
mod step;
mod supply;

pub use sending::put_packet;
