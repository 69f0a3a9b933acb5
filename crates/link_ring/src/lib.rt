//! Links from one mirror to another: messages in the order in which they were sent, and none is
//! lost.
//!
//! `link` gives the two ends. Each may go to a thread of its own. A single-producer single-consumer
//! queue of a fixed capacity, counted over all messages: a slot isn't used twice, and the sender
//! never waits. The receiver never waits either: it gets the next message, or is told that none was
//! seen, which it counts. Whoever holds both ends asks `rest` what is left: what was received and
//! what is left is what was sent.
//!
//! It stands on `rtrb` of the kit. Only `link` takes memory. The messages are this project's own.
#![tactic(auto)]

mod beside;
mod crossing;
mod make;
mod message;
mod receive;
mod send;

pub use beside::rest;
pub use crossing::cross;
pub use make::link;
pub use message::Message;
pub use receive::LinkReceive;
pub use send::LinkSend;
