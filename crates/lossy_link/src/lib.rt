//! Mirrors over a net that loses, repeats and reorders: numbered packets, acknowledgements and
//! resends carry each command to each mirror once and in its sender's order.
#![tactic(auto)]

mod answer;
mod closing;
mod in_end;
pub mod laws;
mod link;
mod links;
mod net;
mod notes;
mod out_end;
mod packet;
mod row;

pub use answer::lossy;
pub use in_end::InEnd;
pub use lossy_text::{LossyText, NetLine, read_lossy};
pub use match_hall::Played as LossyAnswer;
pub use net::Net;
pub use out_end::OutEnd;
pub use packet::{Heard, Packet};
