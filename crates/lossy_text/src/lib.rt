//! Texts of a match that is played over a lossy net: what the net does, line by line.
#![tactic(auto)]

pub mod laws;
mod net_line;
mod reading;
mod tail;
mod text;

pub use net_line::NetLine;
pub use reading::read_lossy;
pub use text::LossyText;
