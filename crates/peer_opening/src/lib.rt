//! How a peer that joins by a snapshot opens: whether it may, and the mirror that it begins with.
#![tactic(auto)]

mod arriving;
mod mirror;
mod refusing;

pub use mirror::open_joined;
pub use refusing::join_refused;
