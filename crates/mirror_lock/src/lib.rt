//! A mirror that threads share: each answer is the mirror's at that point of one history.
//!
//! `MirrorLock::start` takes a mirror and gives a seat for each share, with which a thread asks
//! ticks, arrivals and steps. It may also take out the due tick of a copy, execute it while it
//! doesn't hold the lock, and commit it. `MirrorLock::close` takes all seats and gives the mirror,
//! whose own history has gained the events that changed it. Nobody puts another plan in force while
//! the mirror is locked. How a thread waits, and what isn't promised, is told by `turn_lock`, on
//! which this stands.
#![tactic(auto)]

mod calls;
mod crossing;
mod held_mirror;
pub mod laws;
mod lock;

pub use calls::{LockCall, LockReply, Slip};
pub use crossing::cross;
pub use held_mirror::HeldMirror;
pub use lock::{MirrorLock, MirrorOver, MirrorSeat};
