//! How a thread leaves the processor to others.

use std::sync::Wait;
use std::sync::atomic::AtomicU64;
use std::time::Duration;

/// Sleeps for this many microseconds, to which the system adds about fifty. A thread that yields
/// the processor instead gives up its whole share of it, and gets it back only once others have
/// spent theirs.
pub fn nap<W: Wait>(rt: &W, micros: u64) {
    // Nobody wakes whoever sleeps on this word: the time ends it.
    AtomicU64::new(0).park_timeout(rt, 0, Duration::from_micros(micros));
}
