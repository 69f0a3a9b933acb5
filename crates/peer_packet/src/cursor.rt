//! Where a packet ended.

/// Where the last packet for another peer ended, and the next one goes on: a slot, and a number of it.
#[derive(Clone, Copy, Debug, PartialEq, Eq)]
pub struct Cursor {
    /// The slot.
    pub slot: u8,
    /// The number of a command of that slot.
    pub number: u32,
}
