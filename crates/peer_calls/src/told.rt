//! What is told of a packet that was heard.

/// What came of a packet that was heard.
#[derive(Clone, Copy, Debug, PartialEq, Eq)]
pub struct Told {
    /// How many of its commands were taken.
    pub taken: u32,
    /// How many commands were turned away for late, also such as their sender forgot.
    pub late: u64,
    /// The most copies that one command repaired, counted from copy 0.
    pub repaired: u8,
    /// A part was left: what is missing before it may still come.
    pub gap: bool,
    /// A part was stopped at a command that the window doesn't reach.
    pub far: bool,
    /// A part was stopped for want of room.
    pub full: bool,
    /// The other one's mark has the tick of one of this peer's, and another sum.
    pub differs: bool,
}
