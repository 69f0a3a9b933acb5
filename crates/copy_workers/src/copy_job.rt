//! What the worker of a copy is given, and what it gives back.

use game_trait::Tick;

/// What the worker of a copy is given.
#[derive(Clone, Copy, Debug, PartialEq, Eq)]
pub struct CopyJob {
    /// The mirror, from 0 on.
    pub mirror: u8,
    /// The mirror's copy, which is the worker's number among the mirror's workers.
    pub copy: u8,
    /// The match's length in ticks.
    pub length: Tick,
    /// The most turns that are made.
    pub budget: u64,
}

/// What it gives back.
#[derive(Clone, Copy, Debug, PartialEq, Eq)]
pub struct CopyEnd {
    /// How many ticks the copy ran.
    pub ran: Tick,
    /// How many turns were made.
    pub turns: u64,
}
