//! What can happen to a mirror, and what it answers.

use crate::command::{Command, MirrorId, Tick};

/// What can happen to a mirror.
#[derive(Clone, Copy, Debug, Default, PartialEq, Eq)]
pub enum Event {
    /// The clock goes on by one tick.
    #[default]
    Tick,
    /// A command arrives.
    Arrive(Command),
    /// The copy of this number runs a tick, where it may.
    Step(u8),
    /// The plan of delays of this number is in force from here on.
    Restagger(u8),
}

/// The answer to a tick.
#[derive(Clone, Copy, Debug, PartialEq, Eq)]
pub enum Ticked {
    /// The clock went on by one.
    Moved,
    /// The clock stands at its end or past it: the match's length plus the longest delay in force.
    Over,
}

/// The answer to an arrival.
#[derive(Clone, Copy, Debug, PartialEq, Eq)]
pub enum Arrived {
    /// The command was accepted, and this many copies, counted from copy 0, were repaired.
    Taken { repaired: u8 },
    /// A command with the same mirror and number was accepted before.
    Repeat,
    /// The command is older than the last copy's clock, the bound, and was turned away.
    Late { bound: Tick },
}

/// The answer to a copy's step.
#[derive(Clone, Copy, Debug, PartialEq, Eq)]
pub enum Stepped {
    /// The copy ran one tick, and this many copies, counted from copy 0, were repaired.
    Ran { repaired: u8 },
    /// The copy stands at its limit.
    Idle,
}

/// The answer to an event, of the event's kind.
#[derive(Clone, Copy, Debug, PartialEq, Eq)]
pub enum Reply {
    /// To a tick.
    Tick(Ticked),
    /// To an arrival.
    Arrive(Arrived),
    /// To a step.
    Step(Stepped),
    /// To another plan of delays.
    Restaggered,
}

// An `ArrayVec` of replies is filled with these until replies are put.
impl Default for Reply {
    fn default() -> Reply {
        Reply::Tick(Ticked::Moved)
    }
}

/// One event of a mirror with its answer, as a watcher of the match is told.
#[derive(Clone, Copy, Debug, PartialEq, Eq)]
pub struct Note {
    /// The mirror.
    pub mirror: MirrorId,
    /// What happened there.
    pub event: Event,
    /// What it answered.
    pub reply: Reply,
}
