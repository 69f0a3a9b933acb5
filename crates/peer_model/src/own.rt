//! Whether an own command is taken now, when it is due, and under which number.

ghost use Rattle.std.specs.Prelude.{◌≡◌};
ghost use Rattle.peer_model.specs.Own.{said_to_own};

use game_trait::{Number, Tick};

/// What decides of an own command: the peer's clock, the clock from which its commands are taken, the
/// time of its last one, how many it issued, the end of its window, and whether its queue or its mirror has
/// no room left.
#[derive(Clone, Copy, Debug)]
pub struct OwnNow {
    /// The peer's clock.
    pub clock: Tick,
    /// The clock from which its commands are taken: a joiner's snapshot's, else 0.
    pub start: Tick,
    /// The time of its last command, 0 where there is none.
    pub last: Tick,
    /// How many commands it issued.
    pub have: Number,
    /// The tick that its window doesn't reach.
    pub end: u64,
    /// There is no room for another command.
    pub is_full: bool,
}

/// What a peer answers to an own command.
#[derive(Clone, Copy, Debug, PartialEq, Eq)]
pub enum OwnAnswer {
    /// It has more bytes than the session's commands may.
    TooLong,
    /// The peer's clock hasn't reached the one from which its commands are taken.
    Behind {
        /// That clock.
        start: Tick,
    },
    /// It is due at 2^32 - 1 or later, which no copy comes to end, or no number is left.
    End,
    /// The window doesn't reach it.
    Far {
        /// The tick that the window doesn't reach.
        end: u64,
    },
    /// There is no room for it.
    Full,
    /// It is issued.
    Taken {
        /// The tick at which it is due.
        time: Tick,
        /// Its number.
        number: Number,
    },
}

/// What a peer answers to an own command of `size` bytes that is due `ahead` ticks behind its clock, and
/// never before its last one; where several refusals hold, the first of them in the order of `OwnAnswer`.
pub fn said_to_own(now: &OwnNow, payload: u8, size: usize, ahead: u32) -> OwnAnswer
    ensures { result ≡ said_to_own now.now payload size ahead }
{
    if size > usize::from(payload) {
        return OwnAnswer::TooLong;
    }
    if now.clock < now.start {
        return OwnAnswer::Behind { start: now.start };
    }
    let time = (u64::from(now.clock) + u64::from(ahead)).max(u64::from(now.last));
    if time >= 0xffff_ffff || now.have == 0xffff_ffff {
        return OwnAnswer::End;
    }
    if time >= now.end {
        return OwnAnswer::Far { end: now.end };
    }
    if now.is_full {
        return OwnAnswer::Full;
    }
    OwnAnswer::Taken {
        time: time as u32,
        number: now.have,
    }
}
