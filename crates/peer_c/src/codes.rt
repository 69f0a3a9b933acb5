//! The kinds of answer, as `tsync_peer.h` names them.

/// The clock went on by one tick; value: how many copies were repaired, from copy 0 on.
pub const MOVED: u32 = 0;

/// The clock stands at the session's last tick; value as above.
pub const OVER: u32 = 1;

/// The own command was issued and accepted; value: its number; other: the tick it is due at.
pub const TAKEN: u32 = 2;

/// The copy ran a tick; value: how many copies were repaired, from copy 0 on.
pub const RAN: u32 = 3;

/// The copy stands at its limit.
pub const IDLE: u32 = 4;

/// Another plan is in force.
pub const RESTAGGERED: u32 = 5;

/// Value: what was asked.
pub const VALUE: u32 = 6;

/// The peer was made.
pub const MADE: u32 = 7;

/// The packet was heard; value: how many copies were repaired, from copy 0 on; other: from whom.
pub const HEARD: u32 = 8;

/// Value: the tick; other: how many peers' newest marks have this tick and another sum.
pub const MARKED: u32 = 9;

/// The handle holds no peer.
pub const NO_PEER: u32 = 16;

/// No such slot, copy, plan, place or remembered command.
pub const NOT_THERE: u32 = 17;

/// Due at the window's end, value, or later.
pub const FAR: u32 = 18;

/// No room for another command of this slot.
pub const FULL: u32 = 19;

/// The config is out of range.
pub const NOT_LEGAL: u32 = 20;

/// Memory ran out.
pub const NO_MEMORY: u32 = 21;

/// The payload is longer than the config's.
pub const TOO_LONG: u32 = 22;

/// A joiner's clock hasn't reached the one of its snapshot, value.
pub const BEHIND: u32 = 23;

/// Due at 2^32 - 1 or later, which no copy comes to end, or no number is left.
pub const END: u32 = 24;

/// The buffer is shorter than value bytes.
pub const SHORT: u32 = 25;

/// No packet or snapshot; value: the field, as below.
pub const MALFORMED: u32 = 26;

/// Of another session, or a snapshot of other slots or payload.
pub const OTHER_SESSION: u32 = 27;

/// A packet to another peer.
pub const NOT_FOR_ME: u32 = 28;

/// Tells of more commands of this peer, or of a later clock of it, than there are.
pub const AHEAD: u32 = 29;

/// Commands of a slot, value, that don't follow those that are here: two lives on one slot.
pub const CONFLICT: u32 = 30;

/// The slot is the snapshot's maker's, or has issued commands.
pub const USED: u32 = 31;

/// This tick, or a later one, is marked.
pub const AGAIN: u32 = 32;

/// What is missing was forgotten by the sender, or is on its way; this peer's last copy isn't past it.
pub const GAP: u32 = 1;

/// Due at the window's end or later: it comes again.
pub const STOP_FAR: u32 = 2;

/// No room: it comes again.
pub const STOP_FULL: u32 = 4;
