//! The kinds of answer and of event, as `tsync_mirror.h` names them.

/// The clock went on by one tick.
pub const MOVED: u32 = 0;

/// The clock stands at its end.
pub const OVER: u32 = 1;

/// The command was accepted; the value is how many copies were repaired.
pub const TAKEN: u32 = 2;

/// A command with the same mirror and number was accepted before.
pub const REPEAT: u32 = 3;

/// The command was turned away; the value is the last copy's clock.
pub const LATE: u32 = 4;

/// The copy ran a tick; the value is how many copies were repaired.
pub const RAN: u32 = 5;

/// The copy stands at its limit.
pub const IDLE: u32 = 6;

/// Another plan is in force.
pub const RESTAGGERED: u32 = 7;

/// The value is what was asked.
pub const VALUE: u32 = 8;

/// The engine was made.
pub const MADE: u32 = 9;

/// The handle holds no engine.
pub const NO_ENGINE: u32 = 16;

/// The copy, the plan, the place or the mirror isn't there.
pub const NOT_THERE: u32 = 17;

/// The command is due at the match's end or later.
pub const BEYOND: u32 = 18;

/// There is no room for another arrival or change of the plan.
pub const NO_ROOM: u32 = 19;

/// What an engine is to be made of is out of range.
pub const NOT_LEGAL: u32 = 20;

/// Memory ran out.
pub const NO_MEMORY: u32 = 21;

/// A tick of the clock.
pub const A_TICK: u32 = 0;

/// An arrival, accepted or turned away.
pub const AN_ARRIVAL: u32 = 1;

/// A step of a copy, which ran.
pub const A_STEP: u32 = 2;

/// Another plan in force.
pub const A_RESTAGGER: u32 = 3;
