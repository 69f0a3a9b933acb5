//! The limits of matches and of their texts, each with its unit (this project's own).

use crate::command::{Number, Tick};

/// How long a match may be, in ticks; it has 1 at least.
pub const LONGEST_MATCH: Tick = 8_192;

/// How many mirrors a match has at most; it has 1 at least.
pub const MOST_MIRRORS: usize = 8;

/// How many copies a mirror has at most; it has 1 at least.
pub const MOST_COPIES: usize = 8;

/// How far a copy may be behind its mirror's clock at most, in ticks.
pub const LONGEST_DELAY: Tick = 1_024;

/// How many plans of delays a match has at most; it has 1 at least.
pub const MOST_PLANS: usize = 8;

/// How narrow the arena's grid may be, in cells.
pub const NARROWEST_GRID: u32 = 3;

/// How wide the arena's grid may be, in cells.
pub const WIDEST_GRID: u32 = 64;

/// How tall the arena's grid may be, in cells; it is 1 at least.
pub const TALLEST_GRID: u32 = 64;

/// How many players a match of version 1 has at most; it has 1 at least.
pub const MOST_PLAYERS_IN_1: usize = 16;

/// How many players a match has at most, in any version.
pub const MOST_PLAYERS: usize = 32;

/// How many pickups a match has at most.
pub const MOST_PICKUPS: usize = 32;

/// How many shots fly at once at most.
pub const MOST_SHOTS: usize = 64;

/// How many commands a match of version 1 has at most.
pub const MOST_COMMANDS_IN_1: usize = 16_384;

/// How many commands a match of version 2 has at most.
pub const MOST_COMMANDS_IN_2: usize = 32_768;

/// The greatest number of a command.
pub const GREATEST_NUMBER: Number = 999_999;

/// How many lines a script has at most.
pub const MOST_SCRIPT_LINES: usize = 262_144;

/// How many lines of a script show a world or a run at most.
pub const MOST_SHOWING_LINES: usize = 1_024;

/// How long a match text may be, in bytes.
pub const LONGEST_MATCH_TEXT: usize = 8_388_608;

/// How long a record's text may be, in bytes.
pub const LONGEST_RECORD_TEXT: usize = 33_554_432;

/// How many events a log of a record has at most.
pub const MOST_LOGGED_EVENTS: usize = 131_072;

/// How long a lossy text may be, in bytes: a match, and what a net does with its commands.
pub const LONGEST_LOSSY_TEXT: usize = 16_777_216;

/// How many lines of the net a lossy text has at most.
pub const MOST_NET_LINES: usize = 262_144;

/// The greatest number that a line of the net gives, of a command, of a packet or of packets that
/// were heard of.
pub const GREATEST_NET_NUMBER: u32 = 999_999;

/// How many worlds that were looked up are kept at most; it is 1 at least.
pub const MOST_CACHED: usize = 64;

/// How many arrivals, and how many changes of the plan, a mirror may have room for.
pub const MOST_ROOM: u32 = 1_048_576;
