//! The numbers of the arena's rules, each with its unit (this project's own).

/// How many points of health a live player has at most and at home: as many hits kill.
pub const MOST_HEALTH: u8 = 3;

/// How many shots a player can hold at most.
pub const MOST_AMMO: u8 = 9;

/// How many shots a player has at home, as the match begins and after each return.
pub const AMMO_AT_HOME: u8 = 5;

/// How many shots a pickup of ammunition gives.
pub const AMMO_OF_A_PICKUP: u8 = 4;

/// How many cells a shot flies at most.
pub const REACH: u8 = 8;

/// How many beats a player is dead at least.
pub const BEATS_DEAD: u8 = 10;

/// After how many beats a pickup that was taken lies ready again.
pub const BEATS_TAKEN: u8 = 20;

/// The greatest score, at which a gain changes nothing.
pub const GREATEST_SCORE: i32 = 1_000_000;

/// The least score, at which a loss changes nothing.
pub const LEAST_SCORE: i32 = -1_000_000;
