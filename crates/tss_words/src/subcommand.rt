//! What the program is asked to do.

use crate::ticks::Ticks;
use game_trait::{MirrorId, Tick};

/// What may be asked of a match.
#[derive(Drop)]
pub enum MatchTask {
    /// Execute its commands in key order, and show the world.
    Order,
    /// Play it along its script, drain its mirrors, and show their copies.
    Play,
    /// Race it by threads, and print the record of that race.
    Race,
    /// Print its text with version 2.
    Lift,
    /// Play it to watchers, and tell the scoreboard and what they have to say.
    Score,
    /// What `Order` does, in the game of painting.
    PaintOrder,
    /// What `Play` does, in the game of painting.
    PaintPlay,
    /// Let a mirror join late: it opens from this mirror's last copy after this many lines of the
    /// script, and both go on.
    Join {
        /// The mirror that is joined from; 7 at most.
        mirror: MirrorId,
        /// After how many lines of the script; 262,144 at most.
        lines: u32,
    },
    /// Show its world at each of some ticks.
    Rewind {
        /// How many ticks lie between the worlds that are kept; 1 to 8,192.
        every: Tick,
        /// How many looked-up worlds are kept at most; 1 to 64.
        room: u8,
        /// The ticks, 1 to 16, each at most 8,192.
        ticks: Ticks,
    },
}

/// What the program is asked to do, by what it reads.
#[derive(Drop)]
pub enum Subcommand {
    /// Answer the match whose text is read.
    OfMatch(MatchTask),
    /// Audit the record whose text is read.
    Audit,
    /// Play the match of the lossy text that is read over its net.
    Lossy,
    /// Make the match of this number, play it, and tell whether all copies agree. Nothing is read.
    Soak(u32),
}
