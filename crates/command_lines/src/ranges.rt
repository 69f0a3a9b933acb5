//! Which numbers a command's line may have.

ghost use Rattle.std.specs.Prelude.{◌≡◌, ◌≤◌, ◌⊎◌};
ghost use Rattle.command_lines.specs.CommandLine.{last_player, widest};

use game_trait::limits::{LONGEST_MATCH, MOST_MIRRORS, MOST_PLAYERS, MOST_PLAYERS_IN_1};
use game_trait::{MirrorId, Tick};

/// The greatest numbers that a command's line may have; each of them may be 0.
#[derive(Clone, Copy, Debug, PartialEq, Eq)]
pub struct CommandRanges {
    /// The last tick.
    pub last_time: Tick,
    /// The last mirror.
    pub last_mirror: MirrorId,
    /// The last player, counted from 0.
    pub last_player: u8,
}

impl CommandRanges {
    /// The widest ranges of a version, which is 1 or 2.
    pub fn widest(version: u8) -> CommandRanges
        ensures { result ≡ widest version }
    {
        CommandRanges {
            last_time: LONGEST_MATCH - 1,
            last_mirror: MOST_MIRRORS as u8 - 1,
            last_player: last_player(version),
        }
    }
}

/// The greatest number of a player that the lines of a version, which is 1 or 2, may have.
pub fn last_player(version: u8) -> u8
    ensures { result ≡ last_player version }
{
    if version == 1 {
        MOST_PLAYERS_IN_1 as u8 - 1
    } else {
        MOST_PLAYERS as u8 - 1
    }
}
