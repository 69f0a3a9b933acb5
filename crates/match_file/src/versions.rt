//! What a text's version allows.

ghost use Rattle.std.specs.Prelude.{◌≡◌};
ghost use Rattle.match_data.specs.Data.{most_players, most_commands};

use game_trait::limits::{MOST_COMMANDS_IN_1, MOST_COMMANDS_IN_2, MOST_PLAYERS, MOST_PLAYERS_IN_1};

/// How many players a match of the version, which is 1 or 2, has at most.
pub fn most_players(version: u8) -> usize
    ensures { result ≡ most_players version }
{
    if version == 1 {
        MOST_PLAYERS_IN_1
    } else {
        MOST_PLAYERS
    }
}

/// How many commands a match of the version, which is 1 or 2, has at most.
pub fn most_commands(version: u8) -> usize
    ensures { result ≡ most_commands version }
{
    if version == 1 {
        MOST_COMMANDS_IN_1
    } else {
        MOST_COMMANDS_IN_2
    }
}
