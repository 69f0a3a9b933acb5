//! The players of a world: the cell and the facing of each.

ghost use Rattle.std.specs.Prelude.{◌≡◌, ◌<◌, length, slice_set};
ghost use Rattle.match_setup.specs.Setup.{spot_cell};
ghost use Rattle.paint_rules.specs.Command.{is_held};

use arrayvec::ArrayVec;
use game_trait::limits::MOST_PLAYERS;
use match_setup::Spot;

/// Whether a player stands in the cell of this spot. Each is asked, whatever those before it
/// answer, so that several are asked at once.
#[tactic(auto, unfolding(crate::specs::Command::is_held))]
pub fn is_held(players: &[Spot], spot: Spot) -> bool
    ensures { result ≡ is_held players.now (spot_cell spot) }
{
    let mut held = false;
    for player in players {
        held |= (spot.x == player.x) & (spot.y == player.y);
    }
    held
}

/// Puts a player in the place of the one of this number, who is there.
pub fn put(players: &mut ArrayVec<Spot, MOST_PLAYERS>, number: u8, spot: Spot)
    requires { number < length players.old.items }
    ensures { players.new.items ≡ slice_set players.old.items number spot }
{
    players[number as usize] = spot;
}
