//! The lines of a world, one kind after the other.

ghost use Rattle.std.specs.Prelude.{◌≡◌, ◌++◌, ◌≤◌, flat_map, length, take, OnOk};
ghost use Rattle.game_trait.specs.declared.limits.TheConstants.{MOST_PLAYERS};
ghost use Rattle.arena_rules.specs.Block.{state_lines, shot_line, item_line};

use crate::pickup::Pickup;
use crate::player::Player;
use crate::shot::Shot;
use match_setup::Roster;
use tss_base::NoMemory;

/// Appends the players' lines. On `NoMemory` some may have been appended.
pub fn push_players(players: &[Player], roster: &Roster, out: &mut Vec<u8>) -> Result<(), NoMemory>
    requires { length players.now ≤ MOST_PLAYERS }
    ensures ok { OnOk result
        (out.new.items ≡ out.old.items ++ state_lines roster.now 0 players.now) }
    ensures front { take (length out.old.items) out.new.items ≡ out.old.items }
{
    for (number, player) in players.iter().enumerate() {
        player.push_line(roster.printed_name(number as u8), out)?;
    }
    Ok(())
}

/// Appends the shots' lines. On `NoMemory` some may have been appended.
pub fn push_shots(shots: &[Shot], roster: &Roster, out: &mut Vec<u8>) -> Result<(), NoMemory>
    ensures ok { OnOk result
        (out.new.items ≡ out.old.items ++ flat_map (shot_line roster.now) shots.now) }
    ensures front { take (length out.old.items) out.new.items ≡ out.old.items }
{
    for shot in shots {
        shot.push_line(roster, out)?;
    }
    Ok(())
}

/// Appends the pickups' lines. On `NoMemory` some may have been appended.
pub fn push_pickups(pickups: &[Pickup], out: &mut Vec<u8>) -> Result<(), NoMemory>
    ensures ok { OnOk result (out.new.items ≡ out.old.items ++ flat_map item_line pickups.now) }
    ensures front { take (length out.old.items) out.new.items ≡ out.old.items }
{
    for pickup in pickups {
        pickup.push_line(out)?;
    }
    Ok(())
}
