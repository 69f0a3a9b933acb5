//! The parts of a match, made of what was read.

ghost use Rattle.std.specs.Prelude.{◌≡◌, ◌≤◌, ◌<◌, length, map, IfOk};
ghost use Rattle.std.specs.List.{AllByRecursion, IsDistinct};
ghost use Rattle.std.specs.Prelude.{bytes_eq};
ghost use Rattle.game_trait.specs.declared.limits.TheConstants.{NARROWEST_GRID, WIDEST_GRID, TALLEST_GRID, MOST_PICKUPS, MOST_PLAYERS};
ghost use Rattle.match_setup.specs.Ground.{open_grid};
ghost use Rattle.match_file.specs.Reading.{match_of, walled};
ghost use Rattle.match_file.specs.Sections.{IsRead};

use crate::body::Body;
use crate::cell::Cell;
use crate::opening::Opening;
use crate::player::Player;
use arrayvec::ArrayVec;
use game_trait::limits::{MOST_PICKUPS, MOST_PLAYERS};
use match_data::Match;
use match_setup::{Ground, PickupSpot, Roster, Setup, Spot};
use std::alloc::Global;
use tss_base::NoMemory;

// The ground of these sides with these walls.
fn ground_of(width: u8, height: u8, walls: &[Cell]) -> Ground
    requires width { (NARROWEST_GRID ≤ width) × (width ≤ WIDEST_GRID) }
    requires height { (1 ≤ height) × (height ≤ TALLEST_GRID) }
    requires walls { AllByRecursion (λ c. (c.x < width) × (c.y < height)) walls.now }
    ensures { result ≡ walled (open_grid width height) walls.now }
{
    let mut ground = Ground::new(width, height);
    for cell in walls {
        ground.wall(cell.x, cell.y);
    }
    ground
}

fn pickups_of(pickups: &[PickupSpot]) -> ArrayVec<PickupSpot, MOST_PICKUPS>
    requires { length pickups.now ≤ MOST_PICKUPS }
    ensures { result.items ≡ pickups.now }
{
    let mut kept = ArrayVec::new();
    for pickup in pickups {
        kept.push(*pickup);
    }
    kept
}

fn homes_of(players: &[Player]) -> ArrayVec<Spot, MOST_PLAYERS>
    requires { length players.now ≤ MOST_PLAYERS }
    ensures { result.items ≡ map (λ p. p.home) players.now }
{
    let mut homes = ArrayVec::new();
    for player in players {
        homes.push(player.home);
    }
    homes
}

fn roster_of(alloc: Global, players: &[Player]) -> Result<Roster, NoMemory>
    requires { IsDistinct bytes_eq (map (λ p. p.name) players.now) }
    ensures { IfOk result (λ roster. roster ≡ map (λ p. p.name) players.now) }
{
    let mut roster = Roster::new(alloc)?;
    for player in players {
        roster.add(player.name.as_slice())?;
    }
    Ok(roster)
}

/// The match of what was read.
pub fn match_of(alloc: Global, opening: Opening, body: Body) -> Result<Match, NoMemory>
    requires { IsRead opening body }
    ensures { IfOk result (λ m. m ≡ match_of opening body) }
{
    let roster = roster_of(alloc, body.players.as_slice())?;
    let setup = Setup {
        ground: ground_of(opening.width, opening.height, body.walls.as_slice()),
        pickups: pickups_of(body.pickups.as_slice()),
        players: homes_of(body.players.as_slice()),
    };
    Ok(Match {
        version: opening.version,
        length: opening.length,
        mirrors: opening.mirrors,
        delays: opening.delays,
        plans: body.plans,
        pace: opening.pace,
        setup,
        roster,
        commands: body.commands.into_list(),
        script: body.script.into_seq(),
    })
}
