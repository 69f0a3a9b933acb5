//! The arena of a match: its ground, its pickups and its players.

ghost use Rattle.std.specs.Prelude.{◌≡◌, ◌+◌, ◌<◌, IfOk, OnOk};
ghost use Rattle.match_setup.specs.Setup.{layout_of};
ghost use Rattle.match_setup.specs.Roster.{PlayerNamesDiffer};
ghost use Rattle.match_maker.specs.Below.{each_below};
ghost use Rattle.match_maker.specs.Generator.{walled_grid, kind_at, pickup_at, face_at, home_at, name_at, the_layout};

use arrayvec::ArrayVec;
use match_setup::{Face, Ground, Kind, PickupSpot, Roster, Setup, Spot};
use std::alloc::Global;
use tss_base::NoMemory;
use tss_io::push_count;

#[tactic(auto, unfolding(crate::specs::Generator::walled_grid))]
fn ground() -> Ground
    ensures { result ≡ walled_grid 16 }
{
    let mut ground = Ground::new(32, 32);
    for i in 0..16u8 {
        ground.wall(8 * (i % 4) + 4, 8 * (i / 4) + 4);
    }
    ground
}

#[tactic(auto, unfolding(crate::specs::Generator::kind_at))]
fn kind_at(i: u8) -> Kind
    ensures { result ≡ kind_at i }
{
    match i % 3 {
        0 => Kind::Ammo,
        1 => Kind::Heal,
        _ => Kind::Gold,
    }
}

#[tactic(auto, unfolding(crate::specs::Generator::face_at))]
fn face_at(i: u8) -> Face
    ensures { result ≡ face_at i }
{
    match i % 4 {
        0 => Face::N,
        1 => Face::E,
        2 => Face::S,
        _ => Face::W,
    }
}

#[tactic(auto, using(crate::proofs::Lists::joined_more, crate::proofs::Lists::joined_none))]
fn pickups() -> ArrayVec<PickupSpot, 32>
    ensures { result.items ≡ each_below pickup_at 32 }
{
    let mut pickups = ArrayVec::new();
    for i in 0..32u8 {
        pickups.push(PickupSpot {
            x: i,
            y: 0,
            kind: kind_at(i),
        });
    }
    pickups
}

#[tactic(auto, using(crate::proofs::Lists::joined_more, crate::proofs::Lists::joined_none))]
fn homes() -> ArrayVec<Spot, 32>
    ensures { result.items ≡ each_below home_at 16 }
{
    let mut homes = ArrayVec::new();
    for i in 0..16u8 {
        homes.push(Spot {
            x: 2 * i,
            y: 2,
            face: face_at(i),
        });
    }
    homes
}

/// How the world begins.
pub fn setup() -> Setup
    ensures { layout_of result ≡ the_layout }
{
    Setup {
        ground: ground(),
        pickups: pickups(),
        players: homes(),
    }
}

fn name_at(alloc: Global, i: u8) -> Result<Vec<u8>, NoMemory>
    ensures { IfOk result (λ name. name.items ≡ name_at i) }
{
    let mut name = Vec::new(alloc);
    name.push(b'p')?;
    push_count(&mut name, u64::from(i))?;
    Ok(name)
}

// Appends the next player's name.
fn push_name(alloc: Global, roster: &mut Roster, i: u8) -> Result<(), NoMemory>
    requires players { i < 16 }
    requires names { roster.old ≡ each_below name_at i }
    ensures { OnOk result (roster.new ≡ each_below name_at (i + 1)) }
{
    let name = name_at(alloc, i)?;
    roster.add(&name)?;
    Ok(())
}

/// The players' names.
#[tactic(auto, using(crate::proofs::Lists::joined_more, crate::proofs::Lists::joined_none))]
pub fn roster(alloc: Global) -> Result<Roster, NoMemory>
    ensures { IfOk result (λ roster. roster ≡ each_below name_at 16) }
{
    let mut roster = Roster::new(alloc)?;
    for i in 0..16u8 {
        push_name(alloc, &mut roster, i)?;
    }
    Ok(roster)
}
