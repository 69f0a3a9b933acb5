//! The pickups of a world.

ghost use Rattle.std.specs.Prelude.{◌≡◌, ◌-◌, ◌<◌, ◌≤◌, ◌++◌, [], ◌∷◌, None, false, map, length, All};
ghost use Rattle.game_trait.specs.declared.limits.TheConstants.{MOST_PICKUPS};
ghost use Rattle.arena_rules.specs.declared.limits.TheConstants.{BEATS_TAKEN};
ghost use Rattle.match_setup.specs.Setup.{spot_cell};
ghost use Rattle.arena_rules.specs.Pickup.{opening_pickup, ready_kind, taken, waited};
ghost use Rattle.arena_rules.specs.Kept.{seen_at, emptied_at, counted_anew, ready_kind_at};

use crate::number::{UNUSED, cell_number, has_number, spot_number};
use crate::pickup::Pickup;
use crate::resting::Resting;
use arrayvec::ArrayVec;
use game_trait::limits::MOST_PICKUPS;
use match_setup::{Kind, PickupSpot, Spot, copy_into};
use std::marker::Model;

// The most beats that are counted before counting begins anew: a wait more is still a number.
const MOST_BEATS: u32 = 4_294_967_275;

// The pickups as they are seen after a number of beats.
fn seen_each(pickups: &[Resting], beats: u32) -> ArrayVec<Pickup, MOST_PICKUPS>
    requires count { length pickups.now ≤ MOST_PICKUPS }
    requires waits { All (λ p. p.until - beats ≤ BEATS_TAKEN) pickups.now }
    ensures { result.items ≡ map (seen_at beats) pickups.now }
{
    let mut seen = ArrayVec::new();
    for pickup in pickups {
        seen.push(pickup.seen(beats));
    }
    seen
}

// The kind of the pickup that lies ready in the cell of this spot, after a number of beats.
fn ready_kind(pickups: &[Resting], spot: Spot, beats: u32) -> Option<Kind>
    ensures { result ≡ ready_kind_at beats pickups.now (spot_cell spot) }
{
    pickups
        .iter()
        .find(|p| p.lies_ready(spot, beats))
        .map(|p| p.place.kind)
}

// Takes each pickup that lies ready in the cell of this spot, after a number of beats.
fn take_each(pickups: &mut [Resting], spot: Spot, beats: u32)
    requires { beats ≤ 4294967275 }
    ensures { pickups.new ≡ map (emptied_at beats (spot_cell spot)) pickups.old }
{
    for pickup in pickups.iter_mut() {
        *pickup = pickup.emptied(spot, beats);
    }
}

// Begins to count the beats anew.
#[inline(never)]
fn count_anew(pickups: &mut [Resting], beats: u32)
    ensures { pickups.new ≡ map (counted_anew beats) pickups.old }
{
    for pickup in pickups.iter_mut() {
        *pickup = pickup.counted_anew(beats);
    }
}

/// The pickups of a world in order. Each is kept with the beat from which it lies ready, so that a
/// beat changes none of them; and the numbers of their cells are kept beside them, so that one pass
/// over numbers tells of most cells that nothing lies there. Contracts see the list of the pickups,
/// each with its wait.
#[derive(Debug, Drop)]
pub struct Pickups {
    list: ArrayVec<Resting, MOST_PICKUPS>,
    numbers: [u16; MOST_PICKUPS],
    beats: u32,
}

impl Model for Pickups {
    ghost use Rattle.std.specs.Prelude.{List, map};
    ghost use Rattle.arena_rules.specs.declared.pickup.Pickup.{Pickup};
    ghost use Rattle.arena_rules.specs.Kept.{seen_at, AreResting};

    ghost Value = { List Pickup };

    ghost view = { λ p. map (seen_at p.beats) p.list.items };

    ghost invariant = { λ p. AreResting p.list.items p.numbers p.beats };
}

impl Pickups {
    /// The pickups as the match begins: all lie ready.
    pub fn all_ready(places: &[PickupSpot]) -> Pickups
        requires { length places.now ≤ MOST_PICKUPS }
        ensures { result ≡ map opening_pickup places.now }
    {
        let mut pickups = Pickups {
            list: ArrayVec::new(),
            numbers: [UNUSED; MOST_PICKUPS],
            beats: 0,
        };
        for place in places {
            pickups.push(*place);
        }
        pickups
    }

    // Appends a pickup that lies ready, where there is room.
    fn push(&mut self, place: PickupSpot)
        requires { length self.old < MOST_PICKUPS }
        ensures { self.new ≡ self.old ++ opening_pickup place ∷ [] }
    {
        self.numbers[self.list.len()] = cell_number(place.x, place.y);
        self.list.push(Resting::ready(place));
    }

    /// The pickups in order, each with its wait.
    pub fn list(&self) -> ArrayVec<Pickup, MOST_PICKUPS>
        ensures { result.items ≡ self.now }
    {
        seen_each(&self.list, self.beats)
    }

    // Whether the number of this cell is among the pickups' numbers.
    fn is_numbered(&self, spot: Spot) -> bool
        ensures { result ≡ false → ready_kind self.now (spot_cell spot) ≡ None }
    {
        has_number(&self.numbers, spot_number(spot))
    }

    /// The kind of the pickup that lies ready in the cell of this spot.
    pub fn ready_kind(&self, spot: Spot) -> Option<Kind>
        ensures { result ≡ ready_kind self.now (spot_cell spot) }
    {
        if !self.is_numbered(spot) {
            return None;
        }
        ready_kind(&self.list, spot, self.beats)
    }

    /// Takes what lies ready in the cell of this spot, which is of this kind, or nothing.
    pub fn take(&mut self, spot: Spot, kind: Option<Kind>)
        requires { kind ≡ ready_kind self.old (spot_cell spot) }
        ensures { self.new ≡ taken self.old (spot_cell spot) }
    {
        if kind.is_some() {
            take_each(&mut self.list, spot, self.beats);
        }
    }

    /// The third part of a beat: each pickup waits a beat less.
    pub fn wait(&mut self)
        ensures { self.new ≡ map waited self.old }
    {
        if self.beats < MOST_BEATS {
            self.beats += 1;
            return;
        }
        count_anew(&mut self.list, self.beats);
        self.beats = 1;
    }

    /// Makes them the same as others.
    pub fn set_from(&mut self, other: &Pickups)
        ensures { self.new ≡ other.now }
    {
        copy_into(&mut self.list, &other.list);
        self.numbers = other.numbers;
        self.beats = other.beats;
    }

    /// Others that are the same.
    pub fn twin(&self) -> Pickups
        ensures { result ≡ self.now }
    {
        Pickups {
            list: self.list.clone().unwrap(),
            numbers: self.numbers,
            beats: self.beats,
        }
    }
}
