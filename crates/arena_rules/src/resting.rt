//! A pickup as it is kept.

ghost use Rattle.std.specs.Prelude.{◌≡◌, ◌-◌, ◌≤◌};
ghost use Rattle.arena_rules.specs.declared.limits.TheConstants.{BEATS_TAKEN};
ghost use Rattle.match_setup.specs.Setup.{spot_cell};
ghost use Rattle.arena_rules.specs.Pickup.{lies_ready};
ghost use Rattle.arena_rules.specs.Kept.{seen_at, emptied_at, counted_anew};

use crate::limits::BEATS_TAKEN;
use crate::pickup::Pickup;
use match_setup::{PickupSpot, Spot};

/// A pickup with the beat from which it lies ready, so that no beat changes it.
#[derive(Clone, Copy, Debug, Default)]
pub struct Resting {
    pub place: PickupSpot,
    /// It can be taken after this number of beats.
    pub until: u32,
}

impl Resting {
    /// A pickup as the match begins.
    pub fn ready(place: PickupSpot) -> Resting
        ensures { result ≡ record { place = place; until = 0 } }
    {
        Resting { place, until: 0 }
    }

    /// How it is seen after a number of beats.
    pub fn seen(self, beats: u32) -> Pickup
        requires { self.until - beats ≤ BEATS_TAKEN }
        ensures { result ≡ seen_at beats self }
    {
        Pickup {
            place: self.place,
            wait: self.until.saturating_sub(beats) as u8,
        }
    }

    /// Whether it lies ready in the cell of this spot after a number of beats.
    pub fn lies_ready(self, spot: Spot, beats: u32) -> bool
        ensures { result ≡ lies_ready (spot_cell spot) (seen_at beats self) }
    {
        self.place.x == spot.x && self.place.y == spot.y && self.until <= beats
    }

    /// The pickup after someone came to the cell of this spot.
    pub fn emptied(self, spot: Spot, beats: u32) -> Resting
        requires { beats ≤ 4294967275 }
        ensures { result ≡ emptied_at beats (spot_cell spot) self }
    {
        if self.lies_ready(spot, beats) {
            Resting {
                until: beats + u32::from(BEATS_TAKEN),
                ..self
            }
        } else {
            self
        }
    }

    /// The same pickup, with the beats counted from now on.
    pub fn counted_anew(self, beats: u32) -> Resting
        ensures { result ≡ counted_anew beats self }
    {
        Resting {
            until: self.until.saturating_sub(beats),
            ..self
        }
    }
}
