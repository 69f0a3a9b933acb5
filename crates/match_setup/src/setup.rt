//! How a match begins.

use crate::ground::Ground;
use crate::pickup::PickupSpot;
use crate::spot::Spot;
use arrayvec::ArrayVec;
use game_trait::limits::{MOST_PICKUPS, MOST_PLAYERS};

/// How a match begins.
#[derive(Debug, Drop)]
pub struct Setup {
    /// The grid and its walls.
    pub ground: Ground,
    /// The pickups, in the order of their lines.
    pub pickups: ArrayVec<PickupSpot, MOST_PICKUPS>,
    /// The homes of the players, in the order of their lines.
    pub players: ArrayVec<Spot, MOST_PLAYERS>,
}
