//! How a match begins, whichever game is played: the ground, where players and pickups stand, the
//! players' names, and what a block can show.
#![tactic(auto)]

mod copying;
mod face;
mod ground;
mod pickup;
pub mod possible;
mod roster;
mod setup;
mod shown;
mod spot;

pub use copying::{copied, copy_into};
pub use face::Face;
pub use ground::Ground;
pub use pickup::{Kind, PickupSpot};
pub use roster::Roster;
pub use setup::Setup;
pub use shown::Shown;
pub use spot::Spot;
