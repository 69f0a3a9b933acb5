//! The rules of the arena: its players and its worlds, the game that mirrors keep in step.
#![tactic(auto)]

mod arena;
mod block;
pub mod limits;
mod number;
mod pickup;
mod pickups;
mod player;
mod players;
pub mod possible;
mod resting;
mod returning;
mod shot;
pub mod worked;

pub use arena::Arena;
pub use match_setup::{
    Face, Ground, Kind, PickupSpot, Roster, Setup, Shown, Spot, copied, copy_into,
};
