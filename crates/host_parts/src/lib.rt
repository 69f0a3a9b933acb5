//! What libraries for C have in common: plans that a host spells by numbers, a world of nothing, and the
//! parts of a box.
#![tactic(auto)]

mod blank;
mod parts;
mod plan;

pub use blank::Blank;
pub use parts::Parts;
pub use plan::{Plans, plans_of};
