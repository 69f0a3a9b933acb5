//! The runs of all copies as one list, with an end for each copy; a rollback truncates it. Stands
//! on `game_trait`.
#![tactic(auto)]

mod ends;
mod segments;

pub use segments::Segments;
