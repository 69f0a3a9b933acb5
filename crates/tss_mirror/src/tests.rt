//! Tests of the program over a peer in memory.

mod endless;
mod exits;
mod limits;
mod painting;
mod refusals;
mod rows;
mod sessions;
mod stage;
mod talks;
