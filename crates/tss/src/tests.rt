//! Tests of the program's words, and of races. They stand in the top crate, since a crate's tests are
//! proved together with the whole crate once more.

mod ends;
mod limits;
mod office;
mod program;
mod races;
mod soaks;
mod stage;
mod tables;
