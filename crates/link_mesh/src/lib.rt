//! A mesh of links: from each of several mirrors to each other, whatever goes over them.
//!
//! `make_links` makes them all, `look_row` finds what waits in those to one mirror once nobody sends
//! any more, and `sender_of` tells whose link stands where.
#![tactic(auto)]

mod links;

pub use links::{look_row, make_links, sender_of};
