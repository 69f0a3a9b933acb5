//! What ties live mirrors to the other words: what they told at their ends is a record that is legal
//! for `audit`.
#![tactic(auto)]

pub mod laws;
