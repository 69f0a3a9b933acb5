//! What the definitions come to in which a peer's promises end.
#![tactic(auto)]

pub mod laws;
