//! A peer whose mirror forgets, beside the one of `peer_model` whose mirror remembers all.
#![tactic(auto)]

pub mod laws;
