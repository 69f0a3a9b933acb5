//! A mirror of a session without an end: it forgets what lies behind its last copy, and is at every
//! moment what is left of a state of `sync_model`.
#![tactic(auto)]

mod arrival;
mod events;
mod forget;
mod handed;
mod joining;
pub mod laws;
mod names;
mod rolling;
mod runs;
#[cfg(test)]
mod tests;

pub use arrival::Arrival;
pub use handed::SessionSnapshot;
pub use rolling::RollingMirror;
