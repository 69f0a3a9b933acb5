//! The sum of a last copy's world at a tick, which peers tell each other.

use game_trait::Tick;

/// A mark: what a last copy's world came to at a tick. Peers whose marks of one tick differ are at
/// different worlds (this project's own).
#[derive(Clone, Copy, Debug, PartialEq, Eq)]
pub struct Mark {
    /// The tick of the session at which the last copy stood.
    pub tick: Tick,
    /// The sum of its world, by a rule of the host's.
    pub sum: u32,
}
