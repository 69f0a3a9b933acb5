//! What a mirror of a session without an end hands to one that joins.

use game_trait::{Command, Tick};
use tss_base::Seq;

/// What a mirror hands to one that joins its session (this project's own): its last copy, and the
/// commands that this hasn't run. Its times are ticks of the session.
#[derive(Drop)]
pub struct SessionSnapshot<G> {
    /// The last copy's clock, at which the joiner's window begins.
    pub base: Tick,
    /// The mirror's clock.
    pub clock: Tick,
    /// The number of the plan in force.
    pub plan: u8,
    /// The last copy's world.
    pub world: G,
    /// The accepted commands that are due at the base or later, in order of acceptance.
    pub commands: Seq<Command>,
}
