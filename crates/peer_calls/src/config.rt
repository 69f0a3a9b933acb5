//! What a peer is made with.

use game_trait::Tick;
use peer_packet::Terms;

/// What a peer is made with, beside its plans and its window (this project's own). All peers of a
/// session have the same terms; the rest may differ.
#[derive(Clone, Copy, Debug, PartialEq, Eq)]
pub struct Config {
    /// The session's terms.
    pub terms: Terms,
    /// How many ticks after it was due another peer's command is passed on; 2^32 - 1: never.
    pub relay: Tick,
    /// How many ticks behind the last copy a command is remembered.
    pub keep: Tick,
    /// How many commands of each slot are remembered at once.
    pub room: u32,
}
