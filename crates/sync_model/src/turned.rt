//! What a mirror keeps of an arrival that it turned away.

use game_trait::{MirrorId, Number, Tick};

/// An arrival that was turned away: whose command it was, and the bound that its time was below.
#[derive(Clone, Copy, Debug, PartialEq, Eq)]
pub struct Turned {
    /// The mirror that issued the command.
    pub from: MirrorId,
    /// The command's number among that mirror's.
    pub number: Number,
    /// The last copy's clock at the arrival, in ticks.
    pub bound: Tick,
}
