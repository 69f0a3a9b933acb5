//! What a mirror of a session without an end answers to a command.

use game_trait::Tick;

/// The answer to an arrival, its ticks those of the session (this project's own).
#[derive(Clone, Copy, Debug, PartialEq, Eq)]
pub enum Arrival {
    /// The command was accepted, and this many copies, counted from copy 0, were repaired.
    Taken { repaired: u8 },
    /// A command with the same mirror and number was accepted before, and is remembered.
    Repeat,
    /// The command is older than the last copy's clock, the bound, and was turned away.
    Late { bound: Tick },
    /// The command is due at the window's end or later: nothing changed, and it may come again once
    /// the copies have gone on.
    Far { end: Tick },
    /// There is no room for the command: nothing changed, and it may come again once commands were
    /// forgotten.
    Full,
}
