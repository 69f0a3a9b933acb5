//! What all peers of a session agree on.

/// What decides how bytes are read.
#[derive(Clone, Copy, Debug, PartialEq, Eq)]
pub struct Terms {
    /// The session's number.
    pub session: u64,
    /// How many peers it may ever have, 2 to 64.
    pub slots: u8,
    /// Most bytes of a command, 0 to 64.
    pub payload: u8,
}
