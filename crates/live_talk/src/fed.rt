//! How a live mirror stands.

/// How a live mirror stands.
#[derive(Clone, Copy, Debug, PartialEq, Eq)]
pub enum Fed {
    /// It goes on.
    Goes,
    /// Its head was refused, and nothing is taken any more.
    Refused,
    /// Its match ended, and nothing is taken any more.
    Ended,
}
