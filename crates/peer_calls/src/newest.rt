//! The newest that was heard of another peer's clock.

use game_trait::Tick;

/// The newest clock that was heard of another peer, with the echo that came beside it. The round trip is
/// `at - echo`; half of `(at - clock) - (clock - echo)` is how far this peer is ahead of the other.
#[derive(Clone, Copy, Debug, PartialEq, Eq)]
pub struct Newest {
    /// The other one's clock.
    pub clock: Tick,
    /// The newest clock of this peer that the other one had heard, 0 where none.
    pub echo: Tick,
    /// This peer's clock when it was heard.
    pub at: Tick,
}
