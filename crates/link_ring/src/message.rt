//! What goes over a link.

use game_trait::{Command, Tick};

/// What goes over a link.
#[derive(Clone, Copy, Debug, PartialEq, Eq)]
pub enum Message {
    /// A command of the sender's mirror.
    Cmd(Command),
    /// A time in ticks: from the sender no command that is due before it comes any more.
    Mark(Tick),
}
