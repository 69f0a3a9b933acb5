//! Why a record isn't legal.

ghost use Rattle.std.specs.Prelude.{◌≡◌};
ghost use Rattle.run_auditor.specs.Walks.{why_of};

use game_trait::{Arrived, Reply, Stepped, Ticked};

/// Why a record isn't legal.
#[derive(Clone, Copy, Debug, PartialEq, Eq)]
pub enum Why {
    /// A tick finds the clock at its end.
    Over,
    /// A command arrives that was accepted before.
    Repeat,
    /// A copy steps that stands at its limit.
    Idle,
    /// A stated world isn't that of its copy.
    World,
}

/// A fault of a mirror.
#[derive(Clone, Copy, Debug, PartialEq, Eq)]
pub struct Fault {
    /// The event's place in the log, from 0, or for `World` the copy.
    pub place: u32,
    /// What is wrong there.
    pub why: Why,
}

/// Why the answer tells of no change, where it does.
pub fn why_of(reply: Reply) -> Option<Why>
    ensures { result ≡ why_of reply }
{
    match reply {
        Reply::Tick(Ticked::Moved) => None,
        Reply::Tick(Ticked::Over) => Some(Why::Over),
        Reply::Arrive(Arrived::Taken { .. }) => None,
        Reply::Arrive(Arrived::Repeat) => Some(Why::Repeat),
        Reply::Arrive(Arrived::Late { .. }) => None,
        Reply::Step(Stepped::Ran { .. }) => None,
        Reply::Step(Stepped::Idle) => Some(Why::Idle),
        Reply::Restaggered => None,
    }
}
