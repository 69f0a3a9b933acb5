//! The lines of a script.

ghost use Rattle.std.specs.Prelude.{◌≡◌};
ghost use Rattle.match_data.specs.Data.{shows};

use game_trait::{MirrorId, Number};

/// One line of a match's script: what happens next, and at which mirror.
#[derive(Clone, Copy, Debug, PartialEq, Eq)]
pub enum ScriptLine {
    /// A mirror's clock goes on by one tick.
    Tick {
        mirror: MirrorId,
    },
    /// A tick of a mirror, and then a step of each of its copies, the first copy first.
    Turn {
        mirror: MirrorId,
    },
    /// The match's command with this sender and number arrives at a mirror.
    Arrive {
        mirror: MirrorId,
        from: MirrorId,
        number: Number,
    },
    /// A copy of a mirror runs a tick, where it may.
    Step {
        mirror: MirrorId,
        copy: u8,
    },
    /// A copy's world is printed.
    World {
        mirror: MirrorId,
        copy: u8,
    },
    /// A copy's run is printed.
    Run {
        mirror: MirrorId,
        copy: u8,
    },
    /// A mirror goes over to another plan of delays, of which plan 0 is the match's first.
    Restagger {
        mirror: MirrorId,
        plan: u8,
    },
}

impl ScriptLine {
    /// Whether the line prints a world or a run.
    pub fn shows(&self) -> bool
        ensures { result ≡ shows self.now }
    {
        match *self {
            ScriptLine::World { .. } => true,
            ScriptLine::Run { .. } => true,
            _ => false,
        }
    }
}
