//! What arrives at the mirror, and when.

use game_trait::{Act, Command, Tick};

/// A command, and the clock at which it comes.
pub struct Coming {
    pub clock: Tick,
    pub command: Command,
}

/// A player takes one stone at tick 1, which is known beforehand.
const EARLY: Command = Command {
    time: 1,
    number: 0,
    from: 0,
    player: 0,
    act: Act::Go,
};

/// Another takes three at tick 3, and it comes when one copy has run that tick.
const LATE: Command = Command {
    time: 3,
    number: 0,
    from: 1,
    player: 1,
    act: Act::Dash,
};

/// A third takes three at tick 2, and it comes when two copies have run that tick.
const LATER: Command = Command {
    time: 2,
    number: 0,
    from: 2,
    player: 2,
    act: Act::Dash,
};

/// A fourth takes one at tick 0, and it comes when all copies have run that tick.
const TOO_LATE: Command = Command {
    time: 0,
    number: 0,
    from: 3,
    player: 3,
    act: Act::Go,
};

/// What comes, in order.
pub const COMING: [Coming; 5] = [
    Coming {
        clock: 0,
        command: EARLY,
    },
    Coming {
        clock: 4,
        command: LATE,
    },
    Coming {
        clock: 5,
        command: LATER,
    },
    Coming {
        clock: 6,
        command: TOO_LATE,
    },
    Coming {
        clock: 6,
        command: EARLY,
    },
];
