//! The games whose mirrors may be spoken to live: this is the one place that names them.

use crate::begins::Begins;
use arena_rules::Arena;
use match_setup::Setup;
use paint_rules::Paint;

impl Begins for Arena {
    ghost use Rattle.arena_rules.specs.World.{opening_world};

    ghost opening = { opening_world };

    fn at_start(setup: &Setup) -> Arena {
        Arena::start(setup)
    }
}

impl Begins for Paint {
    ghost use Rattle.paint_rules.specs.Scene.{opening as opening_paint};

    ghost opening = { opening_paint };

    fn at_start(setup: &Setup) -> Paint {
        Paint::start(setup)
    }
}
