//! The plans of delays of a match.

ghost use Rattle.std.specs.Prelude.{◌≡◌, ◌≤◌};
ghost use Rattle.std.specs.List.{AllByRecursion};
ghost use Rattle.sync_model.specs.Schedule.{IsSchedule};
ghost use Rattle.sync_model.specs.Staggered.{greatest_delay};
ghost use Rattle.mirror_core.specs.Kept.{delays_of_each};

use game_trait::Tick;
use game_trait::limits::LONGEST_DELAY;
use stagger_clock::Stagger;

/// The greatest delay of all plans, in ticks.
pub fn greatest(plans: &[Stagger]) -> Tick
    ensures greatest { result ≡ greatest_delay (delays_of_each plans.now) }
    ensures short { result ≤ LONGEST_DELAY }
    ensures schedules { AllByRecursion IsSchedule plans.now }
{
    let mut greatest = 0;
    for plan in plans {
        greatest = plan.longest().max(greatest);
    }
    greatest
}
