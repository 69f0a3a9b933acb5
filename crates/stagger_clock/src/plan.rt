//! Whether numbers are a plan of delays, and a match's length.

ghost use Rattle.std.specs.Prelude.{◌≡◌};
ghost use Rattle.stagger_clock.specs.Rising.{is_plan, is_length, is_schedule};

use game_trait::Tick;
use game_trait::limits::{LONGEST_DELAY, LONGEST_MATCH, MOST_COPIES};

// Whether the delays rise, and none is too long. There is one at least.
fn is_plan(delays: &[Tick]) -> bool
    ensures { result ≡ is_plan delays.now }
{
    let Some((first, more)) = delays.split_first() else {
        return false;
    };
    if *first > LONGEST_DELAY {
        return false;
    }
    let mut last = *first;
    for delay in more {
        if *delay <= last || *delay > LONGEST_DELAY {
            return false;
        }
        last = *delay;
    }
    true
}

// Whether a match may be so long.
fn is_length(length: Tick) -> bool
    ensures { result ≡ is_length length }
{
    0 < length && length <= LONGEST_MATCH
}

/// Whether the delays and the length are a schedule.
#[tactic(auto, unfolding(crate::specs::Rising::is_schedule))]
pub fn is_schedule(delays: &[Tick], length: Tick) -> bool
    ensures { result ≡ is_schedule delays.now length }
{
    delays.len() <= MOST_COPIES && is_plan(delays) && is_length(length)
}
