//! The events of a turn.

ghost use Rattle.std.specs.Prelude.{◌≡◌, ◌≤◌};
ghost use Rattle.sync_model.specs.Turns.{turn_events};

use arrayvec::ArrayVec;
use game_trait::Event;

/// The events of a turn of so many copies: a tick, and then a step of each copy from copy 0 on.
#[tactic(auto, unfolding(sync_model::specs::Turns::steps_from))]
pub fn turn_events(copies: u8) -> ArrayVec<Event, 9>
    requires { copies ≤ 8 }
    ensures { result.items ≡ turn_events copies }
{
    let mut events = ArrayVec::new();
    events.push(Event::Tick);
    for copy in 0..copies {
        events.push(Event::Step(copy));
    }
    events
}
