//! The events of script lines and turns.

ghost use Rattle.std.specs.Prelude.{◌≡◌, ◌≤◌, ◌∷◌, [], true};
ghost use Rattle.game_trait.specs.CommandList.{command_named, has_command};
ghost use Rattle.match_data.specs.Data.{IsScriptLine};
ghost use Rattle.match_hall.specs.Script.{events_of};

use arrayvec::ArrayVec;
use game_trait::{Command, Event, MirrorId, Number};
use match_data::{Match, ScriptLine, find_command};
use mirror_core::turn_events;

/// The events of one script line: of a turn a tick and a step of each copy, and else one at most.
pub type Events = ArrayVec<Event, 9>;

/// The match's command of this mirror and number, which is there.
pub fn command_of(m: &Match, from: MirrorId, number: Number) -> Command
    requires { has_command m.now.commands from number ≡ true }
    ensures { command_named m.now.commands from number ≡ Some result }
{
    match find_command(m, from, number) {
        Some(x) => x,
        None => unreachable!(),
    }
}

// One event alone.
fn alone(event: Event) -> Events
    ensures { result.items ≡ event ∷ [] }
{
    let mut events = ArrayVec::new();
    events.push(event);
    events
}

/// The events that a script line makes at a mirror with this number of copies.
#[tactic(auto, unfolding(crate::specs::Script::events_of))]
pub fn events_of(m: &Match, copies: u8, line: &ScriptLine) -> Events
    requires copies { copies ≤ 8 }
    requires line { IsScriptLine m.now line.now }
    ensures { result.items ≡ events_of m.now.commands copies line.now }
{
    match *line {
        ScriptLine::Tick { .. } => alone(Event::Tick),
        ScriptLine::Turn { .. } => turn_events(copies),
        ScriptLine::Arrive { from, number, .. } => alone(Event::Arrive(command_of(
            m, from, number,
        ))),
        ScriptLine::Step { copy, .. } => alone(Event::Step(copy)),
        ScriptLine::Restagger { plan, .. } => alone(Event::Restagger(plan)),
        ScriptLine::World { .. } | ScriptLine::Run { .. } => ArrayVec::new(),
    }
}
