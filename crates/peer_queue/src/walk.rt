//! Walks over the first commands of a part.

ghost use Rattle.std.specs.Prelude.{◌≡◌, take, drop, map};
ghost use Rattle.peer_model.specs.Queue.{last_time};
ghost use Rattle.peer_calls.specs.Wire.{sent_from};

use game_trait::Tick;
use peer_packet::{CommandsView, PartView};

// Passes a command where there is one: the time of the last one behind it.
fn pass(commands: &mut CommandsView<'_>, last: Tick) -> Tick
    ensures time { result ≡ last_time last (map sent_from (take 1 commands.old)) }
    ensures rest { commands.new ≡ drop 1 commands.old }
{
    match commands.next() {
        Some(sent) => sent.time,
        None => last,
    }
}

// The time of the last of the first so many commands of a part, the one before it where there is none.
pub fn time_before(part: &PartView<'_>, count: u32) -> Tick
    ensures { result ≡ last_time part.now.before (take count (map sent_from part.now.commands)) }
{
    let mut commands = part.commands();
    let mut last = part.head().before;
    for _ in 0..count {
        last = pass(&mut commands, last);
    }
    last
}

// The commands of a part behind the first so many.
pub fn behind<'a>(part: &PartView<'a>, count: u32) -> CommandsView<'a>
    ensures { result ≡ drop count part.now.commands }
{
    let mut commands = part.commands();
    for _ in 0..count.min(u32::from(part.head().count)) {
        let _passed = commands.next();
    }
    commands
}
