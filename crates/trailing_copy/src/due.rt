//! The commands of one tick.

ghost use Rattle.std.specs.Prelude.{◌≡◌, ◌≤◌, length};
ghost use Rattle.game_trait.specs.Ordered.{due_at};
ghost use Rattle.pending_list.specs.Buckets.{start_of};

use arrayvec::ArrayVec;
use game_trait::{Command, Tick};
use pending_list::InOrder;

/// Puts a tick's commands, which begin at `start` in key order, in the place of others. They are no
/// more than the list holds.
pub fn due_into<const N: usize>(
    list: &InOrder,
    start: u32,
    t: Tick,
    commands: &mut ArrayVec<Command, N>,
)
    requires start { start ≡ start_of list.now.all t }
    requires few { length (due_at list.now.all t) ≤ N }
    ensures { commands.new.items ≡ due_at list.now.all t }
{
    commands.clear();
    let mut place = start;
    while let Some(x) = list.due(place, t) {
        commands.push(x);
        place += 1;
    }
}
