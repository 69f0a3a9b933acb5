//! A tick executed on a world alone.

ghost use Rattle.std.specs.Prelude.{◌≡◌, ◌+◌, ◌-◌, ◌<◌, ◌≤◌, ◌^◌, [], ◌∷◌, ◌++◌, map, length};
ghost use Rattle.game_trait.specs.declared.command.Item.TheVariants.{Cmd, Beat};
ghost use Rattle.game_trait.specs.Ordered.{tick_of, due_at};
ghost use Rattle.game_trait.specs.Run.{world_of};
ghost use Rattle.pending_list.specs.Buckets.{start_of};

use game_trait::{Game, Tick};
use pending_list::InOrder;

// Executes a tick's commands in key order, from their start on, and answers how many they are.
fn execute_commands<G: Game>(world: &mut G, list: &InOrder, start: u32, t: Tick) -> u32
    requires { start ≡ start_of list.now.all t }
    ensures count { result ≡ length (due_at list.now.all t) }
    ensures world { world.new ≡ world_of G.rules world.old (map Cmd (due_at list.now.all t)) }
{
    let mut place = start;
    while let Some(x) = list.due(place, t) {
        world.apply(&x);
        place += 1;
    }
    place - start
}

/// Executes a whole tick, whose commands begin at `start` in key order, on the world, and answers
/// how many items it has.
pub fn execute_tick<G: Game>(world: &mut G, list: &InOrder, start: u32, t: Tick) -> u32
    requires start { start ≡ start_of list.now.all t }
    requires few { length (tick_of list.now.all t) < 2 ^ 32 }
    ensures count { result ≡ length (tick_of list.now.all t) }
    ensures world { world.new ≡ world_of G.rules world.old (tick_of list.now.all t) }
{
    let commands = execute_commands(world, list, start, t);
    world.beat();
    commands + 1
}
