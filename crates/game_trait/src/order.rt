//! Executing commands in key order, tick by tick.

ghost use Rattle.std.specs.Prelude.{◌≡◌, ℕ, ◌<◌, ◌^◌, map};
ghost use Rattle.std.specs.List.{AllByRecursion};
ghost use Rattle.game_trait.specs.declared.command.Item.TheVariants.{Cmd};
ghost use Rattle.game_trait.specs.Keys.{KeysRise, NamesDiffer, in_key_order};
ghost use Rattle.game_trait.specs.Run.{world_of};
ghost use Rattle.game_trait.specs.Ordered.{ticks, time_ordered};
ghost use Rattle.game_trait.specs.Front.{due_front, due_behind};

use crate::command::{Command, Tick, order_by_key};
use crate::game::Game;

// Executes the commands at the front that are due at tick `t`, and hands back those behind them.
#[tactic(auto, unfolding(crate::specs::Front::due_front, crate::specs::Front::due_behind, crate::specs::Run::world_of))]
fn apply_due<'a, G: Game>(game: &mut G, commands: &'a [Command], t: Tick) -> &'a [Command]
    ensures world { game.new ≡ world_of G.rules game.old (map Cmd (due_front t commands.now)) }
    ensures rest { result.now ≡ due_behind t commands.now }
{
    let mut left = commands;
    while let Some((x, behind)) = left.split_first() {
        if x.time != t {
            return left;
        }
        game.apply(x);
        left = behind;
    }
    left
}

/// The time-ordered execution of commands of different names over `length` ticks: each tick's
/// commands in key order, and then one beat. It leaves the commands in key order, and takes no
/// memory.
pub fn execute_in_order<G: Game>(game: &mut G, commands: &mut [Command], length: Tick)
    requires { NamesDiffer commands.old }
    ensures world { game.new ≡ time_ordered G.rules game.old commands.old length }
    ensures order { commands.new ≡ in_key_order commands.old }
{
    order_by_key(commands);
    let mut left: &[Command] = commands;
    for t in 0..length {
        left = apply_due(game, left, t);
        game.beat();
    }
}
