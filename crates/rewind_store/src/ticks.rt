//! Executing some of a match's ticks.

ghost use Rattle.std.specs.Prelude.{◌≡◌, ◌≤◌, map, nat_lt};
ghost use Rattle.game_trait.specs.declared.command.Item.TheVariants.{Cmd};
ghost use Rattle.game_trait.specs.Keys.{KeysRise};
ghost use Rattle.game_trait.specs.Run.{world_of};
ghost use Rattle.game_trait.specs.Ordered.{ordered};
ghost use Rattle.game_trait.specs.Front.{due_front, due_behind};
ghost use Rattle.rewind_store.specs.DueFrom.{due_from};

use game_trait::{Command, Game, Tick};

// Whether a command is due before a tick.
fn is_due_before(x: &Command, t: Tick) -> bool
    ensures { result ≡ nat_lt x.now.time t }
{
    x.time < t
}

// Of commands in key order, those from the first on that is due at tick `t` or later. The first is
// found by halving.
fn skip_to<'a>(commands: &'a [Command], t: Tick) -> &'a [Command]
    requires { KeysRise commands.now }
    ensures { result.now ≡ due_from t commands.now }
{
    let at = commands.partition_point(|x| is_due_before(x, t));
    &commands[at..]
}

// Executes the commands at the front that are due at tick `t`, and hands back those behind them.
#[tactic(auto, unfolding(game_trait::specs::Front::due_front, game_trait::specs::Front::due_behind, game_trait::specs::Run::world_of))]
fn apply_due<'a, G: Game>(game: &mut G, commands: &'a [Command], t: Tick) -> &'a [Command]
    ensures world { game.new ≡ world_of G.rules game.old (map Cmd (due_front t commands.now)) }
    ensures rest { result.now ≡ due_behind t commands.now }
{
    let mut left = commands;
    while let Some((x, behind)) = left.split_first() {
        if x.time != t {
            return left;
        }
        game.apply(x);
        left = behind;
    }
    left
}

/// Executes the ticks from `from` up to `to` of commands in key order: each tick's commands, and then
/// one beat.
pub fn execute_ticks<G: Game>(game: &mut G, commands: &[Command], from: Tick, to: Tick)
    requires rise { KeysRise commands.now }
    requires order { from ≤ to }
    ensures { game.new ≡ world_of G.rules game.old (ordered commands.now from to) }
{
    let mut left = skip_to(commands, from);
    for t in from..to {
        left = apply_due(game, left, t);
        game.beat();
    }
}
