//! How the dead come back: the second part of a beat.

ghost use Rattle.std.specs.Prelude.{◌≡◌, ◌<◌, [], length, slice_set, slice_index_or};
ghost use Rattle.arena_rules.specs.declared.player.Player.{Player as APlayer};
ghost use Rattle.arena_rules.specs.Beat.{returned, returns};

use crate::player::{Body, Player, State};
use crate::players::Players;

// A player after waiting, among the players: a dead one returns where the home cell is free.
#[tactic(auto, unfolding(crate::specs::Beat::returned))]
fn returned(players: &Players, player: Player) -> Player
    ensures { result ≡ returned players.now player }
{
    let State::Dead { wait } = player.state else {
        return player;
    };
    let wait = wait.saturating_sub(1);
    if wait == 0 && !players.is_held(player.home) {
        player.with_body(Body::at_home(player.home))
    } else {
        Player {
            state: State::Dead { wait },
            ..player
        }
    }
}

// The player of this number, who is there, waits and returns where dead.
fn return_one(players: &mut Players, number: usize)
    requires { number < length players.old }
    ensures returned { (d : APlayer) → players.new
        ≡ slice_set players.old number
        (returned players.old (slice_index_or players.old number d)) }
    ensures count { length players.new ≡ length players.old }
{
    if players.is_live_at(number) {
        return;
    }
    let after = returned(players, players.at(number));
    players.put(number, after);
}

// The dead wait and return, in player order. It is kept apart from a beat's code, since in most
// beats all are live.
#[inline(never)]
fn return_each(players: &mut Players)
    ensures { players.new ≡ returns [] players.old }
{
    for number in 0..players.len() {
        return_one(players, number);
    }
}

/// The second part of a beat: the dead wait and return, in player order. Where all players are live
/// nothing changes.
pub fn return_all(players: &mut Players)
    ensures { players.new ≡ returns [] players.old }
{
    if players.are_live() {
        return;
    }
    return_each(players);
    players.look_for_dead();
}
