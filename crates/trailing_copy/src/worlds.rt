//! The worlds of copies: a command executed on some of them, and worlds made from the items of the
//! list.

ghost use Rattle.std.specs.Prelude.{◌≡◌, ℕ, ◌+◌, ◌<◌, ◌≤◌, [], ◌∷◌, drop, length, take, vec_len};
ghost use Rattle.std.specs.Prelude.{slice_index_or, slice_set};
ghost use Rattle.game_trait.specs.declared.limits.TheConstants.{MOST_COPIES};
ghost use Rattle.game_trait.specs.Run.{world_of};
ghost use Rattle.trailing_copy.specs.Stack.{AreWorlds};

use executed_list::Segments;
use game_trait::{Command, Game, Item};

/// Executes a command on the worlds from `first` to `last`, if there are any.
pub fn apply_to_each<G: Game>(worlds: &mut Vec<G>, first: u8, last: u8, x: &Command)
    requires there { last < vec_len worlds.old }
    requires few { last < MOST_COPIES }
    ensures each { (d : G) (i : ℕ) → first ≤ i → i ≤ last
        → slice_index_or worlds.new.items i d
        ≡ G.rules.apply (slice_index_or worlds.old.items i d) x.now }
    ensures ahead { (d : G) (i : ℕ) → i < first
        → slice_index_or worlds.new.items i d ≡ slice_index_or worlds.old.items i d }
    ensures behind { drop (last + 1) worlds.new.items ≡ drop (last + 1) worlds.old.items }
    ensures len { vec_len worlds.new ≡ vec_len worlds.old }
{
    if last < first {
        return;
    }
    for c in first..last + 1 {
        worlds[c as usize].apply(x);
    }
}

// Makes a copy's world equal to the world of the copy behind it.
fn copy_down<G: Game>(worlds: &mut Vec<G>, c: usize)
    requires { c + 1 < vec_len worlds.old }
    ensures worlds { (d : G)
        → worlds.new.items
        ≡ slice_set worlds.old.items c (slice_index_or worlds.old.items (c + 1) d) }
    ensures len { vec_len worlds.new ≡ vec_len worlds.old }
{
    let (ahead, behind) = worlds.split_at_mut(c + 1);
    ahead[c].set_from(&behind[0]);
}

// Executes one item on a world.
#[tactic(auto, unfolding(game_trait::specs::Run::world_of))]
fn execute_item<G: Game>(world: &mut G, item: &Item)
    ensures { world.new ≡ world_of G.rules world.old (item.now ∷ []) }
{
    match item {
        Item::Cmd(x) => world.apply(x),
        Item::Beat => world.beat(),
    }
}

/// Executes the items of the list from one place up to another on a world.
pub fn execute_items<G: Game>(world: &mut G, run: &Segments, start: u32, stop: u32)
    requires order { start ≤ stop }
    requires there { stop ≤ length run.now.items }
    ensures { world.new ≡ world_of G.rules world.old (drop start (take stop run.now.items)) }
{
    for place in start..stop {
        execute_item(world, &run.item(place));
    }
}

/// Makes the worlds of the first `stale` copies, each from that of the copy behind it and from the
/// items between their ends. Whatever opening world those behind go back to, these do too.
pub fn make_worlds<G: Game>(worlds: &mut Vec<G>, run: &Segments, stale: u8)
    requires there { stale < length run.now.ends }
    requires as_many_worlds { vec_len worlds.old ≡ length run.now.ends }
    ensures worlds { (opening : G) → AreWorlds G.rules opening run.now stale worlds.old.items
        → AreWorlds G.rules opening run.now 0 worlds.new.items }
    ensures len { vec_len worlds.new ≡ vec_len worlds.old }
{
    run.always();
    let mut c = stale;
    while c > 0 {
        c -= 1;
        let copy = c as usize;
        copy_down(worlds, copy);
        execute_items(&mut worlds[copy], run, run.end(c + 1), run.end(c));
    }
}
