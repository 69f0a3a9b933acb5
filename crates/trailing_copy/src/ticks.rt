//! A copy's due tick on its world, unless that world is still to be made: executed, or put there by
//! one who executed it elsewhere.

ghost use Rattle.std.specs.Prelude.{◌≡◌, ◌+◌, ◌<◌, ◌≤◌, ◌^◌, length, option_copied, slice_index_or, vec_len};
ghost use Rattle.game_trait.specs.Run.{world_of};
ghost use Rattle.game_trait.specs.Ordered.{tick_of};
ghost use Rattle.pending_list.specs.Buckets.{start_of};
ghost use Rattle.trailing_copy.specs.Stack.{put_unless_stale, world_after};

use game_trait::{Game, Tick};
use pending_list::InOrder;
use repair_copy::{execute_tick, tick_len};

// Executes a tick on the copy's world, unless that is one of the first `stale`, which are still to
// be made. Answers how many items the tick has.
fn execute_at<G: Game>(
    worlds: &mut Vec<G>,
    stale: u8,
    copy: u8,
    list: &InOrder,
    start: u32,
    t: Tick,
) -> u32
    requires there { copy < vec_len worlds.old }
    requires start { start ≡ start_of list.now.all t }
    requires next { t + 1 < 2 ^ 32 }
    requires few { length (tick_of list.now.all t) < 2 ^ 32 }
    ensures count { result ≡ length (tick_of list.now.all t) }
    ensures worlds { (d : G) → worlds.new.items
        ≡ put_unless_stale stale copy
        (world_of G.rules (slice_index_or worlds.old.items copy d) (tick_of list.now.all t))
        worlds.old.items }
{
    if copy < stale {
        return tick_len(list, start, t);
    }
    execute_tick(&mut worlds[copy as usize], list, start, t)
}

// Makes the copy's world equal to another, unless it is one of the first `stale`, which are still
// to be made.
fn put_at<G: Game>(worlds: &mut Vec<G>, stale: u8, copy: u8, world: &G)
    requires { copy < vec_len worlds.old }
    ensures { worlds.new.items ≡ put_unless_stale stale copy world.now worlds.old.items }
{
    if copy < stale {
        return;
    }
    worlds[copy as usize].set_from(world);
}

/// The copy's world becomes the one that is given, or where none is, executes a tick, unless it is
/// one of the first `stale`, which are still to be made. The tick's commands begin at `start` in
/// key order. Answers how many items it has.
pub fn execute_or_put<G: Game>(
    worlds: &mut Vec<G>,
    stale: u8,
    copy: u8,
    list: &InOrder,
    start: u32,
    t: Tick,
    given: Option<&G>,
) -> u32
    requires there { copy < vec_len worlds.old }
    requires start { start ≡ start_of list.now.all t }
    requires next { t + 1 < 2 ^ 32 }
    requires few { length (tick_of list.now.all t) < 2 ^ 32 }
    ensures count { result ≡ length (tick_of list.now.all t) }
    ensures worlds { (d : G) → worlds.new.items
        ≡ put_unless_stale stale copy
        (world_after G.rules (option_copied given.entry) (slice_index_or worlds.old.items copy d)
        (tick_of list.now.all t))
        worlds.old.items }
{
    match given {
        Some(world) => {
            put_at(worlds, stale, copy, world);
            tick_len(list, start, t)
        }
        None => execute_at(worlds, stale, copy, list, start, t),
    }
}
