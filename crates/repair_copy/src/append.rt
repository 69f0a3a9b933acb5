//! Ticks put at the list's end, where they are executed elsewhere or later.

ghost use Rattle.std.specs.Prelude.{◌≡◌, ◌+◌, ◌-◌, ◌<◌, ◌≤◌, ◌^◌, [], ◌∷◌, ◌++◌, map, length};
ghost use Rattle.game_trait.specs.declared.command.Item.TheVariants.{Cmd, Beat};
ghost use Rattle.game_trait.specs.Ordered.{ordered, tick_of, due_at};
ghost use Rattle.executed_list.specs.Segments.{run_grown};
ghost use Rattle.pending_list.specs.Buckets.{start_of};

use executed_list::Segments;
use game_trait::{Item, Tick};
use pending_list::InOrder;

// Appends a tick's commands in key order, from their start on. Answers where the next tick's begin.
fn append_commands(list: &InOrder, start: u32, t: Tick, run: &mut Segments) -> u32
    requires start { start ≡ start_of list.now.all t }
    requires room { length (due_at list.now.all t) ≤ run.old.spare }
    ensures run { run.new ≡ run_grown run.old (map Cmd (due_at list.now.all t)) }
    ensures next { result ≡ start_of list.now.all (t + 1) }
{
    run.always();
    let mut place = start;
    while let Some(x) = list.due(place, t) {
        run.push(&Item::Cmd(x));
        place += 1;
    }
    place
}

// Appends a whole tick, whose commands start there in key order. Answers where the next tick's
// begin.
fn append_from(list: &InOrder, start: u32, t: Tick, run: &mut Segments) -> u32
    requires start { start ≡ start_of list.now.all t }
    requires room { length (due_at list.now.all t) < run.old.spare }
    ensures run { run.new ≡ run_grown run.old (tick_of list.now.all t) }
    ensures next { result ≡ start_of list.now.all (t + 1) }
{
    let next = append_commands(list, start, t, run);
    run.push(&Item::Beat);
    next
}

/// Appends a whole tick, for whose items there is room, to the list. It isn't executed here. Its
/// commands begin at `start` in key order.
pub fn append_tick(list: &InOrder, start: u32, t: Tick, run: &mut Segments)
    requires start { start ≡ start_of list.now.all t }
    requires room { length (tick_of list.now.all t) ≤ run.old.spare }
    ensures { run.new ≡ run_grown run.old (tick_of list.now.all t) }
{
    append_from(list, start, t, run);
}

/// Appends the ticks from `start` up to `stop` in time order, for whose items there is room, to the
/// list. They aren't executed here. The first tick's commands begin at this place in key order, and
/// those of each tick behind the one before it; answers where those of `stop` begin.
pub fn append_ticks(list: &InOrder, place: u32, start: Tick, stop: Tick, run: &mut Segments) -> u32
    requires place { place ≡ start_of list.now.all start }
    requires order { start ≤ stop }
    requires room { length (ordered list.now.all start stop) ≤ run.old.spare }
    ensures run { run.new ≡ run_grown run.old (ordered list.now.all start stop) }
    ensures next { result ≡ start_of list.now.all stop }
{
    run.always();
    let mut place = place;
    for t in start..stop {
        place = append_from(list, place, t, run);
    }
    place
}

/// How many items a whole tick has, whose commands begin at `start` in key order.
pub fn tick_len(list: &InOrder, start: u32, t: Tick) -> u32
    requires start { start ≡ start_of list.now.all t }
    requires next { t + 1 < 2 ^ 32 }
    requires few { length (tick_of list.now.all t) < 2 ^ 32 }
    ensures { result ≡ length (tick_of list.now.all t) }
{
    list.end(start, t) - start + 1
}
