//! Marks, and where they differ.

ghost use Rattle.std.specs.Prelude.{◌≡◌, ◌≤◌, ◌-◌, ◌++◌, [], ◌∷◌, Some, length, drop, if◌then◌else◌, nat_le};
ghost use Rattle.std.specs.VecDeque.{deque_capacity};
ghost use Rattle.std.specs.List.{list_any};
ghost use Rattle.peer_model.specs.Marks.{differ, seen, is_newer, last_64};
ghost use Rattle.peer_calls.specs.Sending.{newest_mark};

use game_trait::Tick;
use peer_model::Mark;
use std::collections::VecDeque;

/// Two marks are of one tick and of different worlds.
pub fn differs(a: &Mark, b: &Mark) -> bool
    ensures { result ≡ differ a.now b.now }
{
    a.tick == b.tick && a.sum != b.sum
}

/// The first tick at which marks differed: it stays.
pub fn first_tick(is: bool, tick: Tick, old: Option<Tick>) -> Option<Tick>
    ensures { result ≡ seen is tick old }
{
    match old {
        None if is => Some(tick),
        _ => old,
    }
}

/// The newer one of marks: the one that was heard first where they are of one tick.
pub fn newer_mark(mark: Mark, old: Option<Mark>) -> Option<Mark>
    ensures { result ≡ (if is_newer mark old then Some mark else old) }
{
    match old {
        Some(newest) if mark.tick <= newest.tick => old,
        _ => Some(mark),
    }
}

/// One of these marks is of this one's tick, and of another world.
pub fn any_differs(own: &VecDeque<Mark>, mark: &Mark) -> bool
    ensures { result ≡ list_any (differ mark.now) own.now.items }
{
    own.iter().any(|x| differs(mark, x))
}

/// A tick, or a later one, is marked.
pub fn is_marked(own: &VecDeque<Mark>, tick: Tick) -> bool
    ensures { result ≡ list_any (λ x. nat_le tick x.tick) own.now.items }
{
    own.iter().any(|x| tick <= x.tick)
}

/// The tick and the sum of the newest of marks.
pub fn newest_of(own: &VecDeque<Mark>) -> Option<(Tick, u32)>
    ensures { result ≡ newest_mark own.now.items }
{
    match own.back() {
        Some(mark) => Some((mark.tick, mark.sum)),
        None => None,
    }
}

// Lets the oldest of 64 marks go.
fn make_room(own: &mut VecDeque<Mark>)
    requires { length own.old.items ≤ 64 }
    ensures items { own.new.items ≡ drop (length own.old.items - 63) own.old.items }
    ensures capacity { deque_capacity own.new ≡ deque_capacity own.old }
{
    if own.len() == 64 {
        let _oldest = own.pop_front();
    }
}

/// Keeps a mark beside the last ones, which are 64 at most.
pub fn keep(own: &mut VecDeque<Mark>, mark: Mark)
    requires few { length own.old.items ≤ 64 }
    requires room { 64 ≤ deque_capacity own.old }
    ensures items { own.new.items ≡ last_64 (own.old.items ++ mark ∷ []) }
    ensures few { length own.new.items ≤ 64 }
    ensures capacity { deque_capacity own.new ≡ deque_capacity own.old }
{
    make_room(own);
    own.push_back_reserved(mark);
}
