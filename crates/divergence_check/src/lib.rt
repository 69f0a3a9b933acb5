//! Whether a copy's due tick stands next in the copies' runs; stands on `executed_list` and
//! `pending_list`.
#![tactic(auto)]

pub mod laws;

ghost use Rattle.std.specs.Prelude.{◌≡◌, ◌↔◌, ◌+◌, ◌-◌, ◌<◌, ◌≤◌, Option, Some, None, IfSome, true};
ghost use Rattle.std.specs.Prelude.{length, drop, slice_get};
ghost use Rattle.game_trait.specs.Ordered.{tick_of};
ghost use Rattle.game_trait.specs.Run.{IsPrefix};
ghost use Rattle.pending_list.specs.Buckets.{start_of};
ghost use Rattle.divergence_check.specs.Divergence.{DiffersFirstAt};

use executed_list::Segments;
use game_trait::{Item, Tick};
use pending_list::InOrder;

// Whether this item stands at a place of the list, or right behind its end.
fn stands_at(run: &Segments, place: u32, item: &Item) -> bool
    requires { place ≤ length run.now.items }
    ensures stands { (result ≡ true) ↔ (slice_get run.now.items place ≡ Some item.now) }
{
    if place >= run.len() {
        return false;
    }
    *item == run.item(place)
}

/// The first place, from the given one on, at which the list has another item than the tick's
/// commands in key order and their beat have, or none; `None` exactly where the whole tick stands
/// there (this project's own form of the comparison of the paper of 2002). The given place is one
/// of the list, or its end. The tick's commands begin at `start` in key order.
pub fn diverges(run: &Segments, place: u32, list: &InOrder, start: u32, t: Tick) -> Option<u32>
    requires place { place ≤ length run.now.items }
    requires start { start ≡ start_of list.now.all t }
    ensures none { (result ≡ None) ↔ IsPrefix (tick_of list.now.all t) (drop place run.now.items) }
    ensures first { IfSome result (λ i. (place ≤ i)
        × DiffersFirstAt (drop place run.now.items) (tick_of list.now.all t) (i - place)) }
{
    run.always();
    let mut next = start;
    let mut at = place;
    while let Some(x) = list.due(next, t) {
        if !stands_at(run, at, &Item::Cmd(x)) {
            return Some(at);
        }
        next += 1;
        at += 1;
    }
    if stands_at(run, at, &Item::Beat) {
        return None;
    }
    Some(at)
}
