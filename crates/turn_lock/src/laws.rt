//! What the close of a lock guarantees, so that it can't be read more weakly. Each is the contract
//! of a function without parameters that does nothing.

ghost use Rattle.std.specs.Prelude.{◌≡◌, ◌++◌, ◌∷◌, ℕ, List, [], map, slice_get, Some};
ghost use Rattle.std.specs.List.{AllByRecursion, Contains};
ghost use Rattle.turn_lock.specs.declared.history.Entry.{Entry};
ghost use Rattle.turn_lock.specs.declared.view.Member.{Member};
ghost use Rattle.turn_lock.specs.Histories.{value, IsSound, own};
ghost use Rattle.turn_lock.specs.Closing.{IsHistoryOf};
ghost use Rattle.std.specs.Prelude.{◌+◌, length};
ghost use Rattle.atomic_table.specs.Table.{State};
ghost use Rattle.tss_base.specs.Totals.{total};
ghost use Rattle.turn_lock.specs.declared.place.Place.{Place};
ghost use Rattle.turn_lock.specs.declared.view.View.{View};
ghost use Rattle.turn_lock.specs.Law.{Kept, tickets_of};

use crate::held::Held;

/// No ticket is lost: of those that were drawn each is passed on, or a seat holds it.
pub fn no_ticket_is_lost<H: Held>()
    ensures { (opening : H) (count : ℕ) (s : State (Place H H.Call H.Reply) (View H H.Call H.Reply))
        (k : Kept H.rules opening count s) → (s.words ≡ k.drawn ∷ length k.log ∷ [])
        × (k.drawn ≡ length k.log + total tickets_of s.views) }
{}

/// The one history of a lock that is closed: the object is what it leads to from the opening, and
/// each reply is the object's at that point. Each call in it is one of these seats', each seat has
/// seen a front of it and all its own calls, and where none of them has seen a call there is none.
pub fn a_history_is_of_its_seats<H: Held>()
    ensures object { (opening object : H) (seats : List (Member H.Call H.Reply))
        (h : IsHistoryOf H.rules opening seats object)
        → (object ≡ value H.rules opening h.log) × IsSound H.rules opening h.log }
    ensures theirs { (opening object : H) (seats : List (Member H.Call H.Reply))
        (h : IsHistoryOf H.rules opening seats object)
        (front rest : List (Entry H.Call H.Reply)) (e : Entry H.Call H.Reply) → h.log ≡ front ++ e ∷ rest
        → Contains (map (λ m. m.number) seats) e.seat }
    ensures seen { (opening object : H) (seats : List (Member H.Call H.Reply))
        (h : IsHistoryOf H.rules opening seats object) (place : ℕ) (m : Member H.Call H.Reply)
        → slice_get seats place ≡ Some m
        → ((rest : List (Entry H.Call H.Reply)) × (h.log ≡ m.seen ++ rest))
        × (own m.number h.log ≡ own m.number m.seen) }
    ensures unseen { (opening object : H) (seats : List (Member H.Call H.Reply))
        (h : IsHistoryOf H.rules opening seats object)
        → AllByRecursion (λ m. m.seen ≡ []) seats → (h.log ≡ []) × (object ≡ opening) }
{}
