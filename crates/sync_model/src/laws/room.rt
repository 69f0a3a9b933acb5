//! Room decides nothing but itself, and what is spent of it.

ghost use Rattle.std.specs.Prelude.{◌≡◌, ℕ, ◌-◌, ◌&&◌, if◌then◌else◌, List};
ghost use Rattle.game_trait.specs.declared.event.Event.{Event};
ghost use Rattle.game_trait.specs.Events.{is_arrival, is_restagger};
ghost use Rattle.sync_model.specs.State.{MirrorState, opening_state};
ghost use Rattle.sync_model.specs.Change.{next, said, changes, after};
ghost use Rattle.sync_model.specs.History.{with_room, without_room, IsReached, IsFromHistory, HasRoom};

use game_trait::Game;

/// No answer, and no part of a state but the room, depends on the room.
pub fn room_decides_nothing<G: Game>()
    ensures answer { (s : MirrorState G) (spare plan_spare : ℕ) (e : Event)
        → said (with_room s spare plan_spare) e ≡ said s e }
    ensures state { (s : MirrorState G) (spare plan_spare : ℕ) (e : Event)
        → without_room (next (with_room s spare plan_spare) e) ≡ without_room (next s e) }
    ensures along { (s : MirrorState G) (spare plan_spare : ℕ) (es : List Event)
        → without_room (after (with_room s spare plan_spare) es) ≡ without_room (after s es) }
{}

/// An arrival that is taken or turned away spends one of the room for arrivals, a change of the
/// plan one of the room for those, and no other event spends any.
pub fn room_spent<G: Game>()
    ensures arrivals { (s : MirrorState G) (e : Event)
        → (next s e).spare ≡ s.spare - (if is_arrival e && changes s e then 1 else 0) }
    ensures plans { (s : MirrorState G) (e : Event)
        → (next s e).plan_spare ≡ s.plan_spare - (if is_restagger e then 1 else 0) }
{}

/// An opening state is the one that its empty history leads to.
pub fn opening_from_history<G: Game>()
    ensures { (opening : G) (length : ℕ) (plans : List (List ℕ)) (spare plan_spare : ℕ)
        → IsFromHistory (opening_state opening length plans spare plan_spare) }
{}

/// Where a state is with its room the one that its history leads to, so is the next, where the
/// event finds room.
pub fn from_history_kept<G: Game>()
    ensures { (s : MirrorState G) (e : Event) → HasRoom s e → IsFromHistory s
        → IsFromHistory (next s e) }
{}

/// A state that is with its room the one that its history leads to is so without it.
pub fn from_history_reached<G: Game>()
    ensures { (s : MirrorState G) → IsFromHistory s → IsReached s }
{}
