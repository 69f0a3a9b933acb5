//! What answers and histories tell of each other.

ghost use Rattle.std.specs.Prelude.{◌≡◌, ◌↔◌, ℕ, ◌+◌, ◌<◌, false, List, ◌++◌};
ghost use Rattle.std.specs.List.{AllByRecursion};
ghost use Rattle.game_trait.specs.declared.command.Command.{Command};
ghost use Rattle.game_trait.specs.declared.event.Event.{Event};
ghost use Rattle.game_trait.specs.declared.event.Event.TheVariants.{Arrive};
ghost use Rattle.game_trait.specs.declared.event.Reply.TheVariants.{Arrive as ToArrive};
ghost use Rattle.game_trait.specs.declared.event.Arrived.TheVariants.{Late};
ghost use Rattle.game_trait.specs.Events.{IsOfKind};
ghost use Rattle.sync_model.specs.State.{MirrorState, last_clock};
ghost use Rattle.sync_model.specs.Change.{next, said, is_repeat, changes, after};
ghost use Rattle.sync_model.specs.Staggered.{IsStaggered};
ghost use Rattle.sync_model.specs.History.{changing, EachChanges, first_state, IsReached, repaired_in, repairs};
ghost use Rattle.sync_model.specs.Legal.{NamesWhatIsThere, IsLog};

use game_trait::Game;

/// Late comes exactly where a new command is older than the last copy's clock, with that clock as
/// its bound.
pub fn late_exactly<G: Game>()
    ensures { (s : MirrorState G) (x : Command) (bound : ℕ)
        → (said s (Arrive x) ≡ ToArrive (Late bound))
        ↔ ((is_repeat s x ≡ false) × (x.time < last_clock s.runs) × (bound ≡ last_clock s.runs)) }
{}

/// The answer to an event is of its kind.
pub fn answers_in_kind<G: Game>()
    ensures { (s : MirrorState G) (e : Event) → IsOfKind e (said s e) }
{}

/// An event leaves the state as it is exactly where the answer is Over, Repeat or Idle.
pub fn unchanged_exactly<G: Game>()
    ensures { (s : MirrorState G) (e : Event) → (next s e ≡ s) ↔ (changes s e ≡ false) }
{}

/// The history grows by exactly the events that change the state.
pub fn history_grows<G: Game>()
    ensures { (s : MirrorState G) (es : List Event)
        → (after s es).history ≡ s.history ++ changing s es }
{}

/// The state after all events is the state after those that change it.
pub fn changing_events_suffice<G: Game>()
    ensures { (s : MirrorState G) (es : List Event) → after s (changing s es) ≡ after s es }
{}

/// Every event leaves, the room left out, the state that its history leads to.
pub fn reached_kept<G: Game>()
    ensures { (s : MirrorState G) (e : Event) → IsReached s → IsReached (next s e) }
{}

/// Each event of a history changed the state in which it stood; every event keeps that.
pub fn history_of_changes<G: Game>()
    ensures { (s : MirrorState G) (e : Event) → IsReached s
        → EachChanges (first_state s) s.history
        → EachChanges (first_state (next s e)) (next s e).history }
{}

/// The repairs of a history go up by those of each answer.
pub fn repairs_add_up<G: Game>()
    ensures { (s : MirrorState G) (e : Event) → IsReached s
        → repairs (next s e) ≡ repairs s + repaired_in (said s e) }
{}

/// The changing ones of events that name what is there are a log from any staggered state on: it is
/// legal, the mirror is staggered after each front of it, and it leads to the state after all of
/// them.
pub fn changing_events_are_a_log<G: Game>()
    ensures { (commands : List Command) (s : MirrorState G) (es : List Event)
        → AllByRecursion (λ x. x.time < s.length) commands → IsStaggered s
        → AllByRecursion (NamesWhatIsThere commands s) es
        → IsLog commands s (after s es) (changing s es) }
{}
