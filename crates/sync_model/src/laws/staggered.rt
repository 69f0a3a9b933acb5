//! A mirror is always staggered, and no event changes its fixed parts.

ghost use Rattle.std.specs.Prelude.{◌≡◌, ◌↔◌, ℕ, List, length};
ghost use Rattle.std.specs.List.{AllByRecursion};
ghost use Rattle.game_trait.specs.declared.event.Event.{Event};
ghost use Rattle.sync_model.specs.State.{MirrorState, opening_state};
ghost use Rattle.sync_model.specs.Change.{next, after, Fits};
ghost use Rattle.sync_model.specs.Staggered.{IsStaggered};
ghost use Rattle.sync_model.specs.WellFormed.{IsWellFormed};

use game_trait::Game;

/// The opening state is staggered, whatever the length, the plans and the room.
pub fn opening_staggered<G: Game>()
    ensures { (opening : G) (length : ℕ) (plans : List (List ℕ)) (spare plan_spare : ℕ)
        → IsStaggered (opening_state opening length plans spare plan_spare) }
{}

/// Every event that fits keeps a mirror staggered, in both parts.
pub fn staggered_kept<G: Game>()
    ensures { (s : MirrorState G) (e : Event) → Fits s e → IsStaggered s → IsStaggered (next s e) }
{}

/// Every list of events that fit keeps a mirror staggered.
pub fn staggered_along<G: Game>()
    ensures { (s : MirrorState G) (es : List Event)
        → AllByRecursion (Fits s) es → IsStaggered s → IsStaggered (after s es) }
{}

/// Every event that fits leaves the plans and the number of copies those of a match, and a plan in
/// force that is there.
pub fn well_formed_kept<G: Game>()
    ensures { (s : MirrorState G) (e : Event) → Fits s e → IsWellFormed s
        → IsWellFormed (next s e) }
{}

/// No event changes the fixed parts: the opening, the length, the plans and the number of copies.
pub fn fixed_parts_kept<G: Game>()
    ensures opening { (s : MirrorState G) (e : Event) → (next s e).opening ≡ s.opening }
    ensures length { (s : MirrorState G) (e : Event) → (next s e).length ≡ s.length }
    ensures plans { (s : MirrorState G) (e : Event) → (next s e).plans ≡ s.plans }
    ensures copies { (s : MirrorState G) (e : Event) → length (next s e).runs ≡ length s.runs }
{}

/// No event changes which events fit.
pub fn fits_kept<G: Game>()
    ensures { (s : MirrorState G) (e f : Event) → Fits (next s e) f ↔ Fits s f }
{}
