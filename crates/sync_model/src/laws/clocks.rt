//! How events move the clocks.

ghost use Rattle.std.specs.Prelude.{◌≡◌, ℕ, ◌+◌, false, if◌then◌else◌, List, map, slice_set};
ghost use Rattle.game_trait.specs.declared.event.Event.{Event};
ghost use Rattle.game_trait.specs.declared.event.Event.TheVariants.{Step};
ghost use Rattle.game_trait.specs.Events.{is_step, moves};
ghost use Rattle.game_trait.specs.Run.{beats};
ghost use Rattle.sync_model.specs.State.{MirrorState, copy_clock};
ghost use Rattle.sync_model.specs.Change.{next, is_idle, after, answers};
ghost use Rattle.sync_model.specs.Staggered.{IsStaggered};

use game_trait::Game;

/// A step that runs raises its copy's clock by one and moves no other: a repair moves none.
pub fn step_moves_its_copy<G: Game>()
    ensures { (s : MirrorState G) (c : ℕ) → IsStaggered s
        → map beats (next s (Step c)).runs
        ≡ (if is_idle s c then map beats s.runs
        else slice_set (map beats s.runs) c (copy_clock s.runs c + 1)) }
{}

/// No other event moves a copy's clock, however many copies it repairs.
pub fn other_events_move_no_copy<G: Game>()
    ensures { (s : MirrorState G) (e : Event) → IsStaggered s → is_step e ≡ false
        → map beats (next s e).runs ≡ map beats s.runs }
{}

/// The mirror's clock goes on by the number of answers Moved.
pub fn clock_counts<G: Game>()
    ensures { (s : MirrorState G) (es : List Event)
        → (after s es).clock ≡ s.clock + moves (answers s es) }
{}
