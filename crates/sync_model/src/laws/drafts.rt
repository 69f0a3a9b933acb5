//! Ticks that are executed away from their mirror: which events make them stale, and that a fit is
//! kept.

ghost use Rattle.std.specs.Prelude.{◌≡◌, ◌↔◌, ℕ, ◌+◌, ◌<◌, ◌≤◌, Bool, true, false, not, ◌&&◌, ◌||◌, ◌==◌, nat_le, nat_lt, if◌then◌else◌, List, length};
ghost use Rattle.game_trait.specs.declared.command.Command.{Command};
ghost use Rattle.game_trait.specs.declared.event.Event.{Event};
ghost use Rattle.game_trait.specs.declared.event.Event.TheVariants.{Tick, Arrive, Step, Restagger};
ghost use Rattle.game_trait.specs.Events.{is_restagger};
ghost use Rattle.sync_model.specs.State.{MirrorState, opening_state, copy_clock};
ghost use Rattle.sync_model.specs.Settle.{repaired};
ghost use Rattle.sync_model.specs.Change.{next, is_repeat, is_late, is_idle, proposed_by_step, after};
ghost use Rattle.sync_model.specs.Staggered.{IsStaggered};
ghost use Rattle.sync_model.specs.History.{IsReached};
ghost use Rattle.sync_model.specs.Drafts.{run_of, tick_at, renews, epoch, ReadyTick, draft_of, ready_of, FitsReady};

use game_trait::Game;

/// An event leaves a copy's epoch as it is exactly where it puts no plan in force, and changes
/// neither the copy's run nor the commands due at the tick at which the copy stood.
pub fn renews_exactly<G: Game>()
    ensures { (s : MirrorState G) (c : ℕ) (e : Event)
        → (renews s c e ≡ false)
        ↔ ((is_restagger e ≡ false)
        × (run_of s c ≡ run_of (next s e) c)
        × (tick_at s c s.accepted ≡ tick_at s c (next s e).accepted)) }
{}

/// Before any event a copy's epoch is 0.
pub fn epoch_opens<G: Game>()
    ensures { (opening : G) (length : ℕ) (plans : List (List ℕ)) (spare plan_spare c : ℕ)
        → epoch (opening_state opening length plans spare plan_spare) c ≡ 0 }
{}

/// An event that renews a copy raises its epoch by one, and any other leaves it.
pub fn epoch_counts<G: Game>()
    ensures { (s : MirrorState G) (c : ℕ) (e : Event) → IsReached s
        → epoch (next s e) c ≡ epoch s c + (if renews s c e then 1 else 0) }
{}

/// Along events an epoch never falls, and rises by at most one an event.
pub fn epoch_rises<G: Game>()
    ensures { (s : MirrorState G) (c : ℕ) (es : List Event) → IsReached s
        → (epoch s c ≤ epoch (after s es) c) × (epoch (after s es) c ≤ epoch s c + length es) }
{}

/// An epoch is at most the number of events in the history.
pub fn epoch_bounded<G: Game>()
    ensures { (s : MirrorState G) (c : ℕ) → epoch s c ≤ length s.history }
{}

/// A tick of the clock renews no copy.
pub fn tick_renews<G: Game>()
    ensures { (s : MirrorState G) (c : ℕ) → renews s c Tick ≡ false }
{}

/// Another plan renews every copy.
pub fn restagger_renews<G: Game>()
    ensures { (s : MirrorState G) (c p : ℕ) → renews s c (Restagger p) ≡ true }
{}

/// An arrival that is taken renews the copies whose clock isn't below its time, and one that isn't
/// taken none.
pub fn arrival_renews<G: Game>()
    ensures { (s : MirrorState G) (c : ℕ) (x : Command) → IsStaggered s
        → renews s c (Arrive x)
        ≡ (not (is_repeat s x) && (not (is_late s x) && nat_le x.time (copy_clock s.runs c))) }
{}

/// A step that runs renews its copy and those that it repairs, which are the first, and an idle
/// step none.
pub fn step_renews<G: Game>()
    ensures { (s : MirrorState G) (c a : ℕ) → IsStaggered s → a < length s.runs
        → renews s c (Step a)
        ≡ (not (is_idle s a)
        && ((c == a) || nat_lt c (repaired s.accepted (proposed_by_step s.accepted s.runs a)))) }
{}

/// A ready tick that fits a state fits the state after any event, whether the event fits or not.
pub fn ready_fits_kept<G: Game>()
    ensures { (s : MirrorState G) (e : Event) (r : ReadyTick G) → IsReached s
        → FitsReady G.rules s r → FitsReady G.rules (next s e) r }
{}

/// A copy's due tick, executed, fits the state from which it was drafted, where the copy is below
/// its limit.
pub fn draft_fits<G: Game>()
    ensures { (s : MirrorState G) (c : ℕ) → c < length s.runs → is_idle s c ≡ false
        → FitsReady G.rules s (ready_of G.rules (draft_of G.rules s c)) }
{}
