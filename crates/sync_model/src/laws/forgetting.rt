//! What a mirror stands on that forgets what lies behind its last copy: that this changes nothing.

ghost use Rattle.std.specs.Prelude.{◌≡◌, ℕ, ◌+◌, ◌<◌, ◌≤◌, length, map};
ghost use Rattle.game_trait.specs.declared.event.Event.{Event};
ghost use Rattle.game_trait.specs.Ordered.{due_at};
ghost use Rattle.game_trait.specs.Run.{world_of};
ghost use Rattle.sync_model.specs.State.{MirrorState, copy_clock, delays_of, last_clock};
ghost use Rattle.sync_model.specs.Change.{next, said};
ghost use Rattle.sync_model.specs.Drafts.{run_of};
ghost use Rattle.sync_model.specs.Staggered.{IsTrailing};
ghost use Rattle.game_trait.specs.Later.{later, later_event, later_reply, world_from};
ghost use Rattle.sync_model.specs.Forgetting.{IsLeft, IsRemembered, forgotten, arrive_from, said_from, at_base, left_at_base};
ghost use Rattle.game_trait.specs.declared.command.Command.{Command};

use game_trait::Game;

/// Before anything is forgotten, what is left of a mirror is the whole of it.
pub fn nothing_is_forgotten_yet<G: Game>()
    ensures { (s : MirrorState G) → 0 < length s.runs → IsLeft G.rules 0 s s }
{}

/// Where a mirror has forgotten its first ticks, any event that comes that much earlier leaves of it
/// what it would be, had it remembered all, and is answered as it would be: nothing that was forgotten
/// changes a run, a clock or an answer. Neither clock is at the match's end, and a command hasn't the
/// name of one that was forgotten.
pub fn forgetting_changes_no_answer<G: Game>()
    ensures { (b : ℕ) (whole left : MirrorState G) (e : Event)
        → IsLeft G.rules b whole left → whole.clock < whole.length → left.clock < left.length
        → IsRemembered b whole (later_event b e)
        → IsLeft G.rules b (next whole (later_event b e)) (next left e)
        × (said whole (later_event b e) ≡ later_reply b (said left e)) }
{}

/// The same to the match's end, where what is left ends where the whole does.
pub fn forgetting_changes_no_answer_to_the_end<G: Game>()
    ensures { (b : ℕ) (whole left : MirrorState G) (e : Event)
        → IsLeft G.rules b whole left → whole.length ≡ left.length + b
        → IsRemembered b whole (later_event b e)
        → IsLeft G.rules b (next whole (later_event b e)) (next left e)
        × (said whole (later_event b e) ≡ later_reply b (said left e)) }
{}

/// A mirror of whose first ticks some were forgotten may forget all that lies behind its last copy. Its copies trail as always, and the last one isn't ahead
/// of the mirror's clock.
pub fn what_lies_behind_the_last_copy_is_forgotten<G: Game>()
    ensures { (b : ℕ) (whole left : MirrorState G)
        → IsTrailing left.accepted left.runs → last_clock left.runs ≤ left.clock
        → IsLeft G.rules b whole left
        → IsLeft G.rules (b + last_clock left.runs) whole (forgotten G.rules b left) }
{}

/// What is left of a mirror has the worlds of the whole, copy by copy, its items executed at their own
/// times.
pub fn what_is_left_has_the_worlds_of_the_whole<G: Game>()
    ensures { (b : ℕ) (whole left : MirrorState G) (c : ℕ)
        → IsLeft G.rules b whole left → c < length left.runs
        → world_from G.rules b left.opening (run_of left c)
        ≡ world_of G.rules whole.opening (run_of whole c) }
{}

/// What is left of a mirror tells all that the whole says from there on: its clock and its copies' clocks,
/// the plan in force and the commands that are due, each as many ticks later.
pub fn what_is_left_tells_of_the_whole<G: Game>()
    ensures clock { (b : ℕ) (whole left : MirrorState G)
        → IsLeft G.rules b whole left → whole.clock ≡ left.clock + b }
    ensures copies { (b : ℕ) (whole left : MirrorState G)
        → IsLeft G.rules b whole left → length whole.runs ≡ length left.runs }
    ensures clocks { (b : ℕ) (whole left : MirrorState G) (c : ℕ)
        → IsLeft G.rules b whole left → c < length left.runs
        → copy_clock whole.runs c ≡ b + copy_clock left.runs c }
    ensures plan { (b : ℕ) (whole left : MirrorState G)
        → IsLeft G.rules b whole left → delays_of whole ≡ delays_of left }
    ensures commands { (b t : ℕ) (whole left : MirrorState G)
        → IsLeft G.rules b whole left
        → due_at whole.accepted (b + t) ≡ map (later b) (due_at left.accepted t) }
{}

/// Whatever its name: where a mirror has forgotten its first ticks, a command leaves of it what it would be,
/// had it remembered all and asked of names only what is due from there on, and is answered so.
pub fn forgetting_is_exact<G: Game>()
    ensures { (b : ℕ) (whole left : MirrorState G) (x : Command)
        → IsLeft G.rules b whole left → whole.clock < whole.length → left.clock < left.length
        → IsLeft G.rules b (arrive_from b whole (later b x)) (next left (Event.Arrive x))
        × (said_from b whole (later b x) ≡ later_reply b (said left (Event.Arrive x))) }
{}

/// What is left of a mirror, put at its base, is left of the whole with all copies put at that tick in time
/// order, where they trail one another.
pub fn a_mirror_put_at_its_base_is_a_window<G: Game>()
    ensures window { (b : ℕ) (whole left : MirrorState G) → IsLeft G.rules b whole left
        → IsLeft G.rules b (at_base b whole) (left_at_base left) }
    ensures trailing { (b : ℕ) (s : MirrorState G) → IsTrailing s.accepted (at_base b s).runs }
{}

/// Where no command that was forgotten has the name of one that comes, asking of names only what is due
/// from a tick on is asking of all.
pub fn what_is_remembered_decides<G: Game>()
    ensures { (b : ℕ) (s : MirrorState G) (x : Command)
        → IsRemembered b s (Event.Arrive x)
        → (arrive_from b s x ≡ next s (Event.Arrive x))
        × (said_from b s x ≡ said s (Event.Arrive x)) }
{}
