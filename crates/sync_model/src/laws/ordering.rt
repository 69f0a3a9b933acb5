//! What makes copies alike: worlds decide nothing, names that come again, and copies in time order.

ghost use Rattle.std.specs.Prelude.{◌≡◌, ℕ, Bool, true, false, ◌<◌, ◌≤◌, ◌&&◌, nat_lt, List, [], length};
ghost use Rattle.std.specs.List.{list_any};
ghost use Rattle.game_trait.specs.Events.{is_arrival};
ghost use Rattle.game_trait.specs.Ordered.{time_ordered};
ghost use Rattle.sync_model.specs.Drafts.{run_of};
ghost use Rattle.sync_model.specs.Repairs.{is_late_at};
ghost use Rattle.game_trait.specs.declared.command.Command.{Command};
ghost use Rattle.game_trait.specs.declared.event.Event.{Event};
ghost use Rattle.game_trait.specs.Count.{times};
ghost use Rattle.game_trait.specs.Run.{world_of};
ghost use Rattle.sync_model.specs.Lists.{last_of};
ghost use Rattle.sync_model.specs.State.{MirrorState, copy_clock, last_clock};
ghost use Rattle.sync_model.specs.Change.{next, said, after, answers};
ghost use Rattle.sync_model.specs.Forgetting.{arrive_from, at_base};
ghost use Rattle.sync_model.specs.Openings.{with_opening};
ghost use Rattle.sync_model.specs.Staggered.{IsTrailing};
ghost use Rattle.sync_model.specs.TimeOrder.{KeysDiffer, AreInTimeOrder, is_timely, brings_none_late};

use game_trait::Game;

/// Worlds decide nothing: of two states of any two games that are one but for their openings, an event
/// leaves such again and is answered alike, and so do events, one after another.
pub fn worlds_decide_nothing<G: Game, H: Game>()
    ensures state { (s : MirrorState G) (opening : H) (e : Event)
        → next (with_opening opening s) e ≡ with_opening opening (next s e) }
    ensures answer { (s : MirrorState G) (opening : H) (e : Event)
        → said (with_opening opening s) e ≡ said s e }
    ensures states { (s : MirrorState G) (opening : H) (es : List Event)
        → after (with_opening opening s) es ≡ with_opening opening (after s es) }
    ensures answers { (s : MirrorState G) (opening : H) (es : List Event)
        → answers (with_opening opening s) es ≡ answers s es }
{}

/// Where a mirror asks of names only what is due from a tick on that its last copy has run, a name may
/// come again, but never at the same time: no two of the accepted commands get the same key.
pub fn keys_go_on_differing<G: Game>()
    ensures { (b : ℕ) (s : MirrorState G) (x : Command)
        → b ≤ last_clock s.runs → KeysDiffer s.accepted
        → KeysDiffer (arrive_from b s x).accepted }
{}

/// Mirrors of one opening, whose last copies stand at one tick, and which accepted the same commands that
/// are older, in any order: these copies have one run, and so one world.
pub fn last_copies_at_one_tick_show_one_world<G: Game>()
    ensures run { (s t : MirrorState G)
        → IsTrailing s.accepted s.runs → IsTrailing t.accepted t.runs
        → KeysDiffer s.accepted → KeysDiffer t.accepted
        → last_clock s.runs ≡ last_clock t.runs
        → ((test : Command → Bool)
        → times (λ x. test x && nat_lt x.time (last_clock s.runs)) s.accepted
        ≡ times (λ x. test x && nat_lt x.time (last_clock s.runs)) t.accepted)
        → last_of [] s.runs ≡ last_of [] t.runs }
    ensures world { (s t : MirrorState G)
        → IsTrailing s.accepted s.runs → IsTrailing t.accepted t.runs
        → KeysDiffer s.accepted → KeysDiffer t.accepted → s.opening ≡ t.opening
        → last_clock s.runs ≡ last_clock t.runs
        → ((test : Command → Bool)
        → times (λ x. test x && nat_lt x.time (last_clock s.runs)) s.accepted
        ≡ times (λ x. test x && nat_lt x.time (last_clock s.runs)) t.accepted)
        → world_of G.rules s.opening (last_of [] s.runs)
        ≡ world_of G.rules t.opening (last_of [] t.runs) }
{}

/// While no command is taken that is late at a copy, each copy is at the time-ordered execution of what
/// was accepted, up to its own clock. A mirror that is put at its base begins so.
pub fn while_nothing_comes_late_copies_are_in_time_order<G: Game>()
    ensures begins { (b : ℕ) (s : MirrorState G) → AreInTimeOrder (at_base b s) }
    ensures kept { (s : MirrorState G) (e : Event)
        → IsTrailing s.accepted s.runs → AreInTimeOrder s → brings_none_late s e ≡ true
        → AreInTimeOrder (next s e) }
    ensures kept_from { (b : ℕ) (s : MirrorState G) (x : Command)
        → IsTrailing s.accepted s.runs → AreInTimeOrder s → is_timely s x ≡ true
        → AreInTimeOrder (arrive_from b s x) }
    ensures world { (s : MirrorState G) (c : ℕ) → AreInTimeOrder s → c < length s.runs
        → world_of G.rules s.opening (run_of s c)
        ≡ time_ordered G.rules s.opening s.accepted (copy_clock s.runs c) }
    ensures others { (s : MirrorState G) (e : Event) → is_arrival e ≡ false
        → brings_none_late s e ≡ true }
    ensures early { (s : MirrorState G) (x : Command) → list_any (is_late_at x) s.runs ≡ false
        → brings_none_late s (Event.Arrive x) ≡ true }
{}
