//! A mirror of a session without an end: its parts, and what is seen of it.

ghost use Rattle.std.specs.Prelude.{◌≡◌, ℕ, ◌<◌, ◌≤◌, ◌+◌, ◌^◌, [], IfOk, length, slice_index_or};
ghost use Rattle.std.specs.List.{AllByRecursion};
ghost use Rattle.game_trait.specs.declared.limits.TheConstants.{MOST_COPIES, MOST_ROOM};
ghost use Rattle.game_trait.specs.Ordered.{ordered};
ghost use Rattle.game_trait.specs.CommandList.{has_command};
ghost use Rattle.game_trait.specs.Later.{world_from};
ghost use Rattle.game_trait.specs.Run.{beats, world_of};
ghost use Rattle.sync_model.specs.Lists.{last_of};
ghost use Rattle.sync_model.specs.Schedule.{delays_of_each, ticks_of_first, copies_of_first};
ghost use Rattle.sync_model.specs.State.{MirrorState, opening_state, schedule_of, step_limit};
ghost use Rattle.sync_model.specs.State.{copy_clock as copy_clock_of, last_clock as last_clock_of};
ghost use Rattle.sync_model.specs.Staggered.{IsTrailing};
ghost use Rattle.rolling_mirror.specs.Rolling.{IsWindowOf, LetsTurnsGoOn};

use game_trait::{Command, Game, MirrorId, NameTree, Number, Shifted, Tick};
use stagger_clock::Stagger;
use std::alloc::Global;
use std::marker::Model;
use trailing_copy::LazyStack;
use tss_base::NoMemory;

/// A mirror of a session without an end (this project's own): it answers as a mirror of a match does
/// that is longer than the session, and forgets what lies behind its last copy, so that it holds as
/// many ticks as its window has. Times that it is told and tells are ticks of the session. Contracts
/// see the tick at which the window begins, what is left of the mirror that remembers all, its times
/// told from there, for how many more commands there is room, and how many ticks it keeps. Only `new`
/// takes memory.
#[derive(Drop)]
pub struct RollingMirror<G: Game> {
    // the world where the window begins, its length, and of the accepted commands and of the runs
    // what comes from there on; the worlds know the base
    pub(crate) stack: LazyStack<Shifted<G>>,
    pub(crate) plans: Vec<Stagger>,
    // the number of the plan in force
    pub(crate) plan: u8,
    // from the base on
    pub(crate) clock: Tick,
    // the mirror and the number of each accepted command that is remembered
    pub(crate) names: NameTree,
    // the session's tick at which the window begins
    pub(crate) base: Tick,
    // how many ticks of the window the last copy runs before a tick forgets
    pub(crate) keep: Tick,
}

impl<G: Game> Model for RollingMirror<G> {
    ghost use Rattle.rolling_mirror.specs.Rolling.{RollState, rolling_view};
    ghost use Rattle.rolling_mirror.specs.Kept.{IsRolling};

    ghost Value = { RollState G };

    ghost view = { λ m. rolling_view m.base m.stack m.plans.items m.plan m.clock m.keep };

    ghost invariant = { λ m.
        IsRolling (rolling_view m.base m.stack m.plans.items m.plan m.clock m.keep) m.plans.items
        m.names m.stack.opening.start };
}

impl<G: Game> RollingMirror<G> {
    /// A mirror before any event. Its plans, the first of which is in force, are of as many copies, and
    /// of as many ticks, which are its window's: two more than each plan's last delay, or turns would
    /// stop for ever. It remembers at most `room` commands at once, at most
    /// 1,048,576. A tick forgets once the last copy has run `keep` ticks of the window, so that what
    /// that costs is spread over so many. On `NoMemory` nothing is created.
    pub fn new(
        alloc: Global,
        opening: &G,
        plans: &[Stagger],
        room: u32,
        keep: Tick,
    ) -> Result<RollingMirror<G>, NoMemory>
        requires some_plan { 0 < length plans.now }
        requires equal_ticks { AllByRecursion (λ plan. plan.length ≡ ticks_of_first plans.now)
            plans.now }
        requires equal_copies { AllByRecursion
            (λ plan. length plan.delays ≡ copies_of_first plans.now)
            plans.now }
        requires goes_on { AllByRecursion LetsTurnsGoOn plans.now }
        requires room { room ≤ MOST_ROOM }
        ensures state { IfOk result (λ m. m ≡ record {
          base = 0;
          left =
              opening_state opening.now (ticks_of_first plans.now) (delays_of_each plans.now) 0 0;
          spare = room;
          keep = keep;
        }) }
        ensures window { IfOk result (λ m. (n spare plan_spare : ℕ)
            → IsWindowOf G.rules
            (opening_state opening.now n (delays_of_each plans.now) spare plan_spare)
            m) }
    {
        let window = plans[0].length();
        let copies = plans[0].copies();
        Ok(RollingMirror {
            stack: LazyStack::new(alloc, &Shifted::of(opening.twin(), 0), copies, window, room)?,
            plans: Vec::from_slice(alloc, plans)?,
            plan: 0,
            clock: 0,
            names: NameTree::with_room(alloc, room as usize)?,
            base: 0,
            keep,
        })
    }

    /// What always holds: the clock stands within the window and the session, there are copies, none is
    /// ahead of the clock, they trail one another, and of the mirror that remembers all the last copy's
    /// run is in time order; a plan is in force; and commands are due at ticks of the session. It does
    /// nothing.
    pub fn always(&self)
        ensures within { self.now.left.clock < self.now.left.length }
        ensures in_session { self.now.base + self.now.left.clock < 2 ^ 32 }
        ensures some_copy { 0 < length self.now.left.runs }
        ensures in_force { self.now.left.plan < length self.now.left.plans }
        ensures behind_clock { AllByRecursion (λ run. beats run ≤ self.now.left.clock)
            self.now.left.runs }
        ensures due { AllByRecursion (λ x. self.now.base + x.time < 2 ^ 32) self.now.left.accepted }
        ensures trailing { IsTrailing self.now.left.accepted self.now.left.runs }
        ensures last_ordered { (whole : MirrorState G)
            → IsWindowOf G.rules whole self.now
            → last_of [] whole.runs ≡ ordered whole.accepted 0 (last_clock_of whole.runs) }
    {
        self.stack.always();
    }

    /// The plan that is in force, over the window.
    pub fn stagger(&self) -> Stagger
        ensures schedule { result ≡ schedule_of self.now.left }
        ensures copies { length result.delays ≡ length self.now.left.runs }
    {
        self.plans[self.plan as usize]
    }

    /// The session's tick at which the window begins.
    pub fn base(&self) -> Tick
        ensures { result ≡ self.now.base }
    {
        self.base
    }

    /// The mirror's clock, in ticks of the session.
    pub fn clock(&self) -> Tick
        ensures clock { result ≡ self.now.base + self.now.left.clock }
        ensures window { (whole : MirrorState G)
            → IsWindowOf G.rules whole self.now
            → result ≡ whole.clock }
    {
        self.base + self.clock
    }

    /// How many copies there are, 1 to 8.
    pub fn copies(&self) -> u8
        ensures copies { result ≡ length self.now.left.runs }
        ensures few { (0 < result) × (result ≤ MOST_COPIES) }
        ensures window { (whole : MirrorState G)
            → IsWindowOf G.rules whole self.now
            → result ≡ length whole.runs }
    {
        self.stagger().copies()
    }

    /// The copy's clock, in ticks of the session. The copy is there.
    pub fn copy_clock(&self, copy: u8) -> Tick
        requires { copy < length self.now.left.runs }
        ensures clock { result ≡ self.now.base + copy_clock_of self.now.left.runs copy }
        ensures window { (whole : MirrorState G)
            → IsWindowOf G.rules whole self.now
            → result ≡ copy_clock_of whole.runs copy }
    {
        self.base + self.stack.clock(copy)
    }

    /// The world at the tick at which the window begins.
    pub fn opening(&self) -> &G
        ensures { result.now ≡ self.now.left.opening }
    {
        self.stack.opening().world()
    }

    /// The commands that are remembered, in order of acceptance, their times told from the base.
    pub fn accepted(&self) -> &[Command]
        ensures { result.now ≡ self.now.left.accepted }
    {
        self.stack.accepted()
    }

    /// Whether a command of this mirror and number is remembered: to another one `Repeat` is answered.
    pub fn remembers(&self, from: MirrorId, number: Number) -> bool
        ensures { result ≡ has_command self.now.left.accepted from number }
    {
        self.names.has(from, number)
    }

    /// For how many more commands there is room.
    pub fn spare(&self) -> u32
        ensures { result ≡ self.now.spare }
    {
        self.stack.spare()
    }

    /// The copy's live world, which is the opening of the session after all items that the copy has
    /// run. The copy is there. Where the copy was repaired since `refresh`, the items that it is ahead
    /// of the first copy with a world are executed.
    pub fn world(&self, copy: u8) -> G
        requires { copy < length self.now.left.runs }
        ensures world { result
            ≡ world_from G.rules self.now.base self.now.left.opening
            (slice_index_or self.now.left.runs copy []) }
        ensures window { (whole : MirrorState G)
            → IsWindowOf G.rules whole self.now
            → result
            ≡ world_of G.rules whole.opening (slice_index_or whole.runs copy []) }
    {
        self.stack.always();
        self.stack.made_world(copy).into_world()
    }

    /// Makes the worlds of repaired copies anew, each once: what follows looks at them without
    /// executing anything, until an event repairs copies again. Contracts see no change.
    pub fn refresh(&mut self)
        ensures { self.new ≡ self.old }
    {
        self.stack.refresh();
    }

    // The last copy's clock, from the base on.
    pub(crate) fn last_clock(&self) -> Tick
        ensures clock { result ≡ last_clock_of self.now.left.runs }
        ensures behind { result ≤ self.now.left.clock }
    {
        self.stack.clock(self.stagger().copies() - 1)
    }

    // How far the copy, which is there, may go now, from the base on.
    pub(crate) fn limit(&self, copy: u8) -> Tick
        requires { copy < length self.now.left.runs }
        ensures { result ≡ step_limit self.now.left copy }
    {
        if copy == 0 {
            return self.stagger().limit(copy, self.clock, 0);
        }
        let ahead = self.stack.clock(copy - 1);
        self.stagger().limit(copy, self.clock, ahead)
    }
}
