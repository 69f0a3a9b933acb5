//! A mirror with a policy for the worlds of stale copies: what mirrors of both kinds do alike.

ghost use Rattle.std.specs.Prelude.{◌≡◌, ◌<◌, ◌≤◌, IfOk, [], length, slice_get, slice_index_or};
ghost use Rattle.std.specs.List.{AllByRecursion};
ghost use Rattle.game_trait.specs.CommandList.{has_command};
ghost use Rattle.sync_model.specs.State.{opening_state};
ghost use Rattle.sync_model.specs.Change.{next, said, after, answers, Fits};
ghost use Rattle.sync_model.specs.Consistent.{IsConsistent};
ghost use Rattle.sync_model.specs.History.{HasRoom, HasRoomAlong};
ghost use Rattle.sync_model.specs.Turns.{turn, turn_events, is_drained, drain, drain_bound};
ghost use Rattle.mirror_core.specs.Kept.{delays_of_each, ticks_of_first, copies_of_first};

use crate::inner::MirrorCore;
use crate::mirrored::Mirrored;
use crate::policy::RefreshPolicy;
use arrayvec::ArrayVec;
use game_trait::limits::{MOST_PLANS, MOST_ROOM};
use game_trait::{
    Arrived, Command, Event, Game, Item, MirrorId, Number, Reply, Stepped, Tick, Ticked,
};
use stagger_clock::Stagger;
use std::alloc::Global;
use std::marker::Model;
use sync_model::Turned;
use tss_base::NoMemory;

/// A mirror of a match, with 1 to 8 copies of the world, that refreshes stale copies as the policy
/// `P` says. Contracts see it as a state of the model, which says what each event changes and what is
/// answered, whatever the policy. Only `new` takes memory.
#[derive(Drop)]
pub struct MirrorWith<G: Game, P: RefreshPolicy> {
    pub(crate) core: MirrorCore<G>,
    pub(crate) policy: P,
}

impl<G: Game, P: RefreshPolicy> Model for MirrorWith<G, P> {
    ghost use Rattle.std.specs.Prelude.{length};
    ghost use Rattle.sync_model.specs.State.{MirrorState};
    ghost use Rattle.sync_model.specs.Turns.{is_drained};

    ghost Value = { MirrorState G };

    ghost view = { λ m. m.core.state };

    // no more copies are stale than the policy allows
    ghost invariant = { λ m. P.allows m.policy (is_drained m.core.state) (length m.core.state.runs) m.core.stale };
}

impl<G: Game, P: RefreshPolicy> MirrorWith<G, P> {
    /// A mirror before any event, with 1 to 8 plans of as many ticks each, of which the first is in
    /// force, and each of as many copies; with room for so many arrivals that are taken or turned
    /// away, and so many changes of the plan, each at most 1,048,576. It takes all the memory that
    /// the mirror ever needs, and keeps twins of the opening. On `NoMemory` nothing is created.
    pub fn new(
        alloc: Global,
        opening: &G,
        plans: &[Stagger],
        room: u32,
        restaggers: u32,
    ) -> Result<MirrorWith<G, P>, NoMemory>
        requires some_plan { 0 < length plans.now }
        requires few_plans { length plans.now ≤ MOST_PLANS }
        requires equal_ticks { AllByRecursion (λ plan. plan.length ≡ ticks_of_first plans.now)
            plans.now }
        requires equal_copies { AllByRecursion
            (λ plan. length plan.delays ≡ copies_of_first plans.now)
            plans.now }
        requires room { room ≤ MOST_ROOM }
        requires restaggers { restaggers ≤ MOST_ROOM }
        ensures { IfOk result (λ m. m
            ≡ opening_state opening.now (ticks_of_first plans.now) (delays_of_each plans.now) room
            restaggers) }
    {
        let mut core = MirrorCore::new(alloc, opening, plans, room, restaggers)?;
        let policy = P::new();
        policy.settle(&mut core);
        Ok(MirrorWith { core, policy })
    }

    /// What always holds of a mirror: it is staggered, its plans are those of a match, and its
    /// state is the one that its history leads to, of which each event changed the state in which
    /// it stood. It does nothing.
    pub fn always(&self)
        ensures { IsConsistent self.now }
    {
        let _ = &self.core.clock;
    }

    /// The clock goes on by one tick, answered Moved. Where it stands at its end or past it, the
    /// match's length plus the longest delay in force, nothing changes, and the answer is Over.
    pub fn tick(&mut self) -> Ticked
        ensures state { self.new ≡ next self.old Event.Tick }
        ensures answer { said self.old Event.Tick ≡ Reply.Tick result }
    {
        self.core.tick()
    }

    /// Another plan, which is there, is in force from here on. It uses up room for one change of
    /// the plan.
    pub fn restagger(&mut self, plan: u8)
        requires there { plan < length self.old.plans }
        requires room { 0 < self.old.plan_spare }
        ensures state { self.new ≡ next self.old (Event.Restagger plan) }
        ensures answer { said self.old (Event.Restagger plan) ≡ Reply.Restaggered }
    {
        self.core.restagger(plan);
    }

    /// A command that is due within the match arrives. Where one with the same mirror and number
    /// was accepted before, nothing changes, and the answer is Repeat. Where it is older than the
    /// last copy's clock it is turned away, answered Late with that clock. Else it is accepted: the
    /// copies whose clocks are past its time execute it at once, and those that were ahead of the
    /// last of these are repaired. The answer is Taken, with how many were. Taken and Late each use
    /// up room for one arrival.
    pub fn arrive(&mut self, x: &Command) -> Arrived
        requires within_match { x.now.time < self.old.length }
        requires room { 0 < self.old.spare }
        ensures state { self.new ≡ next self.old (Event.Arrive x.now) }
        ensures answer { said self.old (Event.Arrive x.now) ≡ Reply.Arrive result }
    {
        let arrived = self.core.arrive(x);
        self.policy.settle(&mut self.core);
        arrived
    }

    /// The copy, which is there, runs one tick: the commands due then in key order, and one beat.
    /// Where the run ahead doesn't begin with its new run, the copies ahead are repaired. The
    /// answer is Ran, with how many were. Where the copy stands at its limit nothing changes, and
    /// the answer is Idle.
    pub fn step(&mut self, copy: u8) -> Stepped
        requires { copy < length self.old.runs }
        ensures state { self.new ≡ next self.old (Event.Step copy) }
        ensures answer { said self.old (Event.Step copy) ≡ Reply.Step result }
    {
        let stepped = self.core.step(copy);
        self.policy.settle_steps(&mut self.core);
        stepped
    }

    /// Makes the event, whichever it is, as `tick`, `arrive`, `step` and `restagger` do.
    pub fn make(&mut self, e: &Event) -> Reply
        requires fits { Fits self.old e.now }
        requires room { HasRoom self.old e.now }
        ensures state { self.new ≡ next self.old e.now }
        ensures answer { result ≡ said self.old e.now }
    {
        let reply = self.core.make(e);
        self.policy.settle_steps(&mut self.core);
        reply
    }

    /// Makes events one after another, each as `make` does, and hands back what was answered to
    /// each, in order. They fit the mirror, there is room for the arrivals and the changes of the
    /// plan among them, and they are no more than the answer holds. The copies that were repaired
    /// are executed again once, after the last event, since nobody can look at them before (this
    /// project's own).
    pub fn make_each<const N: usize>(&mut self, events: &[Event]) -> ArrayVec<Reply, N>
        requires few { length events.now ≤ N }
        requires fits { AllByRecursion (Fits self.old) events.now }
        requires room { HasRoomAlong self.old events.now }
        ensures state { self.new ≡ after self.old events.now }
        ensures replies { result.items ≡ answers self.old events.now }
    {
        let replies = self.core.make_each(events);
        self.policy.settle_steps(&mut self.core);
        replies
    }

    /// Makes a turn: a tick, and then a step of each copy from copy 0 on. Hands back what was answered
    /// to each, in order. The copies that were repaired are executed again once.
    pub fn turn(&mut self) -> ArrayVec<Reply, 9>
        ensures state { self.new ≡ turn self.old }
        ensures replies { result.items ≡ answers self.old (turn_events (length self.old.runs)) }
    {
        let replies = self.core.turn();
        self.policy.settle_steps(&mut self.core);
        replies
    }

    // Makes turns until every copy has run the whole match.
    pub(crate) fn run_to_the_end(&mut self)
        ensures { self.new ≡ drain self.old }
    {
        let turns = self.turns_to_drain();
        for _ in 0..turns {
            if self.drained() {
                return;
            }
            let _answers = self.turn();
        }
    }

    /// How many items the copy has run. The copy is there.
    pub fn run_len(&self, copy: u8) -> u32
        requires { copy < length self.now.runs }
        ensures { result ≡ length (slice_index_or self.now.runs copy []) }
    {
        self.core.stack.run_len(copy)
    }

    /// The item at this place of the copy's run. Both are there.
    pub fn run_item(&self, copy: u8, place: u32) -> Item
        requires copy { copy < length self.now.runs }
        requires place { place < length (slice_index_or self.now.runs copy []) }
        ensures { slice_get (slice_index_or self.now.runs copy []) place ≡ Some result }
    {
        self.core.stack.run_item(copy, place)
    }

    /// Whether a command with this mirror and number was accepted. It is looked up by its name
    /// (this project's own).
    pub fn has(&self, from: MirrorId, number: Number) -> bool
        ensures { result ≡ has_command self.now.accepted from number }
    {
        self.core.has(from, number)
    }

    /// How many more arrivals there is room for.
    pub fn spare(&self) -> u32
        ensures { result ≡ self.now.spare }
    {
        self.core.spare
    }

    /// How many turns are enough to drain the mirror.
    pub fn turns_to_drain(&self) -> u32
        ensures { result ≡ drain_bound self.now }
    {
        self.core.turns_to_drain()
    }

    /// Whether every copy has run the whole match.
    pub fn drained(&self) -> bool
        ensures { result ≡ is_drained self.now }
    {
        self.core.drained()
    }

    /// The history alone: the events that changed the mirror, in order. It takes no memory, and lets
    /// go of all else.
    pub fn into_events(self) -> Vec<Event>
        ensures { result.items ≡ self.history }
    {
        let MirrorWith { core, .. } = self;
        core.into_events()
    }
}

impl<G: Game, P: RefreshPolicy> Mirrored<G> for MirrorWith<G, P> {
    ghost state = { λ m. m };

    fn always(&self) {
        let _ = &self.core.clock;
    }

    fn opening(&self) -> &G {
        self.core.stack.opening()
    }

    fn plan(&self) -> u8 {
        self.core.plan
    }

    fn copies(&self) -> u8 {
        self.core.stagger().copies()
    }

    fn copy_clock(&self, copy: u8) -> Tick {
        self.core.stack.clock(copy)
    }

    fn world_twin(&self, copy: u8) -> G {
        self.core.stack.made_world(copy)
    }

    fn accepted(&self) -> &[Command] {
        self.core.stack.accepted()
    }

    fn turned(&self) -> &[Turned] {
        &self.core.turned
    }

    fn events(&self) -> &[Event] {
        &self.core.history
    }

    fn repairs(&self) -> u64 {
        self.core.repairs
    }
}
