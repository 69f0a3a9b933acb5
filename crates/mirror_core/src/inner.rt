//! The core of every mirror: its whole state, with worlds that may be stale.

ghost use Rattle.std.specs.Prelude.{◌≡◌, ◌<◌, ◌≤◌, ◌-◌, IfOk, length, max};
ghost use Rattle.std.specs.List.{AllByRecursion};
ghost use Rattle.game_trait.specs.CommandList.{has_command};
ghost use Rattle.sync_model.specs.State.{opening_state, schedule_of, step_limit};
ghost use Rattle.sync_model.specs.State.{last_clock as last_clock_of};
ghost use Rattle.sync_model.specs.Change.{next, said, after, answers, Fits};
ghost use Rattle.sync_model.specs.History.{HasRoom, HasRoomAlong, repaired_in};
ghost use Rattle.sync_model.specs.Turns.{turn, turn_events, is_drained, drain_bound};
ghost use Rattle.sync_model.specs.Drafts.{ready_of, FitsReady};
ghost use Rattle.mirror_core.specs.Kept.{delays_of_each, ticks_of_first, copies_of_first};
ghost use Rattle.mirror_core.specs.Drafts.{drafted as drafted_by, committed_to, committed, IfDraft};

use crate::drafts::{Committed, Drafted, MOST_DRAFTED, Ready};
use crate::epochs::Epochs;
use crate::lists::Lists;
use crate::plans::greatest;
use crate::turns::turn_events;
use arrayvec::ArrayVec;
use game_trait::limits::{MOST_PLANS, MOST_ROOM};
use game_trait::{
    Arrived, Command, Event, Game, MirrorId, NameTree, Number, Reply, Stepped, Tick, Ticked,
};
use stagger_clock::Stagger;
use std::alloc::Global;
use std::marker::Model;
use sync_model::Turned;
use trailing_copy::LazyStack;
use tss_base::NoMemory;

/// The core of every mirror, eager or deferred (this project's own): it makes the events, and leaves
/// the worlds of the copies that it repairs stale until `refresh`. Contracts see its state, and how
/// many copies, from copy 0 on, are stale. What an event changes and answers doesn't depend on that.
#[derive(Drop)]
pub struct MirrorCore<G: Game> {
    // the opening, the match's length, the accepted commands and the copies
    pub stack: LazyStack<G>,
    pub plans: Vec<Stagger>,
    // the number of the plan in force
    pub plan: u8,
    pub clock: Tick,
    // the mirror and the number of each accepted command
    pub names: NameTree,
    pub turned: Vec<Turned>,
    pub history: Vec<Event>,
    // how many copies were repaired, in all
    pub repairs: u64,
    pub epochs: Epochs,
    pub spare: u32,
    pub plan_spare: u32,
}

impl<G: Game> Model for MirrorCore<G> {
    ghost use Rattle.std.specs.Prelude.{◌-◌, length, vec_capacity};
    ghost use Rattle.game_trait.specs.NameTree.{has_name};
    ghost use Rattle.sync_model.specs.State.{MirrorState};
    ghost use Rattle.mirror_core.specs.Kept.{delays_of_each, Room, IsKept, CoreState};

    ghost Value = { CoreState G };

    ghost view = { λ m. record {
      state = record {
        opening = m.stack.opening;
        length = m.stack.ticks;
        plans = delays_of_each m.plans.items;
        plan = m.plan;
        clock = m.clock;
        accepted = m.stack.accepted;
        turned = m.turned.items;
        runs = m.stack.runs;
        history = m.history.items;
        spare = m.spare;
        plan_spare = m.plan_spare;
      };
      stale = m.stack.stale;
    } };

    ghost invariant = { λ m.
        let state : MirrorState G = record {
          opening = m.stack.opening;
          length = m.stack.ticks;
          plans = delays_of_each m.plans.items;
          plan = m.plan;
          clock = m.clock;
          accepted = m.stack.accepted;
          turned = m.turned.items;
          runs = m.stack.runs;
          history = m.history.items;
          spare = m.spare;
          plan_spare = m.plan_spare;
        } in
        let room : Room = record {
          copies = m.stack.spare;
          names = m.names.room - length m.names.items;
          turned = vec_capacity m.turned;
          history = vec_capacity m.history;
        } in
        IsKept state m.plans.items (has_name m.names.items) m.repairs m.epochs room };
}

impl<G: Game> MirrorCore<G> {
    /// What `Mirror::new` makes. No copy is stale.
    pub fn new(
        alloc: Global,
        opening: &G,
        plans: &[Stagger],
        room: u32,
        restaggers: u32,
    ) -> Result<MirrorCore<G>, NoMemory>
        requires some_plan { 0 < length plans.now }
        requires few_plans { length plans.now ≤ MOST_PLANS }
        requires equal_ticks { AllByRecursion (λ plan. plan.length ≡ ticks_of_first plans.now)
            plans.now }
        requires equal_copies { AllByRecursion
            (λ plan. length plan.delays ≡ copies_of_first plans.now)
            plans.now }
        requires room { room ≤ MOST_ROOM }
        requires restaggers { restaggers ≤ MOST_ROOM }
        ensures { IfOk result (λ m. m ≡ record {
          state =
              opening_state opening.now (ticks_of_first plans.now) (delays_of_each plans.now) room
              restaggers;
          stale = 0;
        }) }
    {
        let ticks = plans[0].length();
        let copies = plans[0].copies();
        let arrivals = room as usize;
        let length = ticks as usize;
        let steps = copies as usize * length;
        let events = length + greatest(plans) as usize + steps + arrivals + restaggers as usize;
        let lists = Lists::new(alloc, plans, arrivals, events)?;
        Ok(MirrorCore {
            stack: LazyStack::new(alloc, opening, copies, ticks, room)?,
            plans: lists.plans,
            plan: 0,
            clock: 0,
            names: lists.names,
            turned: lists.turned,
            history: lists.history,
            repairs: 0,
            epochs: Epochs::new(alloc, copies)?,
            spare: room,
            plan_spare: restaggers,
        })
    }

    /// The plan that is in force.
    pub fn stagger(&self) -> Stagger
        ensures schedule { result ≡ schedule_of self.now.state }
        ensures copies { length result.delays ≡ length self.now.state.runs }
    {
        self.plans[self.plan as usize]
    }

    // How far the copy, which is there, may go now.
    fn limit(&self, copy: u8) -> Tick
        requires { copy < length self.now.state.runs }
        ensures { result ≡ step_limit self.now.state copy }
    {
        if copy == 0 {
            return self.stagger().limit(copy, self.clock, 0);
        }
        let ahead = self.stack.clock(copy - 1);
        self.stagger().limit(copy, self.clock, ahead)
    }

    /// The last copy's clock.
    pub fn last_clock(&self) -> Tick
        ensures { result ≡ last_clock_of self.now.state.runs }
    {
        self.stack.clock(self.stagger().copies() - 1)
    }

    /// What `Mirror::tick` does. As many copies as before are stale.
    pub fn tick(&mut self) -> Ticked
        ensures state { self.new.state ≡ next self.old.state Event.Tick }
        ensures answer { said self.old.state Event.Tick ≡ Reply.Tick result }
        ensures stale { self.new.stale ≡ self.old.stale }
    {
        if self.stagger().at_end(self.clock) {
            return Ticked::Over;
        }
        self.clock += 1;
        self.history.push_reserved(Event::Tick);
        Ticked::Moved
    }

    /// What `Mirror::restagger` does. As many copies as before are stale.
    pub fn restagger(&mut self, plan: u8)
        requires there { plan < length self.old.state.plans }
        requires room { 0 < self.old.state.plan_spare }
        ensures state { self.new.state ≡ next self.old.state (Event.Restagger plan) }
        ensures answer { said self.old.state (Event.Restagger plan) ≡ Reply.Restaggered }
        ensures stale { self.new.stale ≡ self.old.stale }
    {
        self.plan = plan;
        self.plan_spare -= 1;
        self.epochs.renew_all();
        self.history.push_reserved(Event::Restagger(plan));
    }

    /// What `Mirror::arrive` does. The copies that it repairs are stale.
    pub fn arrive(&mut self, x: &Command) -> Arrived
        requires within_match { x.now.time < self.old.state.length }
        requires room { 0 < self.old.state.spare }
        ensures state { self.new.state ≡ next self.old.state (Event.Arrive x.now) }
        ensures answer { said self.old.state (Event.Arrive x.now) ≡ Reply.Arrive result }
        ensures stale { self.new.stale
            ≡ max self.old.stale (repaired_in (Reply.Arrive result)) }
    {
        let bound = self.last_clock();
        if x.time < bound {
            return self.turn_away(x, bound);
        }
        if self.names.insert_reserved(x.from, x.number) {
            self.spare -= 1;
            self.history.push_reserved(Event::Arrive(*x));
            self.epochs.renew_due(&self.stack, x.time);
            let repaired = self.stack.accept(x);
            self.repairs += u64::from(repaired);
            return Arrived::Taken { repaired };
        }
        Arrived::Repeat
    }

    // What `arrive` does with a command that is due before the last copy's clock.
    fn turn_away(&mut self, x: &Command, bound: Tick) -> Arrived
        requires within_match { x.now.time < self.old.state.length }
        requires room { 0 < self.old.state.spare }
        requires bound { bound ≡ last_clock_of self.old.state.runs }
        requires late { x.now.time < bound }
        ensures state { self.new.state ≡ next self.old.state (Event.Arrive x.now) }
        ensures answer { said self.old.state (Event.Arrive x.now) ≡ Reply.Arrive result }
        ensures stale { self.new.stale
            ≡ max self.old.stale (repaired_in (Reply.Arrive result)) }
    {
        if self.names.has(x.from, x.number) {
            return Arrived::Repeat;
        }
        self.spare -= 1;
        self.history.push_reserved(Event::Arrive(*x));
        self.turned.push_reserved(Turned {
            from: x.from,
            number: x.number,
            bound,
        });
        Arrived::Late { bound }
    }

    /// Whether a command with this mirror and number was accepted.
    pub fn has(&self, from: MirrorId, number: Number) -> bool
        ensures { result ≡ has_command self.now.state.accepted from number }
    {
        let _ = &self.stack;
        self.names.has(from, number)
    }

    /// What `Mirror::step` does. The copies that it repairs are stale.
    pub fn step(&mut self, copy: u8) -> Stepped
        requires { copy < length self.old.state.runs }
        ensures state { self.new.state ≡ next self.old.state (Event.Step copy) }
        ensures answer { said self.old.state (Event.Step copy) ≡ Reply.Step result }
    {
        if self.stack.clock(copy) >= self.limit(copy) {
            return Stepped::Idle;
        }
        let repaired = self.stack.run_tick(copy);
        self.epochs.renew_stepped(copy, repaired);
        self.repairs += u64::from(repaired);
        self.history.push_reserved(Event::Step(copy));
        Stepped::Ran { repaired }
    }

    /// What `Mirror::draft_into` does, where no copy is stale.
    #[inline(always)]
    pub fn draft_into(&mut self, copy: u8, drafted: &mut Drafted<G>)
        requires there { copy < length self.old.state.runs }
        requires fresh { self.old.stale ≡ 0 }
        ensures answer { drafted.new ≡ drafted_by G.rules self.old.state copy }
        ensures fits { IfDraft drafted.new
            (λ d. FitsReady G.rules self.old.state (ready_of G.rules d)) }
        ensures same { self.new ≡ self.old }
    {
        if self.stack.clock(copy) >= self.limit(copy) {
            drafted.put_idle();
            return;
        }
        let commands = self.stack.due_len(copy);
        if commands > MOST_DRAFTED as u32 {
            *drafted = Drafted::Wide { commands };
            return;
        }
        drafted.put(copy, self.epochs.of(copy), &mut self.stack);
    }

    /// What `Mirror::commit` does. The copies that it repairs are stale.
    pub fn commit(&mut self, r: &Ready<G>) -> Committed
        requires { FitsReady G.rules self.old.state r.now }
        ensures state { self.new.state ≡ committed_to self.old.state r.now }
        ensures answer { result ≡ committed self.old.state r.now }
    {
        let copy = r.copy();
        let now = self.epochs.of(copy);
        if r.epoch() != now {
            return Committed::Stale {
                held: r.epoch(),
                now,
            };
        }
        let repaired = self.stack.commit_tick(copy, r.world());
        self.epochs.renew_stepped(copy, repaired);
        self.repairs += u64::from(repaired);
        self.history.push_reserved(Event::Step(copy));
        Committed::Ran { repaired }
    }

    /// What `Mirror::make` does. The copies that it repairs are stale.
    pub fn make(&mut self, e: &Event) -> Reply
        requires fits { Fits self.old.state e.now }
        requires room { HasRoom self.old.state e.now }
        ensures state { self.new.state ≡ next self.old.state e.now }
        ensures answer { result ≡ said self.old.state e.now }
    {
        match e {
            Event::Tick => Reply::Tick(self.tick()),
            Event::Arrive(x) => Reply::Arrive(self.arrive(x)),
            Event::Step(copy) => Reply::Step(self.step(*copy)),
            Event::Restagger(plan) => {
                self.restagger(*plan);
                Reply::Restaggered
            }
        }
    }

    /// Makes events one after another, each as `make` does, and hands back what was answered to each,
    /// in order.
    pub fn make_each<const N: usize>(&mut self, events: &[Event]) -> ArrayVec<Reply, N>
        requires few { length events.now ≤ N }
        requires fits { AllByRecursion (Fits self.old.state) events.now }
        requires room { HasRoomAlong self.old.state events.now }
        ensures state { self.new.state ≡ after self.old.state events.now }
        ensures replies { result.items ≡ answers self.old.state events.now }
    {
        let mut replies = ArrayVec::new();
        for e in events {
            replies.push(self.make(e));
        }
        replies
    }

    /// Makes a turn: a tick, and then a step of each copy from copy 0 on.
    pub fn turn(&mut self) -> ArrayVec<Reply, 9>
        ensures state { self.new.state ≡ turn self.old.state }
        ensures replies { result.items
            ≡ answers self.old.state (turn_events (length self.old.state.runs)) }
    {
        let _ = &self.clock;
        let events = turn_events(self.stagger().copies());
        self.make_each(events.as_slice())
    }

    /// How many turns are enough to drain the mirror.
    pub fn turns_to_drain(&self) -> u32
        ensures { result ≡ drain_bound self.now.state }
    {
        let stagger = self.stagger();
        let end = stagger.length() + stagger.longest();
        end.saturating_sub(self.clock) + stagger.length()
    }

    /// Whether every copy has run the whole match.
    pub fn drained(&self) -> bool
        ensures { result ≡ is_drained self.now.state }
    {
        let _ = &self.stack;
        self.last_clock() == self.stagger().length()
    }

    /// Makes all copies but the last stale, so that they execute nothing until `refresh`.
    pub fn defer(&mut self)
        ensures { self.new ≡ record self.old { stale = length self.old.state.runs - 1 } }
    {
        self.stack.defer();
    }

    /// Makes the world of each stale copy anew, each once.
    pub fn refresh(&mut self)
        ensures { self.new ≡ record self.old { stale = 0 } }
    {
        self.stack.refresh();
    }

    /// The history alone. It takes no memory.
    pub fn into_events(self) -> Vec<Event>
        ensures { result.items ≡ self.state.history }
    {
        let MirrorCore { history, .. } = self;
        history
    }
}
