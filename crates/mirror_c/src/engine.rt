//! A mirror whose host keeps the worlds.

ghost use Rattle.std.specs.Prelude.{◌≡◌, ℕ, ◌+◌, ◌-◌, ◌<◌, ◌≤◌, ◌⊎◌, ◌↔◌, if◌then◌else◌, Err, length, slice_get, option_map, IfOk, IfErr};
ghost use Rattle.game_trait.specs.Run.{beats};
ghost use Rattle.sync_model.specs.State.{opening_state, last_clock};
ghost use Rattle.sync_model.specs.Drafts.{run_of};
ghost use Rattle.host_parts.specs.Rising.{ArePlans};
ghost use Rattle.mirror_c.specs.Legal.{IsLegal};
ghost use Rattle.sync_model.specs.Turns.{turn, is_drained};
ghost use Rattle.mirror_c.specs.Answers.{made, answered, refusal, turned_answer, of_copy, valued, told_item, told_command, told_turned, told_event, items_answer, items_put, put_answer, put_of};

use crate::answer::{
    Answer, CommandItem, HistoryItem, RunItem, TurnedItem, bare, item_for_c, told_arrival,
    told_step, told_tick, value,
};
use crate::codes::{BEYOND, LATE, NO_MEMORY, NO_ROOM, NOT_LEGAL, NOT_THERE, REPEAT, RESTAGGERED};
use crate::listed::{accepted_from, events_from, fitting, turned_from, was_turned};
use crate::turns::told_turn;
use game_trait::limits::MOST_ROOM;
use game_trait::{Command, Event, Tick};
use host_parts::{Blank, plans_of};
use mirror_core::Mirror;
use std::alloc::Global;

/// A mirror, and no world.
#[derive(Drop)]
pub struct Engine {
    pub mirror: Mirror<Blank>,
}

impl Engine {
    /// An engine before any event. The delays are those of 1 to 8 plans, one plan after another, each
    /// of so many copies, and each with the length a schedule; the rooms are at most 1,048,576. Else
    /// the answer is `NOT_LEGAL`.
    #[tactic(auto, using(host_parts::proofs::Made::opened))]
    pub fn new(
        alloc: Global,
        delays: &[Tick],
        copies: usize,
        length: Tick,
        room: u32,
        restaggers: u32,
    ) -> Result<Engine, u32>
        ensures made { IfOk result (λ engine. ArePlans delays.now copies length engine.mirror.plans
            × (engine.mirror
            ≡ opening_state engine.mirror.opening length engine.mirror.plans room restaggers)) }
        ensures refused { IfErr result (λ why. (why ≡ NO_MEMORY) ⊎ (why ≡ NOT_LEGAL)) }
        ensures legal { (result ≡ Err NOT_LEGAL)
            ↔ (IsLegal delays.now copies length room restaggers → ⊥) }
    {
        if room > MOST_ROOM || restaggers > MOST_ROOM {
            return Err(NOT_LEGAL);
        }
        let Some(plans) = plans_of(delays, copies, length) else {
            return Err(NOT_LEGAL);
        };
        match Mirror::new(alloc, &Blank, plans.as_slice(), room, restaggers) {
            Ok(mirror) => Ok(Engine { mirror }),
            Err(_) => Err(NO_MEMORY),
        }
    }

    /// The clock goes on, where it may.
    pub fn tick(&mut self) -> Answer
        ensures state { self.new.mirror ≡ made self.old.mirror Event.Tick }
        ensures answer { result ≡ answered self.old.mirror Event.Tick }
    {
        told_tick(self.mirror.tick())
    }

    // The last copy's clock.
    fn last_clock(&self) -> Tick
        ensures { result ≡ last_clock self.now.mirror.runs }
    {
        self.mirror.always();
        self.mirror.copy_clock(self.mirror.copies() - 1)
    }

    // What is answered to an arrival that isn't made: a repeat, one that is late again, one that is
    // due past the end, or one for which there is no room.
    #[tactic(auto, unfolding(game_trait::specs::Keys::same_name))]
    fn refusal(&self, x: &Command) -> Option<Answer>
        ensures { result ≡ refusal self.now.mirror (Event.Arrive x.now) }
    {
        if self.mirror.has(x.from, x.number) {
            return Some(bare(REPEAT));
        }
        let bound = self.last_clock();
        if x.time < bound && was_turned(self.mirror.turned(), x) {
            return Some(Answer {
                kind: LATE,
                value: bound,
            });
        }
        if x.time >= self.mirror.length() {
            return Some(bare(BEYOND));
        }
        if self.mirror.spare() == 0 {
            return Some(bare(NO_ROOM));
        }
        None
    }

    /// A command arrives. One that was turned away before, and is late again, is answered so and is
    /// not noted a second time; it is looked for in all that was turned away.
    pub fn arrive(&mut self, x: &Command) -> Answer
        ensures state { self.new.mirror ≡ made self.old.mirror (Event.Arrive x.now) }
        ensures answer { result ≡ answered self.old.mirror (Event.Arrive x.now) }
    {
        match self.refusal(x) {
            Some(why) => why,
            None => told_arrival(self.mirror.arrive(x)),
        }
    }

    /// A copy runs a tick, where it may.
    pub fn step(&mut self, copy: u32) -> Answer
        ensures state { self.new.mirror ≡ made self.old.mirror (Event.Step copy) }
        ensures answer { result ≡ answered self.old.mirror (Event.Step copy) }
    {
        if copy >= u32::from(self.mirror.copies()) {
            return bare(NOT_THERE);
        }
        told_step(self.mirror.step(copy as u8))
    }

    /// Another plan is in force.
    pub fn restagger(&mut self, plan: u32) -> Answer
        ensures state { self.new.mirror ≡ made self.old.mirror (Event.Restagger plan) }
        ensures answer { result ≡ answered self.old.mirror (Event.Restagger plan) }
    {
        if plan as usize >= self.mirror.plans() {
            return bare(NOT_THERE);
        }
        if self.mirror.plan_spare() == 0 {
            return bare(NO_ROOM);
        }
        self.mirror.always();
        self.mirror.restagger(plan as u8);
        bare(RESTAGGERED)
    }

    /// A turn: the clock goes on, where it may, and then each copy, from copy 0 on, runs a tick,
    /// where it may.
    pub fn turn(&mut self) -> Answer
        ensures state { self.new.mirror ≡ turn self.old.mirror }
        ensures answer { result ≡ turned_answer self.old.mirror }
    {
        let replies = self.mirror.turn();
        told_turn(replies.as_slice())
    }

    /// For how many more arrivals there is room.
    pub fn spare(&self) -> Answer
        ensures { result ≡ valued self.now.mirror.spare }
    {
        value(self.mirror.spare())
    }

    /// The number of the plan in force.
    pub fn plan(&self) -> Answer
        ensures { result ≡ valued self.now.mirror.plan }
    {
        value(u32::from(self.mirror.plan()))
    }

    /// Puts the commands that were accepted, from a place on, into the front of `out`, as many as
    /// there are and it holds, and tells how many.
    pub fn accepted(&self, place: u32, out: &mut [CommandItem]) -> Answer
        ensures answer { result
            ≡ put_answer (length self.now.mirror.accepted) place (length out.old) }
        ensures length { length out.new ≡ length out.old }
        ensures items { (j : ℕ)
            → j < put_of (length self.now.mirror.accepted) place (length out.old)
            → slice_get out.new j
            ≡ option_map told_command (slice_get self.now.mirror.accepted (place + j)) }
    {
        accepted_from(self.mirror.accepted(), place, out)
    }

    /// Puts the commands that were turned away, from a place on, into the front of `out`, as many
    /// as there are and it holds, and tells how many.
    pub fn turned(&self, place: u32, out: &mut [TurnedItem]) -> Answer
        ensures answer { result
            ≡ put_answer (length self.now.mirror.turned) place (length out.old) }
        ensures length { length out.new ≡ length out.old }
        ensures items { (j : ℕ) → j < put_of (length self.now.mirror.turned) place (length out.old)
            → slice_get out.new j
            ≡ option_map told_turned (slice_get self.now.mirror.turned (place + j)) }
    {
        turned_from(self.mirror.turned(), place, out)
    }

    /// Puts the events of the history, from a place on, into the front of `out`, as many as there
    /// are and it holds, and tells how many.
    pub fn history(&self, place: u32, out: &mut [HistoryItem]) -> Answer
        ensures answer { result
            ≡ put_answer (length self.now.mirror.history) place (length out.old) }
        ensures length { length out.new ≡ length out.old }
        ensures items { (j : ℕ) → j < put_of (length self.now.mirror.history) place (length out.old)
            → slice_get out.new j
            ≡ option_map told_event (slice_get self.now.mirror.history (place + j)) }
    {
        events_from(self.mirror.events(), place, out)
    }

    /// The match's length, in ticks.
    pub fn length(&self) -> Answer
        ensures { result ≡ valued self.now.mirror.length }
    {
        value(self.mirror.length())
    }

    /// How many copies there are.
    pub fn copies(&self) -> Answer
        ensures { result ≡ valued (length self.now.mirror.runs) }
    {
        value(u32::from(self.mirror.copies()))
    }

    /// Whether each copy has run the whole match: 1 or 0.
    pub fn drained(&self) -> Answer
        ensures { result ≡ valued (if is_drained self.now.mirror then 1 else 0) }
    {
        if self.mirror.drained() {
            return value(1);
        }
        value(0)
    }

    /// The clock.
    pub fn clock(&self) -> Answer
        ensures { result ≡ valued self.now.mirror.clock }
    {
        value(self.mirror.clock())
    }

    /// A copy's clock.
    pub fn copy_clock(&self, copy: u32) -> Answer
        ensures { result ≡ of_copy copy beats self.now.mirror }
    {
        if copy >= u32::from(self.mirror.copies()) {
            return bare(NOT_THERE);
        }
        value(self.mirror.copy_clock(copy as u8))
    }

    /// How many items a copy has run.
    pub fn run_len(&self, copy: u32) -> Answer
        ensures { result ≡ of_copy copy length self.now.mirror }
    {
        if copy >= u32::from(self.mirror.copies()) {
            return bare(NOT_THERE);
        }
        value(self.mirror.run_len(copy as u8))
    }

    /// Puts the items of a copy's run from a place on into the front of `out`, as many as there are
    /// and it holds, and tells how many.
    pub fn items(&self, copy: u32, place: u32, out: &mut [RunItem]) -> Answer
        ensures answer { result ≡ items_answer copy place (length out.old) self.now.mirror }
        ensures length { length out.new ≡ length out.old }
        ensures items { (j : ℕ) → j < items_put copy place (length out.old) self.now.mirror
            → slice_get out.new j
            ≡ option_map told_item (slice_get (run_of self.now.mirror copy) (place + j)) }
        ensures rest { (j : ℕ) → items_put copy place (length out.old) self.now.mirror ≤ j
            → slice_get out.new j ≡ slice_get out.old j }
    {
        if copy >= u32::from(self.mirror.copies()) {
            return bare(NOT_THERE);
        }
        let end = self.mirror.run_len(copy as u8);
        if place > end {
            return bare(NOT_THERE);
        }
        let count = (end - place).min(fitting(out.len()));
        put_items(&self.mirror, copy as u8, place, place + count, out);
        value(count)
    }
}

// Puts the items of a run from a place up to another, which are there, into the front of `out`.
fn put_items(mirror: &Mirror<Blank>, copy: u8, place: u32, end: u32, out: &mut [RunItem])
    requires copy { copy < length mirror.now.runs }
    requires there { (place ≤ end) × (end ≤ length (run_of mirror.now copy)) }
    requires fits { end - place ≤ length out.old }
    ensures length { length out.new ≡ length out.old }
    ensures items { (j : ℕ) → j < end - place → slice_get out.new j
        ≡ option_map told_item (slice_get (run_of mirror.now copy) (place + j)) }
    ensures rest { (j : ℕ) → end - place ≤ j → slice_get out.new j ≡ slice_get out.old j }
{
    let mut i = 0;
    for at in place..end {
        out[i] = item_for_c(&mirror.run_item(copy, at));
        i += 1;
    }
}
