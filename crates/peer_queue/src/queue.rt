//! The commands of a slot that a peer remembers.

ghost use Rattle.std.specs.Prelude.{◌≡◌, ◌+◌, ◌^◌, ◌≤◌, ◌<◌, IfOk, IfSome, IfNone, [], ◌∷◌, ◌-◌, length, map, slice_index_or, not, false, ◌==◌, if◌then◌else◌};
ghost use Rattle.std.specs.List.{AllByRecursion};
ghost use Rattle.peer_model.specs.Queue.{Sent, TimesRise, new_queue, have_of, last_time, dropped, trimmed, front_before, joined, with_own};
ghost use Rattle.peer_queue.specs.Room.{sent_of, commands_of, IsShort};

use crate::sent::SentBytes;
use game_trait::{Number, Tick};
use peer_packet::Commands;
use std::alloc::{AllocError, Global};
use std::collections::VecDeque;
use std::marker::Model;

/// The commands of a slot that are remembered, those from number `kept` on, and how many of the slot's
/// were late. Only `new` and `opened` take memory.
#[derive(Drop)]
pub struct SlotQueue {
    commands: VecDeque<SentBytes>,
    kept: Number,
    gone: Tick,
    late: u32,
    room: u32,
}

impl Model for SlotQueue {
    ghost use Rattle.std.specs.Prelude.{map};
    ghost use Rattle.std.specs.VecDeque.{deque_capacity};
    ghost use Rattle.peer_queue.specs.Room.{sent_of, QueueInRoom, IsInRoom};

    ghost Value = { QueueInRoom };

    ghost view = { λ t. record {
      queue = record { kept = t.kept; gone = t.gone; commands = map sent_of t.commands.items; late = t.late };
      room = t.room;
    } };

    ghost invariant = { λ t. IsInRoom
        (record { kept = t.kept; gone = t.gone; commands = map sent_of t.commands.items; late = t.late })
        t.room (deque_capacity t.commands) };
}

// 1 where it is so, and else 0.
fn one_if(is: bool) -> u32
    ensures { result ≡ (if is then 1 else 0) }
{
    if is { 1 } else { 0 }
}

impl SlotQueue {
    /// Nothing was heard yet, and there is room for so many commands at once, fewer than 2^16.
    pub fn new(alloc: Global, room: u32) -> Result<SlotQueue, AllocError>
        requires { room < 2 ^ 16 }
        ensures { IfOk result (λ q. q ≡ record { queue = new_queue; room = room }) }
    {
        SlotQueue::beginning(alloc, room, 0, 0, 0)
    }

    // Numbers below `kept` are forgotten, of which so many were late; the last of them was due at `gone`.
    pub(crate) fn beginning(
        alloc: Global,
        room: u32,
        kept: Number,
        gone: Tick,
        late: u32,
    ) -> Result<SlotQueue, AllocError>
        requires room { room < 2 ^ 16 }
        requires late { late ≤ kept }
        requires nothing_gone { kept ≡ 0 → gone ≡ 0 }
        ensures { IfOk result (λ q. q ≡ record {
          queue = record { kept = kept; gone = gone; commands = []; late = late };
          room = room;
        }) }
    {
        Ok(SlotQueue {
            commands: VecDeque::with_capacity(alloc, room as usize)?,
            kept,
            gone,
            late,
            room,
        })
    }

    /// What is always true of it.
    pub fn always(&self)
        ensures few { length self.now.queue.commands ≤ self.now.room }
        ensures in_reach { self.now.room < 2 ^ 16 }
        ensures numbers { have_of self.now.queue < 2 ^ 32 }
        ensures late { self.now.queue.late ≤ have_of self.now.queue }
        ensures rising { TimesRise self.now.queue.gone self.now.queue.commands }
        ensures short { AllByRecursion IsShort self.now.queue.commands }
        ensures nothing_gone { self.now.queue.kept ≡ 0 → self.now.queue.gone ≡ 0 }
    {
        let _ = &self.commands;
    }

    /// The number of the first command that is remembered, or of the next one where none is.
    pub fn kept(&self) -> Number
        ensures { result ≡ self.now.queue.kept }
    {
        self.kept
    }

    /// The tick that the command before that one was due at, 0 where there is none.
    pub fn gone(&self) -> Tick
        ensures { result ≡ self.now.queue.gone }
    {
        self.gone
    }

    /// How many of the slot's commands were late.
    pub fn late(&self) -> u32
        ensures { result ≡ self.now.queue.late }
    {
        self.late
    }

    /// How many commands are remembered.
    pub fn len(&self) -> u32
        ensures { result ≡ length self.now.queue.commands }
    {
        self.commands.len() as u32
    }

    /// For how many commands there is room at once.
    pub fn room(&self) -> u32
        ensures { result ≡ self.now.room }
    {
        self.room
    }

    /// How many commands were counted.
    pub fn have(&self) -> Number
        ensures number { result ≡ have_of self.now.queue }
        ensures few { have_of self.now.queue < 2 ^ 32 }
    {
        self.kept + self.commands.len() as u32
    }

    /// The time of the last command that was counted, 0 where there is none.
    pub fn last(&self) -> Tick
        ensures { result ≡ last_time self.now.queue.gone self.now.queue.commands }
    {
        match self.commands.back() {
            Some(x) => x.time,
            None => self.gone,
        }
    }

    /// There is no room for one more.
    pub fn is_full(&self) -> bool
        ensures { result ≡ (length self.now.queue.commands == self.now.room) }
    {
        self.commands.len() as u32 == self.room
    }

    /// Counts the next command, which is late or not: late is what is due before `bound`.
    pub fn count(&mut self, x: &SentBytes, bound: Tick)
        requires room { (length self.old.queue.commands == self.old.room) ≡ false }
        requires number { have_of self.old.queue + 1 < 2 ^ 32 }
        requires rises { last_time self.old.queue.gone self.old.queue.commands ≤ x.now.time }
        requires short { x.now.size ≤ 64 }
        ensures { self.new ≡ record self.old { queue = joined bound (sent_of x.now ∷ []) self.old.queue } }
    {
        self.late += one_if(x.time < bound);
        self.commands.push_back_reserved(*x);
    }

    /// The own slot issues one more.
    pub fn own(&mut self, x: &SentBytes)
        requires room { (length self.old.queue.commands == self.old.room) ≡ false }
        requires number { have_of self.old.queue + 1 < 2 ^ 32 }
        requires rises { last_time self.old.queue.gone self.old.queue.commands ≤ x.now.time }
        requires short { x.now.size ≤ 64 }
        ensures { self.new ≡ record self.old { queue = with_own (sent_of x.now) self.old.queue } }
    {
        self.commands.push_back_reserved(*x);
    }

    /// Gives all that is missing before a part up for late.
    pub fn skip(&mut self, first: Number, before: Tick)
        requires { have_of self.old.queue < first }
        ensures { self.new ≡ record self.old { queue = record { kept = first; gone = before; commands = []; late = self.old.queue.late + (first - have_of self.old.queue) } } }
    {
        self.late += first - self.have();
        self.commands.clear();
        self.kept = first;
        self.gone = before;
    }

    /// Forgets the first command.
    fn forget_first(&mut self, time: Tick)
        requires some { 0 < length self.old.queue.commands }
        requires first { (d : Sent) → (slice_index_or self.old.queue.commands 0 d).time ≡ time }
        ensures { self.new ≡ record self.old { queue = dropped 1 self.old.queue } }
    {
        self.gone = time;
        self.kept += 1;
        let _gone = self.commands.pop_front();
    }

    // The time of the first command, where it is due before a tick.
    fn first_before(&self, bound: Tick) -> Option<Tick>
        ensures some { IfSome result (λ t. (0 < length self.now.queue.commands) × ((d : Sent) → (slice_index_or self.now.queue.commands 0 d).time ≡ t) × (t < bound)) }
        ensures none { IfNone result (front_before bound self.now.queue.commands ≡ 0) }
    {
        match self.commands.front() {
            Some(x) if x.time < bound => Some(x.time),
            _ => None,
        }
    }

    /// Forgets what is due before a tick.
    pub fn trim(&mut self, bound: Tick)
        ensures { self.new ≡ record self.old { queue = trimmed bound self.old.queue } }
    {
        while let Some(time) = self.first_before(bound) {
            self.forget_first(time);
        }
    }
}

impl Commands for SlotQueue {
    ghost use Rattle.peer_queue.specs.Room.{commands_of};

    ghost commands = { commands_of };

    fn time(&self, place: usize) -> Tick {
        self.commands[place].time
    }

    fn payload(&self, place: usize) -> &[u8] {
        self.commands[place].payload()
    }
}
