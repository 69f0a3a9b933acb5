//! The accepted commands in key order, walked tick by tick.

ghost use Rattle.std.specs.Prelude.{◌≡◌, ℕ, ◌+◌, ◌<◌, ◌≤◌, ◌^◌, IfSome, length, map, slice_get};
ghost use Rattle.game_trait.specs.Keys.{in_key_order, NamesDiffer};
ghost use Rattle.game_trait.specs.Ordered.{due_at};
ghost use Rattle.pending_list.specs.Buckets.{start_of, due_or_none, command_of, IsInOrder};

use crate::keyed::Placed;
use crate::order::{KeyOrder, due_before, place_of};
use crate::sized::placed_at;
use game_trait::{Command, Tick};
use std::collections::VecDeque;
use std::marker::Model;

// How many commands of a tick are walked through before its end is searched for.
const WALKED: u32 = 8;

/// Accepted commands, all of which stand in key order, walked tick by tick (this project's own).
/// Contracts see the commands in order of insertion. `Buckets` lends it.
#[derive(Drop)]
pub struct InOrder<'a> {
    commands: &'a Vec<Command>,
    buckets: &'a Vec<VecDeque<Placed>>,
}

impl<'a> Model for InOrder<'a> {
    ghost use Rattle.std.specs.Prelude.{map};
    ghost use Rattle.pending_list.specs.Buckets.{Settled, IsInOrder};

    ghost Value = { Settled };

    ghost view = { λ k. record { all = k.commands.now.items } };

    ghost invariant = { λ k. IsInOrder k.commands.now.items (map (λ b. b.items) k.buckets.now.items) };
}

impl<'a> InOrder<'a> {
    // The commands whose slots stand in these buckets in key order.
    #[inline(always)]
    pub(crate) fn new(commands: &'a Vec<Command>, buckets: &'a Vec<VecDeque<Placed>>) -> InOrder<'a>
        requires { IsInOrder commands.now.items (map (λ b. b.items) buckets.now.items) }
        ensures { result ≡ record { all = commands.now.items } }
    {
        InOrder { commands, buckets }
    }

    /// Where the commands of a tick begin in key order: how many are due before it.
    pub fn start(&self, t: Tick) -> u32
        ensures start { result ≡ start_of self.now.all t }
        ensures few { result ≤ length self.now.all }
    {
        due_before(
            &KeyOrder::new(self.commands, self.buckets, self.commands.len()),
            t,
        ) as u32
    }

    // The slot at a place in key order, where its command is due at a tick.
    #[inline(always)]
    fn slot_due(&self, place: usize, t: Tick) -> Option<u32>
        ensures there { IfSome result (λ slot. slot < length self.now.all) }
        ensures place { IfSome result (λ _. place < length self.now.all) }
        ensures few { length self.now.all < 2 ^ 32 }
        ensures due { command_of self.now.all result
            ≡ due_or_none t (slice_get (in_key_order self.now.all) place) }
        ensures names { NamesDiffer self.now.all }
    {
        if place >= self.commands.len() {
            return None;
        }
        let placed = placed_at(self.buckets, place);
        if placed.time == t {
            Some(placed.slot)
        } else {
            None
        }
    }

    /// The command at a place in key order, where it is due at a tick, and else none: from the
    /// tick's `start` on, the tick's commands one after the other, and then none.
    #[inline(always)]
    pub fn due(&self, place: u32, t: Tick) -> Option<Command>
        ensures there { IfSome result (λ _. place < length self.now.all) }
        ensures few { length self.now.all < 2 ^ 32 }
        ensures place { result ≡ due_or_none t (slice_get (in_key_order self.now.all) place) }
        ensures due { (i : ℕ) → place ≡ start_of self.now.all t + i
            → i ≤ length (due_at self.now.all t) → slice_get (due_at self.now.all t) i ≡ result }
    {
        let slot = self.slot_due(place as usize, t)?;
        Some(self.commands[slot as usize])
    }

    /// Where the commands of a tick end in key order, which begin at `start`: there those of the
    /// next tick begin. A linear scan for a tick of few commands, a binary search for the end of
    /// others (this project's own).
    pub fn end(&self, start: u32, t: Tick) -> u32
        requires start { start ≡ start_of self.now.all t }
        requires next { t + 1 < 2 ^ 32 }
        ensures { result ≡ start_of self.now.all (t + 1) }
    {
        let mut place = start;
        for _ in 0..WALKED {
            let Some(_x) = self.due(place, t) else {
                return place;
            };
            place += 1;
        }
        self.start(t + 1)
    }

    /// The slot of the first of a tick's commands in key order, or none where it has none.
    pub fn first(&self, t: Tick) -> Option<u32>
        ensures there { IfSome result (λ slot. slot < length self.now.all) }
        ensures first { slice_get (due_at self.now.all t) 0 ≡ command_of self.now.all result }
    {
        let place = self.start(t);
        self.slot_due(place as usize, t)
    }

    /// The slot of the command that follows this one in key order among those of its tick, or none
    /// where it is the last of them. The slot is there.
    pub fn after(&self, slot: u32) -> Option<u32>
        requires { slot < length self.now.all }
        ensures there { IfSome result (λ next. next < length self.now.all) }
        ensures after { (x : Command) (i : ℕ) → slice_get self.now.all slot ≡ Some x
            → slice_get (due_at self.now.all x.time) i ≡ Some x
            → slice_get (due_at self.now.all x.time) (i + 1) ≡ command_of self.now.all result }
    {
        let x = self.commands[slot as usize];
        let order = KeyOrder::new(self.commands, self.buckets, self.commands.len());
        let place = place_of(&order, &x);
        self.slot_due(place + 1, x.time)
    }
}
