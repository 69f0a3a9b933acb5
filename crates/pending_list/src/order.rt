//! Commands in key order, by their slots.

ghost use Rattle.std.specs.Prelude.{◌≡◌, ◌+◌, ◌<◌, ◌≤◌, true, false, map, nat_lt, length, slice_index_or};
ghost use Rattle.std.specs.List.Sorted.{IsPartitionPoint};
ghost use Rattle.game_trait.specs.Count.{times};
ghost use Rattle.game_trait.specs.Keys.{before, KeysRise};
ghost use Rattle.pending_list.specs.Sized.{joined};
ghost use Rattle.pending_list.specs.Buckets.{AllBefore, NoneBefore, IsStretch, AreSlots, commands_at};

use crate::keyed::Placed;
use crate::sized::placed_at;
use game_trait::{Act, Command, Tick};
use std::collections::VecDeque;
use std::marker::Model;

// How often the step of the exponential search grows.
const STRIDE: usize = 64;

/// Some of the commands, in key order, as buckets of their slots. Contracts see the commands in that
/// order.
#[derive(Drop)]
pub struct KeyOrder<'a> {
    commands: &'a Vec<Command>,
    buckets: &'a Vec<VecDeque<Placed>>,
    // how many stand there
    len: usize,
}

impl<'a> Model for KeyOrder<'a> {
    ghost use Rattle.std.specs.Prelude.{List, map};
    ghost use Rattle.game_trait.specs.declared.command.Command.{Command as ACommand};
    ghost use Rattle.pending_list.specs.Sized.{joined};
    ghost use Rattle.pending_list.specs.Buckets.{AreSlots, commands_at};

    ghost Value = { List ACommand };

    ghost view = { λ k. commands_at k.commands.now.items (joined (map (λ b. b.items) k.buckets.now.items)) };

    ghost invariant = { λ k. AreSlots k.commands.now.items (map (λ b. b.items) k.buckets.now.items) k.len };
}

impl<'a> KeyOrder<'a> {
    /// The commands in the order in which their slots stand, so many.
    #[inline(always)]
    pub fn new(
        commands: &'a Vec<Command>,
        buckets: &'a Vec<VecDeque<Placed>>,
        len: usize,
    ) -> KeyOrder<'a>
        requires { AreSlots commands.now.items (map (λ b. b.items) buckets.now.items) len }
        ensures { result ≡ commands_at commands.now.items (joined (map (λ b. b.items) buckets.now.items)) }
    {
        KeyOrder {
            commands,
            buckets,
            len,
        }
    }

    /// How many commands there are.
    #[inline(always)]
    pub fn len(&self) -> usize
        ensures { result ≡ length self.now }
    {
        self.len
    }

    /// Whether the command at a place in the order stands before another.
    #[inline(always)]
    pub fn is_before(&self, place: usize, x: &Command) -> bool
        requires { place < length self.now }
        ensures { (d : _) → result ≡ before (slice_index_or self.now place d) x.now }
    {
        let placed = placed_at(self.buckets, place);
        if placed.time == x.time {
            stands_before(&self.commands[placed.slot as usize], x)
        } else {
            placed.time < x.time
        }
    }
}

// Whether one command stands before the other in key order.
#[tactic(auto, using(std::proofs::lemmas::Bool::Decides::nat_tests), unfolding(game_trait::specs::Keys::key_lt))]
fn stands_before(y: &Command, x: &Command) -> bool
    ensures { result ≡ before y.now x.now }
{
    if y.time == x.time {
        y.from < x.from || (y.from == x.from && y.number < x.number)
    } else {
        y.time < x.time
    }
}

// Whether the command at a place stands before another. Then all in front of it do as well, and
// else none from that place on does.
#[inline(always)]
fn is_passed_at(in_order: &KeyOrder, place: usize, x: &Command) -> bool
    requires rise { KeysRise in_order.now }
    requires there { place < length in_order.now }
    ensures passed { result ≡ true → AllBefore x.now in_order.now (place + 1) }
    ensures stopped { result ≡ false → NoneBefore x.now in_order.now place }
{
    in_order.is_before(place, x)
}

// The stretch of places, from the first to the last, at one of which a command stands. An
// exponential search from the end, each step 64 times the one before, since commands mostly come in
// order.
fn stretch_of(in_order: &KeyOrder, x: &Command) -> (usize, usize)
    requires { KeysRise in_order.now }
    ensures { IsStretch x.now in_order.now result.0 result.1 }
{
    let mut last = in_order.len();
    let mut step = 1;
    while step <= last {
        if is_passed_at(in_order, last - step, x) {
            return (last - step + 1, last);
        }
        last -= step;
        step = step.saturating_mul(STRIDE);
    }
    (0, last)
}

// The same place as `place_of`, by binary search in the stretch.
fn searched_place(in_order: &KeyOrder, x: &Command) -> usize
    requires { KeysRise in_order.now }
    ensures { IsStretch x.now in_order.now result result }
{
    let (mut first, mut last) = stretch_of(in_order, x);
    while first < last {
        let middle = first + (last - first) / 2;
        if is_passed_at(in_order, middle, x) {
            first = middle + 1;
        } else {
            last = middle;
        }
    }
    first
}

/// The place at which a command stands among those in key order, behind those before it. The two
/// ends need no search, and the exponential search finds a place near the end soon.
pub fn place_of(in_order: &KeyOrder, x: &Command) -> usize
    requires { KeysRise in_order.now }
    ensures within { result ≤ length in_order.now }
    ensures point { IsPartitionPoint (λ y. before y x.now ≡ true)
        (λ y. before y x.now ≡ false) in_order.now result }
{
    let len = in_order.len();
    if len == 0 || is_passed_at(in_order, len - 1, x) {
        return len;
    }
    if is_passed_at(in_order, 0, x) {
        searched_place(in_order, x)
    } else {
        0
    }
}

// Each command that is due before the tick stands before this one, and none that is due at it
// does.
fn first_at(t: Tick) -> Command
    ensures { result ≡ record { time = t; from = 0; number = 0; player = 0; act = Act.Go } }
{
    Command {
        time: t,
        from: 0,
        number: 0,
        player: 0,
        act: Act::Go,
    }
}

/// How many of the commands in key order are due before a tick.
pub fn due_before(in_order: &KeyOrder, t: Tick) -> usize
    requires { KeysRise in_order.now }
    ensures { result ≡ times (λ y. nat_lt y.time t) in_order.now }
{
    place_of(in_order, &first_at(t))
}
