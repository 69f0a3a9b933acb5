//! What a packet for another peer is put from, and putting it slot by slot.

ghost use Rattle.std.specs.Prelude.{◌≡◌, ℕ, ◌+◌, ◌*◌, ◌-◌, ◌^◌, ◌≤◌, ◌<◌, ◌==◌, not, IfSome, IfNone, length, nat_lt, if◌then◌else◌};
ghost use Rattle.std.specs.List.{flat_map};
ghost use Rattle.peer_packet.specs.Packet.{part_bytes};
ghost use Rattle.peer_packet.specs.Putting.{Puts};
ghost use Rattle.peer_packet.specs.Filling.{at_start, behind_cursor, filled, put_in, weight};
ghost use Rattle.peer_slots.specs.Links.{links_of};
ghost use Rattle.peer_slots.specs.Queues.{queues_of};
ghost use Rattle.peer_sending.specs.Pieces.{Fits, parts_of};
ghost use Rattle.peer_sending.specs.Filling.{EndsWith, GoesOn};
ghost use Rattle.peer_sending.specs.Supply.{IsLegal, supply_of, sent_at, piece_weight, due_at, all_due, waiting};

use crate::later::behind;
use crate::step::{Step, put_piece};
use game_trait::{MirrorId, Tick};
use peer_packet::{Cursor, Piece};
use peer_queue::SlotQueue;
use peer_slots::{Links, Queues};
use std::marker::Model;

/// What a packet for another peer is put from.
#[derive(Drop)]
pub struct Supply<'a> {
    me: MirrorId,
    to: MirrorId,
    clock: Tick,
    relay: Tick,
    queues: &'a Queues,
    links: &'a Links,
}

impl<'a> Model for Supply<'a> {
    ghost use Rattle.peer_sending.specs.Supply.{SupplyLists, IsSupply};

    ghost Value = { SupplyLists };

    ghost view = { λ s. record {
      me = s.me;
      to = s.to;
      clock = s.clock;
      relay = s.relay;
      queues = s.queues.now;
      links = s.links.now;
    } };

    ghost invariant = { λ s. IsSupply (record {
      me = s.me;
      to = s.to;
      clock = s.clock;
      relay = s.relay;
      queues = s.queues.now;
      links = s.links.now;
    }) };
}

// How much is due, and how much of it waits behind a cursor: so many parts and commands.
#[derive(Clone, Copy, Debug)]
struct Weights {
    due: usize,
    waiting: usize,
}

// What was put of what waits: the place behind it, how many parts and commands it has, and where the next packet
// goes on.
#[derive(Clone, Copy, Debug)]
struct Put {
    behind: usize,
    weight: usize,
    cursor: Cursor,
}

/// What was put of what is due.
#[derive(Clone, Copy, Debug)]
pub struct Filled {
    /// The place behind it.
    pub behind: usize,
    /// More is due than was put.
    pub is_more: bool,
    /// Where the next packet goes on.
    pub cursor: Cursor,
}

// How many parts and commands a piece is.
fn weight_of(piece: Option<Piece>) -> usize
    requires { IfSome piece (λ x. x.count < 2 ^ 16) }
    ensures { result ≡ piece_weight piece }
{
    match piece {
        None => 0,
        Some(piece) => 1 + piece.count,
    }
}

// Where a packet begins: at the cursor, or anew where nothing waits behind it.
fn beginning(waits: usize, cursor: Cursor) -> Cursor
    ensures { result ≡ (if nat_lt 0 waits then cursor else at_start) }
{
    if 0 < waits {
        cursor
    } else {
        Cursor { slot: 0, number: 0 }
    }
}

impl<'a> Supply<'a> {
    /// What a packet from `me` to another one of its session is put from, at a clock, where others' commands
    /// are passed on `relay` ticks after they were due.
    pub fn of(
        ends: (MirrorId, MirrorId),
        clock: Tick,
        relay: Tick,
        queues: &'a Queues,
        links: &'a Links,
    ) -> Supply<'a>
        requires to { ends.1 < (queues_of queues.now).slots }
        requires slots { (links_of links.now).slots ≡ (queues_of queues.now).slots }
        ensures { result ≡ record {
          me = ends.0;
          to = ends.1;
          clock = clock;
          relay = relay;
          queues = queues.now;
          links = links.now;
        } }
    {
        Supply {
            me: ends.0,
            to: ends.1,
            clock,
            relay,
            queues,
            links,
        }
    }

    // How many slots there are.
    fn slots(&self) -> u8
        ensures { result ≡ (supply_of self.now).slots }
    {
        self.links.slots()
    }

    // The queue of a slot.
    fn queue(&self, origin: MirrorId) -> &'a SlotQueue
        requires { origin < (supply_of self.now).slots }
        ensures { result.now.queue ≡ (supply_of self.now).queues origin }
    {
        self.queues.get(origin)
    }

    // What is always true of the queue of a slot.
    fn look(&self, origin: MirrorId)
        requires { origin < (supply_of self.now).slots }
        ensures { IsLegal ((supply_of self.now).queues origin) }
    {
        let queue = self.queue(origin);
        queue.always();
        let _last = queue.last();
    }

    // What is due of a slot.
    fn due(&self, origin: MirrorId) -> Option<Piece>
        requires { origin < (supply_of self.now).slots }
        ensures parts { parts_of result (sent_at (supply_of self.now) origin) ≡ due_at (supply_of self.now) origin }
        ensures fits { IfSome result (λ x. Fits x (sent_at (supply_of self.now) origin)) }
    {
        if origin == self.to {
            return None;
        }
        let queue = self.queue(origin);
        let known = self.links.known(self.to, origin);
        queue.always();
        queue.due_for(origin, origin == self.me, self.relay, known, self.clock)
    }

    // What waits behind a cursor of what is due of a slot.
    fn behind(&self, cursor: Cursor, origin: MirrorId, due: Option<Piece>) -> Option<Piece>
        requires slot { origin < (supply_of self.now).slots }
        requires due { parts_of due (sent_at (supply_of self.now) origin) ≡ due_at (supply_of self.now) origin }
        requires fits { IfSome due (λ x. Fits x (sent_at (supply_of self.now) origin)) }
        ensures parts { parts_of result (sent_at (supply_of self.now) origin) ≡ behind_cursor cursor (due_at (supply_of self.now) origin) }
        ensures fits { IfSome result (λ x. Fits x (sent_at (supply_of self.now) origin)) }
    {
        match due {
            None => None,
            Some(piece) => behind(cursor, &piece, self.queue(origin)),
        }
    }

    // How much is due, and how much waits behind a cursor.
    fn weigh(&self, cursor: Cursor) -> Weights
        ensures due { result.due ≡ weight (all_due (supply_of self.now)) }
        ensures waiting { result.waiting ≡ weight (waiting cursor (supply_of self.now)) }
        ensures legal { (o : ℕ) → o < (supply_of self.now).slots → IsLegal ((supply_of self.now).queues o) }
    {
        let mut due = 0;
        let mut waiting = 0;
        for origin in 0..self.slots() {
            self.look(origin);
            let piece = self.due(origin);
            due += weight_of(piece);
            waiting += weight_of(self.behind(cursor, origin, piece));
        }
        Weights { due, waiting }
    }

    // Puts what waits of a slot behind a place.
    fn put_slot(&self, out: &mut [u8], at: usize, cursor: Cursor, origin: MirrorId) -> Step
        requires slot { origin < (supply_of self.now).slots }
        requires place { at ≤ length out.old }
        ensures bytes { Puts out.old out.new at result.behind (flat_map part_bytes
            (filled (length out.old - at) (behind_cursor cursor (due_at (supply_of self.now) origin))).parts) }
        ensures weight { result.weight ≡ weight (filled (length out.old - at) (behind_cursor cursor (due_at (supply_of self.now) origin))).parts }
        ensures goes { IfNone result.end
            (GoesOn (length out.old - at) (length out.old - result.behind) (behind_cursor cursor (due_at (supply_of self.now) origin))) }
        ensures ends { IfSome result.end (λ c. EndsWith (length out.old - at) (behind_cursor cursor (due_at (supply_of self.now) origin)) c) }
    {
        let due = self.due(origin);
        match self.behind(cursor, origin, due) {
            None => Step {
                behind: at,
                weight: 0,
                end: None,
            },
            Some(piece) => put_piece(out, at, &piece, self.queue(origin)),
        }
    }

    // Puts what waits behind a cursor, as much of it as there is room for, behind a place.
    fn put(&self, out: &mut [u8], at: usize, cursor: Cursor) -> Put
        requires { at ≤ length out.old }
        ensures bytes { Puts out.old out.new at result.behind
            (flat_map part_bytes (filled (length out.old - at) (waiting cursor (supply_of self.now))).parts) }
        ensures weight { result.weight ≡ weight (filled (length out.old - at) (waiting cursor (supply_of self.now))).parts }
        ensures cursor { result.cursor ≡ (filled (length out.old - at) (waiting cursor (supply_of self.now))).cursor }
    {
        let mut behind = at;
        let mut weight = 0;
        for origin in 0..self.slots() {
            let step = self.put_slot(out, behind, cursor, origin);
            behind = step.behind;
            weight += step.weight;
            if let Some(cursor) = step.end {
                return Put {
                    behind,
                    weight,
                    cursor,
                };
            }
        }
        Put {
            behind,
            weight,
            cursor: Cursor { slot: 0, number: 0 },
        }
    }

    /// Puts what is due behind a place, as much of it as there is room for, from where the last packet ended.
    pub fn fill(&self, out: &mut [u8], at: usize, cursor: Cursor) -> Filled
        requires { at ≤ length out.old }
        ensures bytes { Puts out.old out.new at result.behind
            (flat_map part_bytes (put_in cursor (length out.old - at) (all_due (supply_of self.now))).parts) }
        ensures cursor { result.cursor ≡ (put_in cursor (length out.old - at) (all_due (supply_of self.now))).cursor }
        ensures more { result.is_more
            ≡ not (weight (put_in cursor (length out.old - at) (all_due (supply_of self.now))).parts == weight (all_due (supply_of self.now))) }
        ensures legal { (o : ℕ) → o < (supply_of self.now).slots → IsLegal ((supply_of self.now).queues o) }
    {
        let weights = self.weigh(cursor);
        let put = self.put(out, at, beginning(weights.waiting, cursor));
        Filled {
            behind: put.behind,
            is_more: put.weight != weights.due,
            cursor: put.cursor,
        }
    }
}
