//! What is due of a slot for another peer.

ghost use Rattle.std.specs.Prelude.{◌≡◌, ℕ, ◌+◌, ◌-◌, ◌≤◌, ◌<◌, ◌==◌, nat_le, if◌then◌else◌, IfSome, length, take, slice_index_or};
ghost use Rattle.game_trait.specs.Count.{times};
ghost use Rattle.peer_model.specs.Queue.{Sent, Queue, have_of, last_time};
ghost use Rattle.peer_model.specs.Due.{due_from};
ghost use Rattle.peer_queue.specs.Piece.{span_of, IsPieceOf};

use crate::queue::SlotQueue;
use game_trait::{Number, Tick};
use peer_packet::{Commands, Piece};

impl SlotQueue {
    // A command was due so many ticks ago.
    fn is_passed_on(&self, place: usize, relay: Tick, clock: Tick) -> bool
        requires { place < length self.now.queue.commands }
        ensures { (d : Sent) → result ≡ nat_le ((slice_index_or self.now.queue.commands place d).time + relay) clock }
    {
        u64::from(self.time(place)) + u64::from(relay) <= u64::from(clock)
    }

    // How many commands were due so many ticks ago: since times never fall, these are the first.
    fn passed_on(&self, relay: Tick, clock: Tick) -> u32
        ensures { result ≡ times (λ x. nat_le (x.time + relay) clock) self.now.queue.commands }
    {
        self.always();
        let mut low = 0;
        let mut high = self.len() as usize;
        while low < high {
            let middle = low + (high - low) / 2;
            if self.is_passed_on(middle, relay, clock) {
                low = middle + 1;
            } else {
                high = middle;
            }
        }
        low as u32
    }

    // How many of the commands are sent: all of the own slot's, and of another's those that were due so many
    // ticks ago.
    fn sendable(&self, is_own: bool, relay: Tick, clock: Tick) -> u32
        ensures count { result ≡ (if is_own then length self.now.queue.commands
            else times (λ x. nat_le (x.time + relay) clock) self.now.queue.commands) }
        ensures few { result ≤ length self.now.queue.commands }
    {
        if is_own {
            self.len()
        } else {
            self.passed_on(relay, clock)
        }
    }

    // The tick that the command before a place is due at.
    fn time_before(&self, place: usize) -> Tick
        requires { place ≤ length self.now.queue.commands }
        ensures { result ≡ last_time self.now.queue.gone (take place self.now.queue.commands) }
    {
        if place == 0 {
            self.gone()
        } else {
            self.time(place - 1)
        }
    }

    // So many numbers from one on.
    fn piece(&self, origin: u8, first: Number, count: u32) -> Piece
        requires kept { self.now.queue.kept ≤ first }
        requires there { first + count ≤ have_of self.now.queue }
        ensures span { (result.origin ≡ origin) × (result.first ≡ first) × (result.count ≡ count) }
        ensures piece { IsPieceOf self.now.queue result }
    {
        self.always();
        let from = (first - self.kept()) as usize;
        Piece {
            origin,
            first,
            before: self.time_before(from),
            from,
            count: count as usize,
        }
    }

    /// What is due of slot `origin` for another peer that is known to have the numbers below `known`, at a
    /// clock: the numbers from there on, or from what is remembered, all of them where the slot is the own
    /// one, else those that were due `relay` ticks ago. Where there are none, but the other one may lack some
    /// that are forgotten, it is an empty piece that tells so.
    pub fn due_for(
        &self,
        origin: u8,
        is_own: bool,
        relay: Tick,
        known: Number,
        clock: Tick,
    ) -> Option<Piece>
        ensures due { (me : ℕ) (queues : ℕ → Queue) (knows : ℕ → ℕ)
            → (origin == me) ≡ is_own → queues origin ≡ self.now.queue → knows origin ≡ known
            → span_of result ≡ due_from me relay origin queues knows clock }
        ensures piece { IfSome result (IsPieceOf self.now.queue) }
    {
        self.always();
        let kept = self.kept();
        let end = kept + self.sendable(is_own, relay, clock);
        let first = known.max(kept);
        if first < end {
            return Some(self.piece(origin, first, end - first));
        }
        if known < kept && kept == end {
            return Some(self.piece(origin, kept, 0));
        }
        None
    }
}
