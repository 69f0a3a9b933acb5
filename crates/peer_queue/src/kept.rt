//! Commands that are remembered, by their numbers.

ghost use Rattle.std.specs.Prelude.{◌≡◌, ◌-◌, ◌<◌, ◌↔◌, IfSome, IsSome, length, slice_index_or};
ghost use Rattle.peer_model.specs.Queue.{Sent};
ghost use Rattle.peer_queue.specs.Room.{IsKept};

use crate::queue::SlotQueue;
use game_trait::{Number, Tick};
use peer_packet::Commands;

impl SlotQueue {
    // The place of a number among what is remembered.
    fn place_of(&self, number: Number) -> Option<usize>
        ensures there { IsSome result ↔ IsKept number self.now.queue }
        ensures place { IfSome result (λ place. (place < length self.now.queue.commands) × (place ≡ number - self.now.queue.kept)) }
    {
        if number < self.kept() || self.have() <= number {
            return None;
        }
        Some((number - self.kept()) as usize)
    }

    /// The bytes of the command with a number, where it is remembered.
    pub fn payload_of(&self, number: Number) -> Option<&[u8]>
        ensures there { IsSome result ↔ IsKept number self.now.queue }
        ensures bytes { IfSome result (λ b. (d : Sent)
            → b.now ≡ (slice_index_or self.now.queue.commands (number - self.now.queue.kept) d).bytes) }
    {
        match self.place_of(number) {
            Some(place) => Some(self.payload(place)),
            None => None,
        }
    }

    /// The tick that the command with a number is due at, where it is remembered.
    pub fn time_of(&self, number: Number) -> Option<Tick>
        ensures there { IsSome result ↔ IsKept number self.now.queue }
        ensures time { IfSome result (λ t. (d : Sent)
            → t ≡ (slice_index_or self.now.queue.commands (number - self.now.queue.kept) d).time) }
    {
        match self.place_of(number) {
            Some(place) => Some(self.time(place)),
            None => None,
        }
    }
}
