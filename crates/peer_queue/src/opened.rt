//! A queue out of a snapshot.

ghost use Rattle.std.specs.Prelude.{◌≡◌, ◌^◌, ◌≤◌, ◌<◌, IfOk, length};
ghost use Rattle.peer_calls.specs.Handing.{queue_taken};
ghost use Rattle.peer_queue.specs.Room.{IsHandedOver};

use crate::queue::SlotQueue;
use crate::sent::SentBytes;
use game_trait::Number;
use peer_packet::QueueView;
use std::alloc::{AllocError, Global};

impl SlotQueue {
    /// The queue of a slot of which `have` commands were counted, as a snapshot hands it over, in a room of
    /// its own.
    pub fn opened(
        alloc: Global,
        room: u32,
        have: Number,
        queue: &QueueView<'_>,
    ) -> Result<SlotQueue, AllocError>
        requires in_reach { room < 2 ^ 16 }
        requires room { length queue.now.commands ≤ room }
        requires handed { IsHandedOver have queue.now }
        ensures { IfOk result (λ q. q ≡ record { queue = queue_taken have queue.now; room = room }) }
    {
        let head = queue.head();
        let kept = have - u32::from(head.count);
        let mut opened = SlotQueue::beginning(alloc, room, kept, head.before, head.late)?;
        let mut commands = queue.commands();
        while let Some(x) = commands.next() {
            opened.own(&SentBytes::new(x.time, x.payload));
        }
        Ok(opened)
    }
}
