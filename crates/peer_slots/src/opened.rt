//! The queues of all slots out of a snapshot.

ghost use Rattle.std.specs.Prelude.{◌≡◌, ◌^◌, ◌<◌, IfOk, false, length};
ghost use Rattle.peer_calls.specs.Handing.{queues_taken, is_crowded};
ghost use Rattle.peer_slots.specs.Queues.{queues_of};
ghost use Rattle.peer_slots.specs.Opened.{IsOfSession, IsNextHanded, AreHanded, next_taken, left_behind, all_taken};

use crate::queues::Queues;
use game_trait::Number;
use peer_packet::{QueuesView, SnapshotView};
use peer_queue::SlotQueue;
use std::alloc::{AllocError, Global};

// The queue of a slot of which `have` commands were counted: the next of those that are left, where there
// are any.
fn open_next(
    alloc: Global,
    room: u32,
    have: Number,
    left: &mut QueuesView<'_>,
) -> Result<SlotQueue, AllocError>
    requires in_reach { room < 2 ^ 16 }
    requires handed { 0 < have → IsNextHanded room have left.old }
    ensures queue { IfOk result (λ q. q ≡ record { queue = next_taken have left.old; room = room }) }
    ensures left { left.new ≡ left_behind have left.old }
{
    if have == 0 {
        return SlotQueue::new(alloc, room);
    }
    match left.next() {
        Some(queue) => SlotQueue::opened(alloc, room, have, &queue),
        None => SlotQueue::new(alloc, room),
    }
}

// The queues of slots of which so many commands were counted.
fn open_queues(
    alloc: Global,
    room: u32,
    have: &[Number],
    queues: QueuesView<'_>,
) -> Result<Vec<SlotQueue>, AllocError>
    requires in_reach { room < 2 ^ 16 }
    requires handed { AreHanded room have.now queues }
    ensures { IfOk result (λ v. v.items ≡ all_taken room have.now queues.entry) }
{
    let mut list = Vec::with_capacity(alloc, have.len())?;
    let mut left = queues;
    for count in have {
        list.push_reserved(open_next(alloc, room, *count, &mut left)?);
    }
    Ok(list)
}

impl Queues {
    /// The queues that a snapshot hands over, each with room for `room` commands at once, fewer than 2^16 and
    /// no fewer than any of them has.
    pub fn opened(alloc: Global, room: u32, snap: &SnapshotView<'_>) -> Result<Queues, AllocError>
        requires snapshot { IsOfSession snap.now }
        requires in_reach { room < 2 ^ 16 }
        requires few { is_crowded room snap.now ≡ false }
        ensures { IfOk result (λ q. queues_of q
            ≡ record { slots = length snap.now.have; room = room; queues = queues_taken snap.now.have snap.now.queues }) }
    {
        Ok(Queues {
            list: open_queues(alloc, room, snap.have(), snap.queues())?,
            room,
        })
    }
}
