//! The queues of all slots, as a snapshot has them.

ghost use Rattle.std.specs.Prelude.{◌≡◌, ◌+◌, ◌^◌, ◌≤◌, ◌<◌, length};
ghost use Rattle.std.specs.List.{flat_map};
ghost use Rattle.peer_packet.specs.Packet.{count_bytes, counts_bytes};
ghost use Rattle.peer_packet.specs.Putting.{Puts};
ghost use Rattle.peer_packet.specs.Snapshot.{queue_bytes};
ghost use Rattle.peer_model.specs.Queue.{have_of};
ghost use Rattle.peer_calls.specs.Sending.{counts_of};
ghost use Rattle.peer_calls.specs.Handing.{queues_handed};
ghost use Rattle.peer_slots.specs.Queues.{queues_of};
ghost use Rattle.peer_handing.specs.Handing.{handed_of};

use crate::queue::{put_queue, queue_size};
use game_trait::Tick;
use peer_queue::SlotQueue;
use peer_slots::Queues;

// How many bytes stand of a slot: its count and its queue, or nothing where it hasn't issued.
fn slot_size(queue: &SlotQueue, from: Tick) -> usize
    ensures size { result ≡ length (count_bytes (have_of queue.now.queue)) + length (flat_map queue_bytes (handed_of from queue.now.queue)) }
    ensures few { result < 2 ^ 26 }
{
    if queue.have() == 0 {
        return 0;
    }
    4 + queue_size(queue, from)
}

/// How many bytes stand of all slots.
pub fn slots_size(queues: &Queues, from: Tick) -> usize
    ensures size { result ≡ length (counts_bytes (counts_of (queues_of queues.now).slots (queues_of queues.now).queues))
        + length (flat_map queue_bytes (queues_handed from (queues_of queues.now).slots (queues_of queues.now).queues)) }
    ensures few { result < 2 ^ 32 }
{
    queues.always();
    let mut size = 0;
    for slot in 0..queues.slots() {
        size += slot_size(queues.get(slot), from);
    }
    size
}

// Puts the queue of a slot that has issued.
fn put_slot(out: &mut [u8], at: usize, queue: &SlotQueue, from: Tick) -> usize
    requires { at + length (flat_map queue_bytes (handed_of from queue.now.queue)) ≤ length out.old }
    ensures { Puts out.old out.new at result (flat_map queue_bytes (handed_of from queue.now.queue)) }
{
    if queue.have() == 0 {
        return at;
    }
    put_queue(out, at, queue, from)
}

/// Puts the queues of the slots that have issued, and answers the place behind them.
pub fn put_slots(out: &mut [u8], at: usize, queues: &Queues, from: Tick) -> usize
    requires { at + length (flat_map queue_bytes (queues_handed from (queues_of queues.now).slots (queues_of queues.now).queues)) ≤ length out.old }
    ensures { Puts out.old out.new at result (flat_map queue_bytes (queues_handed from (queues_of queues.now).slots (queues_of queues.now).queues)) }
{
    let mut behind = at;
    for slot in 0..queues.slots() {
        behind = put_slot(out, behind, queues.get(slot), from);
    }
    behind
}
