//! The commands that arrive at the mirror of a peer that joins.

ghost use Rattle.std.specs.Prelude.{◌≡◌, ◌+◌, ◌++◌, ◌≤◌, IfOk, length};
ghost use Rattle.std.specs.Vec.{vec_capacity, vec_len};
ghost use Rattle.peer_model.specs.Peer.{numbered};
ghost use Rattle.peer_calls.specs.Handing.{arriving};
ghost use Rattle.peer_slots.specs.Queues.{queues_of};

use game_trait::{Act, Command, MirrorId};
use peer_packet::Commands;
use peer_queue::SlotQueue;
use peer_slots::Queues;
use std::alloc::{AllocError, Global};

// How many commands the queues have.
fn count_all(queues: &Queues) -> usize
    ensures { result ≡ length (arriving (queues_of queues.now).slots (queues_of queues.now).queues) }
{
    let mut count = 0usize;
    for slot in 0..queues.slots() {
        count += queues.get(slot).len() as usize;
    }
    count
}

// A slot's commands stand behind others, for which there is room.
fn push_slot(list: &mut Vec<Command>, slot: MirrorId, queue: &SlotQueue)
    requires { vec_len list.old + length queue.now.queue.commands ≤ vec_capacity list.old }
    ensures items { list.new.items ≡ list.old.items ++ numbered slot queue.now.queue.kept queue.now.queue.commands }
    ensures len { vec_len list.new ≡ vec_len list.old + length queue.now.queue.commands }
    ensures capacity { vec_capacity list.new ≡ vec_capacity list.old }
{
    queue.always();
    let kept = queue.kept();
    for place in 0..queue.len() {
        list.push_reserved(Command {
            time: queue.time(place as usize),
            number: kept + place,
            from: slot,
            player: 0,
            act: Act::Go,
        });
    }
}

// The commands of the queues, by rising slot and number, in memory that is taken once.
pub fn arriving(alloc: Global, queues: &Queues) -> Result<Vec<Command>, AllocError>
    ensures { IfOk result (λ v. v.items ≡ arriving (queues_of queues.now).slots (queues_of queues.now).queues) }
{
    let mut list = Vec::with_capacity(alloc, count_all(queues))?;
    for slot in 0..queues.slots() {
        push_slot(&mut list, slot, queues.get(slot));
    }
    Ok(list)
}
