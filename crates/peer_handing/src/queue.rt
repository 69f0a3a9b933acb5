//! A slot's queue, as a snapshot has it: what is due from a tick on.

ghost use Rattle.std.specs.Prelude.{◌≡◌, ◌+◌, ◌^◌, ◌≤◌, ◌<◌, length, take};
ghost use Rattle.peer_model.specs.Queue.{front_before, last_time, trimmed};
ghost use Rattle.peer_packet.specs.Putting.{Puts};
ghost use Rattle.peer_packet.specs.Snapshot.{queue_bytes};
ghost use Rattle.peer_calls.specs.Handing.{queue_handed};

use crate::commands::{commands_size, put_commands};
use game_trait::Tick;
use peer_packet::{Commands, QueueHead, put_queue_head};
use peer_queue::SlotQueue;

// How many commands are due before a tick: what is due at this clock for another peer that has none of them,
// where commands are passed on one tick late.
fn passed(queue: &SlotQueue, tick: Tick) -> usize
    ensures passed { result ≡ front_before tick queue.now.queue.commands }
    ensures within { result ≤ length queue.now.queue.commands }
{
    queue.always();
    match queue.due_for(0, false, 1, queue.kept(), tick) {
        Some(piece) => piece.count,
        None => 0,
    }
}

// The tick that the command before a place is due at.
fn time_before(queue: &SlotQueue, place: usize) -> Tick
    requires { place ≤ length queue.now.queue.commands }
    ensures { result ≡ last_time queue.now.queue.gone (take place queue.now.queue.commands) }
{
    if place == 0 {
        queue.gone()
    } else {
        queue.time(place - 1)
    }
}

/// How many bytes a queue has, of what is due from a tick on.
pub fn queue_size(queue: &SlotQueue, from: Tick) -> usize
    ensures size { result ≡ length (queue_bytes (queue_handed (trimmed from queue.now.queue))) }
    ensures few { result < 2 ^ 25 }
{
    queue.always();
    let first = passed(queue, from);
    let count = queue.len() as usize - first;
    10 + commands_size(queue, first, count)
}

/// Puts a queue behind a place, and answers the place behind it.
pub fn put_queue(out: &mut [u8], at: usize, queue: &SlotQueue, from: Tick) -> usize
    requires { at + length (queue_bytes (queue_handed (trimmed from queue.now.queue))) ≤ length out.old }
    ensures { Puts out.old out.new at result (queue_bytes (queue_handed (trimmed from queue.now.queue))) }
{
    queue.always();
    let first = passed(queue, from);
    let count = queue.len() as usize - first;
    let head = QueueHead {
        late: queue.late(),
        count: count as u16,
        before: time_before(queue, first),
    };
    let at = put_queue_head(out, at, &head);
    put_commands(out, at, queue, first, count)
}
