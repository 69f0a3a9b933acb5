//! A new link.

ghost use Rattle.std.specs.Prelude.{◌≡◌, ◌≤◌, [], IfOk};
ghost use Rattle.link_ring.specs.Ends.{sent_of, room_of, received_of, waiting_of, misses_of, IsLink};

use crate::receive::LinkReceive;
use crate::send::LinkSend;
use rtrb::RingBuffer;
use std::alloc::Global;
use tss_base::NoMemory;

/// A link for at most `room` messages in all, at least 1: the end that sends and the end that
/// receives. Nothing was sent, and nothing missed. On `NoMemory` nothing is created.
pub fn link(alloc: Global, room: u32) -> Result<(LinkSend, LinkReceive), NoMemory>
    requires { 1 ≤ room }
    ensures sent { IfOk result (λ r. sent_of r.0 ≡ []) }
    ensures room { IfOk result (λ r. room_of r.0 ≡ room) }
    ensures received { IfOk result (λ r. received_of r.1 ≡ []) }
    ensures waiting { IfOk result (λ r. waiting_of r.1 ≡ []) }
    ensures misses { IfOk result (λ r. misses_of r.1 ≡ 0) }
    ensures pair { IfOk result (λ r. IsLink r.0 r.1) }
{
    let (producer, consumer) = RingBuffer::new(alloc, room as usize)?;
    Ok((LinkSend::new(producer), LinkReceive::new(consumer)))
}
