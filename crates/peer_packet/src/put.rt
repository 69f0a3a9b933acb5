//! Putting packets into a buffer, piece by piece. No call takes memory.

ghost use Rattle.std.specs.Prelude.{◌≡◌, ◌≤◌, ◌<◌, ◌+◌, ◌++◌, ◌^◌, length, take};
ghost use Rattle.std.specs.Int.{w16, w32, w64, to_le_bytes};
ghost use Rattle.std.specs.List.{flat_map};
ghost use Rattle.peer_packet.specs.Packet.{bit_of, mask_of, count_bytes, counts_bytes, vector_bytes, mark_bytes, head_bytes, sent_bytes, front_text};
ghost use Rattle.peer_packet.specs.Putting.{Puts};
ghost use Rattle.peer_packet.specs.Snapshot.{opening_bytes, queue_head_bytes};

use crate::front::Front;
use crate::part::PartHead;
use crate::snapshot::{Opening, QueueHead};
use crate::terms::Terms;

/// Puts bytes at a place, and answers the place behind them.
pub fn put(out: &mut [u8], at: usize, bytes: &[u8]) -> usize
    requires { at + length bytes.now ≤ length out.old }
    ensures { Puts out.old out.new at result bytes.now }
{
    let (_, rest) = out.split_at_mut(at);
    let (place, _) = rest.split_at_mut(bytes.len());
    place.copy_from_slice(bytes);
    at + bytes.len()
}

/// Puts what a packet begins with, up to its counts: 20 bytes.
pub fn put_front(out: &mut [u8], at: usize, session: u64, front: &Front) -> usize
    requires { at + 20 ≤ length out.old }
    ensures { Puts out.old out.new at result (front_text session front.now) }
{
    let at = put(out, at, &[1]);
    let at = put(out, at, &session.to_le_bytes());
    let at = put(out, at, &[front.from, front.to, front.flag]);
    let at = put(out, at, &front.clock.to_le_bytes());
    put(out, at, &front.echo.to_le_bytes())
}

/// Puts what a snapshot begins with, up to its counts: 20 bytes.
pub fn put_opening(out: &mut [u8], at: usize, terms: &Terms, opening: &Opening) -> usize
    requires { at + 20 ≤ length out.old }
    ensures { Puts out.old out.new at result (opening_bytes terms.now opening.now) }
{
    let at = put(out, at, &[2]);
    let at = put(out, at, &terms.session.to_le_bytes());
    let at = put(out, at, &[terms.slots, terms.payload, opening.maker]);
    let at = put(out, at, &opening.base.to_le_bytes());
    put(out, at, &opening.clock.to_le_bytes())
}

fn bit_of(count: u32) -> u64
    ensures { result ≡ bit_of count }
{
    if 0 < count { 1 } else { 0 }
}

fn mask_of(have: &[u32]) -> u64
    requires { length have.now ≤ 64 }
    ensures { result ≡ mask_of have.now }
{
    let mut mask = 0;
    let mut left = have.len();
    while left > 0 {
        left -= 1;
        mask = 2 * mask + bit_of(have[left]);
    }
    mask
}

fn put_count(out: &mut [u8], at: usize, count: u32) -> usize
    requires { at + length (count_bytes count) ≤ length out.old }
    ensures { Puts out.old out.new at result (count_bytes count) }
{
    if 0 < count {
        put(out, at, &count.to_le_bytes())
    } else {
        at
    }
}

fn put_counts(out: &mut [u8], at: usize, have: &[u32]) -> usize
    requires { at + length (counts_bytes have.now) ≤ length out.old }
    ensures { Puts out.old out.new at result (counts_bytes have.now) }
{
    let mut place = at;
    for count in have {
        place = put_count(out, place, *count);
    }
    place
}

/// Puts how many commands of each slot the sender has.
pub fn put_vector(out: &mut [u8], at: usize, have: &[u32]) -> usize
    requires slots { length have.now ≤ 64 }
    requires room { at + length (vector_bytes have.now) ≤ length out.old }
    ensures { Puts out.old out.new at result (vector_bytes have.now) }
{
    let at = put(out, at, &mask_of(have).to_le_bytes());
    put_counts(out, at, have)
}

/// Puts the newest mark, where there is one.
pub fn put_mark(out: &mut [u8], at: usize, mark: Option<(u32, u32)>) -> usize
    requires { at + length (mark_bytes mark) ≤ length out.old }
    ensures { Puts out.old out.new at result (mark_bytes mark) }
{
    match mark {
        None => at,
        Some((tick, sum)) => {
            let at = put(out, at, &tick.to_le_bytes());
            put(out, at, &sum.to_le_bytes())
        }
    }
}

/// Puts what a part begins with.
pub fn put_head(out: &mut [u8], at: usize, head: &PartHead) -> usize
    requires { at + 11 ≤ length out.old }
    ensures { Puts out.old out.new at result (head_bytes head.now) }
{
    let at = put(out, at, &[head.origin]);
    let at = put(out, at, &head.count.to_le_bytes());
    let at = put(out, at, &head.first.to_le_bytes());
    put(out, at, &head.before.to_le_bytes())
}

/// Puts what a slot's queue begins with in a snapshot.
pub fn put_queue_head(out: &mut [u8], at: usize, head: &QueueHead) -> usize
    requires { at + 10 ≤ length out.old }
    ensures { Puts out.old out.new at result (queue_head_bytes head.now) }
{
    let at = put(out, at, &head.late.to_le_bytes());
    let at = put(out, at, &head.count.to_le_bytes());
    put(out, at, &head.before.to_le_bytes())
}

/// Puts a command.
pub fn put_sent(out: &mut [u8], at: usize, time: u32, payload: &[u8]) -> usize
    requires short { length payload.now < 256 }
    requires room { at + (5 + length payload.now) ≤ length out.old }
    ensures { Puts out.old out.new at result (sent_bytes (record { time = time; payload = payload.now })) }
{
    let at = put(out, at, &time.to_le_bytes());
    let at = put(out, at, &[payload.len() as u8]);
    put(out, at, payload)
}
