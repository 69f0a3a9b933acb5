//! How many commands of each slot a peer has.

ghost use Rattle.std.specs.Prelude.{◌≡◌, ◌≤◌};
ghost use Rattle.tss_io.specs.Reading.{Answers};
ghost use Rattle.peer_packet.specs.Reading.{count_at, counts_at, vector_at};

use crate::fault::Fault;
use crate::fields::{check, u32_of, u64_of};
use arrayvec::ArrayVec;

/// A number for each slot.
pub type Counts = ArrayVec<u32, 64>;

#[tactic(auto, unfolding(crate::specs::Reading::count_at))]
fn count_of(is_set: bool, bytes: &[u8]) -> Result<(u32, &[u8]), Fault>
    ensures { Answers (λ x. (x.0, x.1.now)) result (count_at is_set bytes.now) }
{
    if !is_set {
        return Ok((0, bytes));
    }
    let (count, rest) = u32_of(Fault::Vector, bytes)?;
    check(0 < count, Fault::Vector)?;
    Ok((count, rest))
}

fn counts_of(slots: u8, mask: u64, bytes: &[u8]) -> Result<(Counts, &[u8]), Fault>
    requires { slots ≤ 64 }
    ensures { Answers (λ x. (x.0.items, x.1.now)) result (counts_at slots mask bytes.now) }
{
    let mut counts = ArrayVec::new();
    let mut left = mask;
    let mut rest = bytes;
    for _ in 0..slots {
        let (count, after) = count_of(left % 2 == 1, rest)?;
        counts.push(count);
        left /= 2;
        rest = after;
    }
    check(left == 0, Fault::Vector)?;
    Ok((counts, rest))
}

#[tactic(auto, unfolding(crate::specs::Reading::vector_at))]
pub fn vector_of(slots: u8, bytes: &[u8]) -> Result<(Counts, &[u8]), Fault>
    requires { slots ≤ 64 }
    ensures { Answers (λ x. (x.0.items, x.1.now)) result (vector_at slots bytes.now) }
{
    let (mask, rest) = u64_of(Fault::Vector, bytes)?;
    counts_of(slots, mask, rest)
}
