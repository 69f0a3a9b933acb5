//! The parts of a packet, checked in place.

ghost use Rattle.std.specs.Prelude.{◌≡◌, ◌≤◌, length};
ghost use Rattle.tss_io.specs.Reading.{Answers};
ghost use Rattle.peer_packet.specs.Packet.{is_part};
ghost use Rattle.peer_packet.specs.Reading.{sent_at, sents_at, head_at, part_at, parts_at, behind, passed, ended};
ghost use Rattle.peer_packet.specs.Seen.{sent_seen};

use crate::fault::Fault;
use crate::fields::{byte_of, check, piece_of, u16_of, u32_of};
use crate::terms::Terms;
use crate::vector::Counts;

/// A command in a packet's bytes.
#[derive(Clone, Copy, Debug)]
pub struct SentView<'a> {
    /// The tick that it is due at.
    pub time: u32,
    /// Its payload.
    pub payload: &'a [u8],
}

/// What a part begins with.
#[derive(Clone, Copy, Debug, PartialEq, Eq)]
pub struct PartHead {
    /// The slot whose commands they are.
    pub origin: u8,
    /// How many commands follow.
    pub count: u16,
    /// The number of the first.
    pub first: u32,
    /// The tick that the one before is due at, 0 where there is none.
    pub before: u32,
}

#[tactic(auto, unfolding(crate::specs::Reading::sent_at))]
pub fn sent_of(payload: u8, before: u32, bytes: &[u8]) -> Result<(SentView<'_>, &[u8]), Fault>
    ensures { Answers (λ x. (sent_seen x.0, x.1.now)) result (sent_at payload before bytes.now) }
{
    let (time, rest) = u32_of(Fault::Command, bytes)?;
    let (size, rest) = byte_of(Fault::Command, rest)?;
    check(before <= time && size <= payload, Fault::Command)?;
    let (payload, rest) = piece_of(size, Fault::Command, rest)?;
    Ok((SentView { time, payload }, rest))
}

// Passes so many commands.
pub fn pass_sents(payload: u8, count: u16, before: u32, bytes: &[u8]) -> Result<&[u8], Fault>
    ensures { Answers (λ r. r.now) result (behind (sents_at payload count before bytes.now)) }
{
    let mut last = before;
    let mut rest = bytes;
    for _ in 0..count {
        let (sent, after) = sent_of(payload, last, rest)?;
        last = sent.time;
        rest = after;
    }
    Ok(rest)
}

#[tactic(auto, unfolding(crate::specs::Reading::head_at))]
pub fn head_of(bytes: &[u8]) -> Result<(PartHead, &[u8]), Fault>
    ensures { Answers (λ x. (x.0, x.1.now)) result (head_at bytes.now) }
{
    let (origin, rest) = byte_of(Fault::Part, bytes)?;
    let (count, rest) = u16_of(Fault::Part, rest)?;
    let (first, rest) = u32_of(Fault::Part, rest)?;
    let (before, rest) = u32_of(Fault::Part, rest)?;
    let head = PartHead {
        origin,
        count,
        first,
        before,
    };
    Ok((head, rest))
}

fn is_part(slots: u8, to: u8, have: &Counts, least: u16, head: PartHead) -> bool
    requires { slots ≤ length have.now.items }
    ensures { result ≡ is_part slots to have.now.items least head }
{
    let origin = head.origin;
    if u16::from(origin) < least || origin >= slots || origin == to {
        return false;
    }
    let end = u64::from(head.first) + u64::from(head.count);
    end <= u64::from(have[usize::from(origin)])
        && (0 < head.first || (head.before == 0 && 0 < head.count))
}

// Passes a part: its origin, and what is behind it.
#[tactic(auto, unfolding(crate::specs::Reading::part_at))]
fn pass_part<'a>(
    terms: &Terms,
    to: u8,
    have: &Counts,
    least: u16,
    bytes: &'a [u8],
) -> Result<(u8, &'a [u8]), Fault>
    requires { terms.now.slots ≤ length have.now.items }
    ensures { Answers (λ x. (x.0, x.1.now)) result
        (passed (part_at (is_part terms.now.slots to have.now.items least) terms.now.payload bytes.now)) }
{
    let (head, rest) = head_of(bytes)?;
    check(is_part(terms.slots, to, have, least, head), Fault::Part)?;
    let rest = pass_sents(terms.payload, head.count, head.before, rest)?;
    Ok((head.origin, rest))
}

// Passes parts to the end.
pub fn pass_parts(terms: &Terms, to: u8, have: &Counts, bytes: &[u8]) -> Result<(), Fault>
    requires { terms.now.slots ≤ length have.now.items }
    ensures { Answers (λ _. tt) result (ended
        (parts_at (is_part terms.now.slots to have.now.items) terms.now.payload 0 terms.now.slots bytes.now)) }
{
    let mut least = 0;
    let mut rest = bytes;
    for _ in 0..terms.slots {
        if rest.is_empty() {
            return Ok(());
        }
        let (origin, after) = pass_part(terms, to, have, least, rest)?;
        least = u16::from(origin) + 1;
        rest = after;
    }
    check(rest.is_empty(), Fault::Part)
}
