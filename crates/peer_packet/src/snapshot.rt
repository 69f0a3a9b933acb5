//! A snapshot, read in place.

ghost use Rattle.std.specs.Prelude.{◌≡◌, ◌≤◌, Ok, Err, IfOk, IfErr, length, take};
ghost use Rattle.tss_io.specs.Reading.{Answers};
ghost use Rattle.peer_packet.specs.Packet.{AreTerms};
ghost use Rattle.peer_packet.specs.Reading.{behind};
ghost use Rattle.peer_packet.specs.Snapshot.{Snapshot, IsSnapshot, snapshot_bytes, is_queue, issued, queue_head_at, queue_at, queues_at, opening_at, snapshot_at};
ghost use Rattle.peer_packet.specs.Slots.{slot_behind};

use crate::fault::Fault;
use crate::fields::{byte_of, check, u16_of, u32_of, u64_of};
use crate::part::pass_sents;
use crate::put::{put, put_opening, put_vector};
use crate::terms::Terms;
use crate::vector::{Counts, vector_of};
use crate::walk::QueuesView;
use std::marker::Model;

/// What a snapshot begins with.
#[derive(Clone, Copy, Debug, PartialEq, Eq)]
pub struct Opening {
    /// The slot of who made it.
    pub maker: u8,
    /// Its last copy's clock.
    pub base: u32,
    /// Its clock.
    pub clock: u32,
}

/// What a slot's queue begins with.
#[derive(Clone, Copy, Debug, PartialEq, Eq)]
pub struct QueueHead {
    /// How many of the slot's commands were late.
    pub late: u32,
    /// How many commands follow.
    pub count: u16,
    /// The tick that the one before is due at, 0 where there is none.
    pub before: u32,
}

/// A snapshot over its bytes. It takes no memory.
#[derive(Debug, Drop)]
pub struct SnapshotView<'a> {
    opening: Opening,
    have: Counts,
    queues: &'a [u8],
}

impl<'a> Model for SnapshotView<'a> {
    ghost use Rattle.peer_packet.specs.Snapshot.{Snapshot, AreShown, queues_in};

    ghost Value = { Snapshot };

    ghost view = { λ s. record {
      maker = s.opening.maker;
      base = s.opening.base;
      clock = s.opening.clock;
      have = s.have.items;
      queues = queues_in s.opening.base s.queues.now;
    } };

    ghost invariant = { λ s. AreShown s.opening.base s.have.items s.queues.now };
}

#[tactic(auto, unfolding(crate::specs::Snapshot::queue_head_at))]
pub fn queue_head_of(bytes: &[u8]) -> Result<(QueueHead, &[u8]), Fault>
    ensures { Answers (λ x. (x.0, x.1.now)) result (queue_head_at bytes.now) }
{
    let (late, rest) = u32_of(Fault::Part, bytes)?;
    let (count, rest) = u16_of(Fault::Part, rest)?;
    let (before, rest) = u32_of(Fault::Part, rest)?;
    let head = QueueHead {
        late,
        count,
        before,
    };
    Ok((head, rest))
}

#[tactic(auto, unfolding(crate::specs::Snapshot::is_queue))]
fn is_queue(base: u32, have: u32, head: QueueHead) -> bool
    ensures { result ≡ is_queue base have head }
{
    let count = u32::from(head.count);
    if u64::from(head.late) + u64::from(count) > u64::from(have) {
        return false;
    }
    if count == have {
        head.before == 0
    } else {
        head.before < base
    }
}

// Passes a slot's queue.
#[tactic(auto, unfolding(crate::specs::Snapshot::queue_at))]
fn pass_queue(payload: u8, base: u32, have: u32, bytes: &[u8]) -> Result<&[u8], Fault>
    ensures { Answers (λ r. r.now) result (behind (queue_at payload base have bytes.now)) }
{
    let (head, rest) = queue_head_of(bytes)?;
    check(is_queue(base, have, head), Fault::Part)?;
    pass_sents(payload, head.count, base, rest)
}

// Passes what stands of a slot.
fn pass_slot(payload: u8, base: u32, have: u32, bytes: &[u8]) -> Result<&[u8], Fault>
    ensures { Answers (λ r. r.now) result (slot_behind payload base have bytes.now) }
{
    if 0 < have {
        pass_queue(payload, base, have, bytes)
    } else {
        Ok(bytes)
    }
}

// Passes the queues of the slots that have issued.
fn pass_queues<'a>(payload: u8, base: u32, have: &[u32], bytes: &'a [u8]) -> Result<&'a [u8], Fault>
    ensures { Answers (λ r. r.now) result (behind (queues_at payload base (issued have.now) bytes.now)) }
{
    let mut rest = bytes;
    for count in have {
        rest = pass_slot(payload, base, *count, rest)?;
    }
    Ok(rest)
}

#[tactic(auto, unfolding(crate::specs::Snapshot::opening_at))]
fn opening_of<'a>(terms: &Terms, bytes: &'a [u8]) -> Result<(Opening, &'a [u8]), Fault>
    ensures { Answers (λ x. (x.0, x.1.now)) result (opening_at terms.now bytes.now) }
{
    let (kind, rest) = byte_of(Fault::Kind, bytes)?;
    check(kind == 2, Fault::Kind)?;
    let (session, rest) = u64_of(Fault::Session, rest)?;
    let (slots, rest) = byte_of(Fault::Session, rest)?;
    let (payload, rest) = byte_of(Fault::Session, rest)?;
    check(
        session == terms.session && slots == terms.slots && payload == terms.payload,
        Fault::OtherSession,
    )?;
    let (maker, rest) = byte_of(Fault::Ends, rest)?;
    check(maker < terms.slots, Fault::Ends)?;
    let (base, rest) = u32_of(Fault::Head, rest)?;
    let (clock, rest) = u32_of(Fault::Head, rest)?;
    check(base <= clock, Fault::Head)?;
    let opening = Opening { maker, base, clock };
    Ok((opening, rest))
}

// The snapshot of these bytes.
#[tactic(auto, unfolding(crate::specs::Snapshot::snapshot_at))]
fn snapshot_of<'a>(terms: &Terms, bytes: &'a [u8]) -> Result<SnapshotView<'a>, Fault>
    requires { AreTerms terms.now }
    ensures { Answers (λ s. s) result (snapshot_at terms.now bytes.now) }
{
    let (opening, rest) = opening_of(terms, bytes)?;
    let (have, queues) = vector_of(terms.slots, rest)?;
    let rest = pass_queues(terms.payload, opening.base, have.as_slice(), queues)?;
    check(rest.is_empty(), Fault::Rest)?;
    Ok(SnapshotView {
        opening,
        have,
        queues,
    })
}

impl<'a> SnapshotView<'a> {
    /// Reads a snapshot of the session from bytes, whatever they are.
    pub fn read(terms: &Terms, bytes: &'a [u8]) -> Result<SnapshotView<'a>, Fault>
        requires { AreTerms terms.now }
        // What is read is a snapshot of the session, and the bytes are its bytes.
        ensures found { IfOk result (λ s. IsSnapshot terms.now s × (bytes.now ≡ snapshot_bytes terms.now s)) }
        // The bytes of a snapshot of the session are read as that snapshot.
        ensures only { (s : Snapshot) → IsSnapshot terms.now s → bytes.now ≡ snapshot_bytes terms.now s
            → result ≡ Ok s }
        // A refusal is the first fault from left to right.
        ensures refused { IfErr result (λ fault. snapshot_at terms.now bytes.now ≡ Err fault) }
    {
        snapshot_of(terms, bytes)
    }

    /// The slot of who made it.
    pub fn maker(&self) -> u8
        ensures { result ≡ self.now.maker }
    {
        self.opening.maker
    }

    /// Its maker's last copy's clock, at which a joiner begins.
    pub fn base(&self) -> u32
        ensures { result ≡ self.now.base }
    {
        self.opening.base
    }

    /// Its maker's clock, from which a joiner's commands are taken.
    pub fn clock(&self) -> u32
        ensures { result ≡ self.now.clock }
    {
        self.opening.clock
    }

    /// How many commands of each slot its maker had.
    pub fn have(&self) -> &[u32]
        ensures { result.now ≡ self.now.have }
    {
        self.have.as_slice()
    }

    /// The queues of the slots that have issued, in their order.
    pub fn queues(&self) -> QueuesView<'a>
        ensures { result ≡ self.now.queues }
    {
        QueuesView::of(self.opening.base, self.queues)
    }

    /// Puts its bytes at the front of a buffer, and answers how many they are.
    pub fn put(&self, terms: &Terms, out: &mut [u8]) -> usize
        requires { length (snapshot_bytes terms.now self.now) ≤ length out.old }
        ensures bytes { take result out.new ≡ snapshot_bytes terms.now self.now }
        ensures length { result ≡ length (snapshot_bytes terms.now self.now) }
    {
        let at = put_opening(out, 0, terms, &self.opening);
        let at = put_vector(out, at, self.have.as_slice());
        put(out, at, self.queues)
    }
}
