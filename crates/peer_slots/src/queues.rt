//! The queues of all slots.

ghost use Rattle.std.specs.Prelude.{◌≡◌, ℕ, ◌+◌, ◌^◌, ◌≤◌, ◌<◌, ◌==◌, IfOk, false, length, map, replicate, slice_index_or};
ghost use Rattle.peer_model.specs.Queue.{have_of, last_time, new_queue, with_own, conflicts};
ghost use Rattle.peer_window.specs.Window.{rolls_part, rolls_parts};
ghost use Rattle.peer_packet.specs.Packet.{AreSent};
ghost use Rattle.peer_calls.specs.Wire.{part_from};
ghost use Rattle.peer_calls.specs.Sending.{counts_of};
ghost use Rattle.peer_calls.specs.Hearing.{tells_part, tells_parts};
ghost use Rattle.peer_queue.specs.Room.{sent_of};
ghost use Rattle.peer_slots.specs.Queues.{queues_of, new_queues, empty_queue, with_queue, all_trimmed, trimmed_in_room, ArePartsFrom, any_conflicts, first_conflict, window_at};

use arrayvec::ArrayVec;
use game_trait::{Game, MirrorId, Number, Tick};
use peer_calls::Told;
use peer_packet::{PartView, PartsView};
use peer_queue::{SentBytes, SlotQueue, hear_part};
use rolling_mirror::RollingMirror;
use std::alloc::{AllocError, Global};
use std::marker::Model;

/// The queue of each slot of a session, each with room for as many commands. Contracts see a list, and
/// speak of it by `queues_of`: a function of the slot, as a peer's state has it, in which nothing was
/// heard of slots that there aren't. Only `new` and `opened` take memory.
#[derive(Drop)]
pub struct Queues {
    pub(crate) list: Vec<SlotQueue>,
    pub(crate) room: u32,
}

impl Model for Queues {
    ghost use Rattle.peer_slots.specs.Queues.{QueueLists, AreQueues};

    ghost Value = { QueueLists };

    ghost view = { λ t. record { list = t.list.items; room = t.room } };

    ghost invariant = { λ t. AreQueues (record { list = t.list.items; room = t.room }) };
}

// Queues of so many slots.
fn make_queues(alloc: Global, slots: u8, room: u32) -> Result<Vec<SlotQueue>, AllocError>
    requires { room < 2 ^ 16 }
    ensures { IfOk result (λ v. v.items ≡ replicate slots (empty_queue room)) }
{
    let mut queues = Vec::with_capacity(alloc, usize::from(slots))?;
    for _ in 0..slots {
        queues.push_reserved(SlotQueue::new(alloc, room)?);
    }
    Ok(queues)
}

// How many commands of each slot were counted.
fn count_each(queues: &[SlotQueue]) -> ArrayVec<Number, 64>
    requires { length queues.now ≤ 64 }
    ensures counts { result.items ≡ map (λ q. have_of q.queue) queues.now }
    ensures few { (o room : ℕ) → have_of (slice_index_or queues.now o (empty_queue room)).queue < 2 ^ 32 }
{
    let mut counts = ArrayVec::new();
    for queue in queues {
        counts.push(queue.have());
    }
    counts
}

// What is due before a tick is forgotten.
fn trim_each(queues: &mut [SlotQueue], bound: Tick)
    ensures { queues.new ≡ map (trimmed_in_room bound) queues.old }
{
    for queue in queues.iter_mut() {
        queue.trim(bound);
    }
}

impl Queues {
    /// Nothing was heard yet in a session of so many slots, 64 at most; there is room for `room` commands
    /// of each at once, fewer than 2^16.
    pub fn new(alloc: Global, slots: u8, room: u32) -> Result<Queues, AllocError>
        requires slots { slots ≤ 64 }
        requires room { room < 2 ^ 16 }
        ensures { IfOk result (λ q. queues_of q ≡ new_queues slots room) }
    {
        Ok(Queues {
            list: make_queues(alloc, slots, room)?,
            room,
        })
    }

    /// What always holds: there are 64 slots at most, and nothing was heard of slots that there aren't. It
    /// does nothing.
    pub fn always(&self)
        ensures slots { (queues_of self.now).slots ≤ 64 }
        ensures outside { (o : ℕ) → (queues_of self.now).slots ≤ o → (queues_of self.now).queues o ≡ new_queue }
    {
        let _ = &self.room;
    }

    /// How many slots there are, 64 at most.
    pub fn slots(&self) -> u8
        ensures { result ≡ (queues_of self.now).slots }
    {
        self.list.len() as u8
    }

    /// For how many commands of each slot there is room at once.
    pub fn room(&self) -> u32
        ensures { result ≡ (queues_of self.now).room }
    {
        self.room
    }

    /// The queue of a slot.
    pub fn get(&self, slot: MirrorId) -> &SlotQueue
        requires { slot < (queues_of self.now).slots }
        ensures { result.now ≡ record { queue = (queues_of self.now).queues slot; room = (queues_of self.now).room } }
    {
        &self.list[usize::from(slot)]
    }

    /// How many commands of each slot were counted.
    pub fn counts(&self) -> ArrayVec<Number, 64>
        ensures counts { result.items ≡ counts_of (queues_of self.now).slots (queues_of self.now).queues }
        ensures few { (o : ℕ) → have_of ((queues_of self.now).queues o) < 2 ^ 32 }
    {
        count_each(self.list.as_slice())
    }

    /// Forgets what is due before a tick.
    pub fn trim(&mut self, bound: Tick)
        ensures { queues_of self.new ≡ all_trimmed bound (queues_of self.old) }
    {
        trim_each(self.list.as_mut_slice(), bound);
    }

    /// The own slot issues one more command, of which there is room, not before its last one.
    pub fn own(&mut self, me: MirrorId, x: &SentBytes)
        requires slot { me < (queues_of self.old).slots }
        requires room { (length ((queues_of self.old).queues me).commands == (queues_of self.old).room) ≡ false }
        requires number { have_of ((queues_of self.old).queues me) + 1 < 2 ^ 32 }
        requires short { x.now.size ≤ 64 }
        requires rises { last_time ((queues_of self.old).queues me).gone ((queues_of self.old).queues me).commands ≤ x.now.time }
        ensures { queues_of self.new ≡ with_queue me (with_own (sent_of x.now) ((queues_of self.old).queues me)) (queues_of self.old) }
    {
        self.list[usize::from(me)].own(x);
    }

    // A part doesn't follow what was counted of its slot.
    fn conflicts(&self, part: &PartView<'_>) -> bool
        requires { part.now.origin < (queues_of self.now).slots }
        ensures { result ≡ conflicts (part_from part.now) ((queues_of self.now).queues part.now.origin) }
    {
        self.list[usize::from(part.head().origin)].conflicts(part)
    }

    /// The slot of the first part of a packet that doesn't follow what was counted of its slot.
    pub fn conflicting(&self, parts: PartsView<'_>) -> Option<MirrorId>
        requires { ArePartsFrom (queues_of self.now).slots 0 parts }
        ensures { result ≡ first_conflict (map part_from parts.entry) (queues_of self.now).queues }
    {
        let mut left = parts;
        while let Some(part) = left.next() {
            if self.conflicts(&part) {
                return Some(part.head().origin);
            }
        }
        None
    }

    /// A part is heard that doesn't conflict: what is counted of it arrives at the mirror, in order, and what
    /// came of it is told.
    pub fn hear_part<G: Game>(
        &mut self,
        mirror: &mut RollingMirror<G>,
        part: &PartView<'_>,
        told: &mut Told,
    )
        requires slot { part.now.origin < (queues_of self.old).slots }
        requires number { part.now.first + length part.now.commands < 2 ^ 32 }
        requires agrees { conflicts (part_from part.now) ((queues_of self.old).queues part.now.origin) ≡ false }
        requires sent { AreSent 64 part.now.before part.now.commands }
        requires taken { told.old.taken + length part.now.commands < 2 ^ 32 }
        requires late { told.old.late + 2 ^ 33 < 2 ^ 64 }
        ensures queues { queues_of self.new ≡ with_queue part.now.origin
            (rolls_part (queues_of self.old).room (part_from part.now) ((queues_of self.old).queues part.now.origin) mirror.old).queue
            (queues_of self.old) }
        ensures mirror { mirror.new ≡ (rolls_part (queues_of self.old).room (part_from part.now) ((queues_of self.old).queues part.now.origin) mirror.old).roll }
        ensures told { told.new ≡ tells_part (queues_of self.old).room (part_from part.now) ((queues_of self.old).queues part.now.origin) mirror.old told.old }
        ensures few { (told.new.taken ≤ told.old.taken + length part.now.commands) × (told.new.late ≤ told.old.late + 2 ^ 33) }
    {
        hear_part(
            &mut self.list[usize::from(part.head().origin)],
            mirror,
            part,
            told,
        );
    }

    /// The parts of a packet of this session are heard, none of which conflicts: what is counted of each
    /// arrives at the mirror. Tells what came of it, and whether the packet's mark differs.
    pub fn hear_parts<G: Game>(
        &mut self,
        mirror: &mut RollingMirror<G>,
        parts: PartsView<'_>,
        differs: bool,
    ) -> Told
        requires parts { ArePartsFrom (queues_of self.old).slots 0 parts }
        requires agree { any_conflicts (map part_from parts) (queues_of self.old).queues ≡ false }
        ensures slots { (queues_of self.new).slots ≡ (queues_of self.old).slots }
        ensures room { (queues_of self.new).room ≡ (queues_of self.old).room }
        ensures heard { (known : ℕ → ℕ → ℕ) (heard : ℕ → ℕ)
            → window_at (queues_of self.new).queues known heard mirror.new
            ≡ rolls_parts (queues_of self.old).room (map part_from parts.entry) (window_at (queues_of self.old).queues known heard mirror.old) }
        ensures told { (known : ℕ → ℕ → ℕ) (heard : ℕ → ℕ)
            → result ≡ tells_parts (queues_of self.old).room (map part_from parts.entry) (window_at (queues_of self.old).queues known heard mirror.old)
            (record { taken = 0; late = 0; repaired = 0; gap = false; far = false; full = false; differs = differs }) }
    {
        self.always();
        let mut told = Told {
            taken: 0,
            late: 0,
            repaired: 0,
            gap: false,
            far: false,
            full: false,
            differs,
        };
        let mut left = parts;
        while let Some(part) = left.next() {
            self.hear_part(mirror, &part, &mut told);
        }
        told
    }
}
