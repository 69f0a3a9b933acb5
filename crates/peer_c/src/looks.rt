//! Looks at a peer, as C sees them.

ghost use Rattle.std.specs.Prelude.{◌≡◌, IfSome, IfNone, ℕ, ◌+◌, ◌-◌, ◌^◌, ◌<◌, ◌≤◌, true, false, length, slice_get, slice_index_or, option_map, take, []};
ghost use Rattle.game_trait.specs.Later.{later_item};
ghost use Rattle.peer_c.specs.Answers.{clock_answer, base_answer, copy_clock_answer, run_len_answer, run_of, has_place, items_put, items_answer, is_remembered, payload_of, payload_answer, put_answer, slot_told, slot_answer, mark_in, known_answer, told_item};

use crate::answer::{Answer, RunItem, SlotItem, bare, item_for_c, number_of, value, with};
use crate::codes::{NOT_THERE, SHORT, VALUE};
use crate::engine::Engine;
use game_trait::{MirrorId, Number, Tick};
use host_parts::Blank;
use peer_session::Peer;

impl Engine {
    /// The clock, and the one from which own commands are taken.
    pub fn clock(&self) -> Answer
        ensures { result ≡ clock_answer self.now.peer }
    {
        Answer {
            kind: VALUE,
            other: self.peer.start(),
            value: u64::from(self.peer.clock()),
        }
    }

    /// The first place of each run that is remembered, and its tick.
    pub fn base(&self) -> Answer
        ensures { result ≡ base_answer self.now.peer }
    {
        Answer {
            kind: VALUE,
            other: self.peer.base(),
            value: self.peer.forgotten(),
        }
    }

    /// A copy's clock.
    pub fn copy_clock(&self, copy: u8) -> Answer
        ensures { result ≡ copy_clock_answer copy self.now.peer }
    {
        match self.peer.copy_clock(copy) {
            Some(clock) => value(u64::from(clock)),
            None => bare(NOT_THERE),
        }
    }

    /// How many items a copy has run.
    pub fn run_len(&self, copy: u8) -> Answer
        ensures { result ≡ run_len_answer copy self.now.peer }
    {
        match self.peer.run_len(copy) {
            Some(len) => {
                let _session = self.peer.base();
                value(self.peer.forgotten() + u64::from(len))
            }
            None => bare(NOT_THERE),
        }
    }

    // How many items of a copy's run there are from a place on, where it has the place.
    fn left_from(&self, copy: u8, place: u64) -> Option<u32>
        ensures some { IfSome result (λ n. (has_place copy place self.now.peer ≡ true)
            × (n ≡ length (run_of self.now.peer copy) - (place - self.now.peer.forgotten))
            × (length (run_of self.now.peer copy) < 2 ^ 32)) }
        ensures none { IfNone result (has_place copy place self.now.peer ≡ false) }
    {
        let len = u64::from(self.peer.run_len(copy)?);
        let first = self.peer.forgotten();
        if place < first || len < place - first {
            return None;
        }
        Some((len - (place - first)) as u32)
    }

    /// Puts the items of a copy's run from a place on into the front of `out`, as many as there are and
    /// it holds, and tells how many.
    pub fn items(&self, copy: u8, place: u64, out: &mut [RunItem]) -> Answer
        ensures answer { result ≡ items_answer copy place (length out.old) self.now.peer }
        ensures length { length out.new ≡ length out.old }
        ensures items { (j : ℕ) → j < items_put copy place (length out.old) self.now.peer
            → slice_get out.new j
            ≡ option_map (λ x. told_item (later_item self.now.peer.roll.base x)) (slice_get (run_of self.now.peer copy) ((place - self.now.peer.forgotten) + j)) }
        ensures rest { (j : ℕ) → items_put copy place (length out.old) self.now.peer ≤ j
            → slice_get out.new j ≡ slice_get out.old j }
    {
        let Some(left) = self.left_from(copy, place) else {
            return bare(NOT_THERE);
        };
        let count = (left as usize).min(out.len());
        let first = (place - self.peer.forgotten()) as u32;
        put_items(&self.peer, copy, first, count as u32, out);
        value(count as u64)
    }

    /// Puts the payload of a command that is remembered into the front of `out`, and tells its length.
    pub fn payload(&self, from: MirrorId, number: Number, out: &mut [u8]) -> Answer
        ensures answer { result ≡ payload_answer from number (length out.old) self.now.peer }
        ensures length { length out.new ≡ length out.old }
        ensures bytes { result.kind ≡ VALUE → take (length (payload_of from number self.now.peer)) out.new ≡ payload_of from number self.now.peer }
        ensures refused { (result.kind ≡ VALUE → ⊥) → out.new ≡ out.old }
    {
        if from >= self.peer.config().terms.slots {
            return bare(NOT_THERE);
        }
        match self.peer.queue(from).payload_of(number) {
            Some(payload) => put_payload(payload, out),
            None => bare(NOT_THERE),
        }
    }

    /// What is known of a slot, put into `out`.
    pub fn slot_of(&self, slot: MirrorId, out: &mut SlotItem) -> Answer
        ensures answer { result ≡ slot_answer slot self.now.peer }
        ensures told { result.kind ≡ VALUE → out.new ≡ slot_told slot self.now.peer }
        ensures refused { (result.kind ≡ VALUE → ⊥) → out.new ≡ out.old }
    {
        if slot >= self.peer.config().terms.slots {
            return bare(NOT_THERE);
        }
        *out = self.slot_item(slot);
        value(0)
    }

    // The newest mark of a slot: this peer's own, of another the one that was heard.
    fn mark_in(&self, slot: MirrorId) -> Option<(Tick, u32)>
        requires { slot < self.now.peer.config.terms.slots }
        ensures { result ≡ mark_in slot self.now.peer }
    {
        if slot == self.peer.me() {
            return self.peer.links().newest_mark();
        }
        match self.peer.links().mark_of(slot) {
            Some(mark) => Some((mark.tick, mark.sum)),
            None => None,
        }
    }

    // What is known of a slot that is there.
    fn slot_item(&self, slot: MirrorId) -> SlotItem
        requires { slot < self.now.peer.config.terms.slots }
        ensures { result ≡ slot_told slot self.now.peer }
    {
        let queue = self.peer.queue(slot);
        let newest = self.peer.links().newest(slot);
        let mark = self.mark_in(slot);
        let differs = self.peer.links().differs(slot);
        let (clock, echo, at) = newest.map_or((0, 0, 0), |n| (n.clock, n.echo, n.at));
        let (mark_tick, mark_sum) = mark.unwrap_or((0, 0));
        SlotItem {
            have: queue.have(),
            kept: queue.kept(),
            last: queue.last(),
            late: queue.late(),
            heard: number_of(newest.is_some()),
            clock,
            echo,
            at,
            marked: number_of(mark.is_some()),
            mark_tick,
            mark_sum,
            differs: number_of(differs.is_some()),
            differs_tick: differs.unwrap_or(0),
        }
    }

    /// How many commands of slot `of` the peer of slot `who` is known to have.
    pub fn known(&self, who: MirrorId, of: MirrorId) -> Answer
        ensures { result ≡ known_answer who of self.now.peer }
    {
        let slots = self.peer.config().terms.slots;
        if who >= slots || of >= slots {
            return bare(NOT_THERE);
        }
        value(u64::from(self.peer.known(who, of)))
    }
}

// Puts bytes at the front of a buffer, where there is room for them.
fn put_payload(payload: &[u8], out: &mut [u8]) -> Answer
    ensures answer { result ≡ put_answer (length out.old) (length payload.now) }
    ensures length { length out.new ≡ length out.old }
    ensures bytes { result.kind ≡ VALUE → take (length payload.now) out.new ≡ payload.now }
    ensures refused { (result.kind ≡ VALUE → ⊥) → out.new ≡ out.old }
{
    if out.len() < payload.len() {
        return with(SHORT, payload.len() as u64);
    }
    let (front, _) = out.split_at_mut(payload.len());
    front.copy_from_slice(payload);
    value(payload.len() as u64)
}

// Puts so many items of a copy's run from a place on, counted from the first that is remembered, into
// the front of `out`. They are there.
fn put_items(peer: &Peer<Blank>, copy: u8, first: u32, count: u32, out: &mut [RunItem])
    requires copy { copy < length peer.now.roll.left.runs }
    requires there { first + count ≤ length (run_of peer.now copy) }
    requires few { length (run_of peer.now copy) < 2 ^ 32 }
    requires fits { count ≤ length out.old }
    ensures length { length out.new ≡ length out.old }
    ensures items { (j : ℕ) → j < count → slice_get out.new j
        ≡ option_map (λ x. told_item (later_item peer.now.roll.base x)) (slice_get (run_of peer.now copy) (first + j)) }
    ensures rest { (j : ℕ) → count ≤ j → slice_get out.new j ≡ slice_get out.old j }
{
    for i in 0..count {
        out[i as usize] = item_for_c(&peer.item(copy, first + i));
    }
}
