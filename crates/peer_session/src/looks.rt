//! Looks at a peer, which change nothing.

ghost use Rattle.std.specs.Prelude.{◌≡◌, ◌+◌, ◌-◌, ◌*◌, ◌^◌, ◌<◌, ◌≤◌, Some, None, if◌then◌else◌, nat_lt, nat_le, ◌==◌, ◌&&◌, length, slice_get, slice_index_or, option_map, []};
ghost use Rattle.game_trait.specs.Later.{later_item};
ghost use Rattle.sync_model.specs.State.{copy_clock as copy_clock_of};
ghost use Rattle.peer_model.specs.Queue.{have_of};
ghost use Rattle.peer_calls.specs.State.{clock_now};
ghost use Rattle.peer_slots.specs.Links.{links_of};
ghost use Rattle.peer_session.specs.Parts.{state_of};

use crate::peer::Peer;
use game_trait::{Game, Item, MirrorId, Number, Tick};
use peer_calls::Config;
use peer_queue::SlotQueue;
use peer_slots::Links;

impl<G: Game> Peer<G> {
    /// What it was made with.
    pub fn config(&self) -> Config
        ensures { result ≡ self.now.config }
    {
        self.config
    }

    /// Its slot.
    pub fn me(&self) -> MirrorId
        ensures { result ≡ self.now.me }
    {
        self.me
    }

    /// Its clock, in ticks of the session.
    pub fn clock(&self) -> Tick
        ensures { result ≡ clock_now (state_of self.now) }
    {
        self.mirror.clock()
    }

    /// The clock from which own commands are taken: a joiner's snapshot's, else 0.
    pub fn start(&self) -> Tick
        ensures { result ≡ self.now.start }
    {
        self.start
    }

    /// The tick of the session at which each run that is remembered begins.
    pub fn base(&self) -> Tick
        ensures { result ≡ self.now.roll.base }
    {
        self.mirror.base()
    }

    /// The place at which each run that is remembered begins, counted from where this peer began.
    pub fn forgotten(&self) -> u64
        ensures place { result ≡ self.now.forgotten }
        ensures few { self.now.forgotten ≤ self.now.roll.base * 2 ^ 32 }
    {
        self.forgotten
    }

    /// How many copies there are, 1 to 8.
    pub fn copies(&self) -> u8
        ensures { result ≡ length self.now.roll.left.runs }
    {
        self.mirror.copies()
    }

    /// A copy's clock, in ticks of the session. `None`: there is no such copy.
    pub fn copy_clock(&self, copy: u8) -> Option<Tick>
        ensures { result ≡ (if nat_lt copy (length self.now.roll.left.runs)
            then Some (self.now.roll.base + copy_clock_of self.now.roll.left.runs copy)
            else None) }
    {
        if copy >= self.mirror.copies() {
            return None;
        }
        Some(self.mirror.copy_clock(copy))
    }

    /// How many items of a copy's run are remembered. `None`: there is no such copy.
    pub fn run_len(&self, copy: u8) -> Option<u32>
        ensures { result ≡ (if nat_lt copy (length self.now.roll.left.runs)
            then Some (length (slice_index_or self.now.roll.left.runs copy []))
            else None) }
    {
        if copy >= self.mirror.copies() {
            return None;
        }
        Some(self.mirror.run_len(copy))
    }

    /// The item at a place of a copy's run, counted from the first that is remembered on. The copy and the
    /// place are there.
    pub fn item(&self, copy: u8, place: u32) -> Item
        requires copy { copy < length self.now.roll.left.runs }
        requires place { place < length (slice_index_or self.now.roll.left.runs copy []) }
        ensures { option_map (later_item self.now.roll.base) (slice_get (slice_index_or self.now.roll.left.runs copy []) place) ≡ Some result }
    {
        self.mirror.run_item(copy, place)
    }

    /// What is remembered of a slot's commands. The slot is there.
    pub fn queue(&self, slot: MirrorId) -> &SlotQueue
        requires { slot < self.now.config.terms.slots }
        ensures { result.now.queue ≡ (state_of self.now).queues slot }
    {
        self.queues.get(slot)
    }

    /// What is known of the other peers, and the own marks.
    pub fn links(&self) -> &Links
        ensures links { result.now ≡ self.now.links }
        ensures slots { (links_of self.now.links).slots ≡ self.now.config.terms.slots }
    {
        &self.links
    }

    /// How many commands of slot `origin` the peer in a slot is known to have received, of this one's own
    /// slot how many it has. The slots are there.
    pub fn known(&self, slot: MirrorId, origin: MirrorId) -> Number
        requires slot { slot < self.now.config.terms.slots }
        requires origin { origin < self.now.config.terms.slots }
        ensures { result ≡ (if slot == self.now.me
            then have_of ((state_of self.now).queues origin)
            else (state_of self.now).known slot origin) }
    {
        if slot == self.me {
            return self.queues.get(origin).have();
        }
        self.links.known(slot, origin)
    }
}
