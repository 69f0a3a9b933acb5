//! What a peer knows of each other one, and its own marks.

ghost use Rattle.std.specs.Prelude.{◌≡◌, ◌≤◌, ◌<◌, IfOk, length, map};
ghost use Rattle.game_trait.specs.Count.{times};
ghost use Rattle.peer_model.specs.declared.mark.Mark.{Mark};
ghost use Rattle.peer_model.specs.Marks.{if_differs};
ghost use Rattle.peer_calls.specs.State.{newest_clock};
ghost use Rattle.peer_calls.specs.Hearing.{is_differing};
ghost use Rattle.peer_calls.specs.Sending.{newest_mark};
ghost use Rattle.peer_slots.specs.Links.{links_of, new_links, links_heard, with_cursor, said_to_mark, links_marked, told_mark};

use crate::marking::{any_differs, is_marked, keep, newest_of};
use crate::other::Other;
use game_trait::{MirrorId, Number, Tick};
use peer_calls::Newest;
use peer_model::Mark;
use peer_packet::{Cursor, PacketView};
use std::alloc::{AllocError, Global};
use std::collections::VecDeque;
use std::marker::Model;

/// What a peer knows of each other one of its session, by slot, and its own last 64 marks. Contracts see
/// lists, and speak of them by `links_of`: functions of the slot, as a peer's state has them, in which
/// nothing was heard of slots that there aren't. Only `new` takes memory.
#[derive(Drop)]
pub struct Links {
    others: Vec<Other>,
    own: VecDeque<Mark>,
}

impl Model for Links {
    ghost use Rattle.std.specs.VecDeque.{deque_capacity};
    ghost use Rattle.peer_slots.specs.Links.{LinkLists, AreLinks};

    ghost Value = { LinkLists };

    ghost view = { λ t. record { others = t.others.items; own = t.own.items } };

    ghost invariant = { λ t.
        AreLinks (record { others = t.others.items; own = t.own.items }) (deque_capacity t.own) };
}

// The own world is marked: each other one is told.
fn tell_each(others: &mut [Other], mark: &Mark)
    ensures { others.new ≡ map (told_mark mark.now) others.old }
{
    for other in others.iter_mut() {
        other.tell(mark);
    }
}

// How many of them have a newest mark that differs from this one.
fn count_differing(others: &[Other], mark: &Mark) -> u8
    requires { length others.now ≤ 64 }
    ensures { result ≡ times (λ other. if_differs mark.now other.mark) others.now }
{
    let mut count = 0;
    for other in others {
        count += u8::from(other.differs_from(mark));
    }
    count
}

impl Links {
    /// Nothing was heard yet of the peers of a session of so many slots, 64 at most.
    pub fn new(alloc: Global, slots: u8) -> Result<Links, AllocError>
        requires { slots ≤ 64 }
        ensures { IfOk result (λ l. links_of l ≡ new_links slots) }
    {
        Ok(Links {
            others: vec![in alloc; Other::unheard(); usize::from(slots)]?,
            own: VecDeque::with_capacity(alloc, 64)?,
        })
    }

    /// How many slots there are, 64 at most.
    pub fn slots(&self) -> u8
        ensures slots { result ≡ (links_of self.now).slots }
        ensures few { (links_of self.now).slots ≤ 64 }
    {
        self.others.len() as u8
    }

    /// The head of a packet of this session is heard while the peer's clock is `clock`: what its sender
    /// has, the newest of its clock, and its mark.
    pub fn hear_head(&mut self, p: &PacketView<'_>, clock: Tick)
        requires from { p.now.from < (links_of self.old).slots }
        requires have { length p.now.have ≤ 64 }
        ensures { links_of self.new ≡ links_heard p.now clock (links_of self.old) }
    {
        let is_differing = self.is_differing(p.mark());
        self.others[usize::from(p.from())].hear(p, clock, is_differing);
    }

    /// A packet's mark is of the tick of an own one, and of another world.
    pub fn is_differing(&self, mark: Option<(Tick, u32)>) -> bool
        ensures { result ≡ is_differing mark (links_of self.now).marks }
    {
        match mark {
            None => false,
            Some((tick, sum)) => any_differs(&self.own, &Mark { tick, sum }),
        }
    }

    /// Marks the own world's sum at a tick, and answers how many others' newest marks are of that tick
    /// and of another world. `None`: that tick or a later one is marked already, and nothing changes.
    pub fn mark(&mut self, tick: Tick, sum: u32) -> Option<u8>
        ensures count { result ≡ said_to_mark (record { tick = tick; sum = sum }) (links_of self.old) }
        ensures marks { links_of self.new ≡ links_marked (record { tick = tick; sum = sum }) (links_of self.old) }
    {
        if is_marked(&self.own, tick) {
            return None;
        }
        let mark = Mark { tick, sum };
        let count = count_differing(self.others.as_slice(), &mark);
        tell_each(self.others.as_mut_slice(), &mark);
        keep(&mut self.own, mark);
        Some(count)
    }

    /// The tick and the sum of the newest own mark.
    pub fn newest_mark(&self) -> Option<(Tick, u32)>
        ensures { result ≡ newest_mark (links_of self.now).marks.own }
    {
        newest_of(&self.own)
    }

    /// The newest that was heard of a peer's clock.
    pub fn newest(&self, slot: MirrorId) -> Option<Newest>
        requires { slot < (links_of self.now).slots }
        ensures { result ≡ (links_of self.now).newest slot }
    {
        self.others[usize::from(slot)].newest
    }

    /// The newest clock that was heard of a peer, 0 where none was: what it is told as echo.
    pub fn echo(&self, slot: MirrorId) -> Tick
        requires { slot < (links_of self.now).slots }
        ensures { result ≡ newest_clock ((links_of self.now).newest slot) }
    {
        match self.newest(slot) {
            None => 0,
            Some(newest) => newest.clock,
        }
    }

    /// How many commands of slot `origin` the peer of a slot is known to have.
    pub fn known(&self, slot: MirrorId, origin: MirrorId) -> Number
        requires slot { slot < (links_of self.now).slots }
        requires origin { origin < (links_of self.now).slots }
        ensures { result ≡ (links_of self.now).known slot origin }
    {
        self.others[usize::from(slot)].known[usize::from(origin)]
    }

    /// Where the last packet for a peer ended.
    pub fn cursor(&self, slot: MirrorId) -> Cursor
        requires { slot < (links_of self.now).slots }
        ensures { result ≡ (links_of self.now).cursor slot }
    {
        self.others[usize::from(slot)].cursor
    }

    /// The last packet for a peer ended here.
    pub fn set_cursor(&mut self, slot: MirrorId, cursor: Cursor)
        requires { slot < (links_of self.old).slots }
        ensures { links_of self.new ≡ with_cursor slot cursor (links_of self.old) }
    {
        self.others[usize::from(slot)].cursor = cursor;
    }

    /// A peer's newest mark.
    pub fn mark_of(&self, slot: MirrorId) -> Option<Mark>
        requires { slot < (links_of self.now).slots }
        ensures { result ≡ (links_of self.now).marks.newest slot }
    {
        self.others[usize::from(slot)].mark
    }

    /// The first tick at which a peer's mark was seen to differ from an own one.
    pub fn differs(&self, slot: MirrorId) -> Option<Tick>
        requires { slot < (links_of self.now).slots }
        ensures { result ≡ (links_of self.now).marks.differs slot }
    {
        self.others[usize::from(slot)].differs
    }
}
