//! What a peer knows of another one.

ghost use Rattle.std.specs.Prelude.{◌≡◌, ℕ, ◌≤◌, max, length, get_or, slice_index_or, replicate, None};
ghost use Rattle.peer_model.specs.Marks.{if_differs};
ghost use Rattle.peer_packet.specs.Filling.{at_start};
ghost use Rattle.peer_calls.specs.Hearing.{is_above, newer};
ghost use Rattle.peer_slots.specs.Links.{mark_heard, differs_heard, told_mark};

use crate::marking::{differs, first_tick, newer_mark};
use game_trait::{Number, Tick};
use peer_calls::Newest;
use peer_model::Mark;
use peer_packet::{Cursor, PacketView};

/// What a peer knows of another one.
#[derive(Clone, Copy, Debug)]
pub struct Other {
    /// How many commands of each slot it is known to have, and then zeroes.
    pub known: [Number; 64],
    /// The newest that was heard of its clock.
    pub newest: Option<Newest>,
    /// Where the last packet for it ended.
    pub cursor: Cursor,
    /// Its newest mark.
    pub mark: Option<Mark>,
    /// The first tick at which its mark was seen to differ.
    pub differs: Option<Tick>,
}

// Each count is raised to the one that is told, where there is one.
fn raise(known: &mut [Number; 64], have: &[Number])
    requires { length have.now ≤ 64 }
    ensures { (o : ℕ) → slice_index_or known.new o 0 ≡ max (slice_index_or known.old o 0) (get_or have.now o 0) }
{
    for o in 0..have.len() {
        known[o] = known[o].max(have[o]);
    }
}

// A clock and an echo are above the newest, in this order.
fn is_above(clock: Tick, echo: Tick, old: Option<Newest>) -> bool
    ensures { result ≡ is_above clock echo old }
{
    match old {
        None => true,
        Some(n) => n.clock < clock || (n.clock == clock && n.echo < echo),
    }
}

// What was heard, where it is above the newest.
fn newer(clock: Tick, echo: Tick, at: Tick, old: Option<Newest>) -> Option<Newest>
    ensures { result ≡ newer clock echo at old }
{
    if is_above(clock, echo, old) {
        Some(Newest { clock, echo, at })
    } else {
        old
    }
}

// The newest mark, where one is heard.
fn mark_heard(heard: Option<(Tick, u32)>, old: Option<Mark>) -> Option<Mark>
    ensures { result ≡ mark_heard heard old }
{
    match heard {
        None => old,
        Some((tick, sum)) => newer_mark(Mark { tick, sum }, old),
    }
}

// The first tick at which marks differed, where one is heard that does or doesn't.
fn differs_heard(is: bool, heard: Option<(Tick, u32)>, old: Option<Tick>) -> Option<Tick>
    ensures { result ≡ differs_heard is heard old }
{
    match heard {
        None => old,
        Some((tick, _)) => first_tick(is, tick, old),
    }
}

impl Other {
    /// A peer of which nothing was heard.
    pub fn unheard() -> Other
        ensures { result ≡ record { known = replicate 64 0; newest = None; cursor = at_start; mark = None; differs = None } }
    {
        Other {
            known: [0; 64],
            newest: None,
            cursor: Cursor { slot: 0, number: 0 },
            mark: None,
            differs: None,
        }
    }

    /// The head of a packet of it is heard at a clock; its mark differs from an own one, or doesn't.
    pub fn hear(&mut self, p: &PacketView<'_>, at: Tick, is_differing: bool)
        requires { length p.now.have ≤ 64 }
        ensures known { (o : ℕ) → slice_index_or self.new.known o 0 ≡ max (slice_index_or self.old.known o 0) (get_or p.now.have o 0) }
        ensures rest { record self.new { known = self.old.known } ≡ record self.old {
          newest = newer p.now.clock p.now.echo at self.old.newest;
          mark = mark_heard p.now.mark self.old.mark;
          differs = differs_heard is_differing p.now.mark self.old.differs;
        } }
    {
        raise(&mut self.known, p.have());
        self.newest = newer(p.clock(), p.echo(), at, self.newest);
        self.mark = mark_heard(p.mark(), self.mark);
        self.differs = differs_heard(is_differing, p.mark(), self.differs);
    }

    /// Whether its newest mark differs from this one.
    pub fn differs_from(&self, mark: &Mark) -> bool
        ensures { result ≡ if_differs mark.now self.now.mark }
    {
        match self.mark {
            None => false,
            Some(own) => differs(mark, &own),
        }
    }

    /// The own world is marked.
    pub fn tell(&mut self, mark: &Mark)
        ensures { self.new ≡ told_mark mark.now self.old }
    {
        self.differs = first_tick(self.differs_from(mark), mark.tick, self.differs);
    }
}
