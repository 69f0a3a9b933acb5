//! One list with an end for each copy.

ghost use Rattle.std.specs.Prelude.{◌≡◌, ◌+◌, ◌-◌, ◌^◌, ◌<◌, ◌≤◌, IfOk, [], ◌∷◌, ◌++◌, length, take};
ghost use Rattle.std.specs.Prelude.{drop, replicate, slice_get, slice_set};
ghost use Rattle.game_trait.specs.declared.limits.TheConstants.{MOST_COPIES};
ghost use Rattle.game_trait.specs.Run.{beats};
ghost use Rattle.executed_list.specs.Segments.{clocks_at, end_of, filled, last_end, raised, run_forgotten, Falls};

use crate::ends::{beats_in, beats_of, fill, forget_first, lower, raise};
use game_trait::{Item, Tick};
use std::alloc::Global;
use std::marker::Model;
use tss_base::NoMemory;

/// The runs of a mirror's copies, which are all fronts of copy 0's run, kept as one list of items
/// with an end for each copy: a copy's run is the list up to its end (this project's own). No
/// copy's end is past the end of the copy ahead, and copy 0's end is the list's. Contracts see the
/// items, the ends and the room left, in items. Only `new` takes memory.
#[derive(Drop)]
pub struct Segments {
    items: Vec<Item>,
    ends: Vec<u32>,
    // the ticks that each copy's run ends
    clocks: Vec<Tick>,
    spare: u32,
}

impl Model for Segments {
    ghost use Rattle.std.specs.Prelude.{vec_capacity};
    ghost use Rattle.executed_list.specs.Segments.{OneList, IsOneList};

    ghost Value = { OneList };

    ghost view = { λ s. record { items = s.items.items; ends = s.ends.items; spare = s.spare } };

    ghost invariant = { λ s.
        IsOneList s.items.items s.ends.items s.clocks.items s.spare (vec_capacity s.items) };
}

impl Segments {
    /// No items yet: 1 to 8 copies that have run nothing, and room for `room` items. On `NoMemory`
    /// nothing is created.
    pub fn new(alloc: Global, copies: u8, room: u32) -> Result<Segments, NoMemory>
        requires { (0 < copies) × (copies ≤ MOST_COPIES) }
        ensures { IfOk result
            (λ s. s ≡ record { items = []; ends = replicate copies 0; spare = room }) }
    {
        let mut ends = Vec::with_capacity(alloc, copies as usize)?;
        let mut clocks = Vec::with_capacity(alloc, copies as usize)?;
        for made in 0..copies {
            let _ = made;
            ends.push_reserved(0);
            clocks.push_reserved(0);
        }
        Ok(Segments {
            items: Vec::with_capacity(alloc, room as usize)?,
            ends,
            clocks,
            spare: room,
        })
    }

    /// Appends an item, where there is room. Copy 0's end goes with it.
    pub fn push(&mut self, x: &Item)
        requires { 0 < self.old.spare }
        ensures { self.new ≡ record {
          items = self.old.items ++ x.now ∷ [];
          ends = slice_set self.old.ends 0 (length self.old.items + 1);
          spare = self.old.spare - 1;
        } }
    {
        self.items.push_reserved(*x);
        self.ends[0] += 1;
        self.clocks[0] += beats_in(x);
        self.spare -= 1;
    }

    /// Keeps the items up to the copy's end, which becomes the end of each copy ahead. The copy is
    /// there.
    pub fn cut(&mut self, copy: u8)
        requires { copy < length self.old.ends }
        ensures { let end = end_of self.old.ends copy in self.new ≡ record {
          items = take end self.old.items;
          ends = filled copy end self.old.ends;
          spare = self.old.spare + (length self.old.items - end);
        } }
    {
        let c = copy as usize;
        let end = self.ends[c];
        let clock = self.clocks[c];
        self.spare += self.items.len() as u32 - end;
        self.items.truncate(end as usize);
        fill(&mut self.ends, c, end);
        fill(&mut self.clocks, c, clock);
    }

    /// Puts an item at the copy's end, where there is room: it becomes the last item of the copy's
    /// run, and each item from there on moves on by one place. The copy's end and those of the copies
    /// ahead go on by one. The copy is there.
    pub fn insert(&mut self, copy: u8, x: &Item)
        requires copy { copy < length self.old.ends }
        requires room { 0 < self.old.spare }
        ensures { let end = end_of self.old.ends copy in self.new ≡ record {
          items = take end self.old.items ++ x.now ∷ drop end self.old.items;
          ends = raised (copy + 1) 1 self.old.ends;
          spare = self.old.spare - 1;
        } }
    {
        let c = copy as usize;
        match self.items.insert(self.ends[c] as usize, *x) {
            Ok(()) => {}
            Err(_) => unreachable!(),
        }
        raise(&mut self.ends, c + 1, 1);
        raise(&mut self.clocks, c + 1, beats_in(x));
        self.spare -= 1;
    }

    /// Forgets the items of the last copy's run, which all copies have run, and tells the times of the
    /// others from its clock on: of each run there is left what stands behind them.
    pub fn forget(&mut self)
        ensures { let end = last_end self.old.ends in
            self.new ≡ run_forgotten self.old end (beats (take end self.old.items)) }
    {
        let last = self.ends.len() - 1;
        let end = self.ends[last];
        let clock = self.clocks[last];
        forget_first(&mut self.items, end as usize, clock);
        lower(&mut self.ends, end);
        lower(&mut self.clocks, clock);
        self.spare += end;
    }

    // The ticks before an end that is at least the copy's and at most that of the copy ahead.
    fn clock_at(&self, copy: u8, end: u32) -> Tick
        requires copy { (0 < copy) × (copy < length self.now.ends) }
        requires from { end_of self.now.ends copy ≤ end }
        requires upto { end ≤ end_of self.now.ends (copy - 1) }
        ensures { result ≡ beats (take end self.now.items) }
    {
        let c = copy as usize;
        if end == self.ends[c - 1] {
            return self.clocks[c - 1];
        }
        let (front, _) = self.items.split_at(end as usize);
        let (_, passed) = front.split_at(self.ends[c] as usize);
        self.clocks[c] + beats_of(passed)
    }

    /// The copy's end goes on by a number of items, to at most the end of the copy ahead. The copy
    /// is there, and isn't copy 0.
    pub fn pass(&mut self, copy: u8, by: u32)
        requires copy { (0 < copy) × (copy < length self.old.ends) }
        requires upto { end_of self.old.ends copy + by ≤ end_of self.old.ends (copy - 1) }
        ensures { self.new
            ≡ record self.old
            { ends = slice_set self.old.ends copy (end_of self.old.ends copy + by) } }
    {
        let c = copy as usize;
        let end = self.ends[c] + by;
        let clock = self.clock_at(copy, end);
        self.ends[c] = end;
        self.clocks[c] = clock;
    }

    /// What always holds of the list: no copy's end is past the end of the copy ahead, copy 0's is the
    /// list's, and the items can be counted. It does nothing.
    #[inline(always)]
    pub fn always(&self)
        ensures falls { Falls self.now.ends }
        ensures first { end_of self.now.ends 0 ≡ length self.now.items }
        ensures few { length self.now.items < 2 ^ 32 }
    {
        let _ = &self.items;
    }

    /// How many items there are.
    pub fn len(&self) -> u32
        ensures { result ≡ length self.now.items }
    {
        self.items.len() as u32
    }

    /// How many more items there is room for.
    pub fn spare(&self) -> u32
        ensures { result ≡ self.now.spare }
    {
        self.spare
    }

    /// How many copies there are, 1 to 8.
    pub fn copies(&self) -> u8
        ensures { result ≡ length self.now.ends }
    {
        self.ends.len() as u8
    }

    /// How many items the copy has run. The copy is there.
    pub fn end(&self, copy: u8) -> u32
        requires { copy < length self.now.ends }
        ensures { result ≡ end_of self.now.ends copy }
    {
        self.ends[copy as usize]
    }

    /// How many ticks the copy has run. The copy is there.
    pub fn beats(&self, copy: u8) -> Tick
        requires { copy < length self.now.ends }
        ensures { result ≡ beats (take (end_of self.now.ends copy) self.now.items) }
    {
        self.clocks[copy as usize]
    }

    /// How many ticks each copy has run, from copy 0 on.
    pub fn clocks(&self) -> &[Tick]
        ensures { result.now ≡ clocks_at self.now.items self.now.ends }
    {
        &self.clocks
    }

    /// The item at this place of the list. The place is there.
    pub fn item(&self, place: u32) -> Item
        requires { place < length self.now.items }
        ensures { slice_get self.now.items place ≡ Some result }
    {
        self.items[place as usize]
    }
}
