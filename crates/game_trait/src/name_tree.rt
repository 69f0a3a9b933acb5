//! Names of commands, of which each is found in few steps, whatever names there are.

ghost use Rattle.std.specs.Prelude.{◌≡◌, ◌+◌, ◌/◌, ◌≤◌, ◌<◌, ◌++◌, ◌∷◌, [], true, false, not, Some, length, replicate, slice_get, vec_len, vec_capacity, is_some, IfOk, IfSome, OnOk, OnErr};
ghost use Rattle.game_trait.specs.NameTree.{has_name};

use crate::block_tree::BlockTree;
use crate::command::{MirrorId, Number};
use std::alloc::{AllocError, Global};
use std::marker::Model;

// How many names a tree has at most: an entry holds the place of one and 1.
const MOST_NAMES: usize = u32::MAX as usize;

/// Names of commands, a mirror and a number each, in the order in which they were appended, no two
/// the same. Contracts see the names, how many there is room for without taking memory, and for how
/// many there was when the tree was made.
///
/// They are found by blocks of 16 numbers of one mirror: a block is found in at most 13 steps,
/// whatever names strangers choose, and in one where they are dense; it tells the places of its
/// names, which stand nowhere else (this project's own).
#[derive(Debug, Drop)]
pub struct NameTree {
    blocks: BlockTree,
    // 16 for each block, each the place of a name and 1, or 0 for none
    places: Vec<u32>,
    count: usize,
    room: usize,
    first_room: usize,
}

impl Model for NameTree {
    ghost use Rattle.std.specs.Prelude.{◌≤◌, vec_capacity};
    ghost use Rattle.game_trait.specs.NameTree.{NamesOfTree, AreInBlocks, IsRoomy, names_in};
    ghost use Rattle.game_trait.specs.declared.name_tree.TheConstants.{MOST_NAMES};

    ghost Value = { NamesOfTree };

    ghost view = { λ t. record {
      items = names_in t.blocks.items t.places.items t.count;
      room = t.room;
      first_room = t.first_room;
    } };

    ghost invariant = { λ t.
        AreInBlocks (names_in t.blocks.items t.places.items t.count) t.blocks.items t.places.items
        × IsRoomy t.count t.blocks (vec_capacity t.places) t.room t.first_room
        × ((t.room ≤ MOST_NAMES) × (t.first_room ≤ MOST_NAMES)) };
}

impl NameTree {
    /// No names yet, and no room. It takes no memory.
    pub fn new(alloc: Global) -> NameTree
        ensures { result ≡ record { items = []; room = 0; first_room = 0 } }
    {
        NameTree {
            blocks: BlockTree::new(alloc),
            places: Vec::new(alloc),
            count: 0,
            room: 0,
            first_room: 0,
        }
    }

    /// No names yet, with room for `room` of them. On want of memory nothing is created, and room
    /// for more than `u32::MAX` is always wanting.
    pub fn with_room(alloc: Global, room: usize) -> Result<NameTree, AllocError>
        ensures { IfOk result
            (λ names. names ≡ record { items = []; room = room; first_room = room }) }
    {
        if room > MOST_NAMES {
            return Err(AllocError);
        }
        Ok(NameTree {
            blocks: BlockTree::with_room(alloc, room)?,
            places: Vec::with_capacity(alloc, 16 * room)?,
            count: 0,
            room,
            first_room: room,
        })
    }

    /// Makes room for one name more, where there is none. On want of memory, as where there are
    /// `u32::MAX` names, nothing changes.
    pub fn reserve(&mut self) -> Result<(), AllocError>
        ensures items { self.new.items ≡ self.old.items }
        ensures room { self.old.room ≤ self.new.room }
        ensures first_room { self.new.first_room ≡ self.old.first_room }
        ensures ok { OnOk result (length self.new.items < self.new.room) }
        ensures err { OnErr result (self.new.room ≡ self.old.room) }
    {
        if self.count < self.room {
            return Ok(());
        }
        if self.count >= MOST_NAMES {
            return Err(AllocError);
        }
        self.blocks.reserve()?;
        self.places.reserve(16)?;
        self.room = self.count + 1;
        Ok(())
    }

    /// Takes out all names. Then there is the room with which the tree was made, and it takes no
    /// memory.
    pub fn clear(&mut self)
        ensures { self.new ≡ record self.old { items = []; room = self.old.first_room } }
    {
        self.blocks.clear();
        self.places.clear();
        self.count = 0;
        self.room = self.first_room;
    }

    /// Appends a name that isn't there yet, where there is room. It takes no memory.
    pub fn push_reserved(&mut self, from: MirrorId, number: Number)
        requires new_name { has_name self.old.items from number ≡ false }
        requires room { length self.old.items < self.old.room }
        ensures { self.new
            ≡ record self.old { items = self.old.items ++ (from, number) ∷ [] } }
    {
        self.insert_reserved(from, number);
    }

    /// Appends a name where it isn't there yet, and tells whether it did. It takes no memory: there
    /// is room.
    pub fn insert_reserved(&mut self, from: MirrorId, number: Number) -> bool
        requires { length self.old.items < self.old.room }
        ensures added { result ≡ not (has_name self.old.items from number) }
        ensures there { has_name self.old.items from number ≡ true → self.new ≡ self.old }
        ensures new { has_name self.old.items from number ≡ false
            → self.new ≡ record self.old { items = self.old.items ++ (from, number) ∷ [] } }
    {
        let at = self.blocks.place(from, number / 16);
        open_block(&mut self.places, at);
        let entry = 16 * at + (number % 16) as usize;
        if self.places[entry] > 0 {
            return false;
        }
        self.count += 1;
        self.places[entry] = self.count as u32;
        true
    }

    /// The place of a name among those that were appended, if it is there.
    pub fn find(&self, from: MirrorId, number: Number) -> Option<usize>
        ensures there { IfSome result (λ at. slice_get self.now.items at ≡ Some (from, number)) }
        ensures found { is_some result ≡ has_name self.now.items from number }
    {
        let at = self.blocks.find(from, number / 16)?;
        match self.places[16 * at + (number % 16) as usize] {
            0 => None,
            place => Some(place as usize - 1),
        }
    }

    /// Whether a name is there.
    pub fn has(&self, from: MirrorId, number: Number) -> bool
        ensures { result ≡ has_name self.now.items from number }
    {
        self.find(from, number).is_some()
    }
}

// Appends 16 entries of no name, for which there is room, unless those of this block are there.
fn open_block(places: &mut Vec<u32>, at: usize)
    requires { vec_len places.old + 16 ≤ vec_capacity places.old }
    ensures there { at < length places.old.items / 16 → places.new.items ≡ places.old.items }
    ensures more { length places.old.items / 16 ≤ at
        → places.new.items ≡ places.old.items ++ replicate 16 0 }
    ensures capacity { vec_capacity places.old ≤ vec_capacity places.new }
{
    if at < places.len() / 16 {
        return;
    }
    match places.extend_from_slice(&[0; 16]) {
        Ok(()) => {}
        Err(_) => unreachable!(),
    }
}
