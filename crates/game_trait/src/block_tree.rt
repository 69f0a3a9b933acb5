//! Blocks of numbers, of which each is found in few steps, whatever blocks there are.

ghost use Rattle.std.specs.Prelude.{◌≡◌, ◌+◌, ◌*◌, ◌≤◌, ◌<◌, [], Some, length, replicate, slice_get, slice_set, vec_len, vec_capacity, is_some, IfOk, IfErr, IfSome, OnOk, OnErr};
ghost use Rattle.game_trait.specs.NameTree.{has_name};
ghost use Rattle.game_trait.specs.BlockTree.{route_of, linked, IsBlockTree, IsOpen, IsPlaced};

use crate::command::{MirrorId, Number};
use std::alloc::{AllocError, Global};
use std::marker::Model;

// How many blocks a tree has at most: a link holds the place of one and 1.
const MOST_BLOCKS: usize = u32::MAX as usize;

/// Blocks of numbers, a mirror and the number of the block each, in the order in which they were
/// appended. Contracts see the blocks, and how many there is room for without taking memory.
///
/// They are the nodes of trees: 12 bits of the block that is sought choose one of 4,096 roots, and
/// four links lead on from each block, of which two other bits choose one at each step. So the 36
/// bits of a block of 16 numbers make 13 steps at most, whatever names strangers choose, and dense
/// numbers one, up to 8,191 of eight mirrors (this project's own).
#[derive(Debug, Drop)]
pub struct BlockTree {
    blocks: Vec<(MirrorId, Number)>,
    // 4,096 roots, once there is room, and four for each block: the place of a block and 1, or 0 for
    // none
    links: Vec<u32>,
    room: usize,
}

impl Model for BlockTree {
    ghost use Rattle.std.specs.Prelude.{◌≤◌, vec_capacity};
    ghost use Rattle.game_trait.specs.NameTree.{NamesInRoom};
    ghost use Rattle.game_trait.specs.BlockTree.{IsTreeInRoom};
    ghost use Rattle.game_trait.specs.declared.block_tree.TheConstants.{MOST_BLOCKS};

    ghost Value = { NamesInRoom };

    ghost view = { λ t. record { items = t.blocks.items; room = t.room } };

    ghost invariant = { λ t.
        IsTreeInRoom t.blocks.items t.links.items (vec_capacity t.links) t.room
        × (t.room ≤ vec_capacity t.blocks) × (t.room ≤ MOST_BLOCKS) };
}

impl BlockTree {
    /// No blocks yet, and no room. It takes no memory.
    pub fn new(alloc: Global) -> BlockTree
        ensures { result ≡ record { items = []; room = 0 } }
    {
        BlockTree {
            blocks: Vec::new(alloc),
            links: Vec::new(alloc),
            room: 0,
        }
    }

    /// No blocks yet, with room for `room` of them. On want of memory nothing is created, and room
    /// for more than `u32::MAX` is always wanting.
    pub fn with_room(alloc: Global, room: usize) -> Result<BlockTree, AllocError>
        ensures { IfOk result (λ blocks. blocks ≡ record { items = []; room = room }) }
    {
        if room > MOST_BLOCKS {
            return Err(AllocError);
        }
        if room == 0 {
            return Ok(BlockTree::new(alloc));
        }
        let mut links = Vec::new(alloc);
        reserve_links(&mut links, room)?;
        Ok(BlockTree {
            blocks: Vec::with_capacity(alloc, room)?,
            links,
            room,
        })
    }

    /// Makes room for one block more, where there is none. On want of memory, as where there are
    /// `u32::MAX` blocks, nothing changes.
    pub fn reserve(&mut self) -> Result<(), AllocError>
        ensures items { self.new.items ≡ self.old.items }
        ensures room { self.old.room ≤ self.new.room }
        ensures ok { OnOk result (length self.new.items < self.new.room) }
        ensures err { OnErr result (self.new.room ≡ self.old.room) }
    {
        let count = self.blocks.len();
        if count < self.room {
            return Ok(());
        }
        if count >= MOST_BLOCKS {
            return Err(AllocError);
        }
        self.blocks.reserve(1)?;
        reserve_links(&mut self.links, 1)?;
        self.room = count + 1;
        Ok(())
    }

    /// Takes out all blocks. The room stays, and it takes no memory.
    pub fn clear(&mut self)
        ensures { self.new ≡ record self.old { items = [] } }
    {
        self.blocks.clear();
        clear_links(&mut self.links);
    }

    /// The place of a block, which is appended where it isn't there yet. It takes no memory: there
    /// is room for one block more.
    pub fn place(&mut self, from: MirrorId, block: Number) -> usize
        requires { length self.old.items < self.old.room }
        ensures placed { IsPlaced self.old.items from block result self.new.items }
        ensures room { self.new.room ≡ self.old.room }
    {
        match search(&self.blocks, &self.links, from, block) {
            Ok(at) => at,
            Err(link) => {
                let at = self.blocks.len();
                link_to(&mut self.links, link, (at + 1) as u32);
                self.blocks.push_reserved((from, block));
                at
            }
        }
    }

    /// The place of a block among those that were appended, if it is there.
    pub fn find(&self, from: MirrorId, block: Number) -> Option<usize>
        ensures there { IfSome result (λ at. slice_get self.now.items at ≡ Some (from, block)) }
        ensures found { is_some result ≡ has_name self.now.items from block }
    {
        if self.blocks.is_empty() {
            return None;
        }
        search(&self.blocks, &self.links, from, block).ok()
    }
}

// What tells a block's way: its bits, those first that differ between the blocks of usual matches.
fn route_of(from: MirrorId, block: Number) -> u64
    ensures { result ≡ route_of from block }
{
    u64::from(from / 8) * (1 << 31) + u64::from(block) * 8 + u64::from(from % 8)
}

// The place of a block, or else the link that may lead to it, which leads nowhere yet.
fn search(
    blocks: &[(MirrorId, Number)],
    links: &[u32],
    from: MirrorId,
    block: Number,
) -> Result<usize, usize>
    requires { IsBlockTree blocks.now links.now }
    ensures found { IfOk result (λ at. slice_get blocks.now at ≡ Some (from, block)) }
    ensures free { IfErr result (λ link. IsOpen blocks.now links.now from block link) }
{
    let route = route_of(from, block);
    let mut link = (route % 4_096) as usize;
    let mut rest = route / 4_096;
    'steps: loop {
        if links[link] == 0 {
            return Err(link);
        }
        let next = links[link] as usize;
        if blocks[next - 1] == (from, block) {
            return Ok(next - 1);
        }
        link = 4 * next + 4_092 + (rest % 4) as usize;
        rest /= 4;
    }
}

// Makes room for four links more for each of so many blocks, and appends the roots, which lead
// nowhere, where there are no links. On want of memory the links stay.
fn reserve_links(links: &mut Vec<u32>, blocks: usize) -> Result<(), AllocError>
    requires { blocks ≤ MOST_BLOCKS }
    ensures roots { OnOk result
        (length links.old.items ≡ 0 → links.new.items ≡ replicate 4096 0) }
    ensures links { OnOk result
        (0 < length links.old.items → links.new.items ≡ links.old.items) }
    ensures room { OnOk result
        (length links.new.items + 4 * blocks ≤ vec_capacity links.new) }
    ensures err { OnErr result (links.new.items ≡ links.old.items) }
    ensures capacity { vec_capacity links.old ≤ vec_capacity links.new }
{
    if !links.is_empty() {
        return links.reserve(4 * blocks);
    }
    links.reserve(4_096 + 4 * blocks)?;
    links.resize(4_096, 0)
}

// Takes out all links but the roots, where these are there, and lets them lead nowhere.
fn clear_links(links: &mut Vec<u32>)
    ensures none { length links.old.items ≡ 0 → links.new.items ≡ [] }
    ensures roots { 4096 ≤ length links.old.items → links.new.items ≡ replicate 4096 0 }
    ensures capacity { vec_capacity links.new ≡ vec_capacity links.old }
{
    links.truncate(4_096);
    links.fill(0);
}

// Sets a link, where it is there, and appends four links to nowhere, for which there is room.
fn link_to(links: &mut Vec<u32>, link: usize, to: u32)
    requires { vec_len links.old + 4 ≤ vec_capacity links.old }
    ensures items { links.new.items ≡ linked links.old.items link to }
    ensures capacity { vec_capacity links.old ≤ vec_capacity links.new }
{
    set_link(links, link, to);
    match links.extend_from_slice(&[0; 4]) {
        Ok(()) => {}
        Err(_) => unreachable!(),
    }
}

// Sets a link, where it is there.
fn set_link(links: &mut Vec<u32>, link: usize, to: u32)
    ensures items { links.new.items ≡ slice_set links.old.items link to }
    ensures capacity { vec_capacity links.new ≡ vec_capacity links.old }
{
    if link < links.len() {
        links[link] = to;
    }
}
