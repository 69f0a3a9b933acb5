//! A source and a sink in memory, that fail where they are told to.
ghost use Rattle.std.specs.Prelude.{◌≡◌, ◌≤◌, ◌<◌, ◌+◌, ◌⊎◌, ◌↔◌, [], Some, length, take, min, IsTrue, IsErr, IfOk, OnErr, Contains};
ghost use Rattle.tss_io.specs.Streams.{Yields};

use crate::faults::Failed;
use crate::sink::Sink;
use crate::source::Source;
use std::alloc::Global;
use std::marker::Model;
use tss_base::NoMemory;

/// A source of bytes in memory, that fails where it is told to.
#[derive(Debug, Drop)]
pub struct MemSource {
    bytes: Vec<u8>,
    at: usize,
    piece: usize,
    fails: Vec<u32>,
    calls: u64,
    faults: u64,
}

impl Model for MemSource {
    ghost use Rattle.std.specs.Prelude.{◌≤◌, drop, vec_len};
    ghost use Rattle.tss_io.specs.Memory.{Input};

    ghost Value = { Input };

    ghost view = { λ s. record {
      left = drop s.at s.bytes.items;
      piece = s.piece;
      fails = s.fails.items;
      calls = s.calls;
      faults = s.faults;
    } };

    ghost invariant = { λ s. (s.at ≤ vec_len s.bytes) × (1 ≤ s.piece) };
}

impl MemSource {
    ghost use Rattle.tss_io.specs.Memory.{Input};

    /// A source of `bytes`, at most `piece` of them a call. Calls are numbered from 0, and those
    /// listed in `fails` fail. It takes no memory.
    pub fn new(bytes: Vec<u8>, piece: usize, fails: Vec<u32>) -> MemSource
        requires { 1 ≤ piece }
        ensures { result
            ≡ record {
              left = bytes.items;
              piece = piece;
              fails = fails.items;
              calls = 0;
              faults = 0;
            } }
    {
        MemSource {
            bytes,
            at: 0,
            piece,
            fails,
            calls: 0,
            faults: 0,
        }
    }
}

impl Source for MemSource {
    ghost use Rattle.tss_io.specs.Memory.{after_read, after_failed_read};

    ghost left = { λ s. Some s.left };

    ghost faults = { λ s. s.faults };

    ghost calls = { λ s. s.calls };

    fn read(&mut self, out: &mut [u8]) -> Result<usize, Failed>
        requires { 0 < length out.old }
        ensures within { IfOk result (λ n. n ≤ length out.new) }
        ensures bytes { IfOk result
            (λ n. Yields (Some self.old.left) (take n out.new) (Some self.new.left)) }
        ensures end { IfOk result (λ n. (n ≡ 0) ↔ (self.old.left ≡ [])) }
        ensures never_falls { self.old.faults ≤ self.new.faults }

        // Beyond the trait: which calls fail, how many bytes the others give, and what stands after
        // each.
        ensures listed { IsErr result ↔ Contains self.old.fails self.old.calls }
        ensures amount { IfOk result
            (λ n. n ≡ min (min (length out.old) self.old.piece) (length self.old.left)) }
        ensures ok { IfOk result (λ n. self.new ≡ after_read self.old n) }
        ensures err { OnErr result (self.new ≡ after_failed_read self.old) }
    {
        let is_listed = is_listed(&self.fails, self.calls);
        self.calls = self.calls.saturating_add(1);
        if is_listed {
            self.faults = self.faults.saturating_add(1);
            return Err(Failed);
        }
        let (_, left) = self.bytes.split_at(self.at);
        let count = copy_front(left, self.piece, out);
        self.at += count;
        Ok(count)
    }
}

// Copies the first bytes, at most a given number, to the front of `out`, and answers how many.
fn copy_front(bytes: &[u8], most: usize, out: &mut [u8]) -> usize
    ensures count { result ≡ min (min (length out.old) most) (length bytes.now) }
    ensures copied { take result out.new ≡ take result bytes.now }
{
    let count = out.len().min(most).min(bytes.len());
    let (piece, _) = bytes.split_at(count);
    let (front, _) = out.split_at_mut(count);
    front.copy_from_slice(piece);
    count
}

/// A sink of bytes in memory, that fails where it is told to or has no room left.
#[derive(Debug, Drop)]
pub struct MemSink {
    bytes: Vec<u8>,
    room: usize,
    piece: usize,
    fails: Vec<u32>,
    calls: u64,
    faults: u64,
}

impl Model for MemSink {
    ghost use Rattle.std.specs.Prelude.{◌≤◌, ◌+◌, vec_len, vec_capacity};
    ghost use Rattle.tss_io.specs.Memory.{Output};

    ghost Value = { Output };

    ghost view = { λ s. record {
      taken = s.bytes.items;
      room = s.room;
      piece = s.piece;
      fails = s.fails.items;
      calls = s.calls;
      faults = s.faults;
    } };

    ghost invariant = { λ s. (vec_len s.bytes + s.room ≤ vec_capacity s.bytes) × (1 ≤ s.piece) };
}

impl MemSink {
    ghost use Rattle.tss_io.specs.Memory.{Output};

    /// A sink with room for `room` bytes, that takes at most `piece` of them a call. Calls are
    /// numbered from 0, and those listed in `fails` fail. On `NoMemory` nothing was made.
    pub fn new(
        alloc: Global,
        room: usize,
        piece: usize,
        fails: Vec<u32>,
    ) -> Result<MemSink, NoMemory>
        requires { 1 ≤ piece }
        ensures { IfOk result (λ s.
            s ≡ record {
              taken = [];
              room = room;
              piece = piece;
              fails = fails.items;
              calls = 0;
              faults = 0;
            }) }
    {
        Ok(MemSink {
            bytes: Vec::with_capacity(alloc, room)?,
            room,
            piece,
            fails,
            calls: 0,
            faults: 0,
        })
    }

    /// The bytes that it took.
    pub fn taken(&self) -> &[u8]
        ensures { result.now ≡ self.now.taken }
    {
        self.bytes.as_slice()
    }
}

impl Sink for MemSink {
    ghost use Rattle.tss_io.specs.Memory.{after_put, after_failed_put};

    ghost taken = { λ s. Some s.taken };

    ghost faults = { λ s. s.faults };

    ghost calls = { λ s. s.calls };

    fn put(&mut self, piece: &[u8]) -> Result<usize, Failed>
        requires { 0 < length piece.now }
        ensures progress { IfOk result (λ n. 1 ≤ n) }
        ensures within { IfOk result (λ n. n ≤ length piece.now) }
        ensures never_falls { self.old.faults ≤ self.new.faults }

        // Beyond the trait: which calls fail, how many bytes the others take, and what stands after
        // each.
        ensures listed { IsErr result
            ↔ (Contains self.old.fails self.old.calls ⊎ (self.old.room ≡ 0)) }
        ensures amount { IfOk result
            (λ n. n ≡ min (min (length piece.now) self.old.piece) self.old.room) }
        ensures ok { IfOk result (λ n. self.new ≡ after_put self.old (take n piece.now)) }
        ensures err { OnErr result (self.new ≡ after_failed_put self.old) }
    {
        let is_listed = is_listed(&self.fails, self.calls);
        self.calls = self.calls.saturating_add(1);
        if is_listed || self.room == 0 {
            self.faults = self.faults.saturating_add(1);
            return Err(Failed);
        }
        let count = piece.len().min(self.piece).min(self.room);
        let (front, _) = piece.split_at(count);
        self.bytes.extend_from_slice(front).unwrap();
        self.room -= count;
        Ok(count)
    }
}

// The number of the call is among those that are to fail.
fn is_listed(fails: &[u32], call: u64) -> bool
    ensures { IsTrue result ↔ Contains fails.now call }
{
    fails.iter().any(|&listed| u64::from(listed) == call)
}
