//! The epochs of a mirror's copies, kept as numbers.

ghost use Rattle.std.specs.Prelude.{◌≡◌, ◌+◌, ◌<◌, ◌≤◌, ◌^◌, true, ◌==◌, ◌||◌, nat_le, nat_lt};
ghost use Rattle.std.specs.Prelude.{if◌then◌else◌, IfOk, length, replicate, slice_index_or};
ghost use Rattle.std.specs.Prelude.{slice_set};
ghost use Rattle.game_trait.specs.declared.limits.TheConstants.{MOST_COPIES};
ghost use Rattle.sync_model.specs.State.{copy_clock};
ghost use Rattle.mirror_core.specs.Epochs.{AreRenewed, AreSmall};

use game_trait::{Game, Tick};
use std::alloc::Global;
use std::marker::Model;
use trailing_copy::LazyStack;
use tss_base::NoMemory;

/// A number for each copy: how many events have renewed it. Contracts see the numbers, from copy 0
/// on.
#[derive(Drop)]
pub struct Epochs {
    numbers: Vec<u64>,
}

impl Model for Epochs {
    ghost use Rattle.std.specs.Prelude.{ℕ, List, ◌≤◌, vec_len};
    ghost use Rattle.game_trait.specs.declared.limits.TheConstants.{MOST_COPIES};

    ghost Value = { List ℕ };

    ghost view = { λ e. e.numbers.items };

    ghost invariant = { λ e. vec_len e.numbers ≤ MOST_COPIES };
}

impl Epochs {
    /// 0 for each copy. On `NoMemory` nothing is created.
    pub fn new(alloc: Global, copies: u8) -> Result<Epochs, NoMemory>
        requires { copies ≤ MOST_COPIES }
        ensures { IfOk result (λ e. e ≡ replicate copies 0) }
    {
        let mut numbers = Vec::with_capacity(alloc, copies as usize)?;
        for made in 0..copies {
            let _ = made;
            numbers.push_reserved(0);
        }
        Ok(Epochs { numbers })
    }

    /// The copy's number. The copy is there.
    pub fn of(&self, copy: u8) -> u64
        requires { copy < length self.now }
        ensures { result ≡ slice_index_or self.now copy 0 }
    {
        self.numbers[copy as usize]
    }

    // How many copies there are.
    fn copies(&self) -> u8
        ensures { result ≡ length self.now }
    {
        self.numbers.len() as u8
    }

    // Renews a copy, if it is to be.
    fn renew_if(&mut self, copy: u8, is_renewed: bool)
        requires there { copy < length self.old }
        requires small { slice_index_or self.old copy 0 < 2 ^ 63 }
        ensures { self.new
            ≡ slice_set self.old copy
            (slice_index_or self.old copy 0 + (if is_renewed then 1 else 0)) }
    {
        self.numbers[copy as usize] += u64::from(is_renewed);
    }

    /// Another plan renews every copy.
    pub fn renew_all(&mut self)
        requires { AreSmall self.old }
        ensures { AreRenewed (λ c. true) self.old self.new }
    {
        for c in 0..self.copies() {
            self.renew_if(c, true);
        }
    }

    /// A step renews its copy, and those that it repairs, which are the first.
    pub fn renew_stepped(&mut self, copy: u8, repaired: u8)
        requires { AreSmall self.old }
        ensures { AreRenewed (λ c. (c == copy) || nat_lt c repaired) self.old self.new }
    {
        for c in 0..self.copies() {
            self.renew_if(c, c == copy || c < repaired);
        }
    }

    /// A command that is taken renews the copies that stand at its time or past it.
    pub fn renew_due<G: Game>(&mut self, stack: &LazyStack<G>, time: Tick)
        requires as_many { length self.old ≡ length stack.now.runs }
        requires small { AreSmall self.old }
        ensures { AreRenewed (λ c. nat_le time (copy_clock stack.now.runs c)) self.old self.new }
    {
        for c in 0..self.copies() {
            self.renew_if(c, time <= stack.clock(c));
        }
    }
}
