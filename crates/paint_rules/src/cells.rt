//! The owners of the cells, with a running count for each player.

ghost use Rattle.std.specs.Prelude.{◌≡◌, ◌<◌, ◌≤◌, length, replicate, slice_set};
ghost use Rattle.paint_rules.specs.Owners.{unowned, owner_of, painted, owned};

use std::marker::Model;

/// The number that stands for nobody among the owners.
pub const NOBODY: u8 = 32;

/// The owners of 64 rows of 64 cells: for each the number of a player, below 32, or 32 where nobody
/// owns it. How many cells each of them owns is counted beside them by each change. Contracts see
/// the list of the owners, row after row. It has a fixed size.
#[derive(Debug, Drop)]
pub struct Cells {
    owners: [u8; 4096],
    counts: [u32; 33],
}

impl Model for Cells {
    ghost use Rattle.std.specs.Prelude.{ℕ, List, ◌≤◌};
    ghost use Rattle.std.specs.List.{AllByRecursion};
    ghost use Rattle.paint_rules.specs.Owners.{AreCounts};

    ghost Value = { List ℕ };

    ghost view = { λ c. c.owners };

    ghost invariant = { λ c. AreCounts c.counts c.owners × AllByRecursion (λ o. o ≤ 32) c.owners };
}

impl Cells {
    /// Cells that are all nobody's.
    pub fn unowned() -> Cells
        ensures { result ≡ unowned }
    {
        Cells {
            owners: [NOBODY; 4096],
            counts: first_counts(),
        }
    }

    /// How many cells the player of this number owns, from 0 to 4,096.
    pub fn owned(&self, player: u8) -> u32
        requires { player < 32 }
        ensures count { result ≡ owned player self.now }
        ensures few { result ≤ 4096 }
    {
        self.counts[player as usize]
    }

    /// The owner of the cell in this column and row, each below 64.
    pub fn owner(&self, x: u8, y: u8) -> u8
        requires column { x < 64 }
        requires row { y < 64 }
        ensures owner { result ≡ owner_of self.now (record { x = x; y = y }) }
        ensures known { result ≤ 32 }
    {
        self.owners[x as usize + 64 * y as usize]
    }

    /// The cell in this column and row, each below 64, becomes the owner's, or nobody's at 32.
    pub fn paint(&mut self, x: u8, y: u8, owner: u8)
        requires column { x < 64 }
        requires row { y < 64 }
        requires owner { owner ≤ 32 }
        ensures { self.new ≡ painted self.old (record { x = x; y = y }) owner }
    {
        let place = x as usize + 64 * y as usize;
        if self.owners[place] != owner {
            self.give(place, owner);
        }
    }

    // The cell in this place of the list becomes the owner's.
    fn give(&mut self, place: usize, owner: u8)
        requires place { place < length self.old }
        requires owner { owner ≤ 32 }
        ensures { self.new ≡ slice_set self.old place owner }
    {
        let before = self.owners[place];
        self.counts[before as usize] -= 1;
        self.counts[owner as usize] += 1;
        self.owners[place] = owner;
    }

    /// Makes them the same as others.
    pub fn set_from(&mut self, other: &Cells)
        ensures { self.new ≡ other.now }
    {
        self.owners = other.owners;
        self.counts = other.counts;
    }

    /// Others that are the same.
    pub fn twin(&self) -> Cells
        ensures { result ≡ self.now }
    {
        Cells {
            owners: self.owners,
            counts: self.counts,
        }
    }
}

// The counts where every cell is nobody's.
fn first_counts() -> [u32; 33]
    ensures { result ≡ slice_set (replicate 33 0) 32 4096 }
{
    let mut counts = [0; 33];
    counts[32] = 4096;
    counts
}
