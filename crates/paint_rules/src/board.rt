//! The owners of the cells, and the pickups that wipe them.

ghost use Rattle.std.specs.Prelude.{◌≡◌, ◌<◌, ◌≤◌, All};
ghost use Rattle.match_setup.specs.Ground.{IsWalled};
ghost use Rattle.paint_rules.specs.Owners.{owner_of, painted, owned};
ghost use Rattle.paint_rules.specs.Beat.{wiped};

use crate::cells::{Cells, NOBODY};
use arrayvec::ArrayVec;
use game_trait::limits::MOST_PICKUPS;
use match_setup::{Ground, PickupSpot, copied, copy_into};
use std::marker::Model;

/// The owners of the cells, and where pickups lie. A beat has something to do only after a pickup's
/// cell was painted; so the pickups' cells are marked, as walls on a ground of their own, and each
/// change looks whether it paints one of them. Contracts see the owners and the pickups.
#[derive(Debug, Drop)]
pub struct Board {
    cells: Cells,
    pickups: ArrayVec<PickupSpot, MOST_PICKUPS>,
    marks: Ground,
    // whether a pickup's cell may be somebody's
    may_be_owned: bool,
}

impl Model for Board {
    ghost use Rattle.paint_rules.specs.Kept.{Owners, AreMarked};

    ghost Value = { Owners };

    ghost view = { λ b. record { owners = b.cells; pickups = b.pickups.items } };

    ghost invariant = { λ b. AreMarked b.cells b.pickups.items b.marks b.may_be_owned };
}

// A ground whose walls are the cells of the pickups.
fn marks_of(pickups: &[PickupSpot]) -> Ground
    requires { All (λ pickup. (pickup.x < 64) × (pickup.y < 64)) pickups.now }
    ensures { All (λ pickup. IsWalled result pickup.x pickup.y) pickups.now }
{
    let mut marks = Ground::new(64, 64);
    for pickup in pickups {
        marks.wall(pickup.x, pickup.y);
    }
    marks
}

impl Board {
    /// These cells, with pickups that lie in columns and rows below 64.
    pub fn new(cells: Cells, pickups: &ArrayVec<PickupSpot, MOST_PICKUPS>) -> Board
        requires { All (λ pickup. (pickup.x < 64) × (pickup.y < 64)) pickups.now.items }
        ensures { result ≡ record { owners = cells; pickups = pickups.now.items } }
    {
        Board {
            cells,
            pickups: copied(pickups),
            marks: marks_of(pickups),
            may_be_owned: true,
        }
    }

    /// The owners.
    pub fn cells(&self) -> &Cells
        ensures { result.now ≡ self.now.owners }
    {
        &self.cells
    }

    /// The cell in this column and row, each below 64, becomes the owner's.
    pub fn paint(&mut self, x: u8, y: u8, owner: u8)
        requires column { x < 64 }
        requires row { y < 64 }
        requires owner { owner ≤ 32 }
        ensures { self.new
            ≡ record self.old { owners = painted self.old.owners (record { x = x; y = y }) owner } }
    {
        self.cells.paint(x, y, owner);
        self.may_be_owned |= !self.marks.free(i32::from(x), i32::from(y));
    }

    /// The cells of the pickups become nobody's.
    pub fn wipe(&mut self)
        ensures { self.new ≡ record self.old { owners = wiped self.old.pickups self.old.owners } }
    {
        if self.may_be_owned {
            wipe_each(&mut self.cells, &self.pickups);
            self.may_be_owned = false;
        }
    }

    /// Makes it the same as another.
    pub fn set_from(&mut self, other: &Board)
        ensures { self.new ≡ other.now }
    {
        self.cells.set_from(&other.cells);
        copy_into(&mut self.pickups, &other.pickups);
        self.marks = other.marks;
        self.may_be_owned = other.may_be_owned;
    }

    /// Another that is the same.
    pub fn twin(&self) -> Board
        ensures { result ≡ self.now }
    {
        Board {
            cells: self.cells.twin(),
            pickups: copied(&self.pickups),
            marks: self.marks,
            may_be_owned: self.may_be_owned,
        }
    }
}

// The cells of the pickups become nobody's, one after the other.
#[inline(never)]
fn wipe_each(cells: &mut Cells, pickups: &[PickupSpot])
    requires { All (λ pickup. (pickup.x < 64) × (pickup.y < 64)) pickups.now }
    ensures { cells.new ≡ wiped pickups.now cells.old }
{
    for pickup in pickups {
        cells.paint(pickup.x, pickup.y, NOBODY);
    }
}
