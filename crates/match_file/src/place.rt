//! Walls and pickups, and the cells that they take.

ghost use Rattle.std.specs.Prelude.{◌≡◌, [], ◌∷◌};
ghost use Rattle.match_setup.specs.Words.{kind_word};
ghost use Rattle.match_setup.specs.declared.pickup.Kind.TheVariants as pickup_kinds;
ghost use Rattle.tss_io.specs.Reading.{Answers};
ghost use Rattle.tss_io.specs.Forms.{picked};
ghost use Rattle.tss_io.specs.Lines.{words_of};
ghost use Rattle.match_file.specs.Kinds.{has_wall, has_pickup, is_behind, last_cell, pickup_form};

use crate::cell::Cell;
use match_setup::{Kind, PickupSpot};
use tss_io::Cause;
use tss_io::words::{front, last, number};

/// The words of a pickup's line behind its first, of the right shape.
#[derive(Clone, Copy)]
pub struct PickupWords<'a> {
    x: &'a [u8],
    y: &'a [u8],
    /// The kind of pickup.
    pub kind: Kind,
}

impl<'a> PickupWords<'a> {
    /// The words, where they have the shape of a pickup's; else `Shape`.
    pub fn of(words: &'a [u8]) -> Result<PickupWords<'a>, Cause>
        ensures { Answers (λ w. (w.x.now, (w.y.now, w.kind))) result
            (pickup_form.see (words_of words.now)) }
    {
        let (x, words) = front(words)?;
        let (y, words) = front(words)?;
        let kind = kind_of(last(words)?)?;
        Ok(PickupWords { x, y, kind })
    }

    /// The column and the row that the words say; `Number` where one of them isn't a number.
    pub fn cell(&self) -> Result<(u32, u32), Cause>
        ensures { let w = self.now in
            Answers (λ at. (at.0, (at.1, w.kind))) result
            (pickup_form.value (w.x.now, (w.y.now, w.kind))) }
    {
        let x = number(0, u32::MAX, self.x)?;
        let y = number(0, u32::MAX, self.y)?;
        Ok((x, y))
    }
}

/// The kind of pickup that the word names.
pub fn kind_of(word: &[u8]) -> Result<Kind, Cause>
    ensures { Answers (λ x. x) result
        (picked kind_word
        (pickup_kinds.Ammo ∷ pickup_kinds.Heal ∷ pickup_kinds.Gold ∷ []) word.now) }
{
    if word == b"ammo".as_slice() {
        Ok(Kind::Ammo)
    } else if word == b"heal".as_slice() {
        Ok(Kind::Heal)
    } else if word == b"gold".as_slice() {
        Ok(Kind::Gold)
    } else {
        Err(Cause::Shape)
    }
}

/// Whether the cell stands behind the last of the cells, row by row.
pub fn is_behind_all(cell: Cell, cells: &[Cell]) -> bool
    ensures { result ≡ is_behind cell (last_cell cells.now) }
{
    match cells.last() {
        None => true,
        Some(last) => last.y < cell.y || (last.y == cell.y && last.x < cell.x),
    }
}

/// Whether one of the walls is in this cell.
#[tactic(auto, unfolding(crate::specs::Kinds::has_wall))]
pub fn has_wall(x: u8, y: u8, walls: &[Cell]) -> bool
    ensures { result ≡ has_wall x y walls.now }
{
    walls.iter().any(|c| c.x == x && c.y == y)
}

/// Whether one of the pickups is in this cell.
#[tactic(auto, unfolding(crate::specs::Kinds::has_pickup))]
pub fn has_pickup(x: u8, y: u8, pickups: &[PickupSpot]) -> bool
    ensures { result ≡ has_pickup x y pickups.now }
{
    pickups.iter().any(|p| p.x == x && p.y == y)
}
