//! A cell and a facing.

ghost use Rattle.std.specs.Prelude.{◌≡◌};
ghost use Rattle.match_setup.specs.Setup.{spot_cell};
ghost use Rattle.match_setup.specs.Facing.{ahead};

use crate::face::Face;

/// A cell and a facing. In a grid x is from 0 to 63 and rises to the east, and y is from 0 to 63
/// and rises to the south.
#[derive(Clone, Copy, Debug, Default, PartialEq, Eq)]
pub struct Spot {
    /// The column of the cell.
    pub x: u8,
    /// The row of the cell.
    pub y: u8,
    /// Where it looks.
    pub face: Face,
}

impl Spot {
    // The column and the row of the cell ahead, which may be outside the grid.
    pub(crate) fn ahead(self) -> (i32, i32)
        ensures { result ≡ ahead self.face (spot_cell self) }
    {
        let (right, down) = match self.face {
            Face::N => (0, -1),
            Face::E => (1, 0),
            Face::S => (0, 1),
            Face::W => (-1, 0),
        };
        (i32::from(self.x) + right, i32::from(self.y) + down)
    }
}
