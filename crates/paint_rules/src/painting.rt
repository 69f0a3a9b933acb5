//! Several cells painted in a row.

ghost use Rattle.std.specs.Prelude.{◌≡◌, ◌<◌, ◌≤◌, length, All};
ghost use Rattle.paint_rules.specs.Scene.{settled};
ghost use Rattle.paint_rules.specs.Command.{painted_ahead};

use crate::board::Board;
use crate::cells::Cells;
use match_setup::{Ground, Spot};

// How many cells ahead a shot paints.
const REACH: usize = 3;

/// Each home becomes the cell of the player who starts there.
pub fn settle(cells: &mut Cells, homes: &[Spot])
    requires within { All (λ home. (home.x < 64) × (home.y < 64)) homes.now }
    requires few { length homes.now ≤ 32 }
    ensures { cells.new ≡ settled 0 homes.now cells.old }
{
    for (number, home) in homes.iter().enumerate() {
        cells.paint(home.x, home.y, number as u8);
    }
}

/// The three cells ahead of this spot become the player's, up to the first that is outside or
/// walled.
pub fn paint_ahead(board: &mut Board, ground: &Ground, number: u8, spot: Spot)
    requires { number < 32 }
    ensures { board.new ≡ record board.old {
      owners = painted_ahead ground.now number 3 spot board.old.owners;
    } }
{
    let mut at = spot;
    for _ in 0..REACH {
        let Some(next) = ground.open_ahead(at) else {
            return;
        };
        board.paint(next.x, next.y, number);
        at = next;
    }
}
