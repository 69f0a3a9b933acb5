//! The ground: a grid with walls.

ghost use Rattle.std.specs.Prelude.{◌≡◌, ℕ, ◌≤◌, ◌<◌, ◌↔◌, ◌⊎◌, ◌&&◌, not, pos, int_lt, IfSome};
ghost use Rattle.game_trait.specs.declared.limits.TheConstants.{NARROWEST_GRID, WIDEST_GRID, TALLEST_GRID};
ghost use Rattle.match_setup.specs.Ground.{open_grid, with_wall, is_walled, IsWalled, is_open, is_free, IsGrid};
ghost use Rattle.match_setup.specs.Facing.{open_spot, open_ahead};

use crate::face::Face;
use crate::spot::Spot;
use std::marker::Model;

/// The ground of an arena: a grid of at most 64 by 64 cells, some of them walled. Cells are (x, y);
/// x rises to the east and y to the south, both from 0. It has a fixed size, and no call takes
/// memory.
#[derive(Clone, Copy, Debug, PartialEq, Eq)]
pub struct Ground {
    width: u8,
    height: u8,
    walls: [u64; 64],
}

impl Model for Ground {
    ghost use Rattle.match_setup.specs.Ground.{Grid, IsGrid};

    ghost Value = { Grid };

    ghost view = { λ g. record { width = g.width; height = g.height; walls = g.walls } };

    ghost invariant = { λ g. IsGrid (record { width = g.width; height = g.height; walls = g.walls }) };

    ghost inverse = { λ grid. record { width = grid.width; height = grid.height; walls = grid.walls } };
}

impl Ground {
    /// A grid of these sides without walls. The width is from 3 to 64 and the height from 1 to 64.
    pub fn new(width: u8, height: u8) -> Ground
        requires width { (NARROWEST_GRID ≤ width) × (width ≤ WIDEST_GRID) }
        requires height { (1 ≤ height) × (height ≤ TALLEST_GRID) }
        ensures open { result ≡ open_grid width height }
        ensures no_wall { (x y : ℕ) → ¬ IsWalled result x y }
        ensures sound { IsGrid result }
    {
        Ground {
            width,
            height,
            walls: [0; 64],
        }
    }

    /// Walls the cell (x, y), which is in the grid.
    pub fn wall(&mut self, x: u8, y: u8)
        requires column { x < self.old.width }
        requires row { y < self.old.height }
        ensures walled { self.new ≡ with_wall self.old x y }
        ensures cells { (a b : ℕ)
            → IsWalled self.new a b ↔ (IsWalled self.old a b ⊎ ((a ≡ x) × (b ≡ y))) }
        ensures sides { (self.new.width ≡ self.old.width) × (self.new.height ≡ self.old.height) }
        ensures sound { IsGrid self.new }
    {
        let row = self.walls[y as usize];
        self.walls[y as usize] = row | 1u64 << x;
    }

    /// Whether the cell (x, y) is in the grid and not walled.
    pub fn free(&self, x: i32, y: i32) -> bool
        ensures { result ≡ is_free self.now x y }
    {
        // Reads the ground, whose invariant the answers below rest on.
        let _ = &self.width;
        let Ok(x) = u8::try_from(x) else {
            return false;
        };
        let Ok(y) = u8::try_from(y) else {
            return false;
        };
        self.is_open(x, y)
    }

    #[tactic(auto, unfolding(crate::specs::Ground::is_open))]
    fn is_open(&self, x: u8, y: u8) -> bool
        ensures { result ≡ is_open self.now x y }
    {
        x < self.width && y < self.height && !self.is_walled(x, y)
    }

    /// The spot one cell ahead with the same facing, where that is a cell of the grid and not
    /// walled.
    pub fn open_ahead(&self, spot: Spot) -> Option<Spot>
        ensures ahead { result ≡ open_ahead self.now spot }
        ensures within { IfSome result (λ next. (next.x < 64) × (next.y < 64)) }
    {
        let (x, y) = spot.ahead();
        self.open_spot(spot.face, x, y)
    }

    // Whether the grid has this column and this row.
    fn has(&self, x: i32, y: i32) -> bool
        ensures inside { result
            ≡ ((not (int_lt x (pos 0)) && not (int_lt y (pos 0)))
            && (int_lt x (pos self.now.width) && int_lt y (pos self.now.height))) }
        ensures sound { IsGrid self.now }
    {
        // Reads the ground, whose invariant the answers below rest on.
        let _ = &self.width;
        x >= 0 && y >= 0 && x < i32::from(self.width) && y < i32::from(self.height)
    }

    // The spot at this column and row with this facing, where that is a cell of the grid and not
    // walled.
    #[tactic(auto, unfolding(crate::specs::Ground::is_open))]
    fn open_spot(&self, face: Face, x: i32, y: i32) -> Option<Spot>
        ensures spot { result ≡ open_spot self.now face (x, y) }
        ensures within { IfSome result (λ spot. (spot.x < 64) × (spot.y < 64)) }
    {
        if !self.has(x, y) {
            return None;
        }
        let (x, y) = (x as u8, y as u8);
        if self.is_walled(x, y) {
            return None;
        }
        Some(Spot { x, y, face })
    }

    fn is_walled(&self, x: u8, y: u8) -> bool
        requires column { x < self.now.width }
        requires row { y < self.now.height }
        ensures { result ≡ is_walled self.now x y }
    {
        let row = self.walls[y as usize];
        row >> x & 1 == 1
    }

    /// The number of columns.
    pub fn width(&self) -> u8
        ensures value { result ≡ self.now.width }
        ensures sound { IsGrid self.now }
    {
        self.width
    }

    /// The number of rows.
    pub fn height(&self) -> u8
        ensures value { result ≡ self.now.height }
        ensures sound { IsGrid self.now }
    {
        self.height
    }
}
