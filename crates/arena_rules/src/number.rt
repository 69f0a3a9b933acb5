//! Cells as numbers, of which one is looked for among others.

ghost use Rattle.std.specs.Prelude.{◌≡◌, ◌==◌};
ghost use Rattle.std.specs.List.{list_any};
ghost use Rattle.arena_rules.specs.Kept.{cell_number};

use match_setup::Spot;

/// The number that is kept for who stands nowhere: that of a cell that no grid has.
pub const NOWHERE: u16 = 65535;

/// The number that stands where none is kept: that of another such cell.
pub const UNUSED: u16 = 65534;

/// The number of a cell. No two cells have the same.
pub fn cell_number(x: u8, y: u8) -> u16
    ensures { result ≡ cell_number x y }
{
    u16::from(x) + 256 * u16::from(y)
}

/// The number of the cell of a spot.
pub fn spot_number(spot: Spot) -> u16
    ensures { result ≡ cell_number spot.x spot.y }
{
    cell_number(spot.x, spot.y)
}

/// Whether a number is among others. Each is asked, whatever those before it answer, so that several
/// are asked at once.
#[inline(always)]
pub fn has_number(numbers: &[u16], number: u16) -> bool
    ensures { result ≡ list_any (λ n. n == number) numbers.now }
{
    let mut found = false;
    for n in numbers {
        found |= *n == number;
    }
    found
}
