//! The lines of a world: its players, and its rows of cells.

ghost use Rattle.std.specs.Prelude.{◌≡◌, ◌++◌, ◌<◌, ◌≤◌, length, take, OnOk, OnErr};
ghost use Rattle.tss_io.specs.Lines.{as_line, lines_text};
ghost use Rattle.paint_rules.specs.Owners.{owned};
ghost use Rattle.paint_rules.specs.Block.{painter_line, painter_lines, owner_byte, cell_byte, row_word, row_line, row_lines};

use crate::cells::Cells;
use arrayvec::ArrayVec;
use match_setup::{Ground, Roster, Spot};
use tss_base::NoMemory;
use tss_io::{Word, push_line};

// Appends the line of a player of this name who owns this number of cells. On `NoMemory` `out` is
// unchanged.
#[tactic(auto, unfolding(crate::specs::Block::painter_line))]
fn push_painter(name: &[u8], owned: u32, spot: Spot, out: &mut Vec<u8>) -> Result<(), NoMemory>
    ensures ok { OnOk result (out.new.items ≡ out.old.items ++ painter_line name.now owned spot) }
    ensures err { OnErr result (out.new.items ≡ out.old.items) }
{
    let words = [
        Word::Text(b"painter"),
        Word::Text(name),
        Word::Number(i64::from(spot.x)),
        Word::Number(i64::from(spot.y)),
        Word::Text(spot.face.word()),
        Word::Number(i64::from(owned)),
    ];
    push_line(out, &words)
}

/// Appends the players' lines. On `NoMemory` some may have been appended.
pub fn push_painters(
    players: &[Spot],
    cells: &Cells,
    roster: &Roster,
    out: &mut Vec<u8>,
) -> Result<(), NoMemory>
    requires { length players.now ≤ 32 }
    ensures ok { OnOk result
        (out.new.items ≡ out.old.items ++ painter_lines roster.now cells.now 0 players.now) }
    ensures front { take (length out.old.items) out.new.items ≡ out.old.items }
{
    for (number, player) in players.iter().enumerate() {
        let number = number as u8;
        let name = roster.printed_name(number);
        push_painter(name, cells.owned(number), *player, out)?;
    }
    Ok(())
}

// The byte that shows a cell's owner.
fn owner_byte(owner: u8) -> u8
    requires { owner ≤ 32 }
    ensures { result ≡ owner_byte owner }
{
    match owner {
        0..=25 => b'a' + owner,
        26..=31 => b'A' + (owner - 26),
        _ => b'.',
    }
}

// The byte that shows a cell of the grid.
fn cell_byte(ground: &Ground, cells: &Cells, x: u8, y: u8) -> u8
    requires column { x < ground.now.width }
    requires row { y < ground.now.height }
    ensures { result ≡ cell_byte ground.now cells.now x y }
{
    // Tells that no grid is wider or taller than 64 cells.
    let _ = ground.width();
    if ground.free(i32::from(x), i32::from(y)) {
        owner_byte(cells.owner(x, y))
    } else {
        b'#'
    }
}

// The bytes of a row of the grid.
fn row_word(ground: &Ground, cells: &Cells, y: u8) -> ArrayVec<u8, 64>
    requires { y < ground.now.height }
    ensures { result.items ≡ row_word ground.now cells.now y }
{
    let mut word = ArrayVec::new();
    for x in 0..ground.width() {
        word.push(cell_byte(ground, cells, x, y));
    }
    word
}

// Appends the line of a row of the grid. On `NoMemory` `out` is unchanged.
#[tactic(auto, unfolding(crate::specs::Block::row_line))]
fn push_row(ground: &Ground, cells: &Cells, y: u8, out: &mut Vec<u8>) -> Result<(), NoMemory>
    requires { y < ground.now.height }
    ensures ok { OnOk result
        (out.new.items ≡ out.old.items ++ as_line (row_line ground.now cells.now y)) }
    ensures err { OnErr result (out.new.items ≡ out.old.items) }
{
    let word = row_word(ground, cells, y);
    push_line(out, &[Word::Text(b"row"), Word::Text(&word)])
}

/// Appends the lines of the rows. On `NoMemory` some may have been appended.
pub fn push_rows(ground: &Ground, cells: &Cells, out: &mut Vec<u8>) -> Result<(), NoMemory>
    ensures ok { OnOk result
        (out.new.items ≡ out.old.items ++ lines_text (row_lines ground.now cells.now)) }
    ensures front { take (length out.old.items) out.new.items ≡ out.old.items }
{
    for y in 0..ground.height() {
        push_row(ground, cells, y, out)?;
    }
    Ok(())
}
