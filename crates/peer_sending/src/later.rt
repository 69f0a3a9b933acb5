//! What waits of a slot's commands behind where the last packet ended.

ghost use Rattle.std.specs.Prelude.{◌≡◌, ℕ, ◌+◌, ◌-◌, ◌^◌, ◌≤◌, ◌<◌, nat_le, IfSome, length, [], ◌∷◌, take, drop};
ghost use Rattle.peer_packet.specs.Filling.{part_of, later_part, behind_cursor};
ghost use Rattle.peer_sending.specs.Pieces.{Fits, parts_of};

use peer_packet::{Commands, Cursor, Piece};

// All numbers of a piece are below this one.
fn is_past(piece: &Piece, number: u32) -> bool
    requires { piece.now.first + piece.now.count < 2 ^ 32 }
    ensures { result ≡ nat_le (piece.now.first + piece.now.count) number }
{
    piece.first + piece.count as u32 <= number
}

// A piece without its first commands, which are some and not all.
fn later<C: Commands>(piece: &Piece, skipped: u32, commands: &C) -> Piece
    requires fits { Fits piece.now (C.commands commands.now) }
    requires some { 0 < skipped }
    requires more { skipped < piece.now.count }
    ensures part { part_of result (C.commands commands.now) ≡ later_part skipped (part_of piece.now (C.commands commands.now)) }
    ensures fits { Fits result (C.commands commands.now) }
{
    let from = piece.from + skipped as usize;
    Piece {
        origin: piece.origin,
        first: piece.first + skipped,
        before: commands.time(from - 1),
        from,
        count: piece.count - skipped as usize,
    }
}

/// What waits of a piece behind a cursor.
pub fn behind<C: Commands>(cursor: Cursor, piece: &Piece, commands: &C) -> Option<Piece>
    requires { Fits piece.now (C.commands commands.now) }
    ensures parts { parts_of result (C.commands commands.now) ≡ behind_cursor cursor (part_of piece.now (C.commands commands.now) ∷ []) }
    ensures fits { IfSome result (λ x. Fits x (C.commands commands.now)) }
{
    if piece.origin < cursor.slot {
        return None;
    }
    if cursor.slot < piece.origin || cursor.number <= piece.first {
        return Some(*piece);
    }
    if is_past(piece, cursor.number) {
        return None;
    }
    Some(later(piece, cursor.number - piece.first, commands))
}
