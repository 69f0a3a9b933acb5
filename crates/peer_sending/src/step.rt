//! A slot's commands put into a packet, as far as there is room.

ghost use Rattle.std.specs.Prelude.{◌≡◌, ℕ, ◌+◌, ◌-◌, ◌^◌, ◌≤◌, ◌<◌, nat_lt, if◌then◌else◌, Some, None, IfSome, IfNone, length, [], ◌∷◌};
ghost use Rattle.std.specs.List.{flat_map};
ghost use Rattle.peer_packet.specs.Packet.{part_bytes};
ghost use Rattle.peer_packet.specs.Putting.{Puts};
ghost use Rattle.peer_packet.specs.Filling.{part_of, filled, weight};
ghost use Rattle.peer_sending.specs.Pieces.{Fits, parts_of};
ghost use Rattle.peer_sending.specs.Filling.{EndsWith, GoesOn};

use peer_packet::{Commands, Cursor, Piece, put_part};

/// What came of putting a slot's commands.
#[derive(Clone, Copy, Debug)]
pub struct Step {
    /// The place behind what was put.
    pub behind: usize,
    /// How many parts and commands were put.
    pub weight: usize,
    /// Where the packet ends here, the cursor that it leaves.
    pub end: Option<Cursor>,
}

// Where a packet ends that has so many of a piece's commands, if these aren't all.
fn end_of(piece: &Piece, count: usize) -> Option<Cursor>
    requires within { count ≤ piece.now.count }
    requires reach { piece.now.first + piece.now.count < 2 ^ 32 }
    ensures { result ≡ (if nat_lt count piece.now.count
        then Some (record { slot = piece.now.origin; number = piece.now.first + count }) else None) }
{
    if count < piece.count {
        let number = piece.first + count as u32;
        Some(Cursor {
            slot: piece.origin,
            number,
        })
    } else {
        None
    }
}

/// Puts a piece behind a place, as many of its commands as there is room for.
pub fn put_piece<C: Commands>(out: &mut [u8], at: usize, piece: &Piece, commands: &C) -> Step
    requires place { at ≤ length out.old }
    requires fits { Fits piece.now (C.commands commands.now) }
    ensures bytes { Puts out.old out.new at result.behind (flat_map part_bytes
        (filled (length out.old - at) (part_of piece.now (C.commands commands.now) ∷ [])).parts) }
    ensures weight { result.weight ≡ weight (filled (length out.old - at) (part_of piece.now (C.commands commands.now) ∷ [])).parts }
    ensures goes { IfNone result.end
        (GoesOn (length out.old - at) (length out.old - result.behind) (part_of piece.now (C.commands commands.now) ∷ [])) }
    ensures ends { IfSome result.end (λ c. EndsWith (length out.old - at) (part_of piece.now (C.commands commands.now) ∷ []) c) }
{
    match put_part(out, at, piece, commands) {
        None => Step {
            behind: at,
            weight: 0,
            end: Some(Cursor {
                slot: piece.origin,
                number: piece.first,
            }),
        },
        Some((behind, count)) => Step {
            behind,
            weight: 1 + count,
            end: end_of(piece, count),
        },
    }
}
