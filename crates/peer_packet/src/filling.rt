//! A part put from whatever keeps a slot's commands, as much of it as there is room for. No call takes
//! memory.

ghost use Rattle.std.specs.Prelude.{◌≡◌, ◌≤◌, ◌<◌, ◌+◌, ◌-◌, ◌^◌, List, IfNone, IfSome, length, take, drop, nat_lt, slice_index_or, true, false, ◌&&◌, ◌==◌};
ghost use Rattle.std.specs.List.{flat_map};
ghost use Rattle.peer_packet.specs.Packet.{Sent, sent_bytes, part_bytes};
ghost use Rattle.peer_packet.specs.Filling.{fitting, ends_before, first_part, part_of};
ghost use Rattle.peer_packet.specs.Putting.{Puts};

use crate::part::PartHead;
use crate::put::{put_head, put_sent};

/// A slot's commands, for whoever keeps them.
pub trait Commands {
    ghost commands: { Self → List Sent };

    /// The tick that a command is due at.
    fn time(&self, place: usize) -> u32
        requires { place < length (commands self.now) }
        ensures { (d : Sent) → result ≡ (slice_index_or (commands self.now) place d).time };

    /// A command's payload.
    fn payload(&self, place: usize) -> &[u8]
        requires { place < length (commands self.now) }
        ensures bytes { (d : Sent) → result.now ≡ (slice_index_or (commands self.now) place d).payload }
        ensures short { length result.now < 256 };
}

/// Commands of a slot that are due for another peer: so many from a place on, and what their part tells of
/// them.
#[derive(Clone, Copy, Debug)]
pub struct Piece {
    /// The slot whose commands they are.
    pub origin: u8,
    /// The number of the first.
    pub first: u32,
    /// The tick that the one before is due at, 0 where there is none.
    pub before: u32,
    /// The place of the first.
    pub from: usize,
    /// How many they are.
    pub count: usize,
}

// How many of these commands fit into so much room.
fn fitting<C: Commands>(commands: &C, from: usize, count: usize, room: usize) -> usize
    requires there { from + count ≤ length (C.commands commands.now) }
    requires few { from + count < 2 ^ 32 }
    ensures { result ≡ fitting room (take count (drop from (C.commands commands.now))) }
{
    let mut left = room;
    for place in 0..count {
        let size = 5 + commands.payload(from + place).len();
        if left < size {
            return place;
        }
        left -= size;
    }
    count
}

// Commands are due, and none of them fits.
fn is_cut(due: usize, fit: usize) -> bool
    ensures { result ≡ (nat_lt 0 due && (fit == 0)) }
{
    0 < due && fit == 0
}

// Puts commands, one behind another.
fn put_commands<C: Commands>(
    out: &mut [u8],
    at: usize,
    commands: &C,
    from: usize,
    count: usize,
) -> usize
    requires there { from + count ≤ length (C.commands commands.now) }
    requires few { from + count < 2 ^ 32 }
    requires room { at + length (flat_map sent_bytes (take count (drop from (C.commands commands.now)))) ≤ length out.old }
    ensures { Puts out.old out.new at result (flat_map sent_bytes (take count (drop from (C.commands commands.now)))) }
{
    let mut behind = at;
    for place in 0..count {
        let time = commands.time(from + place);
        behind = put_sent(out, behind, time, commands.payload(from + place));
    }
    behind
}

/// Puts a part behind a place, with as many of its commands as there is room for in the buffer, and answers
/// the place behind it and how many these are; or nothing where the packet ends before the part.
pub fn put_part<C: Commands>(
    out: &mut [u8],
    at: usize,
    piece: &Piece,
    commands: &C,
) -> Option<(usize, usize)>
    requires place { at ≤ length out.old }
    requires there { piece.now.from + piece.now.count ≤ length (C.commands commands.now) }
    requires few { piece.now.count < 2 ^ 16 }
    requires in_reach { piece.now.from + piece.now.count < 2 ^ 32 }
    ensures none { IfNone result ((ends_before (length out.old - at) (part_of piece.now (C.commands commands.now)) ≡ true) × (out.new ≡ out.old)) }
    ensures some { IfSome result (λ r. (ends_before (length out.old - at) (part_of piece.now (C.commands commands.now)) ≡ false)
        × (r.1 ≡ fitting (length out.old - at - 11) (part_of piece.now (C.commands commands.now)).commands)
        × Puts out.old out.new at r.0 (part_bytes (first_part r.1 (part_of piece.now (C.commands commands.now))))) }
{
    let room = out.len() - at;
    if room < 11 {
        return None;
    }
    let count = fitting(commands, piece.from, piece.count, room - 11);
    if is_cut(piece.count, count) {
        return None;
    }
    let head = PartHead {
        origin: piece.origin,
        count: count as u16,
        first: piece.first,
        before: piece.before,
    };
    let behind = put_head(out, at, &head);
    Some((
        put_commands(out, behind, commands, piece.from, count),
        count,
    ))
}
