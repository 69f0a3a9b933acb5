//! What putting packets promises, as contracts of functions without parameters that do nothing.

ghost use Rattle.std.specs.Prelude.{◌≡◌, ℕ, ◌+◌, ◌≤◌, ◌<◌, ◌⊎◌, length, Ok};
ghost use Rattle.peer_packet.specs.declared.terms.Terms.{Terms};
ghost use Rattle.peer_packet.specs.Packet.{Packet, AreTerms, IsPacket, bytes_of};
ghost use Rattle.peer_packet.specs.Reading.{packet_at};
ghost use Rattle.peer_packet.specs.declared.cursor.Cursor.{Cursor};
ghost use Rattle.peer_packet.specs.Filling.{at_start, behind_cursor, filled, put_in, weight};

/// Whatever the room and wherever it begins, what is put of the parts that are due is a packet again, and
/// reading its bytes gives it.
pub fn what_is_put_is_read()
    ensures { (terms : Terms) (p : Packet) (c : Cursor) (room : ℕ) → AreTerms terms → IsPacket terms p
        → let put = record p { parts = (put_in c room p.parts).parts } in
        IsPacket terms put × (packet_at terms (bytes_of terms.session put) ≡ Ok put) }
{}

/// A packet with room for a part's head and a command of the longest payload goes on: all that waited behind
/// its cursor is put and the next one begins anew, or less of all that is due waits behind where it ended. So
/// packets that are made one after another have in finitely many all that is due.
pub fn a_packet_goes_on()
    ensures { (terms : Terms) (p : Packet) (c : Cursor) (room : ℕ) → IsPacket terms p
        → 16 + terms.payload ≤ room → 0 < length (behind_cursor c p.parts)
        → let put = filled room (behind_cursor c p.parts) in
        ((put.parts ≡ behind_cursor c p.parts) × (put.cursor ≡ at_start))
        ⊎ (weight (behind_cursor put.cursor p.parts) < weight (behind_cursor c p.parts)) }
{}
