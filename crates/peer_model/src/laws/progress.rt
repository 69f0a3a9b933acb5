//! What a packet brings of which nothing is stopped.

ghost use Rattle.std.specs.Prelude.{◌≡◌, ℕ, ◌+◌, ◌≤◌, List, length, Some, Contains};
ghost use Rattle.peer_model.specs.Queue.{Sent, Queue, Part, have_of, part_of, heard_part};
ghost use Rattle.peer_model.specs.Peer.{Peer, Span, packet_of, hears_parts, heard_head};
ghost use Rattle.peer_model.specs.Net.{Net, IsSession};
ghost use Rattle.peer_model.specs.Due.{end_of, due_of, IsWhole, AreWhole};

use game_trait::Game;

/// A part that nothing stops is had, whatever was had before.
pub fn a_whole_part_is_had()
    ensures { (bound most : ℕ) (p : Part) (q : Queue) → IsWhole bound most p q
        → p.first + length p.commands ≤ have_of (heard_part bound most p q) }
{}

/// Where what is due of a slot is in a packet, and nothing stops the packet, its hearer has all of that
/// slot that its maker sends, however old what the maker knows of the hearer.
pub fn what_is_due_is_brought<G: Game>()
    ensures { (slots me relay to o : ℕ) (spans : List Span) (most : ℕ → ℕ) (n : Net G) → IsSession slots n
        → let m = n.peers me in let p = packet_of slots me to spans m in let h = heard_head p (n.peers to) in
        AreWhole n.log most p.parts h
        → ((s : Span) → due_of me relay to o m ≡ Some s → Contains p.parts (part_of s.origin s.first s.count (m.queues s.origin)))
        → end_of me relay o m ≤ have_of ((hears_parts n.log most p.parts h).queues o) }
{}
