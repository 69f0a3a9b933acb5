//! What a peer whose mirror forgets does is what the peer does whose mirror remembers all. Each law is the
//! contract of a function without parameters that does nothing.

ghost use Rattle.std.specs.Prelude.{◌≡◌, ℕ, ◌^◌, ◌≤◌, ◌<◌, List, [], length, slice_index_or};
ghost use Rattle.std.specs.List.{AllByRecursion};
ghost use Rattle.peer_model.specs.declared.own.OwnAnswer.{OwnAnswer};
ghost use Rattle.peer_model.specs.Own.{said_to_own};
ghost use Rattle.peer_model.specs.Queue.{Sent, Part, have_of, TimesRise, IsPiece};
ghost use Rattle.peer_model.specs.Peer.{Peer, Packet, hears_parts, heard_head, IsPeer};
ghost use Rattle.peer_model.specs.Net.{Net, new_net, run};
ghost use Rattle.peer_window.specs.Window.{RollPeer, stops_of, rolls_head, rolls_packet, IsWindow};
ghost use Rattle.peer_window.specs.Session.{RollNet, Terms, Call, calls, all_calls, all_steps, own_now, rolls_issues, session_of, Opening, whole_of, roll_of, new_roll_net, IsBeside};

use game_trait::Game;

/// A packet of pieces that is heard by a peer with a window leads to the window of the peer that hears it
/// and remembers all, stopped in each part where the window, the mirror's room or the queue's stops it.
pub fn hearing_keeps_the_window<G: Game>()
    ensures { (slots room : ℕ) (log : ℕ → List Sent) (p : Packet) (m : Peer G) (v : RollPeer G)
        → ((o : ℕ) → TimesRise 0 (log o)) → IsPeer slots log m
        → AllByRecursion (λ part. part.origin < slots) p.parts
        → AllByRecursion (λ part. IsPiece (log part.origin) part) p.parts
        → IsWindow G.rules m v
        → IsWindow G.rules (hears_parts log (stops_of room p.parts (rolls_head p v)) p.parts (heard_head p m)) (rolls_packet room p v) }
{}

/// Whatever calls are made by peers with windows, beside them stands a session of peers that remember all,
/// which makes the steps that the calls are: what was issued and the packets are the same, and each peer is
/// the window of the one there.
pub fn beside_it_stands_a_session_that_remembers_all<G: Game>()
    ensures { (c : Terms) (es : List Call) (n : Net G) (v : RollNet G) → IsBeside G.rules c.slots n v
        → IsBeside G.rules c.slots (run (session_of c) n (all_steps G.rules c v es)) (all_calls G.rules c v es) }
{}

/// Before any call peers with windows, whatever their plans, windows, rooms and keeping, stand beside peers
/// that remember all.
pub fn a_new_session_stands_beside_one<G: Game>()
    ensures { (slots n : ℕ) (opening : G) (each : ℕ → Opening)
        → ((i : ℕ) → 0 < length (slice_index_or (each i).plans 0 [])) → ((i : ℕ) → 0 < (each i).window) → 2 ^ 32 ≤ n
        → IsBeside G.rules slots (new_net (λ i. whole_of opening n (each i))) (new_roll_net (λ i. roll_of opening (each i))) }
{}

/// An own command that is taken, by all that `said_to_own` of `peer_model` looks at, is a call of the
/// session: it is issued under that number, due at that tick.
pub fn an_own_command_that_is_taken_is_a_call<G: Game>()
    ensures { (c : Terms) (me start payload ahead time number : ℕ) (bytes : List ℕ) (n : RollNet G)
        → me < c.slots
        → said_to_own (own_now (c.room me) me start (n.peers me)) payload (length bytes) ahead ≡ OwnAnswer.Taken time number
        → (calls G.rules c n (Call.Own me ahead bytes) ≡ rolls_issues me (record { time = time; bytes = bytes }) n)
        × (number ≡ have_of ((n.peers me).queues me)) }
{}
