//! What a peer's calls are in a session of `peer_model`. Each law is the contract of a function without
//! parameters that does nothing.

ghost use Rattle.std.specs.Prelude.{◌≡◌, ℕ, ◌≤◌, ◌<◌, ◌++◌, Some, List, [], ◌∷◌, length, slice_get};
ghost use Rattle.peer_model.specs.declared.own.OwnAnswer.{OwnAnswer};
ghost use Rattle.peer_model.specs.Queue.{have_of};
ghost use Rattle.peer_model.specs.Peer.{Span, packet_from};
ghost use Rattle.rolling_mirror.specs.Rolling.{ticked};
ghost use Rattle.peer_window.specs.Session.{RollNet, Terms, Call, calls, all_calls, rolls_hear, with_roll};
ghost use Rattle.peer_packet.specs.Packet.{Packet};
ghost use Rattle.peer_calls.specs.declared.config.Config.{Config};
ghost use Rattle.peer_calls.specs.State.{State, clock_now, window_of};
ghost use Rattle.peer_calls.specs.Wire.{packet_from_wire};
ghost use Rattle.peer_calls.specs.Sending.{packet_for, after_packet};
ghost use Rattle.peer_calls.specs.Hearing.{after_hearing};
ghost use Rattle.peer_calls.specs.Issuing.{said_to_peers_own, after_own, issued_in};
ghost use Rattle.peer_calls.specs.Moving.{after_turn, turn_calls, after_step, after_restagger, after_mark};

use game_trait::Game;
use peer_window::laws::an_own_command_that_is_taken_is_a_call;

/// What a peer puts into a packet for another one, of all that is due and wherever the room and the cursor
/// cut it, is a packet of the session, of some spans of what it remembers.
pub fn a_packet_is_made_of_spans<G: Game>()
    ensures { (c : Config) (to room : ℕ) (s : State G)
        → ((o : ℕ) → c.terms.slots ≤ o → have_of (s.queues o) ≡ 0)
        → (spans : List Span)
        × (packet_from_wire (packet_for c to room s) ≡ packet_from c.terms.slots s.me to spans s.queues (window_of s).heard (clock_now s)) }
{}

/// What a peer makes of a packet that is for it, refused or not, is what the peer with its window makes
/// of it in the session: the same queues, the same known of others, the same mirror.
pub fn hearing_is_that_of_the_window<G: Game>()
    ensures { (c : Config) (p : Packet) (s : State G) → p.to ≡ s.me
        → window_of (after_hearing c p s) ≡ rolls_hear c.room (packet_from_wire p) (window_of s) }
{}

/// Making a packet changes the cursor of whom it is for, and nothing else of a peer.
pub fn making_a_packet_moves_a_cursor_alone<G: Game>()
    ensures { (c : Config) (to room : ℕ) (s : State G)
        → record (after_packet c to room s) { cursor = s.cursor } ≡ s }
{}

/// An own command that is taken is a call of the session: its peer issued it, due at the tick that is
/// told, and is as it is behind the call.
pub fn an_own_command_is_a_call<G: Game>()
    ensures { (c : Config) (terms : Terms) (n : RollNet G) (s : State G) (ahead time number : ℕ) (bytes : List ℕ)
        → n.peers s.me ≡ window_of s → terms.room s.me ≡ c.room → s.me < terms.slots
        → said_to_peers_own c ahead bytes s ≡ OwnAnswer.Taken time number
        → calls G.rules terms n (Call.Own s.me ahead bytes)
        ≡ issued_in s.me (record { time = time; bytes = bytes }) (window_of (after_own c ahead bytes s)) n }
{
    an_own_command_that_is_taken_is_a_call::<G>();
}

/// A turn of a peer is calls of the session: a tick, a step of each copy, and forgetting. They leave the
/// session with that peer as it is behind the turn, and all else as it was.
pub fn a_turn_is_calls<G: Game>()
    ensures { (c : Config) (terms : Terms) (n : RollNet G) (s : State G)
        → n.peers s.me ≡ window_of s → terms.keep s.me ≡ c.keep
        → all_calls G.rules terms n (turn_calls s.me (length (ticked G.rules s.roll).left.runs))
        ≡ with_roll s.me (window_of (after_turn G.rules c s)) n }
{}

/// Making a packet is a call of the session, for some spans: the packet is among all that were made.
pub fn making_a_packet_is_a_call<G: Game>()
    ensures { (c : Config) (terms : Terms) (n : RollNet G) (s : State G) (to room : ℕ)
        → n.peers s.me ≡ window_of s → terms.slots ≡ c.terms.slots
        → ((o : ℕ) → c.terms.slots ≤ o → have_of (s.queues o) ≡ 0)
        → (spans : List Span)
        × (calls G.rules terms n (Call.Make s.me to spans)
        ≡ record n { packets = n.packets ++ packet_from_wire (packet_for c to room s) ∷ [] }) }
{}

/// Hearing any packet that was made, and is for this peer, is a call of the session: it leaves the session
/// with that peer as it is behind it, and all else as it was.
pub fn hearing_a_packet_is_a_call<G: Game>()
    ensures { (c : Config) (terms : Terms) (n : RollNet G) (s : State G) (which : ℕ) (p : Packet)
        → n.peers s.me ≡ window_of s → terms.room s.me ≡ c.room → p.to ≡ s.me
        → slice_get n.packets which ≡ Some (packet_from_wire p)
        → calls G.rules terms n (Call.Hear which) ≡ with_roll s.me (window_of (after_hearing c p s)) n }
{}

/// A step of a copy that is there is a call of the session.
pub fn a_step_is_a_call<G: Game>()
    ensures { (terms : Terms) (n : RollNet G) (s : State G) (copy : ℕ)
        → n.peers s.me ≡ window_of s → copy < length s.roll.left.runs
        → calls G.rules terms n (Call.StepOf s.me copy) ≡ with_roll s.me (window_of (after_step copy s)) n }
{}

/// Another plan that is there, in force at one peer, is a call of the session.
pub fn another_plan_is_a_call<G: Game>()
    ensures { (terms : Terms) (n : RollNet G) (s : State G) (plan : ℕ)
        → n.peers s.me ≡ window_of s → plan < length s.roll.left.plans
        → calls G.rules terms n (Call.RestaggerOf s.me plan) ≡ with_roll s.me (window_of (after_restagger plan s)) n }
{}

/// A mark changes a peer's marks, and nothing else of it.
pub fn a_mark_changes_marks_alone<G: Game>()
    ensures { (sum : ℕ) (s : State G) → record (after_mark sum s) { marks = s.marks } ≡ s }
{}
