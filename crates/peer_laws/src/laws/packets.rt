//! What a packet has of what is due for another peer.

ghost use Rattle.std.specs.Prelude.{◌≡◌, ◌-◌, ℕ, Bool, true, false};
ghost use Rattle.peer_calls.specs.declared.config.Config.{Config};
ghost use Rattle.peer_calls.specs.declared.answers.PacketAnswer.{PacketAnswer};
ghost use Rattle.peer_calls.specs.State.{State};
ghost use Rattle.peer_calls.specs.Sending.{packet_for, after_packet, said_to_packet, due_parts, head_length, is_other, has_room};
ghost use Rattle.peer_laws.specs.Filled.{HasWhatFits, waits_behind, IsTold};
ghost use Rattle.peer_laws.specs.Waiting.{not_before, IsRest};

use game_trait::Game;

/// What waits for the other peer is what of all that is due wasn't put since packets began anew: what stands
/// at the cursor or behind it, by slot and number, and all where nothing does.
pub fn what_was_put_is_left_out<G: Game>()
    ensures { (c : Config) (to : ℕ) (s : State G)
        → IsRest (not_before (s.cursor to) (due_parts c to s)) (due_parts c to s) (waits_behind (s.cursor to) (due_parts c to s)) }
{}

/// A packet that is made has of what waits for the other peer, in order, as many commands as there is room
/// for behind its head: all, and then the next one begins anew, or so many that with one more it would be
/// too long, and then the next one begins with the first that isn't in it.
pub fn a_packet_has_what_fits<G: Game>()
    ensures { (c : Config) (to room : ℕ) (s : State G) → is_other c to s ≡ true → has_room c to room s ≡ true
        → HasWhatFits (room - head_length c to s) (waits_behind (s.cursor to) (due_parts c to s)) (record {
          parts = (packet_for c to room s).parts;
          cursor = (after_packet c to room s).cursor to;
        }) }
{}

/// It is told that more is due exactly where not all that is due is in the packet.
pub fn more_is_told_where_not_all_is_put<G: Game>()
    ensures { (c : Config) (to room : ℕ) (s : State G) → is_other c to s ≡ true → has_room c to room s ≡ true
        → IsTold (said_to_packet c to room s) (due_parts c to s) (packet_for c to room s).parts }
{}
