//! A packet is made.

ghost use Rattle.std.specs.Prelude.{◌≡◌, length, take};
ghost use Rattle.peer_packet.specs.Packet.{IsPacket};
ghost use Rattle.peer_calls.specs.Sending.{said_to_packet, after_packet, packet_for, packet_bytes};
ghost use Rattle.peer_sending.specs.Sending.{IfMade, IfRefused};
ghost use Rattle.peer_session.specs.Parts.{state_of};

use crate::peer::Peer;
use game_trait::{Game, MirrorId};
use peer_calls::PacketAnswer;
use peer_sending::put_packet;

impl<G: Game> Peer<G> {
    /// Puts a packet for the peer in slot `to` into a buffer, whose length is the room for it in bytes: of what
    /// is due for that peer as much as fits, from where the last packet for it ended. The packet is the first
    /// `size` bytes where it is `Made`; a refusal leaves buffer and peer as they were.
    pub fn packet(&mut self, to: MirrorId, out: &mut [u8]) -> PacketAnswer
        ensures answer { result ≡ said_to_packet self.old.config to (length out.old) (state_of self.old) }
        ensures state { state_of self.new ≡ after_packet self.old.config to (length out.old) (state_of self.old) }
        ensures bytes { IfMade result (λ size. take size out.new ≡ packet_bytes self.old.config to (length out.old) (state_of self.old)) }
        ensures length { length out.new ≡ length out.old }
        ensures refused { IfRefused result (out.new ≡ out.old) }
        // What is put is a packet of the session: whoever reads its bytes by these terms has it.
        ensures packet { IfMade result (λ size. IsPacket self.old.config.terms (packet_for self.old.config to (length out.old) (state_of self.old))) }
        ensures config { self.new.config ≡ self.old.config }
        ensures forgotten { self.new.forgotten ≡ self.old.forgotten }
    {
        put_packet(
            out,
            &self.config,
            self.me,
            to,
            &self.mirror,
            &self.queues,
            &mut self.links,
        )
    }
}
