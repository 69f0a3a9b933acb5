//! A packet is heard.

ghost use Rattle.std.specs.Prelude.{◌≡◌, Ok, Err, IfOk, IfErr, IfSome, IfNone, map, true, false};
ghost use Rattle.peer_packet.specs.Packet.{Packet, IsPacket, bytes_of};
ghost use Rattle.peer_packet.specs.Reading.{packet_at};
ghost use Rattle.peer_packet.specs.declared.fault.Fault.{Fault};
ghost use Rattle.peer_model.specs.Peer.{is_ahead};
ghost use Rattle.peer_calls.specs.State.{clock_now};
ghost use Rattle.peer_calls.specs.Wire.{part_from, packet_from_wire};
ghost use Rattle.peer_calls.specs.declared.answers.HearAnswer.{HearAnswer};
ghost use Rattle.peer_calls.specs.Hearing.{said_to_packet_heard, is_packet_refused, told_of, hears_packet, after_hearing};
ghost use Rattle.peer_slots.specs.Queues.{any_conflicts};
ghost use Rattle.peer_session.specs.Parts.{state_of};

use crate::peer::Peer;
use game_trait::Game;
use peer_calls::{HearAnswer, Told};
use peer_packet::{Fault, PacketView};

impl<G: Game> Peer<G> {
    /// A packet came. What isn't a packet of the session is refused with the first fault from left to
    /// right; a packet that is answered otherwise than `Heard` is refused too: then nothing changes.
    pub fn hear(&mut self, bytes: &[u8]) -> Result<HearAnswer, Fault>
        ensures heard { (p : Packet) → IsPacket self.old.config.terms p → bytes.now ≡ bytes_of self.old.config.terms.session p
            → (result ≡ Ok (said_to_packet_heard self.old.config p (state_of self.old)))
            × (state_of self.new ≡ after_hearing self.old.config p (state_of self.old)) }
        ensures found { IfOk result (λ answer. (p : Packet) × IsPacket self.old.config.terms p × (bytes.now ≡ bytes_of self.old.config.terms.session p)
            × (answer ≡ said_to_packet_heard self.old.config p (state_of self.old))
            × (state_of self.new ≡ after_hearing self.old.config p (state_of self.old))) }
        ensures refused { IfErr result (λ fault. (packet_at self.old.config.terms bytes.now ≡ Err fault)
            × (self.new ≡ self.old)) }
        ensures fault { (fault : Fault) → packet_at self.old.config.terms bytes.now ≡ Err fault
            → (result ≡ Err fault) × (self.new ≡ self.old) }
        ensures config { self.new.config ≡ self.old.config }
        ensures forgotten { self.new.forgotten ≡ self.old.forgotten }
    {
        match PacketView::read(&self.config.terms, bytes) {
            Ok(packet) => Ok(self.hear_packet(&packet)),
            Err(fault) => Err(fault),
        }
    }

    // Why a packet of the session is refused.
    fn refusal(&self, packet: &PacketView<'_>) -> Option<HearAnswer>
        requires { IsPacket self.now.config.terms packet.now }
        ensures some { IfSome result (λ answer. (is_packet_refused packet.now (state_of self.now) ≡ true)
            × (answer ≡ said_to_packet_heard self.now.config packet.now (state_of self.now))) }
        ensures none { IfNone result ((is_packet_refused packet.now (state_of self.now) ≡ false)
            × (any_conflicts (map part_from packet.now.parts) (state_of self.now).queues ≡ false)
            × (said_to_packet_heard self.now.config packet.now (state_of self.now) ≡ HearAnswer.Heard packet.now.from (told_of self.now.config packet.now (state_of self.now)))) }
    {
        if packet.to() != self.me {
            return Some(HearAnswer::NotForMe);
        }
        if self.is_ahead(packet) {
            return Some(HearAnswer::Ahead);
        }
        match self.queues.conflicting(packet.parts()) {
            Some(origin) => Some(HearAnswer::Conflict { origin }),
            None => None,
        }
    }

    // A packet tells of more own commands, or of a later clock, than there are.
    fn is_ahead(&self, packet: &PacketView<'_>) -> bool
        requires { IsPacket self.now.config.terms packet.now }
        ensures { result ≡ is_ahead self.now.me (packet_from_wire packet.now) (state_of self.now).queues (clock_now (state_of self.now)) }
    {
        let told = packet.have()[usize::from(self.me)];
        self.queues.get(self.me).have() < told || self.mirror.clock() < packet.echo()
    }

    // A packet of the session is heard, or refused.
    fn hear_packet(&mut self, packet: &PacketView<'_>) -> HearAnswer
        requires { IsPacket self.old.config.terms packet.now }
        ensures answer { result ≡ said_to_packet_heard self.old.config packet.now (state_of self.old) }
        ensures state { state_of self.new ≡ after_hearing self.old.config packet.now (state_of self.old) }
        ensures config { self.new.config ≡ self.old.config }
        ensures forgotten { self.new.forgotten ≡ self.old.forgotten }
    {
        match self.refusal(packet) {
            Some(refusal) => refusal,
            None => HearAnswer::Heard {
                from: packet.from(),
                told: self.take_in(packet),
            },
        }
    }

    // A packet that isn't refused is taken in: its head, and then each of its parts.
    fn take_in(&mut self, packet: &PacketView<'_>) -> Told
        requires packet { IsPacket self.old.config.terms packet.now }
        requires agrees { any_conflicts (map part_from packet.now.parts) (state_of self.old).queues ≡ false }
        ensures told { result ≡ told_of self.old.config packet.now (state_of self.old) }
        ensures state { state_of self.new ≡ hears_packet self.old.config packet.now (state_of self.old) }
        ensures config { self.new.config ≡ self.old.config }
        ensures forgotten { self.new.forgotten ≡ self.old.forgotten }
    {
        let differs = self.links.is_differing(packet.mark());
        self.links.hear_head(packet, self.mirror.clock());
        self.queues
            .hear_parts(&mut self.mirror, packet.parts(), differs)
    }
}
