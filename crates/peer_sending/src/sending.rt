//! A packet put for another peer.

ghost use Rattle.std.specs.Prelude.{◌≡◌, ℕ, ◌≤◌, ◌<◌, length, take};
ghost use Rattle.peer_packet.specs.Packet.{AreTerms, IsPacket};
ghost use Rattle.peer_calls.specs.Sending.{packet_for, packet_bytes, said_to_packet, after_packet};
ghost use Rattle.peer_slots.specs.Links.{links_of, with_links};
ghost use Rattle.peer_slots.specs.Queues.{queues_of};
ghost use Rattle.peer_sending.specs.Sending.{state_of, AreShort, IfMade, IfRefused};

use crate::head::Head;
use crate::supply::Supply;
use game_trait::{Game, MirrorId};
use peer_calls::{Config, PacketAnswer};
use peer_slots::{Links, Queues};
use rolling_mirror::RollingMirror;

/// Puts a packet for the peer of slot `to` into a buffer, whose length is the room for it in bytes: of what is
/// due for that peer as much as fits, from where the last packet for it ended. It is what `peer_calls` says of
/// the peer that has these queues, links and this mirror. The packet is the first `size` bytes of the buffer
/// where it is `Made`; `NotThere` and `Short` change nothing.
pub fn put_packet<G: Game>(
    out: &mut [u8],
    config: &Config,
    me: MirrorId,
    to: MirrorId,
    mirror: &RollingMirror<G>,
    queues: &Queues,
    links: &mut Links,
) -> PacketAnswer
    requires me { me < config.now.terms.slots }
    requires queues { (queues_of queues.now).slots ≡ config.now.terms.slots }
    requires links { (links_of links.old).slots ≡ config.now.terms.slots }
    ensures answer { (start : ℕ)
        → result ≡ said_to_packet config.now to (length out.old) (state_of me start (queues_of queues.now) (links_of links.old) mirror.now) }
    ensures state { (start : ℕ)
        → let s = state_of me start (queues_of queues.now) (links_of links.old) mirror.now in
        with_links (links_of links.new) s ≡ after_packet config.now to (length out.old) s }
    ensures slots { (links_of links.new).slots ≡ (links_of links.old).slots }
    ensures bytes { IfMade result (λ size. (start : ℕ)
        → take size out.new ≡ packet_bytes config.now to (length out.old) (state_of me start (queues_of queues.now) (links_of links.old) mirror.now)) }
    ensures length { length out.new ≡ length out.old }
    ensures refused { IfRefused result (out.new ≡ out.old) }
    // What is put is a packet of the session: whoever reads its bytes by these terms has it.
    ensures packet { IfMade result (λ size. (start : ℕ)
        → AreTerms config.now.terms → AreShort config.now.terms.payload (queues_of queues.now)
        → IsPacket config.now.terms (packet_for config.now to (length out.old) (state_of me start (queues_of queues.now) (links_of links.old) mirror.now))) }
{
    if to >= config.terms.slots || to == me {
        return PacketAnswer::NotThere;
    }
    let head = Head::of(
        (me, to),
        mirror.clock(),
        links.echo(to),
        queues.counts(),
        links.newest_mark(),
    );
    let size = head.size();
    if out.len() < size {
        return PacketAnswer::Short { head: size };
    }
    let at = head.put(config.terms.session, out);
    let cursor = links.cursor(to);
    let filled = Supply::of((me, to), mirror.clock(), config.relay, queues, links).fill(
        out, at, cursor,
    );
    links.set_cursor(to, filled.cursor);
    PacketAnswer::Made {
        is_more: filled.is_more,
        size: filled.behind,
    }
}
