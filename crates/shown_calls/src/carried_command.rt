//! Two peers of a session, for `peer_session`.

use game_trait::Game;
use peer_calls::{Config, HearAnswer, PacketAnswer};
use peer_packet::Terms;
use peer_session::Peer;
use stagger_clock::Stagger;
use std::alloc::Global;

/// A command that one peer issues, carried to another: what that one answers to the datagram. `None`
/// where memory ran out.
#[tactic(auto, unfolding(sync_model::specs::Lists::last_of))]
pub fn carry<G: Game>(alloc: Global, opening: &G) -> Option<HearAnswer> {
    let terms = Terms {
        session: 7,
        slots: 2,
        payload: 4,
    };
    let config = Config {
        terms,
        relay: 8,
        keep: 8,
        room: 64,
    };
    let delays = Stagger::try_new(&[0, 2, 4], 60)?;
    let mut ann = Peer::new(alloc, &config, 0, opening, &[delays]).ok()?;
    let mut bob = Peer::new(alloc, &config, 1, opening, &[delays]).ok()?;
    ann.own(0, b"go");
    ann.turn();
    let mut datagram = [0; 1_200];
    let PacketAnswer::Made { size, is_more: _ } = ann.packet(1, &mut datagram) else {
        return None;
    };
    bob.hear(datagram.get(..size)?).ok()
}
