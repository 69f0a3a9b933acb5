//! A peer whose host keeps the worlds.

ghost use Rattle.std.specs.Prelude.{◌≡◌, ◌⊎◌, ◌↔◌, ℕ, List, Err, IfOk, IfErr};
ghost use Rattle.peer_calls.specs.Issuing.{said_to_peers_own, after_own};
ghost use Rattle.peer_calls.specs.Moving.{after_turn, said_to_peers_turn, after_step, said_to_peers_step, after_restagger, after_mark};
ghost use Rattle.peer_calls.specs.Sending.{said_to_packet, after_packet, packet_bytes};
ghost use Rattle.peer_session.specs.Parts.{state_of, forgotten_by};
ghost use Rattle.peer_packet.specs.Packet.{AreTerms};
ghost use Rattle.peer_c.specs.Legal.{IsLegal, config_of};
ghost use Rattle.peer_c.specs.Answers.{IsNew};
ghost use Rattle.peer_c.specs.Joining.{IsJoined, IsNoJoiner, IsEnd, told_join, told_reason};

use crate::answer::{Answer, bare, told_fault, with};
use crate::codes::{FAR, FULL, NO_MEMORY, NOT_LEGAL, USED};
use crate::config::HostConfig;
use game_trait::MirrorId;
use host_parts::Blank;
use peer_calls::JoinRefusal;
use peer_packet::SnapshotView;
use peer_session::{JoinError, Peer};
use std::alloc::Global;

/// A peer, and no world.
#[derive(Drop)]
pub struct Engine {
    pub peer: Peer<Blank>,
}

impl Engine {
    /// A peer before any call. Where its config is out of range the answer is `NOT_LEGAL`.
    pub fn new(alloc: Global, config: &HostConfig, me: MirrorId) -> Result<Engine, u32>
        ensures made { IfOk result (λ engine. (plans : List (List ℕ)) × IsNew config.now me plans engine.peer) }
        ensures refused { IfErr result (λ why. (why ≡ NO_MEMORY) ⊎ (why ≡ NOT_LEGAL)) }
        ensures legal { (result ≡ Err NOT_LEGAL) ↔ (IsLegal config.now me → ⊥) }
    {
        let Some(plans) = config.legal(me) else {
            return Err(NOT_LEGAL);
        };
        match Peer::new(alloc, &config.config(), me, &Blank, plans.as_slice()) {
            Ok(peer) => Ok(Engine { peer }),
            Err(_) => Err(NO_MEMORY),
        }
    }

    /// A peer that joins by the bytes of a snapshot. On an error nothing is created, and the answer says why.
    pub fn join(
        alloc: Global,
        config: &HostConfig,
        me: MirrorId,
        bytes: &[u8],
    ) -> Result<Engine, Answer>
        ensures joined { IfOk result (λ engine. IsJoined config.now me bytes.now engine.peer) }
        ensures refused { IfErr result (λ answer. IsNoJoiner config.now me bytes.now answer) }
    {
        let Some(plans) = config.legal(me) else {
            return Err(bare(NOT_LEGAL));
        };
        match Peer::join(alloc, &config.config(), me, &Blank, plans.as_slice(), bytes) {
            Ok(peer) => Ok(Engine { peer }),
            Err(why) => Err(told_join(why, window_end(config, bytes))),
        }
    }
}

// The tick that a joiner's window doesn't reach, by a snapshot's bytes.
fn window_end(config: &HostConfig, bytes: &[u8]) -> u64
    requires { AreTerms (config_of config.now).terms }
    ensures { IsEnd config.now bytes.now result }
{
    match SnapshotView::read(&config.config().terms, bytes) {
        Ok(snap) => u64::from(snap.base()) + u64::from(config.window),
        Err(_) => 0,
    }
}

// Why a snapshot isn't one to join by; `end` is the tick that the window doesn't reach.
fn told_reason(reason: JoinRefusal, end: u64) -> Answer
    ensures { result ≡ told_reason end reason }
{
    match reason {
        JoinRefusal::Used => bare(USED),
        JoinRefusal::TooFar => with(FAR, end),
        JoinRefusal::TooMany => bare(FULL),
    }
}

// Why no peer was made.
fn told_join(why: JoinError, end: u64) -> Answer
    ensures { result ≡ told_join end why }
{
    match why {
        JoinError::Fault(fault) => told_fault(fault),
        JoinError::Refused(reason) => told_reason(reason, end),
        JoinError::NoMemory => bare(NO_MEMORY),
    }
}
