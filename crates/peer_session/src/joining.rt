//! A peer joins by a snapshot.

ghost use Rattle.std.specs.Prelude.{◌≡◌, ◌≤◌, ◌<◌, None, IfOk, IfErr, length};
ghost use Rattle.std.specs.List.{AllByRecursion};
ghost use Rattle.sync_model.specs.Schedule.{ticks_of_first, copies_of_first};
ghost use Rattle.rolling_mirror.specs.Rolling.{LetsTurnsGoOn};
ghost use Rattle.peer_packet.specs.Packet.{AreTerms};
ghost use Rattle.peer_packet.specs.Snapshot.{Snapshot, IsSnapshot};
ghost use Rattle.peer_calls.specs.Handing.{join_refused, joined_state};
ghost use Rattle.peer_session.specs.Parts.{state_of};
ghost use Rattle.peer_session.specs.Joining.{IsJoining, AreBytesOf, IsRefusal};

use crate::peer::Peer;
use game_trait::{Game, MirrorId};
use peer_calls::{Config, JoinRefusal};
use peer_opening::{join_refused, open_joined};
use peer_packet::{Fault, SnapshotView};
use peer_slots::{Links, Queues};
use stagger_clock::Stagger;
use std::alloc::Global;
use tss_base::NoMemory;

/// Why no peer was made of a snapshot's bytes.
#[derive(Clone, Copy, Debug, PartialEq, Eq)]
pub enum JoinError {
    /// They are no snapshot of the session: the first fault from left to right.
    Fault(Fault),
    /// It may not join by this snapshot in this slot, with this room and window.
    Refused(JoinRefusal),
    /// Memory ran out.
    NoMemory,
}

impl<G: Game> Peer<G> {
    /// The peer in slot `me` that joins a session by the bytes that a peer of it put as a snapshot, and by
    /// `world`, that peer's last copy's, which its host adds. Its base and clock are that copy's clock, and own
    /// commands are taken from the snapshot's clock on. Slot, plans and config are as `new` has them; of the
    /// config only the terms must be the session's. On an error nothing is created.
    pub fn join(
        alloc: Global,
        config: &Config,
        me: MirrorId,
        world: &G,
        plans: &[Stagger],
        bytes: &[u8],
    ) -> Result<Peer<G>, JoinError>
        requires terms { AreTerms config.now.terms }
        requires there { me < config.now.terms.slots }
        requires room { config.now.room ≤ 16384 }
        requires some_plan { 0 < length plans.now }
        requires equal_ticks { AllByRecursion (λ plan. plan.length ≡ ticks_of_first plans.now)
            plans.now }
        requires equal_copies { AllByRecursion
            (λ plan. length plan.delays ≡ copies_of_first plans.now)
            plans.now }
        requires goes_on { AllByRecursion LetsTurnsGoOn plans.now }
        ensures joined { (snap : Snapshot) → AreBytesOf config.now bytes.now snap
            → IsJoining world.now config.now me plans.now snap result }
        ensures opened { IfOk result (λ p. (snap : Snapshot) × AreBytesOf config.now bytes.now snap
            × (join_refused config.now me (ticks_of_first plans.now) snap ≡ None)
            × (state_of p ≡ joined_state world.now config.now me plans.now snap)) }
        ensures refused { IfErr result (IsRefusal config.now me plans.now bytes.now) }
        ensures config { IfOk result (λ p. p.config ≡ config.now) }
        ensures forgotten { IfOk result (λ p. p.forgotten ≡ 0) }
    {
        match SnapshotView::read(&config.terms, bytes) {
            Ok(snap) => Peer::join_by(alloc, config, me, world, plans, &snap),
            Err(fault) => Err(JoinError::Fault(fault)),
        }
    }

    // The peer that joins by a snapshot of the session, where it may.
    fn join_by(
        alloc: Global,
        config: &Config,
        me: MirrorId,
        world: &G,
        plans: &[Stagger],
        snap: &SnapshotView<'_>,
    ) -> Result<Peer<G>, JoinError>
        requires terms { AreTerms config.now.terms }
        requires there { me < config.now.terms.slots }
        requires room { config.now.room ≤ 16384 }
        requires some_plan { 0 < length plans.now }
        requires equal_ticks { AllByRecursion (λ plan. plan.length ≡ ticks_of_first plans.now)
            plans.now }
        requires equal_copies { AllByRecursion
            (λ plan. length plan.delays ≡ copies_of_first plans.now)
            plans.now }
        requires goes_on { AllByRecursion LetsTurnsGoOn plans.now }
        requires snapshot { IsSnapshot config.now.terms snap.now }
        ensures joined { IsJoining world.now config.now me plans.now snap.now result }
        ensures config { IfOk result (λ p. p.config ≡ config.now) }
        ensures forgotten { IfOk result (λ p. p.forgotten ≡ 0) }
    {
        if let Some(reason) = join_refused(config, me, plans[0].length(), snap) {
            return Err(JoinError::Refused(reason));
        }
        match Peer::open_by(alloc, config, me, world, plans, snap) {
            Ok(peer) => Ok(peer),
            Err(NoMemory) => Err(JoinError::NoMemory),
        }
    }

    // The peer that a snapshot opens by which it may join.
    fn open_by(
        alloc: Global,
        config: &Config,
        me: MirrorId,
        world: &G,
        plans: &[Stagger],
        snap: &SnapshotView<'_>,
    ) -> Result<Peer<G>, NoMemory>
        requires terms { AreTerms config.now.terms }
        requires there { me < config.now.terms.slots }
        requires room { config.now.room ≤ 16384 }
        requires some_plan { 0 < length plans.now }
        requires equal_ticks { AllByRecursion (λ plan. plan.length ≡ ticks_of_first plans.now)
            plans.now }
        requires equal_copies { AllByRecursion
            (λ plan. length plan.delays ≡ copies_of_first plans.now)
            plans.now }
        requires goes_on { AllByRecursion LetsTurnsGoOn plans.now }
        requires snapshot { IsSnapshot config.now.terms snap.now }
        requires joins { join_refused config.now me (ticks_of_first plans.now) snap.now ≡ None }
        ensures state { IfOk result (λ p. state_of p ≡ joined_state world.now config.now me plans.now snap.now) }
        ensures config { IfOk result (λ p. p.config ≡ config.now) }
        ensures forgotten { IfOk result (λ p. p.forgotten ≡ 0) }
    {
        let queues = Queues::opened(alloc, config.room, snap)?;
        let links = Links::new(alloc, config.terms.slots)?;
        let mirror = open_joined(alloc, config, world, plans, snap, &queues)?;
        Ok(Peer {
            config: *config,
            me,
            start: snap.clock(),
            queues,
            links,
            mirror,
            forgotten: 0,
        })
    }
}
