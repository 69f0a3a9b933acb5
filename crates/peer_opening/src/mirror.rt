//! The mirror that a peer that joins begins with.

ghost use Rattle.std.specs.Prelude.{◌≡◌, ◌≤◌, ◌<◌, ◌*◌, ℕ, None, IfOk, length};
ghost use Rattle.std.specs.List.{AllByRecursion};
ghost use Rattle.sync_model.specs.Schedule.{ticks_of_first, copies_of_first};
ghost use Rattle.rolling_mirror.specs.Rolling.{LetsTurnsGoOn};
ghost use Rattle.rolling_mirror.specs.Snapshot.{opened_at};
ghost use Rattle.peer_packet.specs.Packet.{AreTerms};
ghost use Rattle.peer_packet.specs.Snapshot.{IsSnapshot};
ghost use Rattle.peer_calls.specs.Handing.{join_refused, opened_from};
ghost use Rattle.peer_slots.specs.Queues.{queues_of};
ghost use Rattle.peer_opening.specs.Opening.{taken_from, opened_with};

use crate::arriving::arriving;
use game_trait::{Game, Tick};
use peer_calls::Config;
use peer_join::open_mirror;
use peer_packet::SnapshotView;
use peer_slots::Queues;
use rolling_mirror::{RollingMirror, SessionSnapshot};
use stagger_clock::Stagger;
use std::alloc::Global;
use tss_base::{NoMemory, Seq};

// Another one's last copy, whose clock is `base`, and the commands of these queues.
fn opened_with<G: Game>(
    alloc: Global,
    world: &G,
    base: Tick,
    queues: &Queues,
) -> Result<SessionSnapshot<G>, NoMemory>
    ensures { IfOk result (λ s. s ≡ opened_with world.now base (queues_of queues.now)) }
{
    Ok(SessionSnapshot {
        base,
        clock: base,
        plan: 0,
        world: world.twin(),
        commands: Seq::of(arriving(alloc, queues)?),
    })
}

/// The mirror of a peer that joins by a snapshot that it doesn't refuse, as `peer_calls` says it: its copies
/// stand at the snapshot's base with `world`, the maker's last copy's there, and the commands of `queues`,
/// which were opened from the snapshot, arrived. Its plans are as `RollingMirror::new` wants them. On
/// `NoMemory` nothing is created.
pub fn open_joined<G: Game>(
    alloc: Global,
    config: &Config,
    world: &G,
    plans: &[Stagger],
    snap: &SnapshotView<'_>,
    queues: &Queues,
) -> Result<RollingMirror<G>, NoMemory>
    requires terms { AreTerms config.now.terms }
    requires room { config.now.room ≤ 16384 }
    requires some_plan { 0 < length plans.now }
    requires equal_ticks { AllByRecursion (λ plan. plan.length ≡ ticks_of_first plans.now)
        plans.now }
    requires equal_copies { AllByRecursion
        (λ plan. length plan.delays ≡ copies_of_first plans.now)
        plans.now }
    requires goes_on { AllByRecursion LetsTurnsGoOn plans.now }
    requires snapshot { IsSnapshot config.now.terms snap.now }
    requires joins { (me : ℕ) × (join_refused config.now me (ticks_of_first plans.now) snap.now ≡ None) }
    requires queues { queues_of queues.now ≡ taken_from config.now snap.now }
    ensures { IfOk result (λ r. r ≡ opened_at (opened_from world.now config.now snap.now) plans.now
        (config.now.terms.slots * config.now.room) config.now.keep) }
{
    let room = u32::from(config.terms.slots) * config.room;
    let opened = opened_with(alloc, world, snap.base(), queues)?;
    open_mirror(alloc, &opened, plans, room, config.keep)
}
