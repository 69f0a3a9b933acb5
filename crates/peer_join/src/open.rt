//! The mirror of a peer that joins: a window of the mirror that remembers all.

ghost use Rattle.std.specs.Prelude.{◌≡◌, ◌≤◌, ◌<◌, ◌^◌, ℕ, List, IfOk, length};
ghost use Rattle.std.specs.List.{AllByRecursion};
ghost use Rattle.game_trait.specs.declared.command.Command.{Command};
ghost use Rattle.game_trait.specs.declared.limits.TheConstants.{MOST_ROOM};
ghost use Rattle.sync_model.specs.Schedule.{delays_of_each, ticks_of_first, copies_of_first};
ghost use Rattle.sync_model.specs.State.{MirrorState, last_clock};
ghost use Rattle.rolling_mirror.specs.Rolling.{LetsTurnsGoOn};
ghost use Rattle.rolling_mirror.specs.Snapshot.{IsSnapshotOf, IsOpenable, opened_at};
ghost use Rattle.peer_window.specs.Window.{IsRolled};
ghost use Rattle.peer_join.specs.Join.{joined_mirror};

use game_trait::{Game, Tick};
use rolling_mirror::{RollingMirror, SessionSnapshot};
use stagger_clock::Stagger;
use std::alloc::Global;
use tss_base::NoMemory;

/// The mirror of a peer that joins: what `snap` tells of another one's last copy, at that copy's clock,
/// with plans of its own, the first in force, a window of their ticks that lets turns go on, room for
/// `room` commands at once, and `keep` as a mirror's `new` says it. On `NoMemory` nothing is created.
pub fn open_mirror<G: Game>(
    alloc: Global,
    snap: &SessionSnapshot<G>,
    plans: &[Stagger],
    room: u32,
    keep: Tick,
) -> Result<RollingMirror<G>, NoMemory>
    requires some_plan { 0 < length plans.now }
    requires equal_ticks { AllByRecursion (λ plan. plan.length ≡ ticks_of_first plans.now)
        plans.now }
    requires equal_copies { AllByRecursion
        (λ plan. length plan.delays ≡ copies_of_first plans.now)
        plans.now }
    requires goes_on { AllByRecursion LetsTurnsGoOn plans.now }
    requires room { room ≤ MOST_ROOM }
    requires openable { IsOpenable snap.now plans.now room }
    requires at_base { snap.now.clock ≡ snap.now.base }
    ensures state { IfOk result (λ r. r ≡ opened_at snap.now plans.now room keep) }
    // It is the window of the joiner's mirror that remembers all.
    ensures rolled { IfOk result (λ r. (whole : MirrorState G) (accepted : List Command)
        → let joined = joined_mirror (delays_of_each plans.now) accepted (last_clock whole.runs) whole in
        IsSnapshotOf G.rules joined snap.now
        → 2 ^ 32 ≤ whole.length
        → IsRolled G.rules joined r) }
{
    RollingMirror::open_at(alloc, snap, plans, room, keep)
}
