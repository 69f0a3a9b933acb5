//! A mirror of a session without an end hands over what another one needs that joins, and one opens
//! from it.

ghost use Rattle.std.specs.Prelude.{◌≡◌, ℕ, ◌+◌, ◌<◌, ◌≤◌, ◌^◌, List, [], IfOk, length, map};
ghost use Rattle.std.specs.List.{AllByRecursion};
ghost use Rattle.game_trait.specs.declared.limits.TheConstants.{MOST_ROOM};
ghost use Rattle.game_trait.specs.Later.{later};
ghost use Rattle.sync_model.specs.Schedule.{Schedule, delays_of_each, ticks_of_first, copies_of_first};
ghost use Rattle.sync_model.specs.State.{MirrorState};
ghost use Rattle.rolling_mirror.specs.Rolling.{IsWindowOf, LetsTurnsGoOn};
ghost use Rattle.rolling_mirror.specs.Snapshot.{due_from, snapshot_of, IsSnapshotOf, IsOpenable, opened_with, opened_at, rolled_back};

use crate::handed::SessionSnapshot;
use crate::rolling::RollingMirror;
use game_trait::{Command, Game, NameTree, Shifted, Tick};
use stagger_clock::Stagger;
use std::alloc::Global;
use trailing_copy::LazyStack;
use tss_base::{NoMemory, Seq};

// The commands that are due at this tick or later, their times told from `base` ticks before.
fn due_from(
    alloc: Global,
    commands: &[Command],
    from: Tick,
    base: Tick,
) -> Result<Vec<Command>, NoMemory>
    requires { AllByRecursion (λ x. base + x.time < 2 ^ 32) commands.now }
    ensures { IfOk result (λ due. due.items ≡ map (later base) (due_from from commands.now)) }
{
    let mut due = Vec::new(alloc);
    for x in commands {
        if from <= x.time {
            let time = x.time + base;
            due.push(Command { time, ..*x })?;
        }
    }
    Ok(due)
}

impl<G: Game> RollingMirror<G> {
    /// What another mirror needs that joins the session: the last copy's clock and world, the clock,
    /// the plan in force, and the commands that are due from the last copy's clock on. Another mirror
    /// of as many ticks and plans can be opened from it, with room for these commands. On `NoMemory`
    /// nothing is created.
    pub fn snapshot(&self, alloc: Global) -> Result<SessionSnapshot<G>, NoMemory>
        ensures parts { IfOk result (λ snap. snap ≡ snapshot_of G.rules self.now) }
        ensures openable { IfOk result (λ snap. (plans : List Schedule) (room : ℕ)
            → ticks_of_first plans ≡ self.now.left.length
            → length plans ≡ length self.now.left.plans
            → length snap.commands ≤ room
            → IsOpenable snap plans room) }
        ensures window { IfOk result (λ snap. (whole : MirrorState G)
            → IsWindowOf G.rules whole self.now
            → IsSnapshotOf G.rules whole snap) }
    {
        self.stack.always();
        let last = self.copies() - 1;
        let passed = self.last_clock();
        let commands = due_from(alloc, self.stack.accepted(), passed, self.base)?;
        Ok(SessionSnapshot {
            base: self.base + passed,
            clock: self.base + self.clock,
            plan: self.plan,
            world: self.world(last),
            commands: Seq::of(commands),
        })
    }

    /// A mirror that joins a session from another mirror's snapshot, with that mirror's plans, whose
    /// ticks are its window's, room for `room` commands at once, those of the snapshot among them,
    /// and `keep` as `new` says it. Its copies begin at the snapshot's base, with its world: steps
    /// of each copy but the last, from copy 0 on, take them on to where they may go. On `NoMemory`
    /// nothing is created.
    pub fn open_at(
        alloc: Global,
        snap: &SessionSnapshot<G>,
        plans: &[Stagger],
        room: u32,
        keep: Tick,
    ) -> Result<RollingMirror<G>, NoMemory>
        requires some_plan { 0 < length plans.now }
        requires equal_ticks { AllByRecursion (λ plan. plan.length ≡ ticks_of_first plans.now)
            plans.now }
        requires equal_copies { AllByRecursion
            (λ plan. length plan.delays ≡ copies_of_first plans.now)
            plans.now }
        requires goes_on { AllByRecursion LetsTurnsGoOn plans.now }
        requires room { room ≤ MOST_ROOM }
        requires openable { IsOpenable snap.now plans.now room }
        ensures state { IfOk result (λ m. m ≡ opened_at snap.now plans.now room keep) }
        ensures window { IfOk result (λ m. (whole : MirrorState G)
            → IsSnapshotOf G.rules whole snap.now
            → whole.plans ≡ delays_of_each plans.now
            → length whole.runs ≡ copies_of_first plans.now
            → IsWindowOf G.rules (rolled_back whole) m) }
    {
        let mut mirror = RollingMirror::open_empty(alloc, snap, plans, room, keep)?;
        for x in snap.commands.as_slice() {
            mirror.accept(&x.earlier(snap.base));
        }
        Ok(mirror)
    }

    // A mirror that joins from a snapshot, as yet without its commands.
    fn open_empty(
        alloc: Global,
        snap: &SessionSnapshot<G>,
        plans: &[Stagger],
        room: u32,
        keep: Tick,
    ) -> Result<RollingMirror<G>, NoMemory>
        requires some_plan { 0 < length plans.now }
        requires equal_ticks { AllByRecursion (λ plan. plan.length ≡ ticks_of_first plans.now)
            plans.now }
        requires equal_copies { AllByRecursion
            (λ plan. length plan.delays ≡ copies_of_first plans.now)
            plans.now }
        requires room { room ≤ MOST_ROOM }
        requires in_force { snap.now.plan < length plans.now }
        requires behind { snap.now.base ≤ snap.now.clock }
        requires reached { snap.now.clock < snap.now.base + ticks_of_first plans.now }
        requires in_session { snap.now.clock < 2 ^ 32 }
        ensures state { IfOk result (λ m. m ≡ opened_with snap.now plans.now room keep []) }
        ensures some_copy { 0 < copies_of_first plans.now }
    {
        let window = plans[0].length();
        let copies = plans[0].copies();
        Ok(RollingMirror {
            stack: LazyStack::new(
                alloc,
                &Shifted::of(snap.world.twin(), snap.base),
                copies,
                window,
                room,
            )?,
            plans: Vec::from_slice(alloc, plans)?,
            plan: snap.plan,
            clock: snap.clock - snap.base,
            names: NameTree::with_room(alloc, room as usize)?,
            base: snap.base,
            keep,
        })
    }
}
