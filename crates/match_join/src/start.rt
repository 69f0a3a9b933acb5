//! A mirror of a match after its first lines, and a joiner from its snapshot.

ghost use Rattle.std.specs.Prelude.{◌≡◌, ◌+◌, ◌<◌, ◌≤◌, IfOk, IfErr, take, drop, length};
ghost use Rattle.game_trait.specs.Count.{times};
ghost use Rattle.game_trait.specs.declared.limits.TheConstants.{MOST_SCRIPT_LINES};
ghost use Rattle.sync_model.specs.State.{last_clock};
ghost use Rattle.match_data.specs.Data.{IsMatch};
ghost use Rattle.match_hall.specs.Script.{schedules, arrives_at, restaggers_at};
ghost use Rattle.late_joiner.specs.Snapshot.{snapshot_of};
ghost use Rattle.late_joiner.specs.Joiner.{opened};
ghost use Rattle.match_join.specs.Join.{mirror_before};
ghost use Rattle.match_join.specs.Lines.{IsOfMatch, IsFaultAt};

use crate::mirror::make_lines;
use game_trait::{Game, MirrorId};
use late_joiner::{JoinFault, Joiner, snapshot};
use match_data::{Match, ScriptLine, plans_of};
use match_hall::{arrivals_at, changes_at};
use mirror_core::DeferredMirror;
use std::alloc::Global;
use tss_base::NoMemory;

/// The first `lines` lines, all where there are fewer, and the others.
pub fn cut(script: &[ScriptLine], lines: u32) -> (&[ScriptLine], &[ScriptLine])
    ensures first { result.0.now ≡ take lines script.now }
    ensures later { result.1.now ≡ drop lines script.now }
{
    if lines as usize <= script.len() {
        script.split_at(lines as usize)
    } else {
        (script, &[])
    }
}

/// The mirror of this number after its lines among the first `lines` of the match's script. On
/// `NoMemory` nothing is created.
pub fn begin<G: Game>(
    alloc: Global,
    opening: &G,
    m: &Match,
    number: MirrorId,
    lines: u32,
) -> Result<DeferredMirror<G>, NoMemory>
    ensures mirror { IfOk result (λ s. s ≡ mirror_before opening.now m.now number lines) }
    ensures sound { IfOk result (λ s. IsMatch m.now) }
    ensures of_match { IfOk result (λ s. IsOfMatch m.now s) }
{
    let plans = plans_of(alloc, m)?;
    let script = m.script.as_slice();
    let room = arrivals_at(number, script);
    let changes = changes_at(number, script);
    let mut mirror = DeferredMirror::new(alloc, opening, plans.as_slice(), room, changes)?;
    let (first, _) = cut(script, lines);
    make_lines(&mut mirror, m, number, first);
    Ok(mirror)
}

/// A joiner from the snapshot of a mirror of the match, with room for what these lines bring. Where
/// no tick is left it is TooLate, with the match's length twice. On `NoMemory` nothing is created.
pub fn open_joiner<G: Game>(
    alloc: Global,
    m: &Match,
    mirror: &DeferredMirror<G>,
    number: MirrorId,
    later: &[ScriptLine],
) -> Result<Joiner<G>, JoinFault>
    requires of_match { IsOfMatch m.now mirror.now }
    requires later { length later.now ≤ MOST_SCRIPT_LINES }
    ensures in_time { IfOk result (λ s. last_clock mirror.now.runs < m.now.length) }
    ensures joiner { IfOk result (λ s. s ≡ opened (snapshot_of G.rules mirror.now) (schedules m.now)
        (length (snapshot_of G.rules mirror.now).rest + times (arrives_at number) later.now)
        (1 + times (restaggers_at number) later.now)) }
    ensures fault { IfErr result (λ e. IsFaultAt m.now.length (last_clock mirror.now.runs) e) }
{
    let plans = plans_of(alloc, m)?;
    let snap = snapshot::<G, _>(alloc, mirror)?;
    let room = snap.rest.len() as u32 + arrivals_at(number, later);
    let changes = 1 + changes_at(number, later);
    Joiner::new(alloc, snap, plans.as_slice(), room, changes)
}
