//! Auditing a record.

ghost use Rattle.std.specs.Prelude.{◌≡◌, ◌≤◌, ◌<◌, ◌↔◌, ◌+◌, true, false, length, IfOk};
ghost use Rattle.std.specs.List.{AllByRecursion};
ghost use Rattle.game_trait.specs.declared.limits.TheConstants.{MOST_ROOM, MOST_COPIES};
ghost use Rattle.match_data.specs.Data.{IsMatch};
ghost use Rattle.report_text.specs.Worlds.{showing, copy_block};
ghost use Rattle.run_recorder.specs.Data.{IsEventOf, IsRecord};
ghost use Rattle.run_auditor.specs.Audit.{IsStated, FoundFalse, Found, IsLegalRecord, Tells, says_legal};
ghost use Rattle.run_auditor.specs.Walks.{WentOn, Stopped, walk_of};

use crate::verdict::Verdict;
use crate::walk::{LogWalk, Walked};
use crate::why::{Fault, Why};
use game_trait::{Game, MirrorId};
use match_data::{Match, MirrorLog};
use match_setup::Shown;
use mirror_core::{DeferredMirror, Mirrored};
use report_text::copy_block;
use run_recorder::{Block, RaceRecord};
use std::alloc::Global;
use tss_base::NoMemory;

// Makes the events of the walk up to the first that changes nothing, which is told.
fn walk_log<G: Game>(walk: &mut LogWalk<G>) -> Option<Fault>
    ensures on { WentOn walk.old walk.new }
    ensures stopped { Stopped walk.new result }
{
    loop {
        match walk.next() {
            Walked::Note(_) => {}
            Walked::End => return None,
            Walked::Stuck { place, why } => return Some(Fault { place, why }),
        }
    }
}

// Does what `walk_log` does, and then makes the worlds that are still to be made, each once.
fn walk_through<G: Game>(walk: &mut LogWalk<G>) -> Option<Fault>
    ensures on { WentOn walk.old walk.new }
    ensures stopped { Stopped walk.new result }
{
    let stuck = walk_log(walk);
    walk.refresh();
    stuck
}

// Whether the block of the copy, which is there, is exactly as it is stated.
fn is_stated<G: Game + Shown>(
    alloc: Global,
    game: &Match,
    mirror: &DeferredMirror<G>,
    number: MirrorId,
    copy: u8,
    block: &Block,
) -> Result<bool, NoMemory>
    requires { copy < length mirror.now.runs }
    ensures same { let show = showing G.rules G.lines game.now.names in
        IfOk result (λ same. same ≡ true → IsStated show number mirror.now copy block.now) }
    ensures other { let show = showing G.rules G.lines game.now.names in
        IfOk result (λ same. same ≡ false → IsStated show number mirror.now copy block.now → ⊥) }
{
    let mut text = Vec::new(alloc);
    copy_block(
        &mut text,
        number,
        copy,
        mirror.copy_clock(copy),
        &mirror.world_twin(copy),
        &game.roster,
    )?;
    Ok(block.as_bytes() == text.as_slice())
}

// The first of the stated worlds that isn't as it is, if there is one. There is one for each copy.
fn false_world<G: Game + Shown>(
    alloc: Global,
    game: &Match,
    mirror: &DeferredMirror<G>,
    number: MirrorId,
    blocks: &[Block],
) -> Result<Option<u32>, NoMemory>
    requires copies { length blocks.now ≡ length mirror.now.runs }
    requires few { length blocks.now ≤ MOST_COPIES }
    ensures { let show = showing G.rules G.lines game.now.names in
        IfOk result (FoundFalse show number mirror.now blocks.now) }
{
    let mut copy: u8 = 0;
    let mut rest = blocks;
    while let Some((block, others)) = rest.split_first() {
        if !is_stated(alloc, game, mirror, number, copy, block)? {
            return Ok(Some(u32::from(copy)));
        }
        copy += 1;
        rest = others;
    }
    Ok(None)
}

// The first fault of a mirror, if it has one: of its log, of whose walk no event is made yet, and
// then of its worlds.
fn audit_walk<G: Game + Shown>(
    alloc: Global,
    game: &Match,
    walk: &mut LogWalk<G>,
    log: &MirrorLog,
    blocks: &[Block],
) -> Result<Option<Fault>, NoMemory>
    requires sound { IsMatch game.now }
    requires begun { walk.old
        ≡ walk_of walk.old.mirror.opening game.now log.now.mirror log.now.events }
    requires events { AllByRecursion (IsEventOf game.now) log.now.events }
    requires copies { length blocks.now ≡ length game.now.delays }
    ensures { let show = showing G.rules G.lines game.now.names in
        IfOk result (Found show walk.old.mirror.opening game.now log.now.mirror log.now.events
        blocks.now) }
{
    let stuck = walk_through(walk);
    let mirror = walk.mirror();
    mirror.always();
    if let Some(fault) = stuck {
        return Ok(Some(Fault {
            place: fault.place,
            why: fault.why,
        }));
    }
    match false_world(alloc, game, mirror, log.mirror, blocks)? {
        Some(copy) => Ok(Some(Fault {
            place: copy,
            why: Why::World,
        })),
        None => Ok(None),
    }
}

// The first fault of a mirror, if it has one.
fn audit_mirror<G: Game + Shown>(
    alloc: Global,
    game: &Match,
    opening: &G,
    log: &MirrorLog,
    blocks: &[Block],
) -> Result<Option<Fault>, NoMemory>
    requires sound { IsMatch game.now }
    requires few { length log.now.events ≤ MOST_ROOM }
    requires events { AllByRecursion (IsEventOf game.now) log.now.events }
    requires copies { length blocks.now ≡ length game.now.delays }
    ensures { let show = showing G.rules G.lines game.now.names in
        IfOk result (Found show opening.now game.now log.now.mirror log.now.events blocks.now) }
{
    let mut walk = LogWalk::new(alloc, game, opening, log)?;
    audit_walk(alloc, game, &mut walk, log, blocks)
}

/// Audits a record that `read_record` can give, of a match that opens so. Mirror after mirror, the
/// events of its log are made in order, and its stated worlds are compared with those after the
/// log, copy 0 first. The first event that changes nothing, or the first world that isn't stated
/// exactly as it is, is named. Want of memory says nothing of the record.
pub fn audit<G: Game + Shown>(
    alloc: Global,
    r: &RaceRecord,
    opening: &G,
) -> Result<Verdict, NoMemory>
    requires { IsRecord r.now }
    // The record is legal exactly where the verdict says so.
    ensures legal { let show = showing G.rules G.lines r.now.game.names in
        IfOk result (λ v. (says_legal v ≡ true) ↔ IsLegalRecord show opening.now r.now) }
    // It counts all events, or names the first fault.
    ensures verdict { let show = showing G.rules G.lines r.now.game.names in
        IfOk result (Tells show opening.now r.now) }
{
    let mut events: u64 = 0;
    let mut logs = r.logs.as_slice();
    let mut worlds = r.worlds.as_slice();
    while let Some((log, others)) = logs.split_first() {
        let Some((blocks, further)) = worlds.split_first() else {
            unreachable!()
        };
        if let Some(fault) = audit_mirror(alloc, &r.game, opening, log, blocks.as_slice())? {
            return Ok(Verdict::NotLegal {
                mirror: log.mirror,
                place: fault.place,
                why: fault.why,
            });
        }
        events += log.events.len() as u64;
        logs = others;
        worlds = further;
    }
    Ok(Verdict::Legal { events })
}
