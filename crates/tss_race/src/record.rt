//! The record of mirrors that ended.

ghost use Rattle.std.specs.Prelude.{◌≡◌, ◌≤◌, length, IfOk};
ghost use Rattle.match_hall.specs.Report.{Showing};
ghost use Rattle.tss_race.specs.Record.{blocks_from, worlds_from, record_of};

use game_trait::{Game, MirrorId};
use match_data::Match;
use match_hall::logs_of;
use match_setup::{Roster, Shown};
use mirror_core::Mirror;
use mirror_report::push_copy;
use run_recorder::{Block, RaceRecord};
use std::alloc::Global;
use tss_base::{NoMemory, Seq};

// The blocks of a mirror's copies, copy 0 first.
#[tactic(auto, unfolding(crate::specs::Record::blocks_from))]
fn blocks_of<G: Game + Shown>(
    alloc: Global,
    number: MirrorId,
    mirror: &Mirror<G>,
    roster: &Roster,
) -> Result<Seq<Block>, NoMemory>
    ensures { let show : Showing G = record { rules = G.rules; lines = G.lines; names = roster.now }
        in
        IfOk result (λ blocks. blocks
        ≡ blocks_from show number mirror.now.opening 0 mirror.now.runs) }
{
    let mut blocks = Seq::new(alloc);
    for copy in 0..mirror.copies() {
        let mut text = Vec::new(alloc);
        push_copy::<G, _>(&mut text, number, mirror, copy, roster)?;
        blocks.push(Block::of(text))?;
    }
    Ok(blocks)
}

// The blocks of mirrors, mirror 0 first.
#[tactic(auto, unfolding(crate::specs::Record::worlds_from))]
fn worlds_of<G: Game + Shown>(
    alloc: Global,
    mirrors: &[Mirror<G>],
    roster: &Roster,
) -> Result<Seq<Seq<Block>>, NoMemory>
    requires { length mirrors.now ≤ 8 }
    ensures { let show : Showing G = record { rules = G.rules; lines = G.lines; names = roster.now }
        in
        IfOk result (λ worlds. worlds ≡ worlds_from show 0 mirrors.now) }
{
    let mut worlds = Seq::new(alloc);
    let mut number: MirrorId = 0;
    for mirror in mirrors {
        worlds.push(blocks_of(alloc, number, mirror, roster)?)?;
        number += 1;
    }
    Ok(worlds)
}

/// The record of a match whose mirrors ended so: their logs, and the worlds of their copies. Want
/// of memory makes none.
pub fn record_of<G: Game + Shown>(
    alloc: Global,
    m: Match,
    mirrors: &[Mirror<G>],
) -> Result<RaceRecord, NoMemory>
    requires { length mirrors.now ≤ 8 }
    ensures { let show : Showing G = record { rules = G.rules; lines = G.lines; names = m.names } in
        IfOk result (λ r. r ≡ record_of show m mirrors.now) }
{
    let logs = logs_of(alloc, mirrors)?;
    let worlds = worlds_of(alloc, mirrors, &m.roster)?;
    Ok(RaceRecord {
        game: m,
        logs,
        worlds,
    })
}
