//! A race of a match, and its record.

ghost use Rattle.std.specs.Prelude.{◌≡◌, List, IfOk};
ghost use Rattle.sync_model.specs.State.{MirrorState};
ghost use Rattle.match_hall.specs.Report.{Showing};
ghost use Rattle.tss_race.specs.Record.{IsRecordOfRace};

use crate::record::record_of;
use copy_workers::Gate;
use game_trait::Game;
use match_data::Match;
use match_hall::Played;
use match_setup::Shown;
use race_hall::race;
use run_recorder::{RaceRecord, print_record};
use std::alloc::Global;
use std::sync::Wait;
use std::thread::Threads;
use tss_base::{NoMemory, Seq};

/// Races a match that opens so, and answers the text of the record of that race, and its logs.
pub fn race_match<R: Threads + Wait + Sync, G: Game + Shown + Send, P: Gate + Sync>(
    rt: &R,
    alloc: Global,
    opening: &G,
    m: Match,
    gate: &P,
) -> Result<Played, NoMemory>
    ensures { let show : Showing G = record { rules = G.rules; lines = G.lines; names = m.names } in
        IfOk result (λ a. (mirrors : List (MirrorState G))
        × IsRecordOfRace show opening.now m mirrors a.text a.kept) }
{
    let mirrors = race(rt, alloc, &m, opening, gate)?;
    let r = record_of(alloc, m, mirrors.as_slice())?;
    let text = print_record(alloc, &r)?;
    let RaceRecord {
        game: _,
        logs,
        worlds: _,
    } = r;
    Ok(Played {
        text: Seq::of(text),
        kept: logs,
    })
}
