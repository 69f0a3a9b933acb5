//! The script of a match.

ghost use Rattle.std.specs.Prelude.{◌≡◌, ◌<◌, ◌++◌, IfOk, OnOk};
ghost use Rattle.match_maker.specs.Below.{joined_below};
ghost use Rattle.match_maker.specs.Generator.{arrival_lines, arrivals, mirror_lines, tick_lines};

use crate::lags::Lags;
use game_trait::{MirrorId, Tick};
use match_data::ScriptLine;
use std::alloc::Global;
use tss_base::{NoMemory, Seq};

// The line of a command's arrival, if it arrives at the mirror in this tick.
#[tactic(auto, unfolding(crate::specs::Generator::arrival_lines))]
fn push_arrival(
    script: &mut Seq<ScriptLine>,
    lags: &Lags,
    tick: Tick,
    mirror: MirrorId,
    place: u32,
) -> Result<(), NoMemory>
    requires place { place < 4096 }
    requires mirror { mirror < 8 }
    ensures { OnOk result (script.new ≡ script.old ++ arrival_lines lags.now tick mirror place) }
{
    if place / 8 + lags.at(place, mirror) != tick {
        return Ok(());
    }
    script.push(ScriptLine::Arrive {
        mirror,
        from: (place % 8) as MirrorId,
        number: place / 8,
    })
}

// The arrivals at a mirror in a tick. Whatever arrives then is due in this tick or in one of the 31
// before.
#[tactic(auto, using(crate::proofs::Lists::joined_more, crate::proofs::Lists::joined_none))]
fn push_arrivals(
    script: &mut Seq<ScriptLine>,
    lags: &Lags,
    tick: Tick,
    mirror: MirrorId,
) -> Result<(), NoMemory>
    requires tick { tick < 544 }
    requires mirror { mirror < 8 }
    ensures { OnOk result (script.new ≡ script.old ++ arrivals lags.now tick mirror) }
{
    let first = 8 * tick.saturating_sub(31);
    let end = (8 * tick + 8).min(4096);
    for place in first..end {
        push_arrival(script, lags, tick, mirror, place)?;
    }
    Ok(())
}

// A tick of the script at a mirror.
fn push_mirror(
    script: &mut Seq<ScriptLine>,
    lags: &Lags,
    tick: Tick,
    mirror: MirrorId,
) -> Result<(), NoMemory>
    requires tick { tick < 544 }
    requires mirror { mirror < 8 }
    ensures { OnOk result (script.new ≡ script.old ++ mirror_lines lags.now tick mirror) }
{
    push_arrivals(script, lags, tick, mirror)?;
    script.push(ScriptLine::Turn { mirror })
}

// A tick of the script.
#[tactic(auto, using(crate::proofs::Lists::joined_more, crate::proofs::Lists::joined_none))]
fn push_tick(script: &mut Seq<ScriptLine>, lags: &Lags, tick: Tick) -> Result<(), NoMemory>
    requires { tick < 544 }
    ensures { OnOk result (script.new ≡ script.old ++ tick_lines lags.now tick) }
{
    for mirror in 0..8 {
        push_mirror(script, lags, tick, mirror)?;
    }
    Ok(())
}

/// The script of the match with these lags.
#[tactic(auto, using(crate::proofs::Lists::joined_more, crate::proofs::Lists::joined_none))]
pub fn script_of(alloc: Global, lags: &Lags) -> Result<Seq<ScriptLine>, NoMemory>
    ensures { IfOk result (λ script. script ≡ joined_below (tick_lines lags.now) 544) }
{
    let mut script = Seq::new(alloc);
    for tick in 0..544 {
        push_tick(&mut script, lags, tick)?;
    }
    Ok(script)
}
