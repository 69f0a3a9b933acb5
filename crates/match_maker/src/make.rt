//! The match of a number.

ghost use Rattle.std.specs.Prelude.{◌≡◌, ◌∷◌, [], IfOk};
ghost use Rattle.match_maker.specs.Generator.{match_of_number};

use crate::arena::{roster, setup};
use crate::commands::commands_of;
use crate::script::script_of;
use match_data::Match;
use std::alloc::Global;
use tss_base::{NoMemory, Seq};

fn delays(alloc: Global) -> Result<Seq<u32>, NoMemory>
    ensures { IfOk result (λ delays. delays ≡ 0 ∷ 4 ∷ 8 ∷ 16 ∷ 32 ∷ []) }
{
    Ok(Seq::of(vec![in alloc; 0, 4, 8, 16, 32]?))
}

/// The match that a number makes: 512 ticks, 8 mirrors of 5 copies, 16 players, and 4,096 commands,
/// each of which arrives at each mirror at most 31 ticks behind its time. The generator is this
/// project's own.
pub fn make_match(alloc: Global, seed: u32) -> Result<Match, NoMemory>
    ensures { IfOk result (λ m. m ≡ match_of_number seed) }
{
    let delays = delays(alloc)?;
    let roster = roster(alloc)?;
    let (commands, lags) = commands_of(alloc, seed)?;
    let script = script_of(alloc, &lags)?;
    Ok(Match {
        version: 1,
        length: 512,
        mirrors: 8,
        delays,
        plans: Seq::new(alloc),
        pace: 32,
        setup: setup(),
        roster,
        commands,
        script,
    })
}
