//! The plans of a match, as its mirrors take them.

ghost use Rattle.std.specs.Prelude.{◌≡◌, IfOk};
ghost use Rattle.match_data.specs.Data.{IsMatch, schedules};

use crate::game_match::Match;
use stagger_clock::Stagger;
use std::alloc::Global;
use tss_base::NoMemory;

/// The plans of a match, plan 0 first, each with the match's length. `NoMemory` where there isn't
/// memory for the list.
pub fn plans_of(alloc: Global, m: &Match) -> Result<Vec<Stagger>, NoMemory>
    ensures plans { IfOk result (λ plans. plans.items ≡ schedules m.now) }
    ensures sound { IfOk result (λ _. IsMatch m.now) }
{
    let mut plans = Vec::new(alloc);
    plans.push(Stagger::new(m.delays.as_slice(), m.length))?;
    for delays in m.plans.as_slice() {
        plans.push(Stagger::new(delays.as_slice(), m.length))?;
    }
    Ok(plans)
}
