//! The clocks of the copies.

ghost use Rattle.std.specs.Prelude.{◌≡◌, ◌<◌, ◌≤◌, length, nat_lt, slice_set, if◌then◌else◌};
ghost use Rattle.game_trait.specs.declared.limits.TheConstants.{MOST_COPIES};
ghost use Rattle.game_trait.specs.Count.{times};

use arrayvec::ArrayVec;
use game_trait::Tick;

// 1 where a clock is above a time, and else 0.
fn one_above(clock: Tick, t: Tick) -> u8
    ensures count { result ≡ (if nat_lt t clock then 1 else 0) }
    ensures few { result ≤ 1 }
{
    if t < clock {
        return 1;
    }
    0
}

/// How many clocks are above a time.
pub fn count_above(clocks: &[Tick], t: Tick) -> u8
    requires { length clocks.now ≤ MOST_COPIES }
    ensures count { result ≡ times (λ k. nat_lt t k) clocks.now }
    ensures few { result ≤ length clocks.now }
{
    let mut n = 0;
    for k in clocks {
        n += one_above(*k, t);
    }
    n
}

/// At most 8 clocks as they are, to be known while the list of runs is changed.
pub fn kept(clocks: &[Tick]) -> ArrayVec<Tick, 8>
    requires { length clocks.now ≤ MOST_COPIES }
    ensures { result.items ≡ clocks.now }
{
    match ArrayVec::try_from(clocks) {
        Ok(kept) => kept,
        Err(_) => unreachable!(),
    }
}

/// The same with another clock for a copy, which is there.
pub fn kept_with(clocks: &[Tick], copy: u8, clock: Tick) -> ArrayVec<Tick, 8>
    requires few { length clocks.now ≤ MOST_COPIES }
    requires there { copy < length clocks.now }
    ensures { result.items ≡ slice_set clocks.now copy clock }
{
    let mut kept = kept(clocks);
    kept[copy as usize] = clock;
    kept
}
