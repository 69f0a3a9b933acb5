//! A session without an end, for `rolling_mirror`.

use game_trait::{Command, Game};
use rolling_mirror::{Arrival, RollingMirror};
use stagger_clock::Stagger;
use std::alloc::Global;

/// A thousand turns of a mirror that remembers 60 ticks, and then the answer to a command. `None`
/// where memory ran out.
#[tactic(auto, unfolding(sync_model::specs::Lists::last_of))]
pub fn go_on<G: Game>(
    alloc: Global,
    opening: &G,
    x: &Command,
) -> Option<(RollingMirror<G>, Arrival)> {
    let delays = Stagger::try_new(&[0, 2, 4], 60)?;
    let mut mirror = RollingMirror::new(alloc, opening, &[delays], 16, 8).ok()?;
    for _ in 0..1_000 {
        mirror.turn();
    }
    // `Taken`, `Repeat` or `Late` as of a mirror of a match; `Far` and `Full` ask to come again
    let answer = mirror.arrive(x);
    Some((mirror, answer))
}
