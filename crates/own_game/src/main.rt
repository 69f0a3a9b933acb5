//! A game of one's own: players take stones from a pile. One mirror with three copies is driven by
//! hand: the clock ticks, commands arrive early, late and too late, and each copy's pile is looked at;
//! in the end every copy is at the time-ordered execution of what was accepted, which is executed
//! beside it.
#![tactic(auto)]

mod coming;
mod ending;
mod pile;
mod playing;

use crate::ending::{end, order};
use crate::playing::{opened, play, show};
use std::io;

fn main(rt: HostRuntime) -> io::Result<()> {
    let Some(mut mirror) = opened(rt.alloc()) else {
        return eprintln!(rt; "own_game: no memory");
    };
    play(&rt, &mut mirror)?;
    end(&mut mirror);
    show(&rt, &mirror)?;
    let Ok(pile) = order(rt.alloc(), &mirror) else {
        return eprintln!(rt; "own_game: no memory");
    };
    println!(rt; "in order: {} stones, held {:?}", pile.stones, pile.held)
}
