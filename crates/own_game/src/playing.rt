//! A mirror of the game, driven by hand.

use crate::coming::COMING;
use crate::pile::Pile;
use game_trait::{Arrived, Command};
use mirror_core::Mirror;
use stagger_clock::Stagger;
use std::alloc::Global;
use std::io;

/// A mirror with three copies, of which the last stands four ticks behind the mirror's clock, for a
/// match of ten ticks, with room for sixteen arrivals. `None` where memory ran out.
pub fn opened(alloc: Global) -> Option<Mirror<Pile>> {
    let plan = Stagger::try_new(&[0, 2, 4], 10)?;
    Mirror::new(alloc, &Pile::start(), &[plan], 16, 0).ok()
}

/// Ten turns, in each of which the clock ticks, every copy runs what is due to it, and what comes at
/// that clock arrives.
pub fn play(rt: &impl Print, mirror: &mut Mirror<Pile>) -> io::Result<()> {
    arrive_all(rt, mirror)?;
    for _ in 0..mirror.length() {
        mirror.turn();
        arrive_all(rt, mirror)?;
        println!(rt; "tick {}", mirror.clock())?;
        show(rt, mirror)?;
    }
    Ok(())
}

// What comes at the clock arrives.
fn arrive_all(rt: &impl Print, mirror: &mut Mirror<Pile>) -> io::Result<()> {
    for coming in &COMING {
        if coming.clock == mirror.clock() {
            arrive(rt, mirror, &coming.command)?;
        }
    }
    Ok(())
}

// A command arrives, if it is due within the match and there is room, and the answer is told.
fn arrive(rt: &impl Print, mirror: &mut Mirror<Pile>, x: &Command) -> io::Result<()> {
    match mirror.try_arrive(x) {
        Some(Arrived::Taken { repaired }) => {
            println!(rt;
                "command {}.{} taken, repaired {repaired}",
                x.from, x.number
            )
        }
        Some(Arrived::Repeat) => println!(rt; "command {}.{} again", x.from, x.number),
        Some(Arrived::Late { bound }) => {
            println!(rt; "command {}.{} late, bound {bound}", x.from, x.number)
        }
        None => println!(rt; "command {}.{} can't be taken", x.from, x.number),
    }
}

/// Shows each copy's clock and pile. The first is what players see.
pub fn show(rt: &impl Print, mirror: &Mirror<Pile>) -> io::Result<()> {
    for copy in 0..mirror.copies() {
        let pile = mirror.world(copy);
        println!(rt;
            "copy {copy} at {}: {} stones, held {:?}",
            mirror.copy_clock(copy),
            pile.stones,
            pile.held
        )?;
    }
    Ok(())
}
