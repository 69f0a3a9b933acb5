//! How a match ends, and its time-ordered execution.

ghost use Rattle.std.specs.Prelude.{◌≡◌, IfOk};
ghost use Rattle.game_trait.specs.Ordered.{time_ordered};
ghost use Rattle.sync_model.specs.Turns.{drain};
ghost use Rattle.mirror_core.specs.Drained.{AreInOrder};
ghost use Rattle.own_game.specs.Pile.{pile_rules};

use crate::pile::Pile;
use game_trait::{Game, execute_in_order};
use mirror_core::Mirror;
use std::alloc::Global;
use tss_base::NoMemory;

/// Runs every copy to the match's end, where each copy's pile is the time-ordered execution of what
/// was accepted.
pub fn end(mirror: &mut Mirror<Pile>)
    ensures drained { mirror.new ≡ drain mirror.old }
    ensures piles { AreInOrder pile_rules mirror.new }
{
    mirror.drain();
}

/// The time-ordered execution of what was accepted.
pub fn order(alloc: Global, mirror: &Mirror<Pile>) -> Result<Pile, NoMemory>
    ensures { IfOk result (λ pile. pile
        ≡ time_ordered pile_rules mirror.now.opening mirror.now.accepted mirror.now.length) }
{
    mirror.always();
    let mut commands = mirror.accepted().to_vec(alloc)?;
    let mut pile = mirror.opening().twin();
    execute_in_order(&mut pile, &mut commands, mirror.length());
    Ok(pile)
}
