//! A game whose commands come with times that are counted from a later start.

ghost use Rattle.std.specs.Prelude.{◌≡◌};
ghost use Rattle.game_trait.specs.Shifted.{passed};

use crate::command::{Command, Tick};
use crate::game::Game;
use std::marker::Model;

/// A world of a game that is told commands whose times are counted from a tick of the match on. It
/// adds that tick to a command's time before it executes the command (this project's own).
#[derive(Drop)]
pub struct Shifted<G> {
    world: G,
    start: Tick,
}

impl<G> Model for Shifted<G> {
    ghost use Rattle.game_trait.specs.Shifted.{ShiftedWorld};

    ghost Value = { ShiftedWorld G };

    ghost view = { λ s. record { world = s.world; start = s.start } };
}

impl<G: Game> Shifted<G> {
    /// The world, whose commands' times are counted from this tick of the match.
    pub fn of(world: G, start: Tick) -> Shifted<G>
        ensures { result ≡ record { world = world; start = start } }
    {
        Shifted { world, start }
    }

    /// So many ticks pass: the times of commands are counted from that much later on.
    pub fn pass(&mut self, ticks: Tick)
        ensures { self.new ≡ passed ticks self.old }
    {
        self.start = self.start.saturating_add(ticks);
    }

    /// The world alone.
    pub fn world(&self) -> &G
        ensures { result.now ≡ self.now.world }
    {
        &self.world
    }

    /// The world alone, handed out.
    pub fn into_world(self) -> G
        ensures { result ≡ self.world }
    {
        self.world
    }
}

impl<G: Game> Game for Shifted<G> {
    ghost use Rattle.game_trait.specs.Shifted.{shifted};

    ghost rules = { shifted G.rules };

    fn apply(&mut self, x: &Command) {
        let time = x.time.saturating_add(self.start);
        self.world.apply(&Command { time, ..*x });
    }

    fn beat(&mut self) {
        self.world.beat();
    }

    fn set_from(&mut self, other: &Self) {
        self.world.set_from(&other.world);
        self.start = other.start;
    }

    fn twin(&self) -> Self {
        Shifted {
            world: self.world.twin(),
            start: self.start,
        }
    }
}
