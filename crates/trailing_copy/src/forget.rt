//! Copies of a mirror that forget what all of them have run.

ghost use Rattle.std.specs.Prelude.{◌≡◌, map, vec_len};
ghost use Rattle.game_trait.specs.Shifted.{passed};
ghost use Rattle.trailing_copy.specs.Stack.{forgotten_copies};

use crate::lazy::LazyStack;
use game_trait::{Game, Shifted, Tick};

// So many ticks pass in each world.
fn pass_each<G: Game>(worlds: &mut Vec<Shifted<G>>, ticks: Tick)
    ensures worlds { worlds.new.items ≡ map (passed ticks) worlds.old.items }
{
    for place in 0..worlds.len() {
        worlds[place].pass(ticks);
    }
}

impl<G: Game> LazyStack<Shifted<G>> {
    /// Forgets the last copy's run, with which all runs begin, and the commands in it. Its world
    /// becomes the opening one, and times are told from its clock on, to the worlds too. There is room
    /// for as many more commands as were forgotten.
    pub fn forget(&mut self)
        ensures { self.new ≡ forgotten_copies G.rules self.old }
    {
        self.run.always();
        let last = self.run.copies() - 1;
        let ticks = self.run.beats(last);
        pass_each(&mut self.worlds, ticks);
        self.opening.set_from(&self.worlds[last as usize]);
        self.list.forget(ticks);
        self.run.forget();
    }
}
