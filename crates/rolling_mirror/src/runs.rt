//! What is seen of the runs of a mirror of a session without an end.

ghost use Rattle.std.specs.Prelude.{◌≡◌, ◌+◌, ◌^◌, ◌<◌, Some, [], length, slice_get, slice_index_or, option_map};
ghost use Rattle.game_trait.specs.Later.{later_item};
ghost use Rattle.rolling_mirror.specs.Kept.{IsToldIn};

use crate::rolling::RollingMirror;
use game_trait::{Command, Game, Item, Tick};

// The item, a command's time told from so many ticks before.
#[tactic(auto, unfolding(game_trait::specs::Later::later_item, crate::specs::Kept::IsToldIn))]
fn later(item: Item, by: Tick) -> Item
    requires { IsToldIn by item }
    ensures { result ≡ later_item by item }
{
    match item {
        Item::Cmd(x) => Item::Cmd(Command {
            time: x.time + by,
            ..x
        }),
        Item::Beat => Item::Beat,
    }
}

impl<G: Game> RollingMirror<G> {
    /// How many plans there are.
    pub fn plans(&self) -> usize
        ensures { result ≡ length self.now.left.plans }
    {
        self.plans.len()
    }

    /// How many items of the copy's run are remembered: those from the base on. The copy is there.
    pub fn run_len(&self, copy: u8) -> u32
        requires { copy < length self.now.left.runs }
        ensures { result ≡ length (slice_index_or self.now.left.runs copy []) }
    {
        self.stack.run_len(copy)
    }

    /// The item at a place of the copy's run, counted from the base on, a command's time as a tick of the
    /// session. The copy and the place are there.
    pub fn run_item(&self, copy: u8, place: u32) -> Item
        requires copy { copy < length self.now.left.runs }
        requires place { place < length (slice_index_or self.now.left.runs copy []) }
        ensures { option_map (later_item self.now.base) (slice_get (slice_index_or self.now.left.runs copy []) place) ≡ Some result }
    {
        self.stack.always();
        later(self.stack.run_item(copy, place), self.base)
    }
}
