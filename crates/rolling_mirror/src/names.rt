//! The names of the commands that are remembered.

ghost use Rattle.std.specs.Prelude.{◌≡◌, ◌≤◌, length, map};
ghost use Rattle.game_trait.specs.Keys.{NamesDiffer};
ghost use Rattle.game_trait.specs.CommandList.{name_of};

use game_trait::{Command, NameTree};

/// The names of these commands, in the place of others. It takes no memory: there is room for them
/// as it was when the tree was made.
pub fn rename(names: &mut NameTree, commands: &[Command])
    requires differ { NamesDiffer commands.now }
    requires room { length commands.now ≤ names.old.first_room }
    ensures { names.new
        ≡ record names.old { items = map name_of commands.now; room = names.old.first_room } }
{
    names.clear();
    for x in commands {
        names.push_reserved(x.from, x.number);
    }
}
