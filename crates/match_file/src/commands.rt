//! The commands of a match, as far as they were read.

ghost use Rattle.std.specs.Prelude.{◌≡◌, ◌++◌, ◌∷◌, [], not, if◌then◌else◌, length, IfOk, OnOk, OnErr};
ghost use Rattle.game_trait.specs.CommandList.{has_command};

use game_trait::{Command, CommandList, MirrorId, Number};
use std::alloc::Global;
use std::marker::Model;
use tss_base::NoMemory;

/// Commands in the order of their lines, each found at once by its mirror and number. Contracts see
/// the commands.
#[derive(Drop)]
pub struct Commands {
    list: CommandList,
}

impl Model for Commands {
    ghost use Rattle.std.specs.Prelude.{List};
    ghost use Rattle.game_trait.specs.declared.command.Command.{Command};

    ghost Value = { List Command };

    ghost view = { λ c. c.list.items };
}

impl Commands {
    /// No commands. It takes no memory.
    pub fn new(alloc: Global) -> Commands
        ensures { result ≡ [] }
    {
        Commands {
            list: CommandList::new(alloc),
        }
    }

    /// How many commands there are.
    pub fn len(&self) -> usize
        ensures { result ≡ length self.now }
    {
        self.list.len()
    }

    /// Whether one of the commands has this mirror and number.
    pub fn has(&self, from: MirrorId, number: Number) -> bool
        ensures { result ≡ has_command self.now from number }
    {
        self.list.has(from, number)
    }

    /// Appends the command where none has its mirror and number, and tells whether it did. On
    /// `NoMemory` the commands are unchanged.
    pub fn insert(&mut self, x: &Command) -> Result<bool, NoMemory>
        ensures added { IfOk result (λ added. added ≡ not (has_command self.old x.now.from x.now.number)) }
        ensures ok { OnOk result (self.new
            ≡ (if has_command self.old x.now.from x.now.number then self.old else self.old ++ x.now ∷ [])) }
        ensures err { OnErr result (self.new ≡ self.old) }
    {
        Ok(self.list.insert(x)?)
    }

    /// The list of them. It takes no memory.
    pub fn into_list(self) -> CommandList
        ensures { result.items ≡ self }
    {
        let Commands { list } = self;
        list
    }
}
