//! A list of commands with different names, of which each is found at once.

ghost use Rattle.std.specs.Prelude.{◌≡◌, ◌<◌, ◌++◌, ◌∷◌, [], false, if◌then◌else◌, not, length, IfOk, OnOk, OnErr};
ghost use Rattle.game_trait.specs.Keys.{NamesDiffer};
ghost use Rattle.game_trait.specs.CommandList.{command_named, has_command};

use crate::command::{Command, MirrorId, Number};
use crate::name_tree::NameTree;
use std::alloc::{AllocError, Global};
use std::marker::Model;

/// Commands in the order in which they were appended, no two with the same mirror and number, of
/// which each is found by these in at most 13 steps, whatever names strangers choose (this project's
/// own). Contracts see the commands, and how many there is room for without taking memory.
#[derive(Debug, Drop)]
pub struct CommandList {
    commands: Vec<Command>,
    names: NameTree,
    room: usize,
}

impl Model for CommandList {
    ghost use Rattle.std.specs.Prelude.{vec_capacity};
    ghost use Rattle.game_trait.specs.CommandList.{CommandsInRoom, IsCommandList};

    ghost Value = { CommandsInRoom };

    ghost view = { λ a. record { items = a.commands.items; room = a.room } };

    ghost invariant = { λ a.
        IsCommandList a.names.items a.commands.items a.room (vec_capacity a.commands)
        a.names.room };
}

impl CommandList {
    /// No commands yet, and no room. It takes no memory.
    pub fn new(alloc: Global) -> CommandList
        ensures { result ≡ record { items = []; room = 0 } }
    {
        CommandList {
            commands: Vec::new(alloc),
            names: NameTree::new(alloc),
            room: 0,
        }
    }

    /// No commands yet, with room for `room` of them. On `NoMemory` nothing is created; room for
    /// more than `u32::MAX` is always wanting.
    pub fn with_room(alloc: Global, room: usize) -> Result<CommandList, AllocError>
        ensures { IfOk result (λ list. list ≡ record { items = []; room = room }) }
    {
        Ok(CommandList {
            commands: Vec::with_capacity(alloc, room)?,
            names: NameTree::with_room(alloc, room)?,
            room,
        })
    }

    /// Appends the command where none has its mirror and number, and tells whether it did. It makes
    /// room for one first. On want of memory the list is unchanged.
    pub fn insert(&mut self, x: &Command) -> Result<bool, AllocError>
        ensures added { IfOk result (λ added. added
            ≡ not (has_command self.old.items x.now.from x.now.number)) }
        ensures items { OnOk result (self.new.items
            ≡ (if has_command self.old.items x.now.from x.now.number
            then self.old.items
            else self.old.items ++ x.now ∷ [])) }
        ensures room { self.new.room ≡ self.old.room }
        ensures err { OnErr result (self.new ≡ self.old) }
    {
        self.commands.reserve(1)?;
        self.names.reserve()?;
        if self.names.insert_reserved(x.from, x.number) {
            self.commands.push_reserved(*x);
            return Ok(true);
        }
        Ok(false)
    }

    /// Appends a command, whose mirror and number none has yet, where there is room. It takes no
    /// memory.
    pub fn push_reserved(&mut self, x: &Command)
        requires new_name { has_command self.old.items x.now.from x.now.number ≡ false }
        requires room { length self.old.items < self.old.room }
        ensures { self.new ≡ record self.old { items = self.old.items ++ x.now ∷ [] } }
    {
        self.names.push_reserved(x.from, x.number);
        self.commands.push_reserved(*x);
    }

    /// The command of this mirror and number, if there is one.
    pub fn get(&self, from: MirrorId, number: Number) -> Option<Command>
        ensures { result ≡ command_named self.now.items from number }
    {
        match self.names.find(from, number) {
            Some(at) => Some(self.commands[at]),
            None => None,
        }
    }

    /// Whether one of the commands has this mirror and number.
    pub fn has(&self, from: MirrorId, number: Number) -> bool
        ensures { result ≡ has_command self.now.items from number }
    {
        self.names.has(from, number)
    }

    /// The commands, in the order in which they were appended.
    pub fn as_slice(&self) -> &[Command]
        ensures commands { result.now ≡ self.now.items }
        ensures names { NamesDiffer result.now }
    {
        &self.commands
    }

    /// How many commands there are.
    pub fn len(&self) -> usize
        ensures { result ≡ length self.now.items }
    {
        self.commands.len()
    }
}
