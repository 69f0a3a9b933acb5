//! Timestamped commands and the items of a run.

ghost use Rattle.std.specs.Prelude.{◌≡◌};
ghost use Rattle.game_trait.specs.Keys.{key_of, in_key_order, NamesDiffer};
ghost use Rattle.game_trait.specs.Later.{earlier, earlier_item};

/// A time in whole ticks, from the start of the match.
pub type Tick = u32;

/// The number of a mirror, from 0.
pub type MirrorId = u8;

/// The number that a mirror gave to one of its commands.
pub type Number = u32;

/// What a command asks a player to do.
#[derive(Clone, Copy, Debug, Default, PartialEq, Eq)]
pub enum Act {
    /// One cell ahead.
    #[default]
    Go,
    /// A quarter turn to the left.
    Left,
    /// A quarter turn to the right.
    Right,
    /// One shot ahead.
    Shoot,
    /// One cell ahead, and one more.
    Dash,
}

/// A player's act at a tick, as a mirror issued it. In a match no two commands have the same mirror
/// and number.
#[derive(Clone, Copy, Debug, Default, PartialEq, Eq)]
pub struct Command {
    /// The tick at which it is due.
    pub time: Tick,
    /// Its number among the commands of the mirror that issued it.
    pub number: Number,
    /// The mirror that issued it.
    pub from: MirrorId,
    /// The player that acts, counted from 0.
    pub player: u8,
    /// What the player does.
    pub act: Act,
}

/// What orders commands: time, then mirror, then number.
#[derive(Clone, Copy, Debug, PartialEq, Eq, PartialOrd, Ord)]
pub struct Key {
    /// The tick at which the command is due.
    pub time: Tick,
    /// The mirror that issued the command.
    pub from: MirrorId,
    /// The command's number among that mirror's.
    pub number: Number,
}

impl Command {
    /// The key that orders this command among all others (this project's own rule).
    pub fn key(&self) -> Key
        ensures { result ≡ key_of self.now }
    {
        Key {
            time: self.time,
            from: self.from,
            number: self.number,
        }
    }

    /// The command, its time told from so many ticks on: one that is due before them is due at 0.
    #[inline]
    pub fn earlier(&self, by: Tick) -> Command
        ensures { result ≡ earlier by self.now }
    {
        Command {
            time: self.time.saturating_sub(by),
            ..*self
        }
    }
}

/// One item of a run: a command executed, or the end of a tick.
#[derive(Clone, Copy, Debug, PartialEq, Eq)]
pub enum Item {
    /// A command that is executed.
    Cmd(Command),
    /// The world's own step, once a tick.
    Beat,
}

impl Item {
    /// The item, a command's time told from so many ticks on.
    #[inline]
    #[tactic(auto, unfolding(crate::specs::Later::earlier_item))]
    pub fn earlier(&self, by: Tick) -> Item
        ensures { result ≡ earlier_item by self.now }
    {
        match self {
            Item::Cmd(x) => Item::Cmd(x.earlier(by)),
            Item::Beat => Item::Beat,
        }
    }
}

/// Puts commands of different names in key order. It takes no memory.
pub fn order_by_key(commands: &mut [Command])
    requires { NamesDiffer commands.old }
    ensures { commands.new ≡ in_key_order commands.old }
{
    commands.sort_unstable_by_key(|x| x.key());
}
