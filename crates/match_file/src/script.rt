//! The script of a match, as far as it was read.

ghost use Rattle.std.specs.Prelude.{◌≡◌, ◌++◌, ◌∷◌, [], ◌<◌, length, count_by, OnOk, OnErr};
ghost use Rattle.game_trait.specs.declared.limits.TheConstants.{MOST_SCRIPT_LINES};
ghost use Rattle.match_data.specs.Data.{shows};
ghost use Rattle.match_file.specs.Kinds.{is_none, has_room, has_showing_room};

use game_trait::limits::{MOST_SCRIPT_LINES, MOST_SHOWING_LINES};
use match_data::ScriptLine;
use std::alloc::Global;
use std::marker::Model;
use tss_base::{NoMemory, Seq};

/// The lines of a script in order, and how many of them show a world or a run. Contracts see the
/// lines.
#[derive(Drop)]
pub struct Script {
    lines: Vec<ScriptLine>,
    shown: usize,
}

impl Model for Script {
    ghost use Rattle.std.specs.Prelude.{◌≡◌, List, count_by};
    ghost use Rattle.match_data.specs.declared.script_line.ScriptLine.{ScriptLine};
    ghost use Rattle.match_data.specs.Data.{shows};

    ghost Value = { List ScriptLine };

    ghost view = { λ s. s.lines.items };

    ghost invariant = { λ s. s.shown ≡ count_by shows s.lines.items };
}

impl Script {
    /// No lines. It takes no memory.
    pub fn new(alloc: Global) -> Script
        ensures { result ≡ [] }
    {
        Script {
            lines: Vec::new(alloc),
            shown: 0,
        }
    }

    /// Whether there is no line.
    pub fn is_none(&self) -> bool
        ensures { result ≡ is_none self.now }
    {
        self.lines.is_empty()
    }

    /// Whether a line more may come.
    pub fn has_room(&self) -> bool
        ensures { result ≡ has_room self.now }
    {
        self.lines.len() < MOST_SCRIPT_LINES
    }

    /// Whether a line more that shows a world or a run may come.
    pub fn has_showing_room(&self) -> bool
        ensures { result ≡ has_showing_room self.now }
    {
        self.has_room() && self.shown < MOST_SHOWING_LINES
    }

    /// Appends the line, for which there is room. The first one makes room for as many as a script may
    /// have, so that none is moved when more come. On `NoMemory` the script is unchanged.
    pub fn push(&mut self, line: ScriptLine) -> Result<(), NoMemory>
        requires { length self.old < MOST_SCRIPT_LINES }
        ensures ok { OnOk result (self.new ≡ self.old ++ line ∷ []) }
        ensures err { OnErr result (self.new ≡ self.old) }
    {
        let shown = if line.shows() {
            self.shown + 1
        } else {
            self.shown
        };
        if self.lines.is_empty() {
            self.lines.reserve(MOST_SCRIPT_LINES)?;
        }
        self.lines.push(line)?;
        self.shown = shown;
        Ok(())
    }

    /// The lines alone. It takes no memory.
    pub fn into_seq(self) -> Seq<ScriptLine>
        ensures { result ≡ self }
    {
        let Script { lines, .. } = self;
        Seq::of(lines)
    }
}
