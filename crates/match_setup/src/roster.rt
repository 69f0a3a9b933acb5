//! The players' names.

ghost use Rattle.std.specs.Prelude.{◌≡◌, [], length, IfOk, OnErr, not, slice_get, option_copied};
ghost use Rattle.match_setup.specs.Words.{name_of};
ghost use Rattle.match_setup.specs.Roster.{is_known, with_name, PlayerNamesDiffer};

use indexmap::IndexSet;
use std::alloc::Global;
use std::marker::Model;
use tss_base::NoMemory;

/// The players' names in player order, each but once. Contracts see the list of the names.
#[derive(Debug, Drop)]
pub struct Roster {
    names: IndexSet<Vec<u8>>,
}

impl Model for Roster {
    ghost use Rattle.std.specs.Prelude.{List, ℕ, map};
    ghost use Rattle.match_setup.specs.Roster.{PlayerNamesDiffer};

    ghost Value = { List (List ℕ) };

    ghost view = { λ r. map (λ name. name.items) r.names.keys };

    ghost invariant = { λ r. PlayerNamesDiffer (map (λ name. name.items) r.names.keys) };
}

impl Roster {
    /// A roster without names.
    pub fn new(alloc: Global) -> Result<Roster, NoMemory>
        ensures { IfOk result (λ roster. roster ≡ []) }
    {
        Ok(Roster {
            names: IndexSet::new(alloc),
        })
    }

    /// Appends the name and answers true, or answers false where the name is there already. On
    /// `NoMemory` nothing changed.
    pub fn add(&mut self, name: &[u8]) -> Result<bool, NoMemory>
        ensures added { IfOk result (λ added. added ≡ not (is_known self.old name.now)) }
        ensures ok { IfOk result (λ _. self.new ≡ with_name self.old name.now) }
        ensures err { OnErr result (self.new ≡ self.old) }
        ensures distinct { PlayerNamesDiffer self.new }
    {
        if self.names.contains(name) {
            return Ok(false);
        }
        let name = name.to_vec(*self.names.allocator())?;
        self.names.insert(name)?;
        Ok(true)
    }

    /// How many names there are.
    pub fn len(&self) -> usize
        ensures { result ≡ length self.now }
    {
        self.names.len()
    }

    /// The name in this place, counted from 0, or None where there are no more names than that.
    pub fn name_at(&self, place: usize) -> Option<&[u8]>
        ensures name { option_copied result ≡ slice_get self.now place }
        ensures distinct { PlayerNamesDiffer self.now }
    {
        let name = self.names.get_index(place)?;
        Some(name.as_slice())
    }

    /// The name of the player of this number, counted from 0, or None where there are no more than
    /// so many names.
    pub fn name(&self, player: u8) -> Option<&[u8]>
        ensures name { option_copied result ≡ slice_get self.now player }
        ensures distinct { PlayerNamesDiffer self.now }
    {
        self.name_at(player as usize)
    }

    /// The name of a player as it is printed: a question mark stands for one that isn't there.
    pub fn printed_name(&self, player: u8) -> &[u8]
        ensures { result.now ≡ name_of self.now player }
    {
        self.name(player).unwrap_or(b"?".as_slice())
    }
}
