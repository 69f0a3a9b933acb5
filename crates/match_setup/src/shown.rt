//! What a block can show.

ghost use Rattle.std.specs.Prelude.{◌≡◌, ℕ, List, ◌++◌, OnOk, OnErr};

use crate::roster::Roster;
use tss_base::NoMemory;

/// A world that a block of lines shows.
pub trait Shown {
    /// The lines after the block's head, which depend on the world and on the roster's names alone.
    ghost lines: { Self → List (List ℕ) → List ℕ };

    /// Appends the lines after the block's head. On `NoMemory` `out` is unchanged.
    fn block(&self, roster: &Roster, out: &mut Vec<u8>) -> Result<(), NoMemory>
        ensures ok { OnOk result (out.new.items ≡ out.old.items ++ lines self.now roster.now) }
        ensures err { OnErr result (out.new.items ≡ out.old.items) };
}
