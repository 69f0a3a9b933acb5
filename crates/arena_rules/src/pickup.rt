//! What lies in the arena to be taken.

ghost use Rattle.std.specs.Prelude.{◌≡◌, ◌++◌, OnOk, OnErr};
ghost use Rattle.arena_rules.specs.Block.{item_line};

use match_setup::PickupSpot;
use tss_base::NoMemory;
use tss_io::{Word, push_line};

/// A pickup of the arena.
#[derive(Clone, Copy, Debug, Default, PartialEq, Eq)]
pub struct Pickup {
    pub place: PickupSpot,
    /// It can't be taken for this number of further beats, from 0 to 20.
    pub wait: u8,
}

impl Pickup {
    /// Appends the pickup's line: its cell, its kind and its wait. On `NoMemory` `out` is
    /// unchanged.
    #[tactic(auto, unfolding(crate::specs::Block::item_line))]
    pub fn push_line(&self, out: &mut Vec<u8>) -> Result<(), NoMemory>
        ensures ok { OnOk result (out.new.items ≡ out.old.items ++ item_line self.now) }
        ensures err { OnErr result (out.new.items ≡ out.old.items) }
    {
        let words = [
            Word::Text(b"item"),
            Word::Number(i64::from(self.place.x)),
            Word::Number(i64::from(self.place.y)),
            Word::Text(self.place.kind.word()),
            Word::Number(i64::from(self.wait)),
        ];
        push_line(out, &words)
    }
}
