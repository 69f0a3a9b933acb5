//! Watchers that count.

ghost use Rattle.std.specs.Prelude.{◌≡◌, cond};
ghost use Rattle.watch_board.specs.Watchers.{says_late, repair_count, late_count};

use crate::lines::push_watch;
use crate::watcher::{Stay, Watcher};
use game_trait::{Arrived, Note, Reply};
use itoa::Buffer;
use sync_model::repaired_in;
use tss_base::NoMemory;

// How many commands an answer says were late: one or none.
fn late(reply: &Reply) -> u8
    ensures { result ≡ cond (says_late reply.now) 1 0 }
{
    match *reply {
        Reply::Arrive(Arrived::Late { .. }) => 1,
        _ => 0,
    }
}

/// Counts the copies that were repaired, and says `watch repairs K`. The count stays at its
/// greatest value, 2 ^ 64 - 1.
#[derive(Drop)]
pub struct RepairCount {
    count: u64,
}

impl RepairCount {
    /// A count that stands at 0. It takes no memory.
    pub fn new() -> RepairCount
        ensures { ⟦<RepairCount as Watcher>⟧.behaviour result ≡ repair_count 0 }
    {
        RepairCount { count: 0 }
    }
}

impl Watcher for RepairCount {
    ghost behaviour = { λ watcher. repair_count watcher.count };

    fn take(&mut self, note: &Note) -> Stay {
        self.count = self
            .count
            .saturating_add(u64::from(repaired_in(&note.reply)));
        Stay::Stay
    }

    fn line(&self, out: &mut Vec<u8>) -> Result<(), NoMemory> {
        let count = self.count;
        push_watch(out, b"repairs", Buffer::new().format(count).as_bytes())
    }
}

/// Counts the commands that were late, and says `watch late K`. The count stays at its greatest
/// value, 2 ^ 64 - 1.
#[derive(Drop)]
pub struct LateCount {
    count: u64,
}

impl LateCount {
    /// A count that stands at 0. It takes no memory.
    pub fn new() -> LateCount
        ensures { ⟦<LateCount as Watcher>⟧.behaviour result ≡ late_count 0 }
    {
        LateCount { count: 0 }
    }
}

impl Watcher for LateCount {
    ghost behaviour = { λ watcher. late_count watcher.count };

    fn take(&mut self, note: &Note) -> Stay {
        self.count = self.count.saturating_add(u64::from(late(&note.reply)));
        Stay::Stay
    }

    fn line(&self, out: &mut Vec<u8>) -> Result<(), NoMemory> {
        let count = self.count;
        push_watch(out, b"late", Buffer::new().format(count).as_bytes())
    }
}
