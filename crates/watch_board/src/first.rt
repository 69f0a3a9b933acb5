//! The watcher that leaves.

ghost use Rattle.std.specs.Prelude.{◌≡◌, None};
ghost use Rattle.watch_board.specs.Watchers.{is_repair, first_repair};

use crate::lines::push_watch;
use crate::watcher::{Stay, Watcher};
use game_trait::{MirrorId, Note};
use itoa::Buffer;
use sync_model::repaired_in;
use tss_base::NoMemory;

/// Tells at which mirror copies were repaired first: it leaves at that note and says `watch first
/// M`, and says `watch first none` where none were.
#[derive(Drop)]
pub struct FirstRepair {
    mirror: Option<MirrorId>,
}

impl FirstRepair {
    /// A watcher that has seen no repair. It takes no memory.
    pub fn new() -> FirstRepair
        ensures { ⟦<FirstRepair as Watcher>⟧.behaviour result ≡ first_repair None }
    {
        FirstRepair { mirror: None }
    }
}

impl Watcher for FirstRepair {
    ghost behaviour = { λ watcher. first_repair watcher.mirror };

    fn take(&mut self, note: &Note) -> Stay {
        if repaired_in(&note.reply) == 0 {
            return Stay::Stay;
        }
        if self.mirror.is_none() {
            self.mirror = Some(note.mirror);
        }
        Stay::Leave
    }

    #[tactic(auto, unfolding(crate::specs::Watchers::first_line, crate::specs::Watchers::first_repaired))]
    fn line(&self, out: &mut Vec<u8>) -> Result<(), NoMemory> {
        match self.mirror {
            Some(mirror) => push_watch(out, b"first", Buffer::new().format(mirror).as_bytes()),
            None => push_watch(out, b"first", b"none"),
        }
    }
}
