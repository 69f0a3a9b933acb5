//! Draining: turns of a mirror until each of its copies has run the whole match.

ghost use Rattle.std.specs.Prelude.{◌≡◌, ◌++◌, OnOk, OnErr};
ghost use Rattle.sync_model.specs.Turns.{drain_within, drain_bound, IsDrained};
ghost use Rattle.mirror_report.specs.Report.{drain_text};
ghost use Rattle.mirror_report.specs.Stops.{IsStoppedDrain};

use crate::turn::push_turn;
use game_trait::{Game, MirrorId};
use mirror_core::{MirrorWith, Mirrored, RefreshPolicy};
use tss_base::NoMemory;

/// Makes turns until the mirror is drained, at most a given number, and appends what they print. On
/// `NoMemory` it stopped at one of them, whose text wasn't appended.
pub fn drain_mirror<G: Game, P: RefreshPolicy>(
    mirror: &mut MirrorWith<G, P>,
    number: MirrorId,
    turns: u32,
    out: &mut Vec<u8>,
) -> Result<(), NoMemory>
    ensures state { OnOk result (mirror.new ≡ drain_within turns mirror.old) }
    ensures drained { OnOk result (turns ≡ drain_bound mirror.old → IsDrained mirror.new) }
    ensures text { OnOk result
        (out.new.items ≡ out.old.items ++ drain_text number turns mirror.old) }
    ensures stopped { OnErr result
        (IsStoppedDrain number turns mirror.old mirror.new out.old.items out.new.items) }
{
    mirror.always();
    for _ in 0..turns {
        if mirror.drained() {
            return Ok(());
        }
        push_turn(mirror, number, out)?;
    }
    Ok(())
}
