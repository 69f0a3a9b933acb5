//! The turns of a mirror.

ghost use Rattle.std.specs.Prelude.{◌≡◌, ◌++◌, length, take, OnOk, OnErr};
ghost use Rattle.sync_model.specs.Turns.{turn};
ghost use Rattle.mirror_report.specs.Report.{repairs_text, turn_text};

use game_trait::{Game, MirrorId, Reply};
use mirror_core::{MirrorWith, RefreshPolicy};
use report_text::repair_line;
use sync_model::repaired_in;
use tss_base::NoMemory;

// Appends the line of each repair that answers tell of. On `NoMemory` some of it may have been
// appended.
fn push_each_repair(out: &mut Vec<u8>, at: MirrorId, replies: &[Reply]) -> Result<(), NoMemory>
    ensures ok { OnOk result (out.new.items ≡ out.old.items ++ repairs_text at replies.now) }
    ensures front { take (length out.old.items) out.new.items ≡ out.old.items }
{
    for reply in replies {
        repair_line(out, at, repaired_in(reply))?;
    }
    Ok(())
}

// Appends what the answers to a turn's events print, which is their repairs. On `NoMemory` `out` is
// unchanged.
fn push_repairs(out: &mut Vec<u8>, at: MirrorId, replies: &[Reply]) -> Result<(), NoMemory>
    ensures ok { OnOk result (out.new.items ≡ out.old.items ++ repairs_text at replies.now) }
    ensures err { OnErr result (out.new.items ≡ out.old.items) }
{
    let length = out.len();
    match push_each_repair(out, at, replies) {
        Ok(()) => Ok(()),
        Err(fault) => {
            out.truncate(length);
            Err(fault)
        }
    }
}

/// Makes a turn of the mirror of this number, and appends what it prints. On `NoMemory` the turn
/// was made, and `out` is unchanged.
pub fn push_turn<G: Game, P: RefreshPolicy>(
    mirror: &mut MirrorWith<G, P>,
    number: MirrorId,
    out: &mut Vec<u8>,
) -> Result<(), NoMemory>
    ensures state { mirror.new ≡ turn mirror.old }
    ensures ok { OnOk result (out.new.items ≡ out.old.items ++ turn_text number mirror.old) }
    ensures err { OnErr result (out.new.items ≡ out.old.items) }
{
    let replies = mirror.turn();
    push_repairs(out, number, replies.as_slice())
}
