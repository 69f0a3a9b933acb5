//! What is printed of the mirrors. They are only looked at here.

ghost use Rattle.std.specs.Prelude.{◌≡◌, ◌++◌, ◌<◌, length, OnOk, OnErr};
ghost use Rattle.sync_model.specs.Turns.{IsDrained};
ghost use Rattle.mirror_report.specs.Report.{copy_blocks, line_of_mirror};
ghost use Rattle.match_hall.specs.Report.{showing, run_of, copy_block};
ghost use Rattle.match_hall.specs.Stops.{IsFrontPut};

use game_trait::{Game, MirrorId};
use match_setup::{Roster, Shown};
use mirror_core::{DeferredMirror, Mirrored};
use mirror_report::push_line_of_mirror;
use report_text::copy_block;
use tss_base::NoMemory;

// Appends the block of a copy's live world. The copy is there, and the mirror drained. On `NoMemory`
// `out` is unchanged.
fn push_live_copy<G: Game + Shown>(
    out: &mut Vec<u8>,
    number: MirrorId,
    mirror: &DeferredMirror<G>,
    copy: u8,
    roster: &Roster,
) -> Result<(), NoMemory>
    requires there { copy < length mirror.now.runs }
    requires drained { IsDrained mirror.now }
    ensures ok { let show = showing G.rules G.lines roster.now in
        OnOk result (out.new.items ≡ out.old.items
        ++ copy_block show number mirror.now.opening copy (run_of mirror.now copy)) }
    ensures err { OnErr result (out.new.items ≡ out.old.items) }
{
    let clock = mirror.copy_clock(copy);
    copy_block(out, number, copy, clock, mirror.world(copy), roster)
}

/// Appends the line of the mirror of this number, which is drained, and its copies' blocks. On
/// `NoMemory` `out` gained a front of that.
#[tactic(auto, unfolding(mirror_report::specs::Report::copy_blocks))]
pub fn push_mirror<G: Game + Shown>(
    out: &mut Vec<u8>,
    number: MirrorId,
    mirror: &DeferredMirror<G>,
    roster: &Roster,
) -> Result<(), NoMemory>
    requires { IsDrained mirror.now }
    ensures ok { let show = showing G.rules G.lines roster.now in
        OnOk result (out.new.items ≡ out.old.items
        ++ (line_of_mirror number mirror.now
        ++ copy_blocks show number mirror.now.opening 0 mirror.now.runs)) }
    ensures err { let show = showing G.rules G.lines roster.now in
        OnErr result (IsFrontPut out.old.items out.new.items
        (line_of_mirror number mirror.now
        ++ copy_blocks show number mirror.now.opening 0 mirror.now.runs)) }
{
    push_line_of_mirror::<G, _>(out, number, mirror)?;
    for copy in 0..mirror.copies() {
        push_live_copy(out, number, mirror, copy, roster)?;
    }
    Ok(())
}
