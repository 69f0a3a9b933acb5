//! What is printed of a mirror that is only looked at.

ghost use Rattle.std.specs.Prelude.{◌≡◌, ◌++◌, ◌<◌, length, take, OnOk, OnErr};
ghost use Rattle.sync_model.specs.Drafts.{run_of};
ghost use Rattle.report_text.specs.Mirrors.{run_line};
ghost use Rattle.report_text.specs.Worlds.{showing, copy_block};
ghost use Rattle.mirror_report.specs.Report.{line_of_mirror};

use game_trait::{Game, MirrorId};
use match_setup::{Roster, Shown};
use mirror_core::{MirrorWith, Mirrored, RefreshPolicy};
use report_text::{copy_block, line_end, mirror_line, run_head, run_mark};
use tss_base::NoMemory;

/// Appends the block of a copy, which is there. On `NoMemory` `out` is unchanged.
pub fn push_copy<G: Game + Shown, M: Mirrored<G>>(
    out: &mut Vec<u8>,
    number: MirrorId,
    mirror: &M,
    copy: u8,
    roster: &Roster,
) -> Result<(), NoMemory>
    requires { copy < length (M.state mirror.now).runs }
    ensures ok { let show = showing G.rules G.lines roster.now in
        OnOk result (out.new.items ≡ out.old.items
        ++ copy_block show number (M.state mirror.now).opening copy
        (run_of (M.state mirror.now) copy)) }
    ensures err { OnErr result (out.new.items ≡ out.old.items) }
{
    let world = mirror.world_twin(copy);
    copy_block(out, number, copy, mirror.copy_clock(copy), &world, roster)
}

// Appends a copy's run line. On `NoMemory` some of it may have been appended.
#[tactic(auto, unfolding(report_text::specs::Mirrors::run_line))]
fn push_run_parts<G: Game, P: RefreshPolicy>(
    out: &mut Vec<u8>,
    number: MirrorId,
    mirror: &MirrorWith<G, P>,
    copy: u8,
) -> Result<(), NoMemory>
    requires { copy < length mirror.now.runs }
    ensures ok { OnOk result
        (out.new.items ≡ out.old.items ++ run_line number copy (run_of mirror.now copy)) }
    ensures front { take (length out.old.items) out.new.items ≡ out.old.items }
{
    run_head(out, number, copy)?;
    for place in 0..mirror.run_len(copy) {
        run_mark(out, &mirror.run_item(copy, place))?;
    }
    line_end(out)
}

/// Appends the line of a copy's run. The copy is there. On `NoMemory` `out` is unchanged.
pub fn push_run<G: Game, P: RefreshPolicy>(
    out: &mut Vec<u8>,
    number: MirrorId,
    mirror: &MirrorWith<G, P>,
    copy: u8,
) -> Result<(), NoMemory>
    requires { copy < length mirror.now.runs }
    ensures ok { OnOk result
        (out.new.items ≡ out.old.items ++ run_line number copy (run_of mirror.now copy)) }
    ensures err { OnErr result (out.new.items ≡ out.old.items) }
{
    let length = out.len();
    match push_run_parts(out, number, mirror, copy) {
        Ok(()) => Ok(()),
        Err(fault) => {
            out.truncate(length);
            Err(fault)
        }
    }
}

// How many commands a mirror accepted, and how many arrivals it turned away: no more than it has
// events.
fn taken_in<G: Game, M: Mirrored<G>>(mirror: &M) -> (u32, u32)
    ensures accepted { result.0 ≡ length (M.state mirror.now).accepted }
    ensures turned { result.1 ≡ length (M.state mirror.now).turned }
{
    mirror.always();
    let _ = mirror.events();
    (mirror.accepted().len() as u32, mirror.turned().len() as u32)
}

/// Appends the line of the mirror of this number. On `NoMemory` `out` is unchanged.
pub fn push_line_of_mirror<G: Game, M: Mirrored<G>>(
    out: &mut Vec<u8>,
    number: MirrorId,
    mirror: &M,
) -> Result<(), NoMemory>
    ensures ok { OnOk result
        (out.new.items ≡ out.old.items ++ line_of_mirror number (M.state mirror.now)) }
    ensures err { OnErr result (out.new.items ≡ out.old.items) }
{
    let (accepted, turned) = taken_in::<G, M>(mirror);
    mirror_line(out, number, accepted, turned, mirror.repairs())
}
