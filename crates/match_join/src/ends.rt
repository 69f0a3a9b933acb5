//! The lines of a mirror and of one that joined late, at the end.

ghost use Rattle.std.specs.Prelude.{◌≡◌, ◌↔◌, ◌++◌, IsTrue, length, OnOk};
ghost use Rattle.arena_rules.specs.World.{arena_rules};
ghost use Rattle.report_text.specs.Worlds.{Showing};
ghost use Rattle.match_join.specs.Join.{ends_text, mirror_world, joiner_world};

use crate::text::{joiner_block, joiner_counts};
use arena_rules::Arena;
use game_trait::{Game, MirrorId};
use late_joiner::Joiner;
use match_data::Match;
use match_setup::Shown;
use mirror_core::{DeferredMirror, Mirrored};
use mirror_report::{push_copy, push_line_of_mirror};
use report_text::{done_line, same_line};
use tss_base::NoMemory;

/// Whether the worlds of the last copies are one. Both have as many copies.
pub fn are_alike(mirror: &DeferredMirror<Arena>, joiner: &Joiner<Arena>) -> bool
    requires { length joiner.now.inner.runs ≡ length mirror.now.runs }
    ensures { IsTrue result
        ↔ (mirror_world arena_rules mirror.now ≡ joiner_world arena_rules joiner.now) }
{
    mirror.always();
    let last = mirror.copies() - 1;
    mirror.world_twin(last).same(&joiner.world_twin(last))
}

/// Appends what is told of both at the end, where their worlds are one or not. Both have as many
/// copies. On `NoMemory` some of it may have been appended.
#[tactic(auto, unfolding(crate::specs::Join::ends_text))]
pub fn push_ends<G: Game + Shown>(
    out: &mut Vec<u8>,
    m: &Match,
    number: MirrorId,
    mirror: &DeferredMirror<G>,
    joiner: &Joiner<G>,
    same: bool,
) -> Result<(), NoMemory>
    requires { length joiner.now.inner.runs ≡ length mirror.now.runs }
    ensures { let show : Showing G =
        record { rules = G.rules; lines = G.lines; names = m.now.names } in
        OnOk result (out.new.items ≡ out.old.items
        ++ ends_text show number m.now.length mirror.now joiner.now same) }
{
    mirror.always();
    let last = mirror.copies() - 1;
    push_line_of_mirror::<G, _>(out, number, mirror)?;
    push_copy::<G, _>(out, number, mirror, last, &m.roster)?;
    joiner_counts(out, joiner.accepted(), joiner.turned(), joiner.repairs())?;
    joiner_block(out, m.length, &joiner.world_twin(last), &m.roster)?;
    same_line(out, same)?;
    done_line(out)
}
