//! A match's mirror and one that joins late from its snapshot, played, and what is told of both.

ghost use Rattle.std.specs.Prelude.{◌≡◌, ◌<◌, IfOk, OnOk};
ghost use Rattle.arena_rules.specs.World.{World, opening_world, arena_rules};
ghost use Rattle.arena_rules.specs.Block.{block_of};
ghost use Rattle.match_data.specs.Data.{IsMatch};
ghost use Rattle.report_text.specs.Worlds.{Showing};
ghost use Rattle.match_join.specs.Join.{too_late_text, HasBegun, IsOpened, IsTold, TellsOfBoth, TellsOn};
ghost use Rattle.match_join.specs.Lines.{IsAlong, IsOfMatch, IsReady};

use crate::ends::{are_alike, push_ends};
use crate::lines::finish_joiner;
use crate::mirror::{finish_mirror, last_clock};
use crate::start::{begin, cut, open_joiner};
use crate::text::{join_head, too_late_line};
use arena_rules::Arena;
use game_trait::{MirrorId, Tick};
use late_joiner::{JoinFault, Joiner};
use match_data::{Match, ScriptLine};
use mirror_core::DeferredMirror;
use std::alloc::Global;
use tss_base::{NoMemory, Seq};

/// What is told of a mirror of a match and of one that joins late from its snapshot.
#[derive(Drop)]
pub enum JoinAnswer {
    /// Both went on to the match's end, and the text tells of both.
    Told {
        /// The text of `join`.
        text: Seq<u8>,
    },
    /// The last copy had run the whole match when the snapshot was taken: no tick was left for a
    /// joiner.
    TooLate {
        /// The one line `too late C L`.
        text: Seq<u8>,
    },
}

// The text where no tick is left.
fn too_late(alloc: Global, clock: Tick, length: Tick) -> Result<Seq<u8>, NoMemory>
    ensures { IfOk result (λ text. text ≡ too_late_text clock length) }
{
    let mut text = Vec::new(alloc);
    too_late_line(&mut text, clock, length)?;
    Ok(Seq::of(text))
}

// The mirror of this number and its joiner make these script lines, each those that name the mirror,
// and are drained; what the joiner prints, and what is told of both at the end, is appended. On
// `NoMemory` some of it may have been appended.
fn go_on(
    out: &mut Vec<u8>,
    m: &Match,
    number: MirrorId,
    later: &[ScriptLine],
    mirror: &mut DeferredMirror<Arena>,
    joiner: &mut Joiner<Arena>,
) -> Result<(), NoMemory>
    requires number { number < m.now.mirrors }
    requires along { IsAlong m.now number later.now mirror.old }
    requires ready { IsReady m.now number later.now joiner.old }
    ensures { let show : Showing World =
        record { rules = arena_rules; lines = block_of; names = m.now.names } in
        OnOk result (TellsOn show m.now number later.now mirror.old joiner.old
        out.old.items out.new.items) }
{
    finish_mirror(mirror, m, number, later);
    finish_joiner(joiner, m, number, later, out)?;
    let same = are_alike(mirror, joiner);
    push_ends(out, m, number, mirror, joiner, same)
}

// The text of a mirror after its lines among the first `lines` of the script, and of the joiner
// that opened from its snapshot.
fn both(
    alloc: Global,
    m: &Match,
    number: MirrorId,
    lines: u32,
    mirror: &mut DeferredMirror<Arena>,
    joiner: &mut Joiner<Arena>,
) -> Result<Seq<u8>, NoMemory>
    requires number { number < m.now.mirrors }
    requires sound { IsMatch m.now }
    requires begun { HasBegun (opening_world m.now.layout) m.now number lines mirror.old }
    requires opened { IsOpened arena_rules m.now number lines mirror.old joiner.old }
    ensures { let show : Showing World =
        record { rules = arena_rules; lines = block_of; names = m.now.names } in
        IfOk result (λ text. TellsOfBoth show (opening_world m.now.layout) m.now number lines text) }
{
    let (_, later) = cut(m.script.as_slice(), lines);
    let mut out = Vec::new(alloc);
    join_head(&mut out, number, lines, last_clock(mirror))?;
    go_on(&mut out, m, number, later, mirror, joiner)?;
    Ok(Seq::of(out))
}

// What is told of a mirror after its lines among the first `lines` of the script.
fn told(
    alloc: Global,
    m: &Match,
    number: MirrorId,
    lines: u32,
    mirror: &mut DeferredMirror<Arena>,
) -> Result<JoinAnswer, NoMemory>
    requires number { number < m.now.mirrors }
    requires sound { IsMatch m.now }
    requires of_match { IsOfMatch m.now mirror.old }
    requires begun { HasBegun (opening_world m.now.layout) m.now number lines mirror.old }
    ensures { let show : Showing World =
        record { rules = arena_rules; lines = block_of; names = m.now.names } in
        IfOk result
        (λ answer. IsTold show (opening_world m.now.layout) m.now number lines answer) }
{
    let (_, later) = cut(m.script.as_slice(), lines);
    match open_joiner(alloc, m, mirror, number, later) {
        Ok(mut joiner) => {
            let text = both(alloc, m, number, lines, mirror, &mut joiner)?;
            Ok(JoinAnswer::Told { text })
        }
        Err(JoinFault::TooLate { clock, length }) => {
            let text = too_late(alloc, clock, length)?;
            Ok(JoinAnswer::TooLate { text })
        }
        Err(JoinFault::NoMemory) => Err(NoMemory),
    }
}

/// Plays a match's mirror along those of the script's first `lines` lines that name it, takes its
/// snapshot, and opens a joiner from that. Both make the later lines that name the mirror, and are
/// drained. The text says with what clock the joiner began, what each later arrival came to at the
/// joiner, how both ended, and whether their last copies' worlds are one; where the clock was the
/// match's length already, that it was too late. Lines are counted over the whole script, and more
/// than it has are all of it. The mirror is one of the match's. On `NoMemory` nothing is returned.
pub fn join(alloc: Global, m: &Match, mirror: MirrorId, lines: u32) -> Result<JoinAnswer, NoMemory>
    requires { mirror < m.now.mirrors }
    ensures { let show : Showing World =
        record { rules = arena_rules; lines = block_of; names = m.now.names } in
        IfOk result
        (λ answer. IsTold show (opening_world m.now.layout) m.now mirror lines answer) }
{
    let mut before = begin(alloc, &Arena::start(&m.setup), m, mirror, lines)?;
    told(alloc, m, mirror, lines, &mut before)
}
