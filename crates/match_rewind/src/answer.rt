//! The text of looks at the ticks of a match.

ghost use Rattle.std.specs.Prelude.{◌≡◌, ◌≤◌, ◌<◌, ◌^◌, ◌++◌, true, length, IfOk, OnOk, if◌then◌else◌};
ghost use Rattle.std.specs.List.{AllByRecursion};
ghost use Rattle.game_trait.specs.declared.limits.TheConstants.{LONGEST_MATCH, MOST_CACHED};
ghost use Rattle.report_text.specs.Worlds.{Showing, block_text, at_head};
ghost use Rattle.rewind_store.specs.Cached.{is_cached};
ghost use Rattle.rewind_store.specs.Rewound.{after, world_at, hits_of};
ghost use Rattle.match_rewind.specs.Rewind.{looks_text, rewind_text};

use game_trait::{Game, Tick};
use match_data::Match;
use match_setup::{Roster, Shown};
use report_text::{done_line, hits_line, world_block};
use rewind_store::{Looked, Rewind};
use std::alloc::Global;
use tss_base::{NoMemory, Seq};

// How much a look counts among those that hit.
fn count(hit: bool) -> u32
    ensures { result ≡ (if hit then 1 else 0) }
{
    if hit {
        return 1;
    }
    0
}

// Appends the block of the world at a tick, and tells how much the look counts among those that hit.
// A look whose world found no memory to be cached ends the text.
fn push_look<G: Game + Shown>(
    store: &mut Rewind<G>,
    t: Tick,
    roster: &Roster,
    out: &mut Vec<u8>,
) -> Result<u32, NoMemory>
    requires { t ≤ store.old.length }
    ensures hits { IfOk result (λ n. n ≡ (if is_cached t store.old.cached then 1 else 0)) }
    ensures store { OnOk result (store.new ≡ after store.old t true) }
    ensures text { OnOk result (out.new.items ≡ out.old.items
        ++ block_text G.lines roster.now (at_head t) (world_at G.rules store.old t)) }
{
    let Looked { world, hit, kept } = store.at(t);
    if !kept {
        return Err(NoMemory);
    }
    world_block(out, b"at", t, &world, roster)?;
    Ok(count(hit))
}

// Appends the blocks of the worlds at these ticks, and tells how many looks hit.
#[tactic(auto, unfolding(rewind_store::specs::Rewound::hits_of, crate::specs::Rewind::looks_text))]
fn push_looks<G: Game + Shown>(
    store: &mut Rewind<G>,
    ticks: &[Tick],
    roster: &Roster,
    out: &mut Vec<u8>,
) -> Result<u32, NoMemory>
    requires ticks { AllByRecursion (λ t. t ≤ store.old.length) ticks.now }
    requires few { length ticks.now < 2 ^ 32 }
    ensures hits { IfOk result (λ n. n ≡ hits_of store.old.room store.old.cached ticks.now) }
    ensures text { OnOk result (out.new.items ≡ out.old.items
        ++ looks_text
        (record { rules = G.rules; lines = G.lines; names = roster.now })
        store.old.opening store.old.commands ticks.now) }
{
    let mut hits = 0;
    let mut left = ticks;
    while let Some((t, behind)) = left.split_first() {
        hits += push_look(store, *t, roster, out)?;
        left = behind;
    }
    Ok(hits)
}

/// The text of `rewind` for a match that opens so: the world at each of the ticks, in the order in
/// which they stand, and how many of the looks found their world cached. A tick is one of the
/// match or its end, and there are fewer than 2 ^ 32. Worlds are kept at each multiple of `every`,
/// from 1 to 8,192 ticks, and up to `room`, from 1 to 64, are cached; neither changes a world in the
/// text. On `NoMemory` there is no text: it also comes where a world finds no memory to be cached,
/// so that the hits of a text are those of looks that all could be.
#[tactic(auto, unfolding(crate::specs::Rewind::rewind_text))]
pub fn rewind<G: Game + Shown>(
    alloc: Global,
    opening: &G,
    m: &Match,
    every: Tick,
    room: usize,
    ticks: &[Tick],
) -> Result<Seq<u8>, NoMemory>
    requires some_ticks { 0 < every }
    requires few_ticks { every ≤ LONGEST_MATCH }
    requires some_room { 0 < room }
    requires little_room { room ≤ MOST_CACHED }
    requires ticks { AllByRecursion (λ t. t ≤ m.now.length) ticks.now }
    requires few { length ticks.now < 2 ^ 32 }
    ensures { IfOk result (λ text. text
        ≡ rewind_text
        (record { rules = G.rules; lines = G.lines; names = m.now.names })
        opening.now m.now room ticks.now) }
{
    let mut store = Rewind::new(alloc, m, opening, every, room)?;
    let mut text = Vec::new(alloc);
    let hits = push_looks(&mut store, ticks, &m.roster, &mut text)?;
    hits_line(&mut text, hits)?;
    done_line(&mut text)?;
    Ok(Seq::of(text))
}
