//! The rows of the scoreboard.

ghost use Rattle.std.specs.Prelude.{◌≡◌, ◌<◌, ◌≤◌, length, map, IfOk};
ghost use Rattle.std.specs.List.{AllByRecursion};
ghost use Rattle.sync_model.specs.Turns.{IsDrained};
ghost use Rattle.report_text.specs.Score.{standing_of};
ghost use Rattle.arena_rules.specs.World.{World};
ghost use Rattle.match_hall.specs.Few.{IsFew};
ghost use Rattle.match_score.specs.Score.{scores_of, standing, standings};

use arena_rules::Arena;
use arrayvec::ArrayVec;
use game_trait::MirrorId;
use match_hall::Hall;
use mirror_core::{DeferredMirror, Mirrored};
use report_text::ScoreRow;
use std::alloc::Global;
use tss_base::NoMemory;

// The scores in a world with this number of players.
fn scores(world: &Arena, players: u8) -> ArrayVec<i32, 32>
    requires count { length world.now.players ≡ players }
    requires few { players ≤ 32 }
    ensures { result.items ≡ scores_of world.now }
{
    let mut scores = ArrayVec::new();
    for player in 0..players {
        scores.push(world.score(player));
    }
    scores
}

// The row of the mirror of this number, which is drained, and whose match opened with a world of so
// many players.
fn row(number: MirrorId, mirror: &DeferredMirror<Arena>, players: u8) -> ScoreRow
    requires few { (opening : World) × IsFew opening mirror.now
        × (length opening.players ≡ players) }
    requires players { players ≤ 32 }
    requires drained { IsDrained mirror.now }
    ensures { standing_of result ≡ standing number mirror.now }
{
    let last = mirror.copies() - 1;
    ScoreRow {
        mirror: number,
        accepted: mirror.accepted().len() as u32,
        turned: mirror.turned().len() as u32,
        repairs: mirror.repairs(),
        scores: scores(mirror.world(last), players),
    }
}

/// The rows of the mirrors, all drained, of a match that opened with a world of this many players,
/// mirror 0 first.
pub fn rows(
    alloc: Global,
    hall: &Hall<Arena>,
    mirrors: MirrorId,
    players: u8,
) -> Result<Vec<ScoreRow>, NoMemory>
    requires mirrors { length hall.now ≡ mirrors }
    requires few { (opening : World) × AllByRecursion (IsFew opening) hall.now
        × (length opening.players ≡ players) }
    requires players { players ≤ 32 }
    requires drained { AllByRecursion (λ s. IsDrained s) hall.now }
    ensures { IfOk result (λ rows. map standing_of rows.items ≡ standings 0 hall.now) }
{
    let mut rows = Vec::new(alloc);
    for number in 0..mirrors {
        rows.push(row(number, hall.mirror(number), players))?;
    }
    Ok(rows)
}
