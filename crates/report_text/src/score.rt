//! The scoreboard of a match in JSON.

ghost use Rattle.std.specs.Prelude.{◌≡◌, ◌+◌, take, map, IfOk, OnOk};
ghost use Rattle.std.specs.Str.{IsAscii};
ghost use Rattle.std.specs.List.{AllByRecursion};
ghost use Rattle.serde_json.specs.Data.{string};
ghost use Rattle.serde_json.specs.View.{view};
ghost use Rattle.report_text.specs.Score.{score_data, row_data, scores_data, rows_data, names_data, scoreboard, score_text};

use arrayvec::ArrayVec;
use game_trait::MirrorId;
use match_setup::Roster;
use serde_json::{Map, Value, put};
use std::alloc::Global;
use std::str::from_utf8;
use tss_base::NoMemory;

/// What the scoreboard tells of one mirror.
#[derive(Drop)]
pub struct ScoreRow {
    /// The mirror.
    pub mirror: MirrorId,
    /// How many commands it accepted.
    pub accepted: u32,
    /// How many arrivals it turned away.
    pub turned: u32,
    /// How many copies it repaired.
    pub repairs: u64,
    /// The players' scores in its last copy's world, in player order.
    pub scores: ArrayVec<i32, 32>,
}

fn score_value(score: &i32) -> Value
    ensures { view result ≡ score_data score.now }
{
    Value::from(*score)
}

fn scores_value(alloc: Global, scores: &[i32]) -> Result<Value, NoMemory>
    ensures { IfOk result (λ v. view v ≡ scores_data scores.now) }
{
    let mut values = Vec::new(alloc);
    for score in scores {
        values.push(score_value(score))?;
    }
    Ok(Value::Array(values))
}

fn row_value(alloc: Global, row: &ScoreRow) -> Result<Value, NoMemory>
    ensures { IfOk result (λ v. view v ≡ row_data row.now) }
{
    let scores = scores_value(alloc, row.scores.as_slice())?;
    let mut members = Map::new(alloc);
    put(&mut members, alloc, "accepted", Value::from(row.accepted))?;
    put(&mut members, alloc, "mirror", Value::from(row.mirror))?;
    put(&mut members, alloc, "repairs", Value::from(row.repairs))?;
    put(&mut members, alloc, "scores", scores)?;
    put(&mut members, alloc, "turned", Value::from(row.turned))?;
    Ok(Value::Object(members))
}

fn rows_value(alloc: Global, rows: &[ScoreRow]) -> Result<Value, NoMemory>
    ensures { IfOk result (λ v. view v ≡ rows_data rows.now) }
{
    let mut values = Vec::new(alloc);
    for row in rows {
        values.push(row_value(alloc, row)?)?;
    }
    Ok(Value::Array(values))
}

fn name_value(alloc: Global, name: &[u8]) -> Result<Value, NoMemory>
    requires { IsAscii name.now }
    ensures { IfOk result (λ v. view v ≡ string name.now) }
{
    match from_utf8(name) {
        Ok(text) => Ok(Value::try_from_str(alloc, text)?),
        Err(_) => unreachable!(),
    }
}

// Appends the name in this place, if there is one.
fn push_name(
    alloc: Global,
    values: &mut Vec<Value>,
    names: &Roster,
    place: usize,
) -> Result<(), NoMemory>
    requires ascii { AllByRecursion IsAscii names.now }
    requires before { map view values.old.items ≡ map string (take place names.now) }
    ensures { OnOk result (map view values.new.items ≡ map string (take (place + 1) names.now)) }
{
    match names.name_at(place) {
        Some(name) => Ok(values.push(name_value(alloc, name)?)?),
        None => Ok(()),
    }
}

fn names_value(alloc: Global, names: &Roster) -> Result<Value, NoMemory>
    requires { AllByRecursion IsAscii names.now }
    ensures { IfOk result (λ v. view v ≡ names_data names.now) }
{
    let mut values = Vec::new(alloc);
    for place in 0..names.len() {
        push_name(alloc, &mut values, names, place)?;
    }
    Ok(Value::Array(values))
}

fn board_value(alloc: Global, names: &Roster, rows: &[ScoreRow]) -> Result<Value, NoMemory>
    requires { AllByRecursion IsAscii names.now }
    ensures { IfOk result (λ v. view v ≡ scoreboard names.now rows.now) }
{
    let rows = rows_value(alloc, rows)?;
    let names = names_value(alloc, names)?;
    let mut members = Map::new(alloc);
    put(&mut members, alloc, "mirrors", rows)?;
    put(&mut members, alloc, "names", names)?;
    Ok(Value::Object(members))
}

/// The scoreboard in JSON, without a space: an object with `mirrors`, of each mirror its counts and
/// its scores, and `names`, the players' names. The members of an object stand in the order of
/// their keys. The names are ASCII, as those of a match are.
#[tactic(auto, unfolding(crate::specs::Score::score_text))]
pub fn score_json(alloc: Global, names: &Roster, rows: &[ScoreRow]) -> Result<Vec<u8>, NoMemory>
    requires { AllByRecursion IsAscii names.now }
    ensures { IfOk result (λ text. text.items ≡ score_text names.now rows.now) }
{
    let value = board_value(alloc, names, rows)?;
    Ok(value.to_string(alloc)?.into_bytes())
}
