//! Printing match texts.

ghost use Rattle.std.specs.Prelude.{◌≡◌, ◌≤◌, ◌<◌, ◌++◌, ◌∷◌, [], length, map, decimal, slice_get, unwrap_or, OnOk, IfOk};
ghost use Rattle.game_trait.specs.declared.limits.TheConstants.{MOST_PLAYERS};
ghost use Rattle.command_lines.specs.CommandLine.{command_line};
ghost use Rattle.tss_io.specs.Lines.{as_line, spaced, lines_text};
ghost use Rattle.match_file.specs.Text.{head_line, number_line, grid_line, wall_line, pickup_line, player_line, script_line, wall_at, walls_in_row, walls_of, player_lines, script_lines, opening_lines, plan_line, match_text};

use command_lines::push_command;
use game_trait::{Command, Tick};
use match_data::{Match, ScriptLine};
use match_setup::{Ground, PickupSpot, Roster, Spot};
use std::alloc::Global;
use tss_base::{NoMemory, Seq};
use tss_io::{Word, push_line};

// Appends a line of a single word, or of words that stand in it as they are.
#[tactic(auto, unfolding(tss_io::specs::Lines::spaced))]
fn push_whole(out: &mut Vec<u8>, line: &[u8]) -> Result<(), NoMemory>
    ensures { OnOk result (out.new.items ≡ out.old.items ++ as_line line.now) }
{
    push_line(out, &[Word::Text(line)])
}

// Appends a line of a word and a number.
fn push_number(out: &mut Vec<u8>, word: &[u8], number: u32) -> Result<(), NoMemory>
    ensures { OnOk result (out.new.items ≡ out.old.items ++ as_line (number_line word.now number)) }
{
    push_line(out, &[Word::Text(word), Word::Number(i64::from(number))])
}

// Appends a line of a word and numbers.
fn push_numbers(
    alloc: Global,
    out: &mut Vec<u8>,
    word: &[u8],
    numbers: &[Tick],
) -> Result<(), NoMemory>
    ensures { OnOk result
        (out.new.items ≡ out.old.items ++ as_line (spaced (word.now ∷ map decimal numbers.now))) }
{
    let mut words = Vec::new(alloc);
    words.push(Word::Text(word))?;
    for number in numbers {
        words.push(Word::Number(i64::from(*number)))?;
    }
    push_line(out, &words)
}

// Appends a line of a word, a mirror and one number more.
fn push_two(out: &mut Vec<u8>, word: &[u8], mirror: u8, number: u8) -> Result<(), NoMemory>
    ensures { OnOk result
        (out.new.items
        ≡ out.old.items ++ as_line (spaced (word.now ∷ decimal mirror ∷ decimal number ∷ []))) }
{
    let words = [
        Word::Text(word),
        Word::Number(i64::from(mirror)),
        Word::Number(i64::from(number)),
    ];
    push_line(out, &words)
}

fn push_head(out: &mut Vec<u8>, version: u8) -> Result<(), NoMemory>
    ensures { OnOk result (out.new.items ≡ out.old.items ++ as_line (head_line version)) }
{
    if version == 1 {
        push_whole(out, b"tss match 1")
    } else {
        push_whole(out, b"tss match 2")
    }
}

fn push_pickup(out: &mut Vec<u8>, pickup: &PickupSpot) -> Result<(), NoMemory>
    ensures { OnOk result (out.new.items ≡ out.old.items ++ as_line (pickup_line pickup.now)) }
{
    let words = [
        Word::Text(b"pickup"),
        Word::Number(i64::from(pickup.x)),
        Word::Number(i64::from(pickup.y)),
        Word::Text(pickup.kind.word()),
    ];
    push_line(out, &words)
}

fn push_player(out: &mut Vec<u8>, name: &[u8], home: &Spot) -> Result<(), NoMemory>
    ensures { OnOk result
        (out.new.items ≡ out.old.items ++ as_line (player_line name.now home.now)) }
{
    let words = [
        Word::Text(b"player"),
        Word::Text(name),
        Word::Number(i64::from(home.x)),
        Word::Number(i64::from(home.y)),
        Word::Text(home.face.word()),
    ];
    push_line(out, &words)
}

fn push_script_line(out: &mut Vec<u8>, line: &ScriptLine) -> Result<(), NoMemory>
    ensures { OnOk result (out.new.items ≡ out.old.items ++ as_line (script_line line.now)) }
{
    match *line {
        ScriptLine::Tick { mirror } => push_number(out, b"tick", u32::from(mirror)),
        ScriptLine::Turn { mirror } => push_number(out, b"turn", u32::from(mirror)),
        ScriptLine::Arrive {
            mirror,
            from,
            number,
        } => {
            let words = [
                Word::Text(b"arrive"),
                Word::Number(i64::from(mirror)),
                Word::Number(i64::from(from)),
                Word::Number(i64::from(number)),
            ];
            push_line(out, &words)
        }
        ScriptLine::Step { mirror, copy } => push_two(out, b"step", mirror, copy),
        ScriptLine::World { mirror, copy } => push_two(out, b"world", mirror, copy),
        ScriptLine::Run { mirror, copy } => push_two(out, b"run", mirror, copy),
        ScriptLine::Restagger { mirror, plan } => push_two(out, b"restagger", mirror, plan),
    }
}

// Appends the line of this cell where it is walled.
fn push_wall(out: &mut Vec<u8>, ground: &Ground, x: u8, y: u8) -> Result<(), NoMemory>
    requires column { x < ground.now.width }
    requires row { y < ground.now.height }
    ensures { OnOk result
        (out.new.items ≡ out.old.items ++ lines_text (map wall_line (wall_at ground.now x y))) }
{
    if ground.free(i32::from(x), i32::from(y)) {
        return Ok(());
    }
    push_two(out, b"wall", x, y)?;
    Ok(())
}

#[tactic(auto, using(crate::proofs::PrintLaws::row_none))]
fn push_row(out: &mut Vec<u8>, ground: &Ground, y: u8) -> Result<(), NoMemory>
    requires { y < ground.now.height }
    ensures { OnOk result
        (out.new.items
        ≡ out.old.items
        ++ lines_text (map wall_line (walls_in_row ground.now y ground.now.width))) }
{
    for x in 0..ground.width() {
        push_wall(out, ground, x, y)?;
    }
    Ok(())
}

#[tactic(auto, using(crate::proofs::PrintLaws::walls_none))]
fn push_walls(out: &mut Vec<u8>, ground: &Ground) -> Result<(), NoMemory>
    ensures { OnOk result
        (out.new.items
        ≡ out.old.items
        ++ lines_text (map wall_line (walls_of ground.now ground.now.width ground.now.height))) }
{
    for y in 0..ground.height() {
        push_row(out, ground, y)?;
    }
    Ok(())
}

#[tactic(auto, using(tss_io::proofs::Printing::lines_none))]
fn push_plans(alloc: Global, out: &mut Vec<u8>, plans: &[Seq<Tick>]) -> Result<(), NoMemory>
    ensures { OnOk result (out.new.items ≡ out.old.items ++ lines_text (map plan_line plans.now)) }
{
    for plan in plans {
        push_numbers(alloc, out, b"plan", plan.as_slice())?;
    }
    Ok(())
}

#[tactic(auto, using(tss_io::proofs::Printing::lines_none))]
fn push_pickups(out: &mut Vec<u8>, pickups: &[PickupSpot]) -> Result<(), NoMemory>
    ensures { OnOk result
        (out.new.items ≡ out.old.items ++ lines_text (map pickup_line pickups.now)) }
{
    for pickup in pickups {
        push_pickup(out, pickup)?;
    }
    Ok(())
}

// The name of this player, who is there.
fn name_of(roster: &Roster, player: u8) -> &[u8]
    ensures { result.now ≡ unwrap_or (slice_get roster.now player) [] }
{
    roster.name(player).unwrap_or(b"".as_slice())
}

#[tactic(auto, using(crate::proofs::PrintLaws::players_none))]
fn push_players(out: &mut Vec<u8>, roster: &Roster, homes: &[Spot]) -> Result<(), NoMemory>
    requires few { length homes.now ≤ MOST_PLAYERS }
    requires named { length roster.now ≡ length homes.now }
    ensures { OnOk result
        (out.new.items ≡ out.old.items ++ lines_text (player_lines roster.now homes.now)) }
{
    for (player, home) in homes.iter().enumerate() {
        push_player(out, name_of(roster, player as u8), home)?;
    }
    Ok(())
}

#[tactic(auto, using(tss_io::proofs::Printing::lines_none))]
fn push_commands(out: &mut Vec<u8>, commands: &[Command]) -> Result<(), NoMemory>
    ensures { OnOk result
        (out.new.items ≡ out.old.items ++ lines_text (map command_line commands.now)) }
{
    for command in commands {
        push_command(out, command)?;
    }
    Ok(())
}

#[tactic(auto, using(tss_io::proofs::Printing::lines_none))]
fn push_script_lines(out: &mut Vec<u8>, script: &[ScriptLine]) -> Result<(), NoMemory>
    ensures { OnOk result
        (out.new.items ≡ out.old.items ++ lines_text (map script_line script.now)) }
{
    for line in script {
        push_script_line(out, line)?;
    }
    Ok(())
}

// Appends the script's lines behind one that opens it, or nothing where there is no script.
fn push_script(out: &mut Vec<u8>, script: &[ScriptLine]) -> Result<(), NoMemory>
    ensures { OnOk result (out.new.items ≡ out.old.items ++ lines_text (script_lines script.now)) }
{
    if script.is_empty() {
        return Ok(());
    }
    push_whole(out, b"script")?;
    push_script_lines(out, script)?;
    Ok(())
}

fn push_grid(out: &mut Vec<u8>, ground: &Ground) -> Result<(), NoMemory>
    ensures { OnOk result
        (out.new.items ≡ out.old.items ++ as_line (grid_line ground.now.width ground.now.height)) }
{
    let words = [
        Word::Text(b"grid"),
        Word::Number(i64::from(ground.width())),
        Word::Number(i64::from(ground.height())),
    ];
    push_line(out, &words)
}

fn push_opening(alloc: Global, out: &mut Vec<u8>, m: &Match) -> Result<(), NoMemory>
    ensures { OnOk result (out.new.items ≡ out.old.items ++ lines_text (opening_lines m.now)) }
{
    push_head(out, m.version)?;
    push_number(out, b"length", m.length)?;
    push_grid(out, &m.setup.ground)?;
    push_number(out, b"mirrors", u32::from(m.mirrors))?;
    push_numbers(alloc, out, b"delays", m.delays.as_slice())?;
    push_number(out, b"pace", m.pace)?;
    Ok(())
}

/// The one text of the match.
pub fn print_match(alloc: Global, m: &Match) -> Result<Vec<u8>, NoMemory>
    ensures { IfOk result (λ text. text.items ≡ match_text m.now) }
{
    let mut out = Vec::new(alloc);
    push_opening(alloc, &mut out, m)?;
    push_plans(alloc, &mut out, m.plans.as_slice())?;
    push_walls(&mut out, &m.setup.ground)?;
    push_pickups(&mut out, m.setup.pickups.as_slice())?;
    push_players(&mut out, &m.roster, m.setup.players.as_slice())?;
    push_commands(&mut out, m.commands.as_slice())?;
    push_script(&mut out, m.script.as_slice())?;
    push_whole(&mut out, b"end")?;
    Ok(out)
}
