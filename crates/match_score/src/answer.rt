//! A match that is played to watchers, and its text.

ghost use Rattle.std.specs.Prelude.{◌≡◌, ◌++◌, ◌∷◌, [], length, map, IfOk};
ghost use Rattle.std.specs.List.{AllByRecursion};
ghost use Rattle.sync_model.specs.Turns.{IsDrained};
ghost use Rattle.arena_rules.specs.World.{opening_world};
ghost use Rattle.report_text.specs.Ends.{done_line};
ghost use Rattle.report_text.specs.Score.{standings_text};
ghost use Rattle.match_hall.specs.Script.{played, logs_from};
ghost use Rattle.match_hall.specs.Notes.{notes_of_all};
ghost use Rattle.watch_board.specs.Board.{last_lines};
ghost use Rattle.watch_board.specs.Told.{AreTold};
ghost use Rattle.match_score.specs.Score.{standings, ends_of, watched_text};

use crate::rows::rows;
use arena_rules::Arena;
use match_data::Match;
use match_hall::laws::mirrors_take_no_more_than_a_script_brings;
use match_hall::{Hall, Played};
use report_text::{done_line, score_json};
use std::alloc::Global;
use tss_base::{NoMemory, Seq};
use watch_board::{Board, Watcher};

// The mirrors of a match, played to the watchers of a board and drained. The lines of those that
// leave are appended.
fn play(
    alloc: Global,
    m: &Match,
    board: &mut Board,
    lines: &mut Vec<u8>,
) -> Result<Hall<Arena>, NoMemory>
    ensures mirrors { IfOk result (λ hall. hall ≡ ends_of m.now) }
    ensures count { IfOk result (λ hall. length hall ≡ m.now.mirrors) }
    ensures drained { IfOk result (λ hall. AllByRecursion (λ s. IsDrained s) hall) }
    ensures told { IfOk result (λ hall. AreTold (notes_of_all 0 (ends_of m.now))
        (map (λ w. behaviour (w.vtable, w.value)) board.old.watchers.items)
        (map (λ w. behaviour
        (w.vtable, w.value)) board.new.watchers.items) lines.old.items lines.new.items) }
{
    let opening = Arena::start(&m.setup);
    let mut hall = Hall::new(alloc, m, &opening)?;
    hall.tell(m, board, lines)?;
    Ok(hall)
}

// The scoreboard of the mirrors of a match.
fn scoreboard(alloc: Global, m: &Match, hall: &Hall<Arena>) -> Result<Vec<u8>, NoMemory>
    requires mirrors { hall.now ≡ ends_of m.now }
    requires count { length hall.now ≡ m.now.mirrors }
    requires drained { AllByRecursion (λ s. IsDrained s) hall.now }
    ensures { IfOk result (λ text. text.items ≡ standings_text m.now.names (standings 0 hall.now)) }
{
    mirrors_take_no_more_than_a_script_brings::<Arena>();
    let rows = rows(alloc, hall, m.mirrors, m.setup.players.len() as u8)?;
    score_json(alloc, &m.roster, rows.as_slice())
}

// The text of a scoreboard, of the lines of watchers that left, and of a board whose watchers have
// their say now.
fn text_of(
    alloc: Global,
    scoreboard: &[u8],
    lines: &[u8],
    board: Board,
) -> Result<Seq<u8>, NoMemory>
    ensures { IfOk result (λ text. text ≡ ((scoreboard.now ++ 10 ∷ []) ++ lines.now)
        ++ (last_lines (map (λ w. behaviour (w.vtable, w.value)) board.watchers.items)
        ++ done_line)) }
{
    let mut text = Vec::from_slice(alloc, scoreboard)?;
    text.push(b'\n')?;
    text.extend_from_slice(lines)?;
    board.close(&mut text)?;
    done_line(&mut text)?;
    Ok(Seq::of(text))
}

/// Plays a match to watchers and drains it. The text is that of `score`: the scoreboard, then the
/// lines of the watchers, who were told what changed mirror 0, then mirror 1, and so on. On
/// `NoMemory` nothing is returned.
pub fn score(alloc: Global, m: &Match, watchers: Vec<Box<dyn Watcher>>) -> Result<Played, NoMemory>
    ensures text { IfOk result
        (λ s. s.text ≡ watched_text (map (λ w. behaviour w) watchers.items) m.now) }
    ensures kept { IfOk result (λ s. s.kept ≡ logs_from 0 (ends_of m.now)) }
{
    let mut board = Board::over(watchers);
    let mut lines = Vec::new(alloc);
    let hall = play(alloc, m, &mut board, &mut lines)?;
    let scores = scoreboard(alloc, m, &hall)?;
    let text = text_of(alloc, scores.as_slice(), lines.as_slice(), board)?;
    let kept = hall.into_logs(alloc)?;
    Ok(Played { text, kept })
}
