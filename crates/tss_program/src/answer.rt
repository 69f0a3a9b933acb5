//! What is answered to a match, a record, a match over its net or a number: one function for each
//! subcommand.

ghost use Rattle.std.specs.Prelude.{◌≡◌, [], map, IfOk};
ghost use Rattle.match_data.specs.Data.{lifted};
ghost use Rattle.match_file.specs.Text.{match_text};
ghost use Rattle.match_hall.specs.Script.{played, logs_from};
ghost use Rattle.report_text.specs.Worlds.{Showing};
ghost use Rattle.match_hall.specs.Report.{play_text};
ghost use Rattle.match_score.specs.Score.{ends_of, watched_text};
ghost use Rattle.run_recorder.specs.Data.{IsRecord};
ghost use Rattle.tss_words.specs.Subcommands.{IsKept};
ghost use Rattle.tss_program.specs.Due.{complete, order_text, due_of_number, due_of_join, due_of_rewind, due_of_lossy, status_of, are_within, IsAudited, IsJoined};
ghost use Rattle.tss_program.specs.Run.{Gives};

use crate::due::Due;
use crate::status::Status;
use crate::stop::Stop;
use arena_rules::Arena;
use game_trait::{Game, MirrorId, Tick, execute_in_order};
use lossy_link::{LossyAnswer, LossyText, lossy};
use match_data::{Match, lift};
use match_file::{Cause, Refused, print_match};
use match_hall::Hall;
use match_join::{JoinAnswer, join};
use match_rewind::rewind;
use match_score::{ScoreAnswer, score};
use match_setup::Shown;
use report_text::{done_line, world_block};
use run_auditor::{Verdict, audit};
use run_recorder::RaceRecord;
use soak::{SoakAnswer, soak};
use std::alloc::Global;
use tss_base::{NoMemory, Seq};
use tss_words::Ticks;
use watch_board::Watcher;

// The line of a match text that states its length.
const LENGTH_LINE: u32 = 2;

// The line of a match text that states its mirrors.
const MIRRORS_LINE: u32 = 4;

/// The answer of `order` to a match that opens so: the world after its commands in key order and
/// its beats.
#[tactic(auto, unfolding(crate::specs::Due::order_text))]
pub fn order<G: Game + Shown>(alloc: Global, opening: &G, m: &Match) -> Result<Due, NoMemory>
    ensures { let show : Showing G =
        record { rules = G.rules; lines = G.lines; names = m.now.names } in
        IfOk result (λ due. due ≡ complete (order_text show opening.now m.now) []) }
{
    let mut commands = Vec::from_slice(alloc, m.commands.as_slice())?;
    let mut world = opening.twin();
    execute_in_order(&mut world, commands.as_mut_slice(), m.length);
    let mut text = Vec::new(alloc);
    world_block(&mut text, b"order", m.length, &world, &m.roster)?;
    done_line(&mut text)?;
    Ok(Due {
        status: Status::Complete,
        text: Seq::of(text),
        kept: Seq::new(alloc),
    })
}

/// The answer of `play` to a match that opens so: what its script and then draining print, and its
/// mirrors at the end.
pub fn play<G: Game + Shown>(alloc: Global, opening: &G, m: &Match) -> Result<Due, NoMemory>
    ensures { let show : Showing G =
        record { rules = G.rules; lines = G.lines; names = m.now.names } in
        IfOk result (λ due. due ≡ complete (play_text show opening.now m.now)
        (logs_from 0 (played opening.now m.now))) }
{
    let mut hall = Hall::new(alloc, m, opening)?;
    let mut text = Vec::new(alloc);
    hall.play(m, &mut text)?;
    hall.drain(&mut text)?;
    hall.show(&m.roster, &mut text)?;
    done_line(&mut text)?;
    let kept = hall.into_logs(alloc)?;
    Ok(Due {
        status: Status::Complete,
        text: Seq::of(text),
        kept,
    })
}

// The text of a match, as what is due.
fn text_of(alloc: Global, m: &Match) -> Result<Due, NoMemory>
    ensures { IfOk result (λ due. due ≡ complete (match_text m.now) []) }
{
    let text = print_match(alloc, m)?;
    Ok(Due {
        status: Status::Complete,
        text: Seq::of(text),
        kept: Seq::new(alloc),
    })
}

/// The answer of `lift` to a match: its text with version 2.
pub fn lift_match(alloc: Global, m: Match) -> Result<Due, NoMemory>
    ensures { IfOk result (λ due. due ≡ complete (match_text (lifted m)) []) }
{
    let lifted = lift(m);
    text_of(alloc, &lifted)
}

/// The answer of `score` to a match: its scoreboard and what the watchers have to say, and its
/// mirrors at the end.
pub fn score_match(
    alloc: Global,
    m: &Match,
    watchers: Vec<Box<dyn Watcher>>,
) -> Result<Due, NoMemory>
    ensures { IfOk result
        (λ due. due
        ≡ complete (watched_text (map (λ w. behaviour w) watchers.items) m.now)
        (logs_from 0 (ends_of m.now))) }
{
    let ScoreAnswer { text, kept } = score(alloc, m, watchers)?;
    Ok(Due {
        status: Status::Complete,
        text,
        kept,
    })
}

/// The answer of `soak` to a number: the text of its match played, and its mirrors at the end.
pub fn soak_number(alloc: Global, number: u32) -> Result<Due, NoMemory>
    ensures { IfOk result (λ due. due ≡ due_of_number number) }
{
    let SoakAnswer { text, kept } = soak(alloc, number)?;
    Ok(Due {
        status: Status::Complete,
        text,
        kept,
    })
}

// What was told of a mirror and of one that joins late from it, as what is due.
fn due_of_join(alloc: Global, answer: JoinAnswer) -> Due
    ensures { result ≡ due_of_join answer }
{
    match answer {
        JoinAnswer::Told { text } => Due {
            status: Status::Complete,
            text,
            kept: Seq::new(alloc),
        },
        JoinAnswer::TooLate { text } => Due {
            status: Status::TooLate,
            text,
            kept: Seq::new(alloc),
        },
    }
}

/// The answer of `join` to a match: the text of this mirror and of one that joins late from it,
/// after `lines` lines of the script. A match without such a mirror is refused at the line that
/// states its mirrors.
pub fn join_match(alloc: Global, m: &Match, mirror: MirrorId, lines: u32) -> Result<Due, Stop>
    ensures { Gives (IsJoined mirror lines m.now) result }
{
    if mirror >= m.mirrors {
        return Err(Stop::Refused(Refused {
            line: MIRRORS_LINE,
            cause: Cause::Number,
        }));
    }
    let answer = join(alloc, m, mirror, lines)?;
    Ok(due_of_join(alloc, answer))
}

// Whether each of the ticks is one of the match, or its end.
fn are_within(m: &Match, ticks: &[Tick]) -> bool
    ensures { result ≡ are_within m.now ticks.now }
{
    let length = m.length;
    ticks.iter().all(|tick| *tick <= length)
}

/// The answer of `rewind` to a match: its worlds at these ticks, where a world is kept at every so
/// many ticks and so many of those that were looked up. Where a tick is past its end it is refused
/// at the line that states its length.
pub fn rewind_match(
    alloc: Global,
    m: &Match,
    every: Tick,
    room: u8,
    ticks: &Ticks,
) -> Result<Due, Stop>
    requires { IsKept every room }
    ensures { Gives (λ due. due ≡ due_of_rewind room ticks.now m.now) result }
{
    let ticks = ticks.as_slice();
    if !are_within(m, ticks) {
        return Err(Stop::Refused(Refused {
            line: LENGTH_LINE,
            cause: Cause::Number,
        }));
    }
    let opening = Arena::start(&m.setup);
    let text = rewind(alloc, &opening, m, every, usize::from(room), ticks)?;
    Ok(Due {
        status: Status::Complete,
        text,
        kept: Seq::new(alloc),
    })
}

/// The answer of `lossy` to a match and what its net does: what the net's lines and then draining
/// print, and its mirrors at the end.
pub fn lossy_match(alloc: Global, x: &LossyText) -> Result<Due, NoMemory>
    ensures { IfOk result (λ due. due ≡ due_of_lossy x.now) }
{
    let opening = Arena::start(&x.game.setup);
    let LossyAnswer { text, kept } = lossy(alloc, x, &opening)?;
    Ok(Due {
        status: Status::Complete,
        text,
        kept,
    })
}

// The status that goes with a verdict.
fn status_of(verdict: Verdict) -> Status
    ensures { result ≡ status_of verdict }
{
    match verdict {
        Verdict::Legal { .. } => Status::Complete,
        Verdict::NotLegal { .. } => Status::NotLegal,
    }
}

/// The answer of `audit` to a record: that it is legal, or where its first fault is.
pub fn audit_record(alloc: Global, r: &RaceRecord) -> Result<Due, NoMemory>
    requires { IsRecord r.now }
    ensures { IfOk result (λ due. IsAudited r.now due) }
{
    let opening = Arena::start(&r.game.setup);
    let verdict = audit(alloc, r, &opening)?;
    let mut text = Vec::new(alloc);
    verdict.push(&mut text)?;
    Ok(Due {
        status: status_of(verdict),
        text: Seq::of(text),
        kept: Seq::new(alloc),
    })
}
