//! Reading texts that hold a match: a first line, the lines of a match, and those of what follows
//! it.

ghost use Rattle.std.specs.Prelude.{◌≡◌, ◌≤◌, ◌<◌, ◌+◌, ◌^◌, length, IfOk};
ghost use Rattle.tss_io.specs.Lines.{lines_of};
ghost use Rattle.tss_io.specs.Machines.{Machine};
ghost use Rattle.tss_io.specs.Reading.{Answers, Gives, GivesLine, Placed};
ghost use Rattle.tss_io.specs.Runs.{line_step, run_to, stopped};
ghost use Rattle.match_data.specs.Data.{MatchData, IsMatch};
ghost use Rattle.match_file.specs.Around.{IsMet, first_at, rest_at, read_around};

use crate::reading::read_match_front;
use match_data::Match;
use std::alloc::Global;
use tss_io::words::next_line;
use tss_io::{Cause, LineFault, TextFault, at_end, check};

/// What follows the match in such a text, as far as it was read.
pub trait BehindMatch: Drop {
    // How its lines are read, for each match.
    ghost machine: { MatchData → Machine Self };

    // And from where on.
    ghost start: { Self };

    /// Nothing was read.
    fn new(alloc: Global) -> Self
        ensures { result ≡ start };

    /// Whether its last line was taken.
    fn is_last(&self) -> bool
        ensures { (m : MatchData) → result ≡ (machine m).is_last self.now };

    /// Takes the next line, behind good lines alone. On `Refused` and on `NoMemory` it isn't to be
    /// used again.
    fn take(&mut self, alloc: Global, game: &Match, line: &[u8]) -> Result<(), LineFault>
        requires game { IsMatch game.now }
        requires met { IsMet (machine game.now) start self.old }
        ensures { GivesLine (λ _. self.new) result ((machine game.now).take self.old line.now) };
}

// The text behind the first line.
fn read_first<'a>(head: &[u8], text: &'a [u8]) -> Result<&'a [u8], Cause>
    ensures read { Answers (λ rest. (tt, lines_of rest.now)) result
        (first_at head.now (lines_of text.now)) }
    ensures shorter { IfOk result (λ rest. length rest.now < length text.now) }
{
    let (line, rest) = next_line(text)?;
    check(line == head, Cause::Head)?;
    Ok(rest)
}

// The next line behind the match, and the text behind it.
#[tactic(auto, unfolding(tss_io::specs::Runs::line_step))]
fn take_line<'a, T: BehindMatch>(
    tail: &mut T,
    alloc: Global,
    game: &Match,
    text: &'a [u8],
) -> Result<&'a [u8], LineFault>
    requires game { IsMatch game.now }
    requires met { IsMet (T.machine game.now) T.start tail.old }
    ensures read { GivesLine (λ rest. (tail.new, lines_of rest.now)) result
        (line_step (T.machine game.now).take tail.old (lines_of text.now)) }
    ensures shorter { IfOk result (λ rest. length rest.now < length text.now) }
{
    let (line, rest) = next_line(text)?;
    tail.take(alloc, game, line)?;
    Ok(rest)
}

// The lines behind the match, up to the last, and the text behind it. The number of the line that is
// read is kept in `line`, which has the first one's.
fn read_behind<'a, T: BehindMatch>(
    alloc: Global,
    game: &Match,
    line: &mut u32,
    text: &'a [u8],
) -> Result<(T, &'a [u8]), LineFault>
    requires game { IsMatch game.now }
    requires counted { line.old + length text.now < 2 ^ 32 }
    ensures { Placed (λ x. stopped x.0 line.new (lines_of x.1.now)) line.new result
        (run_to (T.machine game.now).take (T.machine game.now).is_last line.old T.start
        (lines_of text.now)) }
{
    let mut tail = T::new(alloc);
    let mut rest = text;
    while !tail.is_last() {
        rest = take_line(&mut tail, alloc, game, rest)?;
        *line += 1;
    }
    Ok((tail, rest))
}

// The match with what follows it, up to the end of the text. The number of the line that is read is
// kept in `line`, which has that of the line behind the match.
fn read_rest<T: BehindMatch>(
    alloc: Global,
    game: Match,
    line: &mut u32,
    text: &[u8],
) -> Result<(Match, T), LineFault>
    requires { line.old + length text.now < 2 ^ 32 }
    ensures { Placed (λ x. x) line.new result
        (rest_at T.machine T.start game line.old (lines_of text.now)) }
{
    let (tail, rest) = read_behind(alloc, &game, line, text)?;
    check(at_end(rest), Cause::End)?;
    Ok((game, tail))
}

// What the whole text says. The number of the line that is read is kept in `line`.
#[tactic(auto, unfolding(crate::specs::Around::read_around))]
fn read_whole<T: BehindMatch>(
    alloc: Global,
    longest: usize,
    head: &[u8],
    line: &mut u32,
    text: &[u8],
) -> Result<(Match, T), LineFault>
    requires { longest ≤ 4000000000 }
    ensures { Placed (λ x. x) line.new result
        (read_around longest head.now T.machine T.start text.now) }
{
    *line = 0;
    check(text.len() <= longest, Cause::Long)?;
    *line = 1;
    let rest = read_first(head, text)?;
    *line = 2;
    let (game, rest) = read_match_front(alloc, line, rest)?;
    read_rest(alloc, game, line, rest)
}

/// Reads a text that holds a match: this first line, the lines of a match and what follows it, with
/// no byte behind that, and at most so many bytes as `longest`, which is at most 4,000,000,000.
/// `Refused` is the first faulty line, counted over the whole text, with that line's first failing
/// check, or line 0 where the text is too long; `NoMemory` says nothing of the text.
pub fn read_around<T: BehindMatch>(
    alloc: Global,
    longest: usize,
    head: &[u8],
    text: &[u8],
) -> Result<(Match, T), TextFault>
    requires { longest ≤ 4000000000 }
    ensures { Gives (λ x. x) result (read_around longest head.now T.machine T.start text.now) }
{
    let mut line = 0;
    match read_whole(alloc, longest, head, &mut line, text) {
        Ok(read) => Ok(read),
        Err(fault) => Err(fault.at(line)),
    }
}
