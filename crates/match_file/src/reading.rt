//! Reading match texts.

ghost use Rattle.std.specs.Prelude.{◌≡◌, ◌≤◌, ◌<◌, ◌+◌, ◌++◌, ℕ, List, length, IfOk, IfErr, OnErr, Ok};
ghost use Rattle.tss_io.specs.Lines.{lines_of};
ghost use Rattle.tss_io.specs.Reading.{Fails, Gives, Placed};
ghost use Rattle.tss_io.specs.Runs.{stopped};
ghost use Rattle.tss_io.specs.Walks.{left_of};
ghost use Rattle.match_data.specs.Data.{MatchData, IsMatch};
ghost use Rattle.match_file.specs.Reading.{match_at, read_text, read_match, IsFirst, IsFirstAt};
ghost use Rattle.match_file.specs.Text.{match_text};

use crate::body::{Body, read_body};
use crate::opening::{Opening, read_opening};
use crate::parts::match_of;
use game_trait::limits::LONGEST_MATCH_TEXT;
use match_data::Match;
use std::alloc::Global;
use tss_io::{Cause, LineFault, Lines, TextFault, at_end, check};

// What the lines of a match text say, from this place on, and the text behind them. The number of
// the line that is read is kept in `line`, which has the first one's.
#[tactic(auto, unfolding(crate::specs::Reading::match_at))]
fn read_parts<'a>(
    alloc: Global,
    line: &mut u32,
    text: &'a [u8],
) -> Result<(Opening, Body, &'a [u8]), LineFault>
    requires { line.old ≤ 4000000000 }
    ensures read { Placed (λ x. (x.0, stopped x.1 line.new (lines_of x.2.now))) line.new result
        (match_at line.old (lines_of text.now)) }
    ensures shorter { IfOk result (λ x. length x.2.now ≤ length text.now) }
{
    let (opening, rest) = read_opening(alloc, line, text)?;
    *line += 1;
    let (body, rest) = read_body(alloc, &opening, line, rest)?;
    Ok((opening, body, rest))
}

/// Reads a match whose lines stand at the front of a longer text, and answers the text behind its
/// `end` line. The number of the line that is read is kept in `line`, which has the first one's, at
/// most 4,000,000,000: on `Ok` it is that of the line behind the match, on `Refused` that of the
/// match's first faulty line. `NoMemory` says nothing of the text.
#[tactic(auto, unfolding(crate::specs::Reading::read_match))]
pub fn read_match_front<'a>(
    alloc: Global,
    line: &mut u32,
    text: &'a [u8],
) -> Result<(Match, &'a [u8]), LineFault>
    requires { line.old ≤ 4000000000 }
    ensures read { Placed (λ x. (x.0, stopped tt line.new (lines_of x.1.now))) line.new result
        (read_match line.old (lines_of text.now)) }
    ensures shorter { IfOk result (λ x. length x.1.now ≤ length text.now) }
    ensures counted { IfOk result
        (λ x. line.new + length x.1.now ≤ line.old + length text.now) }
{
    let (opening, body, rest) = read_parts(alloc, line, text)?;
    let read = match_of(alloc, opening, body)?;
    Ok((read, rest))
}

// The match that the whole text says. The number of the line that is read is kept in `line`.
#[tactic(auto, unfolding(crate::specs::Reading::read_text))]
fn read_whole(alloc: Global, line: &mut u32, text: &[u8]) -> Result<Match, LineFault>
    ensures { Placed (λ m. m) line.new result (read_text text.now) }
{
    *line = 0;
    check(text.len() <= LONGEST_MATCH_TEXT, Cause::Long)?;
    *line = 1;
    let (read, rest) = read_match_front(alloc, line, text)?;
    check(at_end(rest), Cause::End)?;
    Ok(read)
}

fn read_exactly(alloc: Global, text: &[u8]) -> Result<Match, TextFault>
    ensures { Gives (λ m. m) result (read_text text.now) }
{
    let mut line = 0;
    match read_whole(alloc, &mut line, text) {
        Ok(read) => Ok(read),
        Err(fault) => Err(fault.at(line)),
    }
}

/// Reads a match text (this project's own form): the lines of one match of version 1 or 2, with no
/// byte behind them, and at most 8,388,608 bytes. `Refused` is the first faulty line with that
/// line's first failing check, or line 0 where the text is too long; `NoMemory` says nothing of the
/// text.
pub fn read_match(alloc: Global, text: &[u8]) -> Result<Match, TextFault>
    // What is read is a match, and the text is its text.
    ensures found { IfOk result (λ m. IsMatch m × (text.now ≡ match_text m)) }
    // The text of a match is read as that match, unless memory runs out.
    ensures only { (m : MatchData) → IsMatch m → text.now ≡ match_text m
        → Gives (λ v. v) result (Ok m) }
    // The match, or the refusal, is the one that reading gives, unless memory runs out.
    ensures exact { Gives (λ v. v) result (read_text text.now) }
    // A refusal names the first faulty line and its first failing check, or the whole text for its
    // length.
    ensures refused { IfErr result (IsFirst text.now) }
{
    read_exactly(alloc, text)
}

/// Reads a match whose text stands inside a longer one, from where `lines` stands, and leaves
/// `lines` behind its `end` line. Lines are counted from `first`, which is at most 4,000,000,000.
/// Bytes behind the match are no fault of it. On `Refused` and on `NoMemory` `lines` stands where
/// it stood.
pub fn read_match_at(alloc: Global, lines: &mut Lines, first: u32) -> Result<Match, TextFault>
    requires { first ≤ 4000000000 }
    // What is read is a match, and its text is what was walked over.
    ensures found { IfOk result
        (λ m. IsMatch m × (left_of lines.old ≡ match_text m ++ left_of lines.new)) }
    // A match's text is read as that match, whatever stands behind it, unless memory runs out.
    ensures only { (m : MatchData) (rest : List ℕ) → IsMatch m
        → left_of lines.old ≡ match_text m ++ rest → Gives (λ v. v) result (Ok m) }
    // The refusal is the one that reading gives.
    ensures exact { IfErr result
        (λ fault. Fails fault (read_match first (lines_of (left_of lines.old)))) }
    // A refusal names the first faulty line and its first failing check.
    ensures refused { IfErr result (IsFirstAt first (left_of lines.old)) }
    ensures text { lines.new.text ≡ lines.old.text }
    ensures err { OnErr result (lines.new ≡ lines.old) }
{
    let rest = lines.rest();
    let mut line = first;
    match read_match_front(alloc, &mut line, rest) {
        Ok((read, rest)) => {
            lines.leave(rest.len());
            Ok(read)
        }
        Err(fault) => Err(fault.at(line)),
    }
}
