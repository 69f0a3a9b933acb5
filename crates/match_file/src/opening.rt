//! What the lines up to the pace say.

ghost use Rattle.std.specs.Prelude.{◌≡◌, ◌≤◌, ◌<◌, ◌+◌, ◌-◌, true, length, IfOk};
ghost use Rattle.game_trait.specs.declared.limits.TheConstants.{MOST_COPIES};
ghost use Rattle.sync_model.specs.Schedule.{longest_delay};
ghost use Rattle.tss_io.specs.Lines.{lines_of};
ghost use Rattle.tss_io.specs.Reading.{Answers, GivesLine, Placed};
ghost use Rattle.tss_io.specs.Kinds.{once};
ghost use Rattle.match_file.specs.Kinds.{in_grid, ranges_of, number_kind, grid_kind, delays_kind, pace_kind, rises};
ghost use Rattle.match_file.specs.Reading.{head_version, head_at, opening_at};

use command_lines::{CommandRanges, last_player};
use game_trait::limits::{
    LONGEST_DELAY, LONGEST_MATCH, MOST_COPIES, MOST_MIRRORS, NARROWEST_GRID, TALLEST_GRID,
    WIDEST_GRID,
};
use game_trait::{MirrorId, Tick};
use std::alloc::Global;
use tss_base::Seq;
use tss_io::words::{count, each_word, front, keyword_line, last, next_line, number, numbers};
use tss_io::{Cause, LineFault, check};

/// What the lines up to the pace say.
#[derive(Drop)]
pub struct Opening {
    /// The text's version, 1 or 2.
    pub version: u8,
    /// How many ticks the match has, from 1 to 8,192.
    pub length: Tick,
    /// The number of columns, from 3 to 64.
    pub width: u8,
    /// The number of rows, from 1 to 64.
    pub height: u8,
    /// How many mirrors play it, from 1 to 8.
    pub mirrors: u8,
    /// How many ticks the copies lag, 1 to 8 rising numbers up to 1,024.
    pub delays: Seq<Tick>,
    /// How many ticks a mirror may be ahead of another, at most the last delay.
    pub pace: Tick,
}

impl Opening {
    /// Whether the cell is in the grid.
    pub fn in_grid(&self, x: u32, y: u32) -> bool
        ensures value { result ≡ in_grid self.now x y }
        ensures bytes { result ≡ true → (x < 256) × (y < 256) }
    {
        x < u32::from(self.width) && y < u32::from(self.height)
    }

    /// The last mirror, where there is one.
    pub fn last_mirror(&self) -> MirrorId
        ensures { result ≡ self.now.mirrors - 1 }
    {
        self.mirrors.saturating_sub(1)
    }

    /// The last copy, where there is one; there are at most 8.
    pub fn last_copy(&self) -> u8
        requires { length self.now.delays ≤ MOST_COPIES }
        ensures value { result ≡ length self.now.delays - 1 }
        ensures few { result < MOST_COPIES }
    {
        self.delays.len().saturating_sub(1) as u8
    }

    /// The numbers that a command's line may have.
    pub fn ranges(&self) -> CommandRanges
        ensures { result ≡ ranges_of self.now }
    {
        CommandRanges {
            last_time: self.length.saturating_sub(1),
            last_mirror: self.last_mirror(),
            last_player: last_player(self.version),
        }
    }
}

// The version that the first line names.
pub(crate) fn version_of(line: &[u8]) -> Result<u8, Cause>
    ensures { Answers (λ x. x) result (head_version line.now) }
{
    if line == b"tss match 1".as_slice() {
        Ok(1)
    } else if line == b"tss match 2".as_slice() {
        Ok(2)
    } else {
        Err(Cause::Head)
    }
}

#[tactic(auto, unfolding(crate::specs::Reading::head_at))]
fn head_line(text: &[u8]) -> Result<(u8, &[u8]), Cause>
    ensures read { Answers (λ x. (x.0, lines_of x.1.now)) result (head_at (lines_of text.now)) }
    ensures shorter { IfOk result (λ x. length x.1.now < length text.now) }
{
    let (line, rest) = next_line(text)?;
    let version = version_of(line)?;
    Ok((version, rest))
}

// The number of a line of one number alone.
fn number_line<'a>(
    keyword: &[u8],
    least: u32,
    most: u32,
    text: &'a [u8],
) -> Result<(u32, &'a [u8]), Cause>
    ensures read { Answers (λ x. (x.0, lines_of x.1.now)) result
        (once (number_kind keyword.now least most) tt (lines_of text.now)) }
    ensures range { IfOk result (λ x. (least ≤ x.0) × (x.0 ≤ most)) }
    ensures shorter { IfOk result (λ x. length x.1.now < length text.now) }
{
    let (words, rest) = keyword_line(keyword, text)?;
    let number = number(least, most, last(words)?)?;
    Ok((number, rest))
}

fn grid_line(text: &[u8]) -> Result<((u8, u8), &[u8]), Cause>
    ensures read { Answers (λ x. (x.0, lines_of x.1.now)) result
        (once grid_kind tt (lines_of text.now)) }
    ensures shorter { IfOk result (λ x. length x.1.now < length text.now) }
{
    let (words, rest) = keyword_line(b"grid", text)?;
    let (width, words) = front(words)?;
    let height = last(words)?;
    let width = number(NARROWEST_GRID, WIDEST_GRID, width)? as u8;
    let height = number(1, TALLEST_GRID, height)? as u8;
    Ok(((width, height), rest))
}

/// Whether each is below the next.
pub fn rises(delays: &[Tick]) -> bool
    ensures { result ≡ rises delays.now }
{
    let Some((first, more)) = delays.split_first() else {
        return true;
    };
    let mut last = *first;
    for delay in more {
        if *delay <= last {
            return false;
        }
        last = *delay;
    }
    true
}

fn delays_line(alloc: Global, text: &[u8]) -> Result<(Seq<Tick>, &[u8]), LineFault>
    ensures read { GivesLine (λ x. (x.0, lines_of x.1.now)) result
        (once delays_kind tt (lines_of text.now)) }
    ensures few { IfOk result (λ x. length x.0 ≤ MOST_COPIES) }
    ensures shorter { IfOk result (λ x. length x.1.now < length text.now) }
{
    let (words, rest) = keyword_line(b"delays", text)?;
    each_word(words)?;
    check(count(words) <= MOST_COPIES, Cause::Many)?;
    let delays = numbers(alloc, 0, LONGEST_DELAY, words)?;
    check(rises(delays.as_slice()), Cause::Order)?;
    Ok((delays, rest))
}

// The last of the delays.
#[tactic(auto, unfolding(sync_model::specs::Lists::last_of))]
pub(crate) fn longest_of(delays: &Seq<Tick>) -> Tick
    ensures { result ≡ longest_delay delays.now }
{
    let mut last = 0;
    for delay in delays.as_slice() {
        last = *delay;
    }
    last
}

fn pace_line<'a>(delays: &Seq<Tick>, text: &'a [u8]) -> Result<(Tick, &'a [u8]), Cause>
    ensures read { Answers (λ x. (x.0, lines_of x.1.now)) result
        (once (pace_kind delays.now) tt (lines_of text.now)) }
    ensures shorter { IfOk result (λ x. length x.1.now < length text.now) }
{
    let (words, rest) = keyword_line(b"pace", text)?;
    let pace = number(0, LONGEST_DELAY, last(words)?)?;
    if pace > longest_of(delays) {
        return Err(Cause::Number);
    }
    Ok((pace, rest))
}

/// The lines up to the pace, and the text behind them. The number of the line that is read is kept
/// in `line`, which has the first one's.
#[tactic(auto, unfolding(crate::specs::Reading::opening_at))]
pub fn read_opening<'a>(
    alloc: Global,
    line: &mut u32,
    text: &'a [u8],
) -> Result<(Opening, &'a [u8]), LineFault>
    requires { line.old ≤ 4000000000 }
    ensures read { Placed (λ x. (x.0, lines_of x.1.now)) line.new result
        (opening_at line.old (lines_of text.now)) }
    ensures number { IfOk result (λ _. line.new ≡ line.old + 5) }
    ensures copies { IfOk result (λ x. length x.0.delays ≤ MOST_COPIES) }
    ensures shorter { IfOk result (λ x. length x.1.now ≤ length text.now) }
{
    let first = *line;
    let (version, rest) = head_line(text)?;
    *line = first + 1;
    let (length, rest) = number_line(b"length", 1, LONGEST_MATCH, rest)?;
    *line = first + 2;
    let ((width, height), rest) = grid_line(rest)?;
    *line = first + 3;
    let (mirrors, rest) = number_line(b"mirrors", 1, MOST_MIRRORS as u32, rest)?;
    *line = first + 4;
    let (delays, rest) = delays_line(alloc, rest)?;
    *line = first + 5;
    let (pace, rest) = pace_line(&delays, rest)?;
    let opening = Opening {
        version,
        length,
        width,
        height,
        mirrors: mirrors as u8,
        delays,
        pace,
    };
    Ok((opening, rest))
}
