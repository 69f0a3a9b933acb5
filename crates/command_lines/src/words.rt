//! The words of a command's line, before its numbers are looked at.

ghost use Rattle.std.specs.Prelude.{◌≡◌};
ghost use Rattle.tss_io.specs.Lines.{words_of};
ghost use Rattle.tss_io.specs.Reading.{Answers};
ghost use Rattle.tss_io.specs.Forms.{picked};
ghost use Rattle.command_lines.specs.CommandLine.{act_word, acts_of, command_see, command_value};
ghost use Rattle.command_lines.specs.Seen.{words_seen};

use crate::ranges::CommandRanges;
use game_trait::limits::GREATEST_NUMBER;
use game_trait::{Act, Command};
use tss_io::Cause;
use tss_io::words::{front, last, number};

/// The words of a command's line behind its first, of the right shape.
#[derive(Clone, Copy)]
pub struct CommandWords<'a> {
    time: &'a [u8],
    from: &'a [u8],
    number: &'a [u8],
    player: &'a [u8],
    act: Act,
}

/// The act of the version, which is 1 or 2, that the word names; else `Shape`.
pub fn act_of(version: u8, word: &[u8]) -> Result<Act, Cause>
    ensures { Answers (λ x. x) result (picked act_word (acts_of version) word.now) }
{
    if word == b"go".as_slice() {
        Ok(Act::Go)
    } else if word == b"left".as_slice() {
        Ok(Act::Left)
    } else if word == b"right".as_slice() {
        Ok(Act::Right)
    } else if word == b"shoot".as_slice() {
        Ok(Act::Shoot)
    } else if version != 1 && word == b"dash".as_slice() {
        Ok(Act::Dash)
    } else {
        Err(Cause::Shape)
    }
}

impl<'a> CommandWords<'a> {
    /// The words, where they have the shape of a command's of the version, which is 1 or 2; else
    /// `Shape`.
    pub fn of(version: u8, words: &'a [u8]) -> Result<CommandWords<'a>, Cause>
        ensures { Answers words_seen result (command_see version (words_of words.now)) }
    {
        let (time, words) = front(words)?;
        let (from, words) = front(words)?;
        let (number, words) = front(words)?;
        let (player, words) = front(words)?;
        let act = act_of(version, last(words)?)?;
        Ok(CommandWords {
            time,
            from,
            number,
            player,
            act,
        })
    }

    /// The command that the words say, where their numbers are in the ranges; else `Number`.
    pub fn read(&self, ranges: CommandRanges) -> Result<Command, Cause>
        ensures { Answers (λ c. c) result (command_value ranges (words_seen self.now)) }
    {
        let time = number(0, ranges.last_time, self.time)?;
        let from = number(0, u32::from(ranges.last_mirror), self.from)? as u8;
        let name = number(0, GREATEST_NUMBER, self.number)?;
        let player = number(0, u32::from(ranges.last_player), self.player)? as u8;
        Ok(Command {
            time,
            from,
            number: name,
            player,
            act: self.act,
        })
    }
}
