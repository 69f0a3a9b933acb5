//! Mirrors and copies of a match that the lines behind it name.

ghost use Rattle.std.specs.Prelude.{◌-◌, length};
ghost use Rattle.tss_io.specs.Forms.{number_in};
ghost use Rattle.tss_io.specs.Reading.{Answers};

use game_trait::MirrorId;
use match_data::Match;
use tss_io::Cause;
use tss_io::words::number;

/// The mirror that the word names: `Number` where the match has none of that number, or the word is no
/// canonical number.
pub fn mirror_named(game: &Match, word: &[u8]) -> Result<MirrorId, Cause>
    ensures { Answers (λ x. x) result (number_in 0 (game.now.mirrors - 1) word.now) }
{
    Ok(number(0, u32::from(game.mirrors.saturating_sub(1)), word)? as u8)
}

/// The copy that the word names: `Number` where a mirror of the match has none of that number, or the
/// word is no canonical number.
pub fn copy_named(game: &Match, word: &[u8]) -> Result<u8, Cause>
    ensures { Answers (λ x. x) result (number_in 0 (length game.now.delays - 1) word.now) }
{
    Ok(number(0, game.delays.len().saturating_sub(1) as u32, word)? as u8)
}
