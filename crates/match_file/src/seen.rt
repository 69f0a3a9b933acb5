//! Frequent lines of a match, read in one walk.

ghost use Rattle.std.specs.Prelude.{◌≡◌, ◌≤◌, ◌++◌, ℕ, true, IfSome};
ghost use Rattle.tss_io.specs.Lines.{as_line};
ghost use Rattle.game_trait.specs.Acts.{has_act};
ghost use Rattle.game_trait.specs.declared.limits.TheConstants.{GREATEST_NUMBER};
ghost use Rattle.command_lines.specs.CommandLine.{CommandFits, act_word, command_line};
ghost use Rattle.match_data.specs.declared.script_line.ScriptLine.TheVariants as script_lines;
ghost use Rattle.match_file.specs.Text.{script_line};

use command_lines::CommandRanges;
use game_trait::limits::GREATEST_NUMBER;
use game_trait::{Act, Command};
use tss_io::glance::{behind, number_before};

/// An `arrive` line at the front of the text, whose mirrors are at most `last`: the mirror, the
/// sender and the number, and the text behind the line.
#[inline(always)]
#[tactic(auto, using(crate::proofs::SeenLaws::arrival_stands))]
pub fn arrival_of(last: u8, text: &[u8]) -> Option<(u8, u8, u32, &[u8])>
    ensures { IfSome result (λ x. (x.0 ≤ last) × (x.1 ≤ last) × (x.2 ≤ GREATEST_NUMBER)
        × (text.now ≡ as_line (script_line (script_lines.Arrive x.0 x.1 x.2)) ++ x.3.now)) }
{
    let Some(words) = behind(text, b"arrive ") else {
        return None;
    };
    let Some((mirror, words)) = number_before(words, b' ', u32::from(last)) else {
        return None;
    };
    let Some((from, words)) = number_before(words, b' ', u32::from(last)) else {
        return None;
    };
    let Some((number, rest)) = number_before(words, b'\n', GREATEST_NUMBER) else {
        return None;
    };
    Some((mirror as u8, from as u8, number, rest))
}

/// A `turn` line at the front of the text, whose mirror is at most `last`, and the text behind it.
#[inline(always)]
#[tactic(auto, using(crate::proofs::SeenLaws::turn_stands))]
pub fn turn_of(last: u8, text: &[u8]) -> Option<(u8, &[u8])>
    ensures { IfSome result (λ x. (x.0 ≤ last)
        × (text.now ≡ as_line (script_line (script_lines.Turn x.0)) ++ x.1.now)) }
{
    let Some(words) = behind(text, b"turn ") else {
        return None;
    };
    let Some((mirror, rest)) = number_before(words, b'\n', u32::from(last)) else {
        return None;
    };
    Some((mirror as u8, rest))
}

// An act of every version that ends the line, and the text behind it.
#[inline(always)]
fn act_before(text: &[u8]) -> Option<(Act, &[u8])>
    ensures { IfSome result (λ x. ((version : ℕ) → has_act version x.0 ≡ true)
        × (text.now ≡ as_line (act_word x.0) ++ x.1.now)) }
{
    if let Some(rest) = behind(text, b"go\n") {
        Some((Act::Go, rest))
    } else if let Some(rest) = behind(text, b"left\n") {
        Some((Act::Left, rest))
    } else if let Some(rest) = behind(text, b"right\n") {
        Some((Act::Right, rest))
    } else if let Some(rest) = behind(text, b"shoot\n") {
        Some((Act::Shoot, rest))
    } else {
        None
    }
}

/// A `cmd` line at the front of the text, of an act of every version and with numbers in these
/// ranges: its command, and the text behind the line.
#[inline(always)]
#[tactic(auto, using(crate::proofs::SeenLaws::command_stands))]
pub fn command_of(ranges: CommandRanges, text: &[u8]) -> Option<(Command, &[u8])>
    ensures { IfSome result (λ x. ((version : ℕ) → CommandFits version ranges x.0)
        × (text.now ≡ as_line (command_line x.0) ++ x.1.now)) }
{
    let Some(words) = behind(text, b"cmd ") else {
        return None;
    };
    let Some((time, words)) = number_before(words, b' ', ranges.last_time) else {
        return None;
    };
    let Some((from, words)) = number_before(words, b' ', u32::from(ranges.last_mirror)) else {
        return None;
    };
    let Some((number, words)) = number_before(words, b' ', GREATEST_NUMBER) else {
        return None;
    };
    let Some((player, words)) = number_before(words, b' ', u32::from(ranges.last_player)) else {
        return None;
    };
    let Some((act, rest)) = act_before(words) else {
        return None;
    };
    let command = Command {
        time,
        from: from as u8,
        number,
        player: player as u8,
        act,
    };
    Some((command, rest))
}
