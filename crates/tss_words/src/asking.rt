//! What words ask for. None of this takes memory.

ghost use Rattle.std.specs.Prelude.{◌≡◌, ◌≤◌, ◌&&◌, nat_le, map, length, IfSome};
ghost use Rattle.game_trait.specs.declared.limits.TheConstants.{LONGEST_MATCH};
ghost use Rattle.std.specs.List.{AllByRecursion};
ghost use Rattle.std.specs.String.{string_bytes};
ghost use Rattle.tss_io.specs.Decimals.{number_of};
ghost use Rattle.tss_words.specs.Subcommands.{subcommand_named, subcommand_of, soak_of, paint_of, join_of, rewind_of, two_of, longer_of, IsAsked, AreLooks, ticks_of, numbers_of, number_between};

use crate::subcommand::{MatchTask, Subcommand};
use crate::ticks::{MOST_LOOKS, Ticks};
use game_trait::limits::{LONGEST_MATCH, MOST_CACHED, MOST_MIRRORS, MOST_SCRIPT_LINES};
use game_trait::{MirrorId, Tick};
use tss_io::decimal;

// The greatest number of a mirror.
const LAST_MIRROR: u64 = MOST_MIRRORS as u64 - 1;

// How many looked-up worlds a `rewind` keeps at most; it keeps 1 at least.
const MOST_KEPT: u64 = MOST_CACHED as u64;

// The number whose canonical decimal the word is, where it lies between these.
#[tactic(auto, unfolding(crate::specs::Subcommands::number_between))]
fn number_between(word: &str, least: u64, most: u64) -> Option<u64>
    ensures exact { result ≡ number_between word.now least most }
    ensures within { IfSome result (λ n. (least ≤ n) × (n ≤ most)) }
{
    match decimal(word.as_bytes(), most) {
        Some(number) if number >= least => Some(number),
        _ => None,
    }
}

// Whether there are 1 to `MOST_LOOKS` words.
fn are_few(words: &[String]) -> bool
    ensures { result ≡ (nat_le 1 (length words.now) && nat_le (length words.now) MOST_LOOKS) }
{
    !words.is_empty() && words.len() <= MOST_LOOKS
}

// The ticks that so few words are, where each is a canonical decimal up to the length of the
// longest match.
#[tactic(auto, unfolding(crate::specs::Subcommands::numbers_of))]
fn numbers_of(words: &[String]) -> Option<Ticks>
    requires { length words.now ≤ MOST_LOOKS }
    ensures exact { result ≡ numbers_of (map string_bytes words.now) LONGEST_MATCH }
    ensures each { IfSome result (λ ticks. AllByRecursion (λ t. t ≤ LONGEST_MATCH) ticks) }
    ensures count { IfSome result (λ ticks. length ticks ≡ length words.now) }
{
    let mut ticks = Ticks::new();
    for word in words {
        match decimal(word.as_bytes(), u64::from(LONGEST_MATCH)) {
            Some(tick) => ticks.push(tick as Tick),
            None => return None,
        }
    }
    Some(ticks)
}

// The ticks that the words are, where these are 1 to `MOST_LOOKS` canonical decimals up to the
// length of the longest match.
#[tactic(auto, unfolding(crate::specs::Subcommands::ticks_of))]
fn ticks_of(words: &[String]) -> Option<Ticks>
    ensures exact { result ≡ ticks_of (map string_bytes words.now) }
    ensures looks { IfSome result AreLooks }
{
    if are_few(words) {
        numbers_of(words)
    } else {
        None
    }
}

impl Subcommand {
    // The subcommand of this name.
    #[tactic(auto, unfolding(crate::specs::Subcommands::subcommand_named))]
    fn named(word: &str) -> Option<Subcommand>
        ensures exact { result ≡ subcommand_named word.now }
        ensures asked { IfSome result IsAsked }
    {
        match word {
            "order" => Some(Subcommand::OfMatch(MatchTask::Order)),
            "play" => Some(Subcommand::OfMatch(MatchTask::Play)),
            "race" => Some(Subcommand::OfMatch(MatchTask::Race)),
            "lift" => Some(Subcommand::OfMatch(MatchTask::Lift)),
            "score" => Some(Subcommand::OfMatch(MatchTask::Score)),
            "audit" => Some(Subcommand::Audit),
            "lossy" => Some(Subcommand::Lossy),
            _ => None,
        }
    }

    // To soak the number whose canonical decimal the word is, where it is below 2 ^ 32.
    #[tactic(auto, unfolding(crate::specs::Subcommands::soak_of))]
    fn soak(word: &str) -> Option<Subcommand>
        ensures exact { result ≡ soak_of word.now }
        ensures asked { IfSome result IsAsked }
    {
        match decimal(word.as_bytes(), u64::from(u32::MAX)) {
            Some(number) => Some(Subcommand::Soak(number as u32)),
            None => None,
        }
    }

    // What is asked of a match in the game of painting.
    #[tactic(auto, unfolding(crate::specs::Subcommands::paint_of))]
    fn paint(word: &str) -> Option<Subcommand>
        ensures exact { result ≡ paint_of word.now }
        ensures asked { IfSome result IsAsked }
    {
        match word {
            "order" => Some(Subcommand::OfMatch(MatchTask::PaintOrder)),
            "play" => Some(Subcommand::OfMatch(MatchTask::PaintPlay)),
            _ => None,
        }
    }

    // To let a mirror join from this one after a number of lines of the script.
    #[tactic(auto, unfolding(crate::specs::Subcommands::join_of))]
    fn join(mirror: &str, lines: &str) -> Option<Subcommand>
        ensures exact { result ≡ join_of mirror.now lines.now }
        ensures asked { IfSome result IsAsked }
    {
        let mirror = decimal(mirror.as_bytes(), LAST_MIRROR)?;
        let lines = decimal(lines.as_bytes(), MOST_SCRIPT_LINES as u64)?;
        Some(Subcommand::OfMatch(MatchTask::Join {
            mirror: mirror as MirrorId,
            lines: lines as u32,
        }))
    }

    // To look at a match at each of these ticks, over worlds that are kept so.
    #[tactic(auto, unfolding(crate::specs::Subcommands::rewind_of))]
    fn rewind(every: &str, room: &str, ticks: &[String]) -> Option<Subcommand>
        ensures exact { result ≡ rewind_of every.now room.now (map string_bytes ticks.now) }
        ensures asked { IfSome result IsAsked }
    {
        let every = number_between(every, 1, u64::from(LONGEST_MATCH))?;
        let room = number_between(room, 1, MOST_KEPT)?;
        let ticks = ticks_of(ticks)?;
        Some(Subcommand::OfMatch(MatchTask::Rewind {
            every: every as Tick,
            room: room as u8,
            ticks,
        }))
    }

    // What two words ask for.
    #[tactic(auto, unfolding(crate::specs::Subcommands::two_of))]
    fn two(word: &str, next: &str) -> Option<Subcommand>
        ensures exact { result ≡ two_of word.now next.now }
        ensures asked { IfSome result IsAsked }
    {
        match word {
            "soak" => Subcommand::soak(next),
            "paint" => Subcommand::paint(next),
            _ => None,
        }
    }

    // What three words and more ask for.
    #[tactic(auto, unfolding(crate::specs::Subcommands::longer_of))]
    fn longer(word: &str, next: &str, third: &str, more: &[String]) -> Option<Subcommand>
        ensures exact { result
            ≡ longer_of word.now next.now third.now (map string_bytes more.now) }
        ensures asked { IfSome result IsAsked }
    {
        match more {
            [] if word == "join" => Subcommand::join(next, third),
            [_tick, ..] if word == "rewind" => Subcommand::rewind(next, third, more),
            _ => None,
        }
    }

    /// The subcommand that the words ask for. `None` where they ask for nothing. It takes no
    /// memory.
    #[tactic(auto, unfolding(crate::specs::Subcommands::subcommand_of))]
    pub fn of(words: &[String]) -> Option<Subcommand>
        ensures exact { result ≡ subcommand_of (map string_bytes words.now) }
        ensures asked { IfSome result IsAsked }
    {
        match words {
            [] => None,
            [word] => Subcommand::named(word.as_str()),
            [word, next] => Subcommand::two(word.as_str(), next.as_str()),
            [word, next, third, more @ ..] => {
                Subcommand::longer(word.as_str(), next.as_str(), third.as_str(), more)
            }
        }
    }
}
