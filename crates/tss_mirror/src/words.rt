//! What the words behind the program's name ask for. None of this takes memory.

ghost use Rattle.std.specs.Prelude.{◌≡◌, map};
ghost use Rattle.std.specs.String.{string_bytes};
ghost use Rattle.tss_mirror.specs.Words.{mirror_of, usage_text};

use game_trait::MirrorId;
use game_trait::limits::MOST_MIRRORS;
use tss_io::decimal;

// The greatest number of a mirror.
const LAST_MIRROR: u64 = MOST_MIRRORS as u64 - 1;

/// The mirror that the words name: they are one word, the canonical decimal of its number, from 0 to
/// 7. `None` where they are anything else.
#[tactic(auto, unfolding(crate::specs::Words::mirror_of))]
pub fn mirror_named(words: &[String]) -> Option<MirrorId>
    ensures { result ≡ mirror_of (map string_bytes words.now) }
{
    match words {
        [word] => match decimal(word.as_bytes(), LAST_MIRROR) {
            Some(number) => Some(number as MirrorId),
            None => None,
        },
        _ => None,
    }
}

/// The line for words that name no mirror.
#[tactic(auto, unfolding(crate::specs::Words::usage_text))]
pub fn usage_line() -> &'static str
    ensures { result.now ≡ usage_text }
{
    "usage: tss_mirror M\n"
}
