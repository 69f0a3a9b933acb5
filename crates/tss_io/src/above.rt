//! Counts that are passed.

ghost use Rattle.std.specs.Prelude.{◌≡◌};
ghost use Rattle.std.specs.List.{list_all};
ghost use Rattle.tss_io.specs.Forms.{is_digit, is_canonical, is_above};

use crate::decimals::decimal;

fn are_digits(bytes: &[u8]) -> bool
    ensures { result ≡ list_all is_digit bytes.now }
{
    bytes.iter().all(|b| *b >= 48 && *b <= 57)
}

#[tactic(auto, unfolding(crate::specs::Forms::is_canonical))]
fn is_canonical(word: &[u8]) -> bool
    ensures { result ≡ is_canonical word.now }
{
    match word {
        [] => false,
        [b] => *b >= 48 && *b <= 57,
        [b, ..] => *b != 48 && are_digits(word),
    }
}

/// Whether the word is a number of any length above this one.
#[tactic(auto, unfolding(crate::specs::Forms::is_above))]
pub fn is_above(most: u32, word: &[u8]) -> bool
    ensures { result ≡ is_above most word.now }
{
    is_canonical(word) && decimal(word, u64::from(most)).is_none()
}
