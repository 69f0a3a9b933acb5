//! Fast paths for words that are short, and for lines that are read in one walk.

ghost use Rattle.std.specs.Prelude.{◌≡◌, ◌<◌, ◌≤◌, ◌++◌, ◌∷◌, length, bytes_eq, position, decimal, IfOk, IfSome, Ok};
ghost use Rattle.tss_io.specs.Lines.{lines_of, words_of};
ghost use Rattle.tss_io.specs.Reading.{Answers};
ghost use Rattle.tss_io.specs.Forms.{front_at, last_at, number_in};
ghost use Rattle.tss_io.specs.Kinds.{line_at};
ghost use Rattle.tss_io.specs.Glance.{is_gap, IsFront};

use crate::cause::Cause;
use crate::words::{fits_words, front, last, next_line};

/// The first line of the text, and the text behind its newline. Kept out of line, as the first word
/// is: inlined, their byte loops make the optimizer give up on the caller's loops.
#[inline(never)]
pub fn line_of(text: &[u8]) -> Result<(&[u8], &[u8]), Cause>
    ensures read { Answers (λ x. (x.0.now, lines_of x.1.now)) result (line_at (lines_of text.now)) }
    ensures shorter { IfOk result (λ x. length x.1.now < length text.now) }
{
    next_line(text)
}

// Where the first byte stands that no word has.
#[inline(always)]
fn gap_of(bytes: &[u8]) -> Option<usize>
    ensures { result ≡ position (λ b. is_gap b) bytes.now }
{
    bytes.iter().position(|b| *b < 33 || *b > 126)
}

// A first word that a space ends, and what follows.
#[inline(always)]
#[tactic(auto, using(crate::proofs::GlanceLaws::front_at_gap))]
fn gap_front(line: &[u8]) -> Option<(&[u8], &[u8])>
    ensures { IfSome result
        (λ x. front_at (words_of line.now) ≡ Ok (x.0.now, words_of x.1.now)) }
{
    match gap_of(line) {
        Some(at) => {
            if at == 0 || line[at] != b' ' {
                return None;
            }
            let (word, rest) = line.split_at(at);
            let (_, rest) = rest.split_at(1);
            Some((word, rest))
        }
        None => None,
    }
}

/// The first word of a line, where others follow, and these. A single pass finds its end and checks
/// that it is a word.
#[inline(never)]
pub fn keyword_of(line: &[u8]) -> Result<(&[u8], &[u8]), Cause>
    ensures { Answers (λ x. (x.0.now, words_of x.1.now)) result (front_at (words_of line.now)) }
{
    if let Some(parts) = gap_front(line) {
        return Ok(parts);
    }
    front(line)
}

// Whether the bytes are these. Never inlined, so that callers keep no slices in memory for it.
#[inline(never)]
fn same_bytes(bytes: &[u8], text: &[u8]) -> bool
    ensures { result ≡ bytes_eq bytes.now text.now }
{
    bytes == text
}

/// Whether the bytes are these. Their count is compared first.
#[inline(always)]
#[tactic(auto, using(crate::proofs::GlanceLaws::other_length))]
pub fn is_text(bytes: &[u8], text: &[u8]) -> bool
    ensures { result ≡ bytes_eq bytes.now text.now }
{
    if bytes.len() != text.len() {
        return false;
    }
    same_bytes(bytes, text)
}

// A first word of one byte, where others follow, and these.
#[inline(always)]
#[tactic(auto, using(crate::proofs::GlanceLaws::front_at_short))]
fn short_front(words: &[u8]) -> Option<(&[u8], &[u8])>
    ensures { IfSome result
        (λ x. front_at (words_of words.now) ≡ Ok (x.0.now, words_of x.1.now)) }
{
    if words.len() < 2 {
        return None;
    }
    if words[1] != b' ' || words[0] < 33 || words[0] > 126 {
        return None;
    }
    let (word, rest) = words.split_at(1);
    let (_, rest) = rest.split_at(1);
    Some((word, rest))
}

/// The first of the words, where others follow, and these. A word of one byte takes no loop.
#[inline(always)]
pub fn front_of(words: &[u8]) -> Result<(&[u8], &[u8]), Cause>
    ensures { Answers (λ x. (x.0.now, words_of x.1.now)) result (front_at (words_of words.now)) }
{
    if let Some(parts) = short_front(words) {
        return Ok(parts);
    }
    keyword_of(words)
}

/// The word, where it is the only one. No space stands in a word, so one look at each byte tells.
#[inline(always)]
#[tactic(auto, using(crate::proofs::GlanceLaws::last_at_fits))]
pub fn last_of(words: &[u8]) -> Result<&[u8], Cause>
    ensures { Answers (λ x. x.now) result (last_at (words_of words.now)) }
{
    if !words.is_empty() && fits_words(words) {
        return Ok(words);
    }
    last(words)
}

/// The number that the word writes in one digit, if it does and it is at most this.
#[inline(always)]
#[tactic(auto, using(crate::proofs::GlanceLaws::number_in_digit))]
pub fn digit_of(most: u8, word: &[u8]) -> Option<u8>
    ensures { IfSome result (λ n. number_in 0 most word.now ≡ Ok n) }
{
    if word.len() != 1 || word[0] < b'0' || word[0] > b'9' {
        return None;
    }
    let digit = word[0] - b'0';
    if digit > most {
        return None;
    }
    Some(digit)
}

/// The text behind this front, where it begins so.
#[inline(always)]
pub fn behind<'a>(text: &'a [u8], front: &[u8]) -> Option<&'a [u8]>
    ensures { IfSome result (λ rest. text.now ≡ front.now ++ rest.now) }
{
    match text.strip_prefix(front) {
        Some(rest) => Some(rest),
        None => None,
    }
}

// The number that the first digits write, as far as it is below 1,000,000,000, and how many they
// are.
#[inline(always)]
fn digits_of(text: &[u8]) -> (u32, usize)
    ensures { IsFront text.now result.0 result.1 }
{
    let mut number: u32 = 0;
    let mut at = 0;
    while at < text.len() && number < 100_000_000 {
        let byte = text[at];
        if byte < b'0' || byte > b'9' {
            return (number, at);
        }
        number = number * 10 + u32::from(byte - b'0');
        at += 1;
    }
    (number, at)
}

/// A canonical number in front of this byte, if it is at most `most`, and the text behind that byte.
/// `None` where it is longer than nine digits, too.
#[inline(always)]
#[tactic(auto, using(crate::proofs::FrontLaws::number_stands))]
pub fn number_before(text: &[u8], stop: u8, most: u32) -> Option<(u32, &[u8])>
    ensures { IfSome result
        (λ x. (x.0 ≤ most) × (text.now ≡ decimal x.0 ++ stop ∷ x.1.now)) }
{
    let (number, at) = digits_of(text);
    if at == 0 || at == text.len() || text[at] != stop {
        return None;
    }
    if at > 1 && text[0] == b'0' {
        return None;
    }
    if number > most {
        return None;
    }
    let (_, rest) = text.split_at(at);
    let (_, rest) = rest.split_at(1);
    Some((number, rest))
}
