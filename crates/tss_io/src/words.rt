//! Lines and the words in them. No call takes memory.

ghost use Rattle.std.specs.Prelude.{◌≡◌, ◌≤◌, ◌<◌, length, ◌==◌, IfSome, IfOk, option_map, position};
ghost use Rattle.std.specs.List.{list_all};
ghost use Rattle.tss_io.specs.Lines.{cut_at, lines_of, words_of};
ghost use Rattle.tss_io.specs.Reading.{Answers, GivesLine};
ghost use Rattle.tss_io.specs.Forms.{so_many_words, numbers_in, pushed_number, each_word, is_word_byte, is_word, front_at, last_at, number_in};
ghost use Rattle.tss_io.specs.Kinds.{line_at, keyword_line_at};

use crate::cause::Cause;
use crate::decimals::decimal;
use crate::fault::LineFault;
use crate::limits::LONGEST_LINE;
use std::alloc::Global;
use tss_base::Seq;

// Where the first such byte stands.
fn place_of(bytes: &[u8], byte: u8) -> Option<usize>
    ensures { result ≡ position (λ b. b == byte) bytes.now }
{
    bytes.iter().position(|b| *b == byte)
}

// What stands in front of the first such byte, and what behind it.
fn cut(bytes: &[u8], byte: u8) -> Option<(&[u8], &[u8])>
    ensures parts { cut_at byte bytes.now ≡ option_map (λ x. (x.0.now, x.1.now)) result }
    ensures shorter { IfSome result (λ x. length x.1.now < length bytes.now) }
{
    match place_of(bytes, byte) {
        Some(at) => {
            let (front, rest) = bytes.split_at(at);
            let (_, rest) = rest.split_at(1);
            Some((front, rest))
        }
        None => None,
    }
}

/// The first line of the text, and the text behind its newline.
pub fn next_line(text: &[u8]) -> Result<(&[u8], &[u8]), Cause>
    ensures read { Answers (λ x. (x.0.now, lines_of x.1.now)) result (line_at (lines_of text.now)) }
    ensures shorter { IfOk result (λ x. length x.1.now < length text.now) }
{
    match cut(text, b'\n') {
        None => {
            if text.len() > LONGEST_LINE {
                return Err(Cause::Long);
            }
            Err(Cause::End)
        }
        Some((line, rest)) => {
            if line.len() > LONGEST_LINE {
                return Err(Cause::Long);
            }
            Ok((line, rest))
        }
    }
}

// Whether each byte may stand in a word.
#[inline(always)]
pub(crate) fn fits_words(bytes: &[u8]) -> bool
    ensures { result ≡ list_all is_word_byte bytes.now }
{
    bytes.iter().all(|b| *b >= 33 && *b <= 126)
}

// Whether the bytes are a word.
#[tactic(auto, unfolding(crate::specs::Forms::is_word))]
fn is_word(bytes: &[u8]) -> bool
    ensures { result ≡ is_word bytes.now }
{
    bytes.len() > 0 && fits_words(bytes)
}

/// The first of the words, where others follow, and these.
pub fn front(words: &[u8]) -> Result<(&[u8], &[u8]), Cause>
    ensures { Answers (λ x. (x.0.now, words_of x.1.now)) result (front_at (words_of words.now)) }
{
    match cut(words, b' ') {
        Some((word, rest)) => {
            if !is_word(word) {
                return Err(Cause::Shape);
            }
            Ok((word, rest))
        }
        None => Err(Cause::Shape),
    }
}

/// The word, where it is the only one.
pub fn last(words: &[u8]) -> Result<&[u8], Cause>
    ensures { Answers (λ x. x.now) result (last_at (words_of words.now)) }
{
    match cut(words, b' ') {
        Some(_) => Err(Cause::Shape),
        None => {
            if !is_word(words) {
                return Err(Cause::Shape);
            }
            Ok(words)
        }
    }
}

/// The number that the word writes, from least to most.
#[tactic(auto, unfolding(crate::specs::Forms::number_in))]
pub fn number(least: u32, most: u32, word: &[u8]) -> Result<u32, Cause>
    ensures read { Answers (λ n. n) result (number_in least most word.now) }
    ensures range { IfOk result (λ n. (least ≤ n) × (n ≤ most)) }
{
    match decimal(word, u64::from(most)) {
        Some(n) if n >= u64::from(least) => Ok(n as u32),
        _ => Err(Cause::Number),
    }
}

/// The words behind the keyword of the next line, and the text behind that line.
#[tactic(auto, unfolding(crate::specs::Kinds::keyword_line_at))]
pub fn keyword_line<'a>(keyword: &[u8], text: &'a [u8]) -> Result<(&'a [u8], &'a [u8]), Cause>
    ensures read { Answers (λ x. (words_of x.0.now, lines_of x.1.now)) result
        (keyword_line_at keyword.now (lines_of text.now)) }
    ensures shorter { IfOk result (λ x. length x.1.now < length text.now) }
{
    let (line, rest) = next_line(text)?;
    let (word, words) = front(line)?;
    if word != keyword {
        return Err(Cause::Shape);
    }
    Ok((words, rest))
}

/// Whether each of the words is one.
#[tactic(auto, using(crate::proofs::LineLaws::words_of_none))]
pub fn are_words(words: &[u8]) -> bool
    ensures { result ≡ list_all is_word (words_of words.now) }
{
    let mut rest = words;
    while let Some((word, after)) = cut(rest, b' ') {
        if !is_word(word) {
            return false;
        }
        rest = after;
    }
    is_word(rest)
}

/// That each of the words is one.
#[tactic(auto, using(crate::proofs::LineLaws::words_some), unfolding(crate::specs::Forms::each_word))]
pub fn each_word(words: &[u8]) -> Result<(), Cause>
    ensures { Answers (λ _. words_of words.now) result (each_word (words_of words.now)) }
{
    if !are_words(words) {
        return Err(Cause::Shape);
    }
    Ok(())
}

/// How many words there are.
#[tactic(auto, using(crate::proofs::LineLaws::words_of_none))]
pub fn count(words: &[u8]) -> usize
    ensures { result ≡ length (words_of words.now) }
{
    let mut count = 1;
    let mut rest = words;
    while let Some((_, after)) = cut(rest, b' ') {
        count += 1;
        rest = after;
    }
    count
}

// Appends the number of the word.
fn push_number(numbers: &mut Seq<u32>, least: u32, most: u32, word: &[u8]) -> Result<(), LineFault>
    ensures { GivesLine (λ _. numbers.new) result (pushed_number numbers.old least most word.now) }
{
    let number = number(least, most, word)?;
    numbers.push(number)?;
    Ok(())
}

/// The numbers of the words, from least to most.
pub fn numbers(alloc: Global, least: u32, most: u32, words: &[u8]) -> Result<Seq<u32>, LineFault>
    ensures { GivesLine (λ ns. ns) result (numbers_in least most (words_of words.now)) }
{
    let mut numbers = Seq::new(alloc);
    let mut rest = words;
    while let Some((word, after)) = cut(rest, b' ') {
        push_number(&mut numbers, least, most, word)?;
        rest = after;
    }
    push_number(&mut numbers, least, most, rest)?;
    Ok(numbers)
}

/// That there are as many words as wanted, and each of them is one.
#[tactic(auto, unfolding(crate::specs::Forms::so_many_words))]
pub fn so_many_words(wanted: usize, words: &[u8]) -> Result<(), Cause>
    ensures { Answers (λ _. words_of words.now) result (so_many_words wanted (words_of words.now)) }
{
    if count(words) != wanted {
        return Err(Cause::Shape);
    }
    each_word(words)
}
