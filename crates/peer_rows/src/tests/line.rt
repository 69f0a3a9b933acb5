//! A line of a row, read.

use std::alloc::Global;

// The words of a line: those that are numbers, and those that are bytes, which begin with x.
#[derive(Drop)]
pub(super) struct Words {
    numbers: Vec<u64>,
    pub bytes: Vec<u8>,
}

impl Words {
    // The words of a text between blanks.
    pub(super) fn read(alloc: Global, text: &str) -> Option<Words> {
        let mut words = Words {
            numbers: Vec::new(alloc),
            bytes: Vec::new(alloc),
        };
        for word in text.split_whitespace() {
            if !words.take(alloc, word) {
                return None;
            }
        }
        Some(words)
    }

    // A word more. False: it is neither.
    fn take(&mut self, alloc: Global, word: &str) -> bool {
        match word.strip_prefix('x') {
            Some(digits) => self.take_bytes(alloc, digits),
            None => self.take_number(word),
        }
    }

    fn take_bytes(&mut self, alloc: Global, digits: &str) -> bool {
        match hex::decode(alloc, digits) {
            Ok(bytes) => {
                self.bytes = bytes;
                true
            }
            Err(_) => false,
        }
    }

    fn take_number(&mut self, word: &str) -> bool {
        match word.parse::<u64>() {
            Ok(number) => self.numbers.push(number).is_ok(),
            Err(_) => false,
        }
    }

    // The number at a place among the numbers.
    pub(super) fn number(&self, place: usize) -> Option<u64> {
        self.numbers.get(place).copied()
    }

    pub(super) fn count(&self, place: usize) -> Option<u32> {
        u32::try_from(self.number(place)?).ok()
    }

    pub(super) fn byte(&self, place: usize) -> Option<u8> {
        u8::try_from(self.number(place)?).ok()
    }
}

// A line of a row: whose call it is, which, its words, and what is due.
#[derive(Drop)]
pub(super) struct Line<'a> {
    pub peer: usize,
    pub call: &'a str,
    pub words: Words,
    pub due: &'a str,
}

// The place of a peer by its letter.
fn place_of(name: &str) -> Option<usize> {
    match name {
        "a" => Some(0),
        "b" => Some(1),
        "c" => Some(2),
        _ => None,
    }
}

impl<'a> Line<'a> {
    // A line of a peer, a call, its words, and what is due behind ` =`.
    pub(super) fn read(alloc: Global, text: &'a str) -> Option<Line<'a>> {
        let (made, due) = text.split_once(" =")?;
        let (name, call) = made.split_once(' ')?;
        let (call, words) = match call.split_once(' ') {
            Some((call, words)) => (call, words),
            None => (call, ""),
        };
        Some(Line {
            peer: place_of(name)?,
            call,
            words: Words::read(alloc, words)?,
            due,
        })
    }
}
