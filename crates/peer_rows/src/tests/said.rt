//! What a peer answered, as a line tells it.

use std::alloc::Global;

// The kind of an answer, as the library for C numbers it.
#[derive(Clone, Copy)]
pub(super) enum Kind {
    Moved = 0,
    Over = 1,
    Taken = 2,
    Ran = 3,
    Idle = 4,
    Restaggered = 5,
    Value = 6,
    Made = 7,
    Heard = 8,
    Marked = 9,
    NotThere = 17,
    Far = 18,
    Full = 19,
    NoMemory = 21,
    TooLong = 22,
    Behind = 23,
    End = 24,
    Short = 25,
    Malformed = 26,
    OtherSession = 27,
    NotForMe = 28,
    Ahead = 29,
    Conflict = 30,
    Used = 31,
    Again = 32,
}

// What was answered, put out and told, each word behind a blank. Where memory runs out words are missing.
#[derive(Drop)]
pub(super) struct Said {
    text: String,
}

impl Said {
    pub(super) fn new(alloc: Global) -> Said {
        Said {
            text: String::new(alloc),
        }
    }

    // Zeroes to put bytes into, of the same memory.
    pub(super) fn buffer(&self, size: u32) -> Option<Vec<u8>> {
        let alloc = *self.text.allocator();
        vec![in alloc; 0; size as usize].ok()
    }

    pub(super) fn text(&self) -> &str {
        self.text.as_str()
    }

    // An answer's kind, `other` and value.
    pub(super) fn answer(&mut self, kind: Kind, other: u64, value: u64) {
        let kind = kind as u8;
        let _ = write!(self.text, " {kind} {other} {value}");
    }

    // An answer that says no more than its kind.
    pub(super) fn kind(&mut self, kind: Kind) {
        self.answer(kind, 0, 0);
    }

    pub(super) fn number(&mut self, number: u64) {
        let _ = write!(self.text, " {number}");
    }

    // 1 where it is so, and else 0.
    pub(super) fn flag(&mut self, is: bool) {
        self.number(u64::from(is));
    }

    pub(super) fn bytes(&mut self, bytes: &[u8]) {
        let _ = self.text.push_str(" x");
        for byte in bytes {
            let _ = write!(self.text, "{byte:02x}");
        }
    }
}
