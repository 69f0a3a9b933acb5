//! A walk over a text, line by line.

ghost use Rattle.std.specs.Prelude.{◌≡◌, ◌≤◌, ◌-◌, ℕ, length, Err};
ghost use Rattle.tss_io.specs.Kinds.{line_at};
ghost use Rattle.tss_io.specs.Lines.{lines_of};
ghost use Rattle.tss_io.specs.Walks.{left_of, step_at, walked};

use crate::cause::Cause;
use crate::words::next_line;
use std::marker::Model;

/// What a walk finds next.
#[derive(Clone, Copy, Debug, PartialEq, Eq)]
pub enum LineStep {
    /// A line of at most `LONGEST_LINE` bytes that a newline closes.
    Line {
        /// Where it begins in the text, in bytes.
        start: usize,
        /// How many bytes it has without its newline.
        len: usize,
    },
    /// More than `LONGEST_LINE` bytes stand before the next newline or the end.
    Long,
    /// 1 to `LONGEST_LINE` bytes stand before the end, and no newline closes them.
    Torn,
    /// Nothing is left.
    End,
}

/// A walk over a text. It takes no memory.
#[derive(Debug, Drop)]
pub struct Lines<'a> {
    text: &'a [u8],
    start: usize,
}

impl<'a> Model for Lines<'a> {
    ghost use Rattle.std.specs.Prelude.{◌≤◌, length};
    ghost use Rattle.tss_io.specs.Walks.{Walk};

    ghost Value = { Walk };

    ghost view = { λ w. record { text = w.text.now; start = w.start } };

    ghost invariant = { λ w. w.start ≤ length w.text.now };
}

impl<'a> Lines<'a> {
    /// A walk that begins at the text's first line.
    pub fn new(text: &'a [u8]) -> Lines<'a>
        ensures { result ≡ record { text = text.now; start = 0 } }
    {
        Lines { text, start: 0 }
    }

    /// What is left.
    pub fn rest(&self) -> &'a [u8]
        ensures { result.now ≡ left_of self.now }
    {
        let (_, rest) = self.text.split_at(self.start);
        rest
    }

    /// The next line, behind which the walk then stands. After `Long`, `Torn` and `End` it stands
    /// where it stood.
    pub fn next(&mut self) -> LineStep
        ensures found { result ≡ step_at self.old.start (lines_of (left_of self.old)) }
        ensures moved { self.new ≡ walked self.old }
    {
        let rest = self.rest();
        match next_line(rest) {
            Ok((line, _)) => {
                let start = self.start;
                let len = line.len();
                self.start = start + (len + 1);
                LineStep::Line { start, len }
            }
            Err(cause) => no_line(cause, rest),
        }
    }

    /// Goes on to where no more than `rest` bytes are left, which are no more than the text has.
    pub fn leave(&mut self, rest: usize)
        requires { rest ≤ length self.old.text }
        ensures { self.new ≡ record self.old { start = length self.old.text - rest } }
    {
        self.start = self.text.len() - rest;
    }
}

// What is found where no line is.
fn no_line(cause: Cause, rest: &[u8]) -> LineStep
    requires { line_at (lines_of rest.now) ≡ Err cause }
    ensures { (start : ℕ) → result ≡ step_at start (lines_of rest.now) }
{
    match cause {
        Cause::Long => LineStep::Long,
        _ => {
            if rest.is_empty() {
                LineStep::End
            } else {
                LineStep::Torn
            }
        }
    }
}
