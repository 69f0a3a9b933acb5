//! Why a text wasn't read.

ghost use Rattle.std.specs.Prelude.{◌≡◌, ◌++◌, OnOk, OnErr};
ghost use Rattle.tss_io.specs.Causes.{refused_words};
ghost use Rattle.tss_io.specs.Lines.{as_line, spaced};
ghost use Rattle.tss_io.specs.Reading.{fault_at};
ghost use Rattle.tss_io.specs.declared.fault.LineFault.TheVariants as line_faults;
ghost use Rattle.tss_io.specs.declared.fault.TextFault.TheVariants as text_faults;

use crate::cause::Cause;
use crate::line::{Word, push_line};
use std::alloc::{AllocError, AllocFailed};
use std::fmt::{self, Display, Formatter, Write};
use tss_base::NoMemory;

/// A text that is refused: its first line with a fault, and that line's first fault.
#[derive(Clone, Copy, Debug, PartialEq, Eq)]
pub struct Refused {
    /// The line, counted from 1, or 0 for the whole text.
    pub line: u32,
    /// What is wrong there.
    pub cause: Cause,
}

impl Refused {
    /// Appends the line that tells the refusal: `refused line L cause C WORD`. On `NoMemory` `out`
    /// is unchanged.
    pub fn push_line(&self, out: &mut Vec<u8>) -> Result<(), NoMemory>
        ensures ok { OnOk result
            (out.new.items ≡ out.old.items ++ as_line (spaced (refused_words self.now))) }
        ensures err { OnErr result (out.new.items ≡ out.old.items) }
    {
        let words = [
            Word::Text(b"refused"),
            Word::Text(b"line"),
            Word::Number(i64::from(self.line)),
            Word::Text(b"cause"),
            Word::Number(i64::from(self.cause.number())),
            Word::Text(self.cause.word().as_bytes()),
        ];
        push_line(out, &words)
    }
}

impl Display for Refused {
    fn fmt<W: Write>(&self, f: &mut Formatter<W>) -> fmt::Result {
        let number = self.cause.number();
        write!(
            f,
            "refused line {} cause {number} {}",
            self.line, self.cause
        )
    }
}

/// Why a line wasn't read.
#[derive(Clone, Copy, Debug, PartialEq, Eq)]
pub enum LineFault {
    /// The line is wrong.
    Refused(Cause),
    /// Memory ran out, which says nothing of the line.
    NoMemory,
}

impl LineFault {
    /// The same of a text, whose line of this number it is.
    pub fn at(self, line: u32) -> TextFault
        ensures { result ≡ fault_at line self }
    {
        match self {
            LineFault::Refused(cause) => TextFault::Refused(Refused { line, cause }),
            LineFault::NoMemory => TextFault::NoMemory,
        }
    }
}

/// Why a text wasn't read.
#[derive(Clone, Copy, Debug, PartialEq, Eq)]
pub enum TextFault {
    /// The text is wrong.
    Refused(Refused),
    /// Memory ran out, which says nothing of the text.
    NoMemory,
}

impl From<Cause> for LineFault {
    ghost from_gives = { λ cause e. e ≡ line_faults.Refused cause };

    fn from(cause: Cause) -> LineFault {
        LineFault::Refused(cause)
    }
}

impl From<NoMemory> for LineFault {
    ghost from_gives = { λ _ e. e ≡ line_faults.NoMemory };

    fn from(_e: NoMemory) -> LineFault {
        LineFault::NoMemory
    }
}

impl From<AllocError> for LineFault {
    ghost from_gives = { λ _ e. e ≡ line_faults.NoMemory };

    fn from(_e: AllocError) -> LineFault {
        LineFault::NoMemory
    }
}

impl<T: Drop> From<AllocFailed<T>> for LineFault {
    ghost from_gives = { λ _ e. e ≡ line_faults.NoMemory };

    fn from(_e: AllocFailed<T>) -> LineFault {
        LineFault::NoMemory
    }
}

impl From<Refused> for TextFault {
    ghost from_gives = { λ refused e. e ≡ text_faults.Refused refused };

    fn from(refused: Refused) -> TextFault {
        TextFault::Refused(refused)
    }
}

impl From<NoMemory> for TextFault {
    ghost from_gives = { λ _ e. e ≡ text_faults.NoMemory };

    fn from(_e: NoMemory) -> TextFault {
        TextFault::NoMemory
    }
}

impl From<AllocError> for TextFault {
    ghost from_gives = { λ _ e. e ≡ text_faults.NoMemory };

    fn from(_e: AllocError) -> TextFault {
        TextFault::NoMemory
    }
}
