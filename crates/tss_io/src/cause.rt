//! Why texts are refused.

ghost use Rattle.std.specs.Prelude.{◌≡◌};
ghost use Rattle.tss_io.specs.Causes.{cause_number, cause_word};

use std::fmt::{self, Display, Formatter, Write};

/// Why a text is refused (this project's own).
#[derive(Clone, Copy, Debug, PartialEq, Eq)]
pub enum Cause {
    /// The first line isn't the head of such a text.
    Head,
    /// The line isn't words in a form that may stand there.
    Shape,
    /// A number isn't a canonical decimal, or is out of range.
    Number,
    /// A cell is outside the grid or taken.
    Place,
    /// A name is none, is there already, or names what isn't there.
    Name,
    /// Numbers or cells that must rise don't.
    Order,
    /// There are more lines or numbers of a kind than are allowed.
    Many,
    /// The text ends too early, or goes on behind its end.
    End,
    /// The line, or the whole text, is too long.
    Long,
}

impl Cause {
    /// The cause's number, from 1 to 9, as it is printed.
    pub fn number(self) -> u8
        ensures { result ≡ cause_number self }
    {
        match self {
            Cause::Head => 1,
            Cause::Shape => 2,
            Cause::Number => 3,
            Cause::Place => 4,
            Cause::Name => 5,
            Cause::Order => 6,
            Cause::Many => 7,
            Cause::End => 8,
            Cause::Long => 9,
        }
    }

    /// The cause's word, as it is printed.
    pub fn word(self) -> &'static str
        ensures { result.now ≡ cause_word self }
    {
        match self {
            Cause::Head => "head",
            Cause::Shape => "shape",
            Cause::Number => "number",
            Cause::Place => "place",
            Cause::Name => "name",
            Cause::Order => "order",
            Cause::Many => "many",
            Cause::End => "end",
            Cause::Long => "long",
        }
    }
}

impl Display for Cause {
    fn fmt<W: Write>(&self, f: &mut Formatter<W>) -> fmt::Result {
        f.write_str(self.word())
    }
}
