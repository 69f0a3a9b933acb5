//! How the program ends.

/// How the program ends; `as u8` gives the exit status.
#[derive(Clone, Copy, Debug, PartialEq, Eq)]
pub enum Status {
    /// The due text was written whole.
    Complete = 0,
    /// Memory ran out, and nothing was written.
    NoMemory = 1,
    /// The words ask for nothing; nothing was read, and the usage line was written.
    WrongWords = 2,
    /// A read failed, and nothing was written.
    ReadFault = 3,
    /// A write failed, and a proper front of the due text was written.
    WriteFault = 4,
    /// The text was refused, and the line that says so was written.
    Refusal = 5,
    /// The record isn't legal, and the line that says so was written.
    NotLegal = 6,
    /// No tick was left for a mirror that joins late, and the line that says so was written.
    TooLate = 7,
}
