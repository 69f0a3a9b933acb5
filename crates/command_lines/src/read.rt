//! Reading one command's line.

ghost use Rattle.std.specs.Prelude.{◌≡◌, ◌⊎◌, IfOk, IfErr, Ok, Some};
ghost use Rattle.tss_io.specs.Lines.{words_of};
ghost use Rattle.tss_io.specs.Reading.{Answers};
ghost use Rattle.tss_io.specs.Kinds.{keyword_step, first_failing};
ghost use Rattle.tss_io.specs.declared.cause.Cause.TheVariants as causes;
ghost use Rattle.game_trait.specs.declared.command.Command as command_type;
ghost use Rattle.command_lines.specs.CommandLine.{line_kind, IsCommandLine, command_line, command_checks};
ghost use Rattle.command_lines.specs.Faults.{fault_cause, Reads};

use crate::ranges::CommandRanges;
use crate::words::CommandWords;
use game_trait::Command;
use tss_io::Cause;
use tss_io::words::front;

/// Why a command's line wasn't read.
#[derive(Clone, Copy, Debug, PartialEq, Eq)]
pub enum CommandFault {
    /// The line isn't six words parted by single spaces, of which the first is `cmd` and the last
    /// an act of the version.
    Shape,
    /// The shape is right, and one of the four numbers isn't canonical or is out of range.
    Number,
}

// The command of the line.
fn command_of(line: &[u8], version: u8) -> Result<Command, Cause>
    ensures { Answers (λ x. x) result (keyword_step (line_kind version) tt line.now) }
{
    let (word, words) = front(line)?;
    if word != b"cmd".as_slice() {
        return Err(Cause::Shape);
    }
    let words = CommandWords::of(version, words)?;
    words.read(CommandRanges::widest(version))
}

// The command of the line, with the fault by its own name.
fn read(line: &[u8], version: u8) -> Result<Command, CommandFault>
    ensures { Reads result (keyword_step (line_kind version) tt line.now) }
{
    match command_of(line, version) {
        Ok(command) => Ok(command),
        Err(cause) => Err(fault_of(cause)),
    }
}

// The fault by its own name.
fn fault_of(cause: Cause) -> CommandFault
    requires { (cause ≡ causes.Shape) ⊎ (cause ≡ causes.Number) }
    ensures { fault_cause result ≡ cause }
{
    match cause {
        Cause::Number => CommandFault::Number,
        _ => CommandFault::Shape,
    }
}

/// Reads one command's line, without its newline, of a match text of the version, which is 1 or 2
/// (this project's own form). It takes no memory.
pub fn read_command(line: &[u8], version: u8) -> Result<Command, CommandFault>
    requires { (version ≡ 1) ⊎ (version ≡ 2) }
    // What is read is a command of the version, and the line is its line.
    ensures found { IfOk result (λ c. IsCommandLine version c × (line.now ≡ command_line c)) }
    // The line of a command of the version is read as that command.
    ensures only { (c : command_type.Command) → IsCommandLine version c → line.now ≡ command_line c
        → result ≡ Ok c }
    // A refusal is the line's first failing check.
    ensures refused { IfErr result
        (λ fault. first_failing (command_checks version line.now) ≡ Some (fault_cause fault)) }
{
    read(line, version)
}
