//! Printing one command's line.

ghost use Rattle.std.specs.Prelude.{◌≡◌, ◌++◌, OnOk, OnErr, IfOk};
ghost use Rattle.tss_io.specs.Lines.{as_line};
ghost use Rattle.command_lines.specs.CommandLine.{act_word, IsCommandLine, command_line};

use game_trait::{Act, Command};
use std::alloc::Global;
use tss_base::NoMemory;
use tss_io::{Word, push_line};

fn act_text(act: Act) -> &'static [u8]
    ensures { result.now ≡ act_word act }
{
    match act {
        Act::Go => b"go",
        Act::Left => b"left",
        Act::Right => b"right",
        Act::Shoot => b"shoot",
        Act::Dash => b"dash",
    }
}

/// Appends the command's line and its newline. On `NoMemory` `out` is unchanged.
pub fn push_command(out: &mut Vec<u8>, x: &Command) -> Result<(), NoMemory>
    ensures ok { OnOk result (out.new.items ≡ out.old.items ++ as_line (command_line x.now)) }
    ensures err { OnErr result (out.new.items ≡ out.old.items) }
{
    let words = [
        Word::Text(b"cmd"),
        Word::Number(i64::from(x.time)),
        Word::Number(i64::from(x.from)),
        Word::Number(i64::from(x.number)),
        Word::Number(i64::from(x.player)),
        Word::Text(act_text(x.act)),
    ];
    push_line(out, &words)
}

/// The one line, without its newline, that is read as the command, whose numbers are in version 2's
/// ranges.
pub fn print_command(alloc: Global, x: &Command) -> Result<Vec<u8>, NoMemory>
    requires { IsCommandLine 2 x.now }
    ensures { IfOk result (λ line. line.items ≡ command_line x.now) }
{
    let mut line = Vec::new(alloc);
    push_command(&mut line, x)?;
    line.pop();
    Ok(line)
}
