//! The lines that tell of a match that a number makes.

ghost use Rattle.std.specs.Prelude.{◌≡◌, ◌++◌, OnOk, OnErr};
ghost use Rattle.report_text.specs.Soak.{soak_line, same_line};

use tss_base::NoMemory;
use tss_io::{Word, push_line};

/// Appends `soak N commands C`: the number that makes the match, and how many commands the match
/// has. On `NoMemory` `out` is unchanged.
#[tactic(auto, unfolding(crate::specs::Soak::soak_line))]
pub fn soak_line(out: &mut Vec<u8>, number: u32, commands: u32) -> Result<(), NoMemory>
    ensures ok { OnOk result (out.new.items ≡ out.old.items ++ soak_line number commands) }
    ensures err { OnErr result (out.new.items ≡ out.old.items) }
{
    push_line(
        out,
        &[
            Word::Text(b"soak"),
            Word::Count(u64::from(number)),
            Word::Text(b"commands"),
            Word::Count(u64::from(commands)),
        ],
    )
}

/// Appends `same yes` or `same no`: whether all copies of all mirrors have one world. On `NoMemory`
/// `out` is unchanged.
#[tactic(auto, unfolding(crate::specs::Soak::same_line))]
pub fn same_line(out: &mut Vec<u8>, same: bool) -> Result<(), NoMemory>
    ensures ok { OnOk result (out.new.items ≡ out.old.items ++ same_line same) }
    ensures err { OnErr result (out.new.items ≡ out.old.items) }
{
    if same {
        push_line(out, &[Word::Text(b"same"), Word::Text(b"yes")])
    } else {
        push_line(out, &[Word::Text(b"same"), Word::Text(b"no")])
    }
}
