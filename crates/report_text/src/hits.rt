//! The line that tells of looks at the ticks of a match.

ghost use Rattle.std.specs.Prelude.{◌≡◌, ◌++◌, OnOk, OnErr};
ghost use Rattle.report_text.specs.Hits.{hits_line};

use tss_base::NoMemory;
use tss_io::{Word, push_line};

/// Appends `hits H`: how many looks found a world that was cached. On `NoMemory` `out` is unchanged.
#[tactic(auto, unfolding(crate::specs::Hits::hits_line))]
pub fn hits_line(out: &mut Vec<u8>, hits: u32) -> Result<(), NoMemory>
    ensures ok { OnOk result (out.new.items ≡ out.old.items ++ hits_line hits) }
    ensures err { OnErr result (out.new.items ≡ out.old.items) }
{
    push_line(out, &[Word::Text(b"hits"), Word::Count(u64::from(hits))])
}
