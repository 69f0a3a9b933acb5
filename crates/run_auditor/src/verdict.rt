//! What an audit says of a record.

ghost use Rattle.std.specs.Prelude.{◌≡◌, ◌++◌, OnOk};
ghost use Rattle.run_auditor.specs.Verdicts.{why_word, verdict_text};

use crate::why::Why;
use game_trait::MirrorId;
use report_text::done_line;
use tss_base::NoMemory;
use tss_io::{Word, push_line};

/// What an audit says of a record.
#[derive(Clone, Copy, Debug, PartialEq, Eq)]
pub enum Verdict {
    /// Every log is legal, and every stated world is exactly the one that its log leads to.
    Legal {
        /// The events of all logs.
        events: u64,
    },
    /// The first fault, mirror after mirror, of each its log before its worlds.
    NotLegal {
        /// The mirror.
        mirror: MirrorId,
        /// The event's place in the log, from 0, or for `World` the copy.
        place: u32,
        /// What is wrong there.
        why: Why,
    },
}

// The word of a cause.
fn word_of(why: Why) -> &'static [u8]
    ensures { result.now ≡ why_word why }
{
    match why {
        Why::Over => b"over",
        Why::Repeat => b"repeat",
        Why::Idle => b"idle",
        Why::World => b"world",
    }
}

impl Verdict {
    /// Appends what an audit prints: `legal E` and `done`, or `not legal mirror M place P why WHY`
    /// alone. On `NoMemory` a front of it may have been appended.
    #[tactic(auto, unfolding(crate::specs::Verdicts::verdict_text))]
    pub fn push(&self, out: &mut Vec<u8>) -> Result<(), NoMemory>
        ensures { OnOk result (out.new.items ≡ out.old.items ++ verdict_text self.now) }
    {
        match *self {
            Verdict::Legal { events } => {
                push_line(out, &[Word::Text(b"legal"), Word::Count(events)])?;
                done_line(out)?;
                Ok(())
            }
            Verdict::NotLegal { mirror, place, why } => {
                let words = [
                    Word::Text(b"not"),
                    Word::Text(b"legal"),
                    Word::Text(b"mirror"),
                    Word::Count(u64::from(mirror)),
                    Word::Text(b"place"),
                    Word::Count(u64::from(place)),
                    Word::Text(b"why"),
                    Word::Text(word_of(why)),
                ];
                push_line(out, &words)?;
                Ok(())
            }
        }
    }
}
