//! What is answered to a turn.

ghost use Rattle.std.specs.Prelude.{◌≡◌};
ghost use Rattle.mirror_c.specs.Answers.{told_turn};
ghost use Rattle.sync_model.specs.Host.{most_repaired};

use crate::answer::{Answer, bare, told};
use crate::codes::OVER;
use game_trait::Reply;
use sync_model::repaired_in;

/// The answer to a turn, to which the mirror replied so: its tick's kind, and the most copies that
/// one of its steps repaired.
pub fn told_turn(replies: &[Reply]) -> Answer
    ensures { result ≡ told_turn replies.now }
{
    let Some(ticked) = replies.first() else {
        return bare(OVER);
    };
    Answer {
        kind: told(*ticked).kind,
        value: most_repaired(replies),
    }
}

// The most copies that one of the replies says were repaired.
#[tactic(auto, unfolding(sync_model::specs::Host::most_repaired))]
fn most_repaired(replies: &[Reply]) -> u32
    ensures { result ≡ most_repaired replies.now }
{
    let mut most = 0;
    for reply in replies {
        most = most.max(u32::from(repaired_in(reply)));
    }
    most
}
