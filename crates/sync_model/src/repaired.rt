//! What an answer says was repaired.

ghost use Rattle.std.specs.Prelude.{◌≡◌};
ghost use Rattle.sync_model.specs.History.{repaired_in};

use game_trait::{Arrived, Reply, Stepped};

/// How many copies an answer says were repaired.
pub fn repaired_in(reply: &Reply) -> u8
    ensures { result ≡ repaired_in reply.now }
{
    match *reply {
        Reply::Arrive(Arrived::Taken { repaired }) => repaired,
        Reply::Step(Stepped::Ran { repaired }) => repaired,
        _ => 0,
    }
}
