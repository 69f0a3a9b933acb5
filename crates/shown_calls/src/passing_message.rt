//! A link, for `link_ring`.

ghost use Rattle.std.specs.Prelude.{◌≡◌, IfSome};
ghost use Rattle.link_ring.specs.declared.message.Message.TheVariants.{Cmd};

use game_trait::Command;
use link_ring::{Message, link, rest};
use std::alloc::Global;

/// A command, and the mark behind it, over a link: the first message is the command. `None` where
/// memory ran out.
pub fn pass(alloc: Global, x: &Command) -> Option<Message>
    ensures { IfSome result (λ first. first ≡ Cmd x.now) }
{
    let (mut send, mut receive) = link(alloc, 2).ok()?;
    send.send(&Message::Cmd(*x));
    send.send(&Message::Mark(x.time));
    // who holds both ends sees how much is on its way; `cross` sends each end to its thread
    rest(&mut send, &mut receive);
    receive.receive()
}
