//! What whoever holds both ends of a link sees.

ghost use Rattle.std.specs.Prelude.{◌≡◌, ◌++◌, length};
ghost use mathlib.Core.List.{IsPrefix};
ghost use Rattle.link_ring.specs.Ends.{sent_of, room_of, received_of, waiting_of, misses_of, IsLink, SameSend, SameReceive};

use crate::receive::LinkReceive;
use crate::send::LinkSend;

/// How many messages are left in a link. The two are ends of one link. What was received, and then
/// what is left, is what was sent; what is left is known to be on its way from then on. It takes no
/// memory.
pub fn rest(send: &mut LinkSend, receive: &mut LinkReceive) -> u32
    requires { IsLink send.old receive.old }
    ensures whole { received_of receive.new ++ waiting_of receive.new ≡ sent_of send.new }
    ensures left { result ≡ length (waiting_of receive.new) }
    ensures known { IsPrefix (waiting_of receive.old) (waiting_of receive.new) }
    ensures sent { sent_of send.new ≡ sent_of send.old }
    ensures room { room_of send.new ≡ room_of send.old }
    ensures received { received_of receive.new ≡ received_of receive.old }
    ensures misses { misses_of receive.new ≡ misses_of receive.old }
    ensures same_send { SameSend send.old send.new }
    ensures same_receive { SameReceive receive.old receive.new }
{
    receive.consumer.slots_beside(&mut send.producer) as u32
}
