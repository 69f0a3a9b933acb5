//! The end of a link that sends.

ghost use Rattle.std.specs.Prelude.{◌+◌, ◌≤◌, length};
ghost use Rattle.rtrb.specs.Ring.{sent, known_free, producer_capacity};

use crate::message::Message;
use rtrb::Producer;

/// The end of a link that sends. Contracts see what was sent so far, and how many messages may be
/// sent in all.
#[derive(Drop)]
pub struct LinkSend {
    pub(crate) producer: Producer<Message>,
    ghost room: { producer_capacity producer ≤ known_free producer + length (sent producer) },
}

impl LinkSend {
    ghost use Rattle.std.specs.Prelude.{◌≡◌, ◌<◌, [], ◌∷◌, ◌++◌, length};
    ghost use Rattle.link_ring.specs.Ends.{sent_of, room_of, SameSend};

    pub(crate) fn new(producer: Producer<Message>) -> LinkSend
        requires { producer_capacity producer ≤ known_free producer + length (sent producer) }
        ensures { result.producer ≡ producer }
    {
        LinkSend { producer }
    }

    /// Sends a message. Fewer than the link has room for were sent before. It takes no memory and
    /// waits for nobody.
    pub fn send(&mut self, x: &Message)
        requires { length (sent_of self.old) < room_of self.old }
        ensures sent { sent_of self.new ≡ sent_of self.old ++ x.now ∷ [] }
        ensures room { room_of self.new ≡ room_of self.old }
        ensures same { SameSend self.old self.new }
    {
        self.producer.push_reserved(*x);
    }
}
