//! Whether a part follows what was counted.

ghost use Rattle.std.specs.Prelude.{◌≡◌};
ghost use Rattle.peer_model.specs.Queue.{conflicts};
ghost use Rattle.peer_calls.specs.Wire.{part_from};

use crate::queue::SlotQueue;
use crate::walk::time_before;
use peer_packet::PartView;

impl SlotQueue {
    /// A part brings commands that don't follow those that were counted: there are two lives on one slot, or
    /// no peer made it.
    pub fn conflicts(&self, part: &PartView<'_>) -> bool
        ensures { result ≡ conflicts (part_from part.now) self.now.queue }
    {
        let head = part.head();
        let have = self.have();
        if u64::from(head.first) + u64::from(head.count) <= u64::from(have) {
            return false;
        }
        if have < head.first {
            return head.before < self.last();
        }
        time_before(part, have - head.first) != self.last()
    }
}
