//! What a peer hands to one that joins.

ghost use Rattle.std.specs.Prelude.{◌≡◌, length, take};
ghost use Rattle.peer_calls.specs.Handing.{said_to_snapshot, snapshot_text};
ghost use Rattle.peer_handing.specs.Handing.{IfPut, IfTooShort};
ghost use Rattle.peer_session.specs.Parts.{state_of};

use crate::peer::Peer;
use game_trait::Game;
use peer_calls::SnapshotAnswer;
use peer_handing::put_snapshot;

impl<G: Game> Peer<G> {
    /// Puts what this peer hands to one that joins into a buffer: its clocks, how many commands of each slot
    /// it has, and of each queue what is due from its last copy's clock on. The snapshot is the first `size`
    /// bytes where it is `Put`; `TooShort` tells how many bytes it has, and leaves the buffer as it was. It
    /// changes nothing of the peer. The last copy's world isn't in it: the host adds that, as it stands at the
    /// last copy's clock.
    pub fn snapshot(&self, out: &mut [u8]) -> SnapshotAnswer
        ensures answer { result ≡ said_to_snapshot self.now.config (length out.old) (state_of self.now) }
        ensures bytes { IfPut result (λ size. take size out.new ≡ snapshot_text self.now.config (state_of self.now)) }
        ensures length { length out.new ≡ length out.old }
        ensures refused { IfTooShort result (out.new ≡ out.old) }
    {
        put_snapshot(out, &self.config, self.me, &self.mirror, &self.queues)
    }
}
