//! A snapshot of the session, put for one that joins.

ghost use Rattle.std.specs.Prelude.{◌≡◌, ℕ, ◌<◌, length, take};
ghost use Rattle.rolling_mirror.specs.Rolling.{last_tick};
ghost use Rattle.peer_calls.specs.Handing.{said_to_snapshot, snapshot_text};
ghost use Rattle.peer_slots.specs.Links.{LinkState};
ghost use Rattle.peer_slots.specs.Queues.{queues_of};
ghost use Rattle.peer_sending.specs.Sending.{state_of};
ghost use Rattle.peer_handing.specs.Handing.{IfPut, IfTooShort};

use crate::slots::{put_slots, slots_size};
use game_trait::{Game, MirrorId, Tick};
use peer_calls::{Config, SnapshotAnswer};
use peer_packet::{Opening, put_opening, put_vector};
use peer_slots::Queues;
use rolling_mirror::RollingMirror;

/// The clock of the mirror's last copy, as a tick of the session.
pub fn last_tick<G: Game>(mirror: &RollingMirror<G>) -> Tick
    ensures { result ≡ last_tick mirror.now }
{
    mirror.copy_clock(mirror.copies() - 1)
}

/// Puts what the peer in slot `me` hands to one that joins into a buffer: its clocks, how many commands of
/// each slot it has, and of each queue what is due from its last copy's clock on. It is what `peer_calls` says
/// of the peer that has these queues and this mirror. The snapshot is the first `size` bytes of the buffer
/// where it is `Put`; `TooShort` tells how many bytes it has, and changes nothing. The last copy's world isn't
/// in it: whoever hands it over adds that.
pub fn put_snapshot<G: Game>(
    out: &mut [u8],
    config: &Config,
    me: MirrorId,
    mirror: &RollingMirror<G>,
    queues: &Queues,
) -> SnapshotAnswer
    requires me { me < config.now.terms.slots }
    requires queues { (queues_of queues.now).slots ≡ config.now.terms.slots }
    ensures answer { (start : ℕ) (links : LinkState)
        → result ≡ said_to_snapshot config.now (length out.old) (state_of me start (queues_of queues.now) links mirror.now) }
    ensures bytes { IfPut result (λ size. (start : ℕ) (links : LinkState)
        → take size out.new ≡ snapshot_text config.now (state_of me start (queues_of queues.now) links mirror.now)) }
    ensures length { length out.new ≡ length out.old }
    ensures refused { IfTooShort result (out.new ≡ out.old) }
{
    let opening = Opening {
        maker: me,
        base: last_tick(mirror),
        clock: mirror.clock(),
    };
    let have = queues.counts();
    let size = 28 + slots_size(queues, opening.base);
    if out.len() < size {
        return SnapshotAnswer::TooShort { size };
    }
    let at = put_opening(out, 0, &config.terms, &opening);
    let at = put_vector(out, at, have.as_slice());
    let _behind = put_slots(out, at, queues, opening.base);
    SnapshotAnswer::Put { size }
}
