//! Why a peer doesn't join by a snapshot.

ghost use Rattle.std.specs.Prelude.{◌≡◌, nat_le, get_or};
ghost use Rattle.std.specs.List.{list_any};
ghost use Rattle.peer_packet.specs.Packet.{Sent};
ghost use Rattle.peer_calls.specs.Handing.{is_used, is_far, is_crowded, join_refused};

use game_trait::{MirrorId, Number};
use peer_calls::{Config, JoinRefusal};
use peer_packet::{CommandsView, SnapshotView};

// How many commands of a slot were counted, 0 where there is no such slot.
fn counted_of(have: &[Number], slot: MirrorId) -> Number
    ensures { result ≡ get_or have.now slot 0 }
{
    match have.get(usize::from(slot)) {
        Some(count) => *count,
        None => 0,
    }
}

// The slot is the maker's, or was one's that issued commands.
fn is_used(me: MirrorId, snap: &SnapshotView<'_>) -> bool
    ensures { result ≡ is_used me snap.now }
{
    snap.maker() == me || 0 < counted_of(snap.have(), me)
}

// One of these commands is due at this tick or later.
fn any_from(end: u64, commands: CommandsView<'_>) -> bool
    ensures { result ≡ list_any (λ (x : Sent). nat_le end x.time) commands.entry }
{
    let mut left = commands;
    while let Some(x) = left.next() {
        if end <= u64::from(x.time) {
            return true;
        }
    }
    false
}

// A command is due where a window of so many ticks doesn't reach.
fn is_far(window: u32, snap: &SnapshotView<'_>) -> bool
    ensures { result ≡ is_far window snap.now }
{
    let end = u64::from(snap.base()) + u64::from(window);
    let mut left = snap.queues();
    while let Some(queue) = left.next() {
        if any_from(end, queue.commands()) {
            return true;
        }
    }
    false
}

// There are more commands of a slot than there is room for.
fn is_crowded(room: u32, snap: &SnapshotView<'_>) -> bool
    ensures { result ≡ is_crowded room snap.now }
{
    let mut left = snap.queues();
    while let Some(queue) = left.next() {
        if room < u32::from(queue.head().count) {
            return true;
        }
    }
    false
}

/// Why a peer doesn't join in slot `me` by a snapshot of its session, with a window of so many ticks: the first
/// reason in the order of `JoinRefusal`. `None`: it may.
pub fn join_refused(
    config: &Config,
    me: MirrorId,
    window: u32,
    snap: &SnapshotView<'_>,
) -> Option<JoinRefusal>
    ensures { result ≡ join_refused config.now me window snap.now }
{
    if is_used(me, snap) {
        return Some(JoinRefusal::Used);
    }
    if is_far(window, snap) {
        return Some(JoinRefusal::TooFar);
    }
    if is_crowded(config.room, snap) {
        return Some(JoinRefusal::TooMany);
    }
    None
}
