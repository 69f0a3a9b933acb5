//! Looks at a peer.

use crate::tests::line::Words;
use crate::tests::said::{Kind, Said};
use game_trait::{Game, Item, MirrorId, Tick};
use peer_calls::Newest;
use peer_model::Mark;
use peer_session::Peer;

// Looks at a peer by the look's name. `None`: there is no such look, or a word is missing.
pub(super) fn look<G: Game>(
    peer: &Peer<G>,
    name: &str,
    words: &Words,
    said: &mut Said,
) -> Option<()> {
    match name {
        "clock" => said.answer(
            Kind::Value,
            u64::from(peer.start()),
            u64::from(peer.clock()),
        ),
        "base" => said.answer(Kind::Value, u64::from(peer.base()), peer.forgotten()),
        "copy_clock" => copy_clock(peer, words.byte(0)?, said),
        "run_len" => run_len(peer, words.byte(0)?, said),
        "items" => items(
            peer,
            words.byte(0)?,
            words.number(1)?,
            words.number(2)?,
            said,
        ),
        "payload" => payload(
            peer,
            words.byte(0)?,
            words.count(1)?,
            words.number(2)?,
            said,
        ),
        "slot_of" => slot_of(peer, words.byte(0)?, said),
        "known" => known(peer, words.byte(0)?, words.byte(1)?, said),
        _ => return None,
    }
    Some(())
}

fn copy_clock<G: Game>(peer: &Peer<G>, copy: u8, said: &mut Said) {
    match peer.copy_clock(copy) {
        None => said.kind(Kind::NotThere),
        Some(clock) => said.answer(Kind::Value, 0, u64::from(clock)),
    }
}

fn run_len<G: Game>(peer: &Peer<G>, copy: u8, said: &mut Said) {
    match peer.run_len(copy) {
        None => said.kind(Kind::NotThere),
        Some(len) => said.answer(
            Kind::Value,
            0,
            peer.forgotten().saturating_add(u64::from(len)),
        ),
    }
}

// How many items of a copy's run are remembered, of a copy that isn't there none.
fn len_of<G: Game>(peer: &Peer<G>, copy: u8) -> u64 {
    match peer.run_len(copy) {
        None => 0,
        Some(len) => u64::from(len),
    }
}

// The items of a copy's run from a place on, which is counted from where the peer began.
fn items<G: Game>(peer: &Peer<G>, copy: u8, place: u64, room: u64, said: &mut Said) {
    let len = len_of(peer, copy);
    let forgotten = peer.forgotten();
    if peer.copies() <= copy || place < forgotten || len < place - forgotten {
        said.kind(Kind::NotThere);
        return;
    }
    let from = place - forgotten;
    let count = room.min(len - from);
    said.answer(Kind::Value, 0, count);
    for at in from..from + count {
        item(peer, copy, at, said);
    }
}

// The item at a place among those that are remembered, where it is there.
fn item<G: Game>(peer: &Peer<G>, copy: u8, at: u64, said: &mut Said) {
    let Some(len) = peer.run_len(copy) else {
        return;
    };
    if u64::from(len) <= at {
        return;
    }
    tell_item(&peer.item(copy, at as u32), said);
}

// Whether it is a beat, and else whose command it is, which one, and when it is due.
fn tell_item(item: &Item, said: &mut Said) {
    match item {
        Item::Beat => {
            said.number(1);
            said.number(0);
            said.number(0);
            said.number(0);
        }
        Item::Cmd(x) => {
            said.number(0);
            said.number(u64::from(x.from));
            said.number(u64::from(x.number));
            said.number(u64::from(x.time));
        }
    }
}

fn payload<G: Game>(peer: &Peer<G>, slot: MirrorId, number: u32, room: u64, said: &mut Said) {
    if peer.config().terms.slots <= slot {
        said.kind(Kind::NotThere);
        return;
    }
    match peer.queue(slot).payload_of(number) {
        None => said.kind(Kind::NotThere),
        Some(bytes) if room < bytes.len() as u64 => {
            said.answer(Kind::Short, 0, bytes.len() as u64);
        }
        Some(bytes) => {
            said.answer(Kind::Value, 0, bytes.len() as u64);
            said.bytes(bytes);
        }
    }
}

// What is known of a slot: its commands, the newest of its clock, its mark, and where that differed.
fn slot_of<G: Game>(peer: &Peer<G>, slot: MirrorId, said: &mut Said) {
    if peer.config().terms.slots <= slot {
        said.kind(Kind::NotThere);
        return;
    }
    let queue = peer.queue(slot);
    said.answer(Kind::Value, 0, u64::from(queue.have()));
    said.number(u64::from(queue.have()));
    said.number(u64::from(queue.kept()));
    said.number(u64::from(queue.last()));
    said.number(u64::from(queue.late()));
    newest(newest_of(peer, slot), said);
    marked(mark_of(peer, slot), said);
    differs(differs_at(peer, slot), said);
}

fn newest_of<G: Game>(peer: &Peer<G>, slot: MirrorId) -> Option<Newest> {
    if peer.links().slots() <= slot {
        return None;
    }
    peer.links().newest(slot)
}

fn differs_at<G: Game>(peer: &Peer<G>, slot: MirrorId) -> Option<Tick> {
    if peer.links().slots() <= slot {
        return None;
    }
    peer.links().differs(slot)
}

// A slot's newest mark, also of the peer's own.
fn mark_of<G: Game>(peer: &Peer<G>, slot: MirrorId) -> Option<Mark> {
    if slot == peer.me() {
        let (tick, sum) = peer.links().newest_mark()?;
        return Some(Mark { tick, sum });
    }
    if peer.links().slots() <= slot {
        return None;
    }
    peer.links().mark_of(slot)
}

fn marked(mark: Option<Mark>, said: &mut Said) {
    let told = mark.unwrap_or(Mark { tick: 0, sum: 0 });
    said.flag(mark.is_some());
    said.number(u64::from(told.tick));
    said.number(u64::from(told.sum));
}

fn differs(tick: Option<Tick>, said: &mut Said) {
    said.flag(tick.is_some());
    said.number(u64::from(tick.unwrap_or(0)));
}

fn newest(newest: Option<Newest>, said: &mut Said) {
    let told = newest.unwrap_or(Newest {
        clock: 0,
        echo: 0,
        at: 0,
    });
    said.flag(newest.is_some());
    said.number(u64::from(told.clock));
    said.number(u64::from(told.echo));
    said.number(u64::from(told.at));
}

fn known<G: Game>(peer: &Peer<G>, slot: MirrorId, origin: MirrorId, said: &mut Said) {
    let slots = peer.config().terms.slots;
    if slots <= slot || slots <= origin {
        said.kind(Kind::NotThere);
        return;
    }
    said.answer(Kind::Value, 0, u64::from(peer.known(slot, origin)));
}
