//! The calls that change a peer.

use crate::tests::line::Words;
use crate::tests::looks::look;
use crate::tests::said::{Kind, Said};
use game_trait::{Game, Stepped, Ticked};
use peer_calls::{HearAnswer, JoinRefusal, PacketAnswer, SnapshotAnswer, Told};
use peer_model::OwnAnswer;
use peer_packet::Fault;
use peer_session::{JoinError, Peer};

// Makes a call of a peer by its name. `None`: there is no such call, or a word is missing.
pub(super) fn call<G: Game>(
    peer: &mut Peer<G>,
    name: &str,
    words: &Words,
    said: &mut Said,
) -> Option<()> {
    match name {
        "own" => own(peer, words, said),
        "turn" => turn(peer, said),
        "step" => step(peer, words, said),
        "restagger" => restagger(peer, words, said),
        "packet" => packet(peer, words, said),
        "hear" => hear(peer, words, said),
        "mark" => mark(peer, words, said),
        "snapshot" => snapshot(peer, words, said),
        _ => look(peer, name, words, said),
    }
}

fn own<G: Game>(peer: &mut Peer<G>, words: &Words, said: &mut Said) -> Option<()> {
    let ahead = words.count(0)?;
    match peer.own(ahead, words.bytes.as_slice()) {
        OwnAnswer::TooLong => said.kind(Kind::TooLong),
        OwnAnswer::Behind { start } => said.answer(Kind::Behind, 0, u64::from(start)),
        OwnAnswer::End => said.kind(Kind::End),
        OwnAnswer::Far { end } => said.answer(Kind::Far, 0, end),
        OwnAnswer::Full => said.kind(Kind::Full),
        OwnAnswer::Taken { time, number } => {
            said.answer(Kind::Taken, u64::from(time), u64::from(number));
        }
    }
    Some(())
}

fn turn<G: Game>(peer: &mut Peer<G>, said: &mut Said) -> Option<()> {
    let answer = peer.turn();
    let kind = match answer.ticked {
        Ticked::Moved => Kind::Moved,
        Ticked::Over => Kind::Over,
    };
    said.answer(kind, 0, u64::from(answer.repaired));
    Some(())
}

fn step<G: Game>(peer: &mut Peer<G>, words: &Words, said: &mut Said) -> Option<()> {
    match peer.step(words.byte(0)?) {
        None => said.kind(Kind::NotThere),
        Some(Stepped::Ran { repaired }) => said.answer(Kind::Ran, 0, u64::from(repaired)),
        Some(Stepped::Idle) => said.kind(Kind::Idle),
    }
    Some(())
}

fn restagger<G: Game>(peer: &mut Peer<G>, words: &Words, said: &mut Said) -> Option<()> {
    if peer.restagger(words.byte(0)?) {
        said.kind(Kind::Restaggered);
    } else {
        said.kind(Kind::NotThere);
    }
    Some(())
}

// A packet is put into a buffer of as many bytes as the line gives room.
fn packet<G: Game>(peer: &mut Peer<G>, words: &Words, said: &mut Said) -> Option<()> {
    let to = words.byte(0)?;
    let mut buffer = said.buffer(words.count(1)?)?;
    match peer.packet(to, buffer.as_mut_slice()) {
        PacketAnswer::NotThere => said.kind(Kind::NotThere),
        PacketAnswer::Short { head } => said.answer(Kind::Short, 0, head as u64),
        PacketAnswer::Made { is_more, size } => {
            said.answer(Kind::Value, u64::from(is_more), size as u64);
            said.bytes(buffer.as_slice().get(..size)?);
        }
    }
    Some(())
}

fn hear<G: Game>(peer: &mut Peer<G>, words: &Words, said: &mut Said) -> Option<()> {
    match peer.hear(words.bytes.as_slice()) {
        Err(fault) => refused(fault, said),
        Ok(HearAnswer::NotForMe) => said.kind(Kind::NotForMe),
        Ok(HearAnswer::Ahead) => said.kind(Kind::Ahead),
        Ok(HearAnswer::Conflict { origin }) => {
            said.answer(Kind::Conflict, 0, u64::from(origin));
        }
        Ok(HearAnswer::Heard { from, told }) => heard(from, &told, said),
    }
    Some(())
}

// A snapshot is put into a buffer of as many bytes as the line gives room.
fn snapshot<G: Game>(peer: &Peer<G>, words: &Words, said: &mut Said) -> Option<()> {
    let mut buffer = said.buffer(words.count(0)?)?;
    match peer.snapshot(buffer.as_mut_slice()) {
        SnapshotAnswer::TooShort { size } => said.answer(Kind::Short, 0, size as u64),
        SnapshotAnswer::Put { size } => {
            said.answer(Kind::Value, 0, size as u64);
            said.bytes(buffer.as_slice().get(..size)?);
        }
    }
    Some(())
}

// Why bytes are no packet, or no snapshot, of the session.
fn refused(fault: Fault, said: &mut Said) {
    match fault.number() {
        0 => said.kind(Kind::OtherSession),
        field => said.answer(Kind::Malformed, 0, u64::from(field)),
    }
}

// What is told of a packet, and why not all of it was taken: 1 a gap, 2 far, 4 full, added up.
fn heard(from: u8, told: &Told, said: &mut Said) {
    said.answer(Kind::Heard, u64::from(from), u64::from(told.repaired));
    said.number(u64::from(from));
    said.number(u64::from(told.taken));
    said.number(told.late);
    said.number(u64::from(told.repaired));
    said.number(u64::from(told.gap) | u64::from(told.far) << 1 | u64::from(told.full) << 2);
    said.flag(told.differs);
}

fn mark<G: Game>(peer: &mut Peer<G>, words: &Words, said: &mut Said) -> Option<()> {
    match peer.mark(words.count(0)?) {
        None => said.kind(Kind::Again),
        Some((tick, differing)) => {
            said.answer(Kind::Marked, u64::from(differing), u64::from(tick));
        }
    }
    Some(())
}

// Why no peer joined.
pub(super) fn not_joined(error: &JoinError, said: &mut Said) {
    match error {
        JoinError::Fault(fault) => refused(*fault, said),
        JoinError::Refused(JoinRefusal::Used) => said.kind(Kind::Used),
        JoinError::Refused(JoinRefusal::TooFar) => said.kind(Kind::Far),
        JoinError::Refused(JoinRefusal::TooMany) => said.kind(Kind::Full),
        JoinError::NoMemory => said.kind(Kind::NoMemory),
    }
}
