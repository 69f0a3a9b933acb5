//! The talk of a mirror with its peer.

ghost use Rattle.std.specs.Prelude.{◌≡◌, ◌≤◌, [], ℕ, length, IfSome};
ghost use Rattle.game_trait.specs.Run.{IsPrefix};
ghost use Rattle.line_talk.specs.Talk.{shown, HeardFront};
ghost use Rattle.live_talk.specs.Head.{headed_way, fed_at};
ghost use Rattle.live_talk.specs.Staging.{staging};
ghost use Rattle.tss_mirror.specs.Run.{Side, side, too_long_text, status_at, status_of, EndsAs, EndsTalk};

use crate::done::Status;
use arrayvec::ArrayString;
use endless_mirror::EndlessSession;
use game_trait::MirrorId;
use line_talk::{Ear, Peer, TalkFault, WholeEnd, close_front, hear_front, talk_whole};
use live_mirror::Session;
use live_talk::{Begins, Fed, Headed, Opens, Talked};
use report_text::refusal_text;
use std::alloc::Global;
use tss_io::{Cause, Failed, Refused};

/// How many bytes the mirror of a match hears at most: 1 GiB.
pub const LONGEST_INPUT: usize = 1_073_741_824;

/// How many bytes the mirror of a session without an end hears at most: so many that none hears them.
pub const LONGEST_SESSION: usize = 9_223_372_036_854_775_807;

// How many bytes are heard at once at most.
const PIECE: usize = 65_536;

// How a talk that was broken off ends.
fn status_of(fault: TalkFault) -> Status
    ensures { result ≡ status_of fault }
{
    match fault {
        TalkFault::NoMemory => Status::NoMemory,
        TalkFault::NotHeard => Status::ReadFault,
        TalkFault::NotTold => Status::WriteFault,
    }
}

// The first line of a text whose mirror is one of a session without an end.
const ENDLESS_HEAD: &[u8] = b"tss live 2\n";

// How a talk ends in which all was answered.
fn status_at(fed: Fed) -> Status
    ensures { result ≡ status_at fed }
{
    match fed {
        Fed::Refused => Status::Refusal,
        Fed::Goes | Fed::Ended => Status::Complete,
    }
}

// What tells that the input is too long.
fn too_long() -> ArrayString<64>
    ensures { result.bytes ≡ too_long_text }
{
    refusal_text(&Refused {
        line: 0,
        cause: Cause::Long,
    })
}

// Talks with the peer as this mirror: answers the front that was heard before, and what is heard behind
// it, at most `limit` bytes with the front's.
fn talk_with<S: Opens, P: Peer>(
    alloc: Global,
    mirror: Headed<S>,
    peer: &mut P,
    front: &[u8],
    limit: usize,
) -> Status
    requires { length front.now ≤ limit }
    ensures { (old : Side) → HeardFront old.shown (shown P.left P.said peer.old) front.now
        → P.faults peer.old ≡ old.faults
        → EndsAs (headed_way S.kind S.way) mirror (λ s. fed_at S.way s.place) limit (λ bytes. IsPrefix front.now bytes)
        old (side P.left P.said P.faults peer.new) result }
{
    let mut ear = Ear::new(mirror);
    let mut buffer = [0; PIECE];
    let mut out = Vec::new(alloc);
    match talk_whole(
        &mut ear,
        peer,
        front,
        &mut buffer,
        &mut out,
        limit,
        too_long().as_bytes(),
    ) {
        Ok(WholeEnd::Answered) => status_at(ear.answerer().fed()),
        Ok(WholeEnd::TooLong) => Status::Refusal,
        Err(fault) => status_of(fault),
    }
}

// Answers as this mirror a peer of which all was heard before.
fn close_with<S: Opens, P: Peer>(
    alloc: Global,
    mirror: Headed<S>,
    peer: &mut P,
    front: &[u8],
) -> Status
    ensures { (old : Side) (limit : ℕ)
        → HeardFront old.shown (shown P.left P.said peer.old) front.now
        → P.faults peer.old ≡ old.faults → IfSome (P.left peer.old) (λ rest. rest ≡ [])
        → length front.now ≤ limit
        → EndsAs (headed_way S.kind S.way) mirror (λ s. fed_at S.way s.place) limit (λ bytes. bytes ≡ front.now)
        old (side P.left P.said P.faults peer.new) result }
{
    let mut ear = Ear::new(mirror);
    let mut out = Vec::new(alloc);
    match close_front(&mut ear, peer, front, &mut out) {
        Ok(_) => status_at(ear.answerer().fed()),
        Err(fault) => status_of(fault),
    }
}

/// Talks with the peer as the mirror of this number, which is one of a session without an end where the
/// first line is `tss live 2`, and else one of a match: its lines are answered, each before more is
/// heard, until none is taken any more or its bytes end; that end is answered too. The mirror of a
/// match hears at most 1,073,741,824 bytes: where one more comes, that is told. It returns for every
/// peer.
pub fn talk_as<G: Begins, P: Peer>(alloc: Global, number: MirrorId, peer: &mut P) -> Status
    ensures { EndsTalk (staging G.rules G.lines G.opening) number (side P.left P.said P.faults peer.old)
        (side P.left P.said P.faults peer.new) result }
{
    let front = match hear_front(peer) {
        Ok(front) => front,
        Err(Failed) => return Status::ReadFault,
    };
    let bytes = front.bytes.as_slice();
    if front.is_last {
        let mirror = Headed::<Talked<Session<G>>>::new(alloc, number);
        return close_with(alloc, mirror, peer, bytes);
    }
    if bytes == ENDLESS_HEAD {
        let mirror = Headed::<Talked<EndlessSession<G>>>::new(alloc, number);
        return talk_with(alloc, mirror, peer, bytes, LONGEST_SESSION);
    }
    let mirror = Headed::<Talked<Session<G>>>::new(alloc, number);
    talk_with(alloc, mirror, peer, bytes, LONGEST_INPUT)
}
