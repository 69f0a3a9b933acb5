//! A whole talk: a peer is heard to its end, and that is answered too.

ghost use Rattle.std.specs.Prelude.{◌≡◌, ◌≤◌, ◌<◌, ◌++◌, List, ℕ, [], length, IfOk, IfErr, IfSome, OnOk, OnErr, IsErrOf};
ghost use Rattle.tss_io.specs.Lines.{lines_of};
ghost use Rattle.tss_io.specs.Streams.{Rose};
ghost use Rattle.game_trait.specs.Run.{IsPrefix};
ghost use Rattle.line_talk.specs.Hearing.{hear, close, told_at_close};
ghost use Rattle.line_talk.specs.declared.said.Said.{Said};
ghost use Rattle.line_talk.specs.Talk.{Notes, TellsAll, TellsFront, dues, shown, Behind, IsAnswered, IsPast, IsBrokenWhole, IsUnheard};

use crate::answerer::Answerer;
use crate::course::{TalkEnd, TalkFault, answer_piece, talk, tell_flushed};
use crate::ear::Ear;
use crate::front::hear_one;
use crate::peer::Peer;
use tss_base::NoMemory;
use tss_io::Failed;

/// How a whole talk ended.
#[derive(Clone, Copy, Debug, PartialEq, Eq)]
pub enum WholeEnd {
    /// The peer was answered until no further line was taken or its bytes ended, and so was that
    /// end.
    Answered,
    /// The peer's bytes are more than the limit allows.
    TooLong,
}

// Tells what is due of the end of the peer's bytes.
fn close_talk<A: Answerer, P: Peer>(
    ear: &mut Ear<A>,
    peer: &mut P,
    out: &mut Vec<u8>,
) -> Result<WholeEnd, TalkFault>
    requires empty { out.old.items ≡ [] }
    ensures answered { IfOk result (λ end. end ≡ WholeEnd.Answered) }
    ensures state { OnOk result (ear.new ≡ close A.way ear.old) }
    ensures told { OnOk result
        ((talk : List Said) × Notes (P.said peer.old) talk (P.said peer.new)
        × TellsAll (told_at_close A.way ear.old) talk) }
    ensures broken { OnErr result (TellsFront (told_at_close A.way ear.old)
        (P.said peer.old) (P.said peer.new)) }
    ensures left { P.left peer.new ≡ P.left peer.old }
    ensures steady { OnOk result (P.faults peer.new ≡ P.faults peer.old) }
    ensures rose { IsErrOf result TalkFault.NotTold
        → Rose (P.faults peer.old) (P.faults peer.new) }
    ensures heard { IfErr result (λ fault. fault ≡ TalkFault.NotHeard → ⊥) }
{
    match ear.close(out) {
        Ok(()) => {}
        Err(NoMemory) => return Err(TalkFault::NoMemory),
    }
    match tell_flushed(peer, out.as_slice()) {
        Ok(()) => Ok(WholeEnd::Answered),
        Err(fault) => Err(fault),
    }
}

// Tells that the peer's bytes are too long.
fn tell_too_long<P: Peer>(peer: &mut P, too_long: &[u8]) -> Result<WholeEnd, TalkFault>
    ensures too_long { IfOk result (λ end. end ≡ WholeEnd.TooLong) }
    ensures told { OnOk result
        ((talk : List Said) × Notes (P.said peer.old) talk (P.said peer.new)
        × TellsAll too_long.now talk) }
    ensures broken { OnErr result (TellsFront too_long.now (P.said peer.old) (P.said peer.new)) }
    ensures left { P.left peer.new ≡ P.left peer.old }
    ensures steady { OnOk result (P.faults peer.new ≡ P.faults peer.old) }
    ensures rose { OnErr result (Rose (P.faults peer.old) (P.faults peer.new)) }
    ensures not_told { IfErr result (λ fault. fault ≡ TalkFault.NotTold) }
{
    match tell_flushed(peer, too_long) {
        Ok(()) => Ok(WholeEnd::TooLong),
        Err(fault) => Err(fault),
    }
}

/// Answers the front of a talk, which was heard before, then talks until no further line is taken or
/// the peer's bytes end, and answers that end. Where they are more than `limit` with the front's, the
/// lines of the first of these are answered, and then `too_long` is told. `out` holds what is told
/// meanwhile.
pub fn talk_whole<A: Answerer, P: Peer>(
    ear: &mut Ear<A>,
    peer: &mut P,
    front: &[u8],
    buffer: &mut [u8],
    out: &mut Vec<u8>,
    limit: usize,
    too_long: &[u8],
) -> Result<WholeEnd, TalkFault>
    requires short { length front.now ≤ limit }
    requires buffer { 0 < length buffer.old }
    requires empty { out.old.items ≡ [] }
    ensures answered { IfOk result (λ end. end ≡ WholeEnd.Answered
        → Behind front.now (shown P.left P.said peer.old) (λ old.
        (t : IsAnswered A.way ear.old ear.new old (shown P.left P.said peer.new) limit)
        × IsPrefix front.now t.bytes)) }
    ensures past { IfOk result (λ end. end ≡ WholeEnd.TooLong
        → Behind front.now (shown P.left P.said peer.old) (λ old.
        (t : IsPast A.way ear.old old (shown P.left P.said peer.new) limit too_long.now)
        × IsPrefix front.now (t.front ++ t.one))) }
    ensures broken { OnErr result (Behind front.now (shown P.left P.said peer.old) (λ old.
        (t : IsBrokenWhole A.way ear.old old (shown P.left P.said peer.new) limit too_long.now)
        × IsPrefix front.now t.bytes)) }
    ensures unheard { IfErr result (λ fault. fault ≡ TalkFault.NotHeard
        → Behind front.now (shown P.left P.said peer.old) (λ old.
        (t : IsUnheard A.way ear.old old (shown P.left P.said peer.new))
        × IsPrefix front.now t.bytes)) }
    ensures steady { OnOk result (P.faults peer.new ≡ P.faults peer.old) }
    ensures not_heard { IsErrOf result TalkFault.NotHeard
        → Rose (P.faults peer.old) (P.faults peer.new) }
    ensures not_told { IsErrOf result TalkFault.NotTold
        → Rose (P.faults peer.old) (P.faults peer.new) }
{
    match talk(ear, peer, front, buffer, out, limit) {
        Ok(TalkEnd::Over) => Ok(WholeEnd::Answered),
        Ok(TalkEnd::Ended) => close_talk(ear, peer, out),
        Ok(TalkEnd::Full) => match hear_one(peer) {
            Ok(None) => close_talk(ear, peer, out),
            Ok(Some(_)) => tell_too_long(peer, too_long),
            Err(Failed) => Err(TalkFault::NotHeard),
        },
        Err(fault) => Err(fault),
    }
}

/// Answers a talk of which all was heard before, and its end. `out` holds what is told meanwhile.
pub fn close_front<A: Answerer, P: Peer>(
    ear: &mut Ear<A>,
    peer: &mut P,
    front: &[u8],
    out: &mut Vec<u8>,
) -> Result<WholeEnd, TalkFault>
    requires empty { out.old.items ≡ [] }
    ensures answered { OnOk result (IfSome (P.left peer.old) (λ rest. rest ≡ [])
        → Behind front.now (shown P.left P.said peer.old) (λ old. (limit : ℕ)
        → length front.now ≤ limit
        → (t : IsAnswered A.way ear.old ear.new old (shown P.left P.said peer.new) limit)
        × (t.bytes ≡ front.now))) }
    ensures broken { OnErr result (Behind front.now (shown P.left P.said peer.old) (λ old.
        (limit : ℕ) (too_long : List ℕ)
        → (t : IsBrokenWhole A.way ear.old old (shown P.left P.said peer.new) limit too_long)
        × (t.bytes ≡ front.now))) }
    ensures whole { IfOk result (λ end. end ≡ WholeEnd.Answered) }
    ensures steady { OnOk result (P.faults peer.new ≡ P.faults peer.old) }
    ensures rose { IsErrOf result TalkFault.NotTold
        → Rose (P.faults peer.old) (P.faults peer.new) }
    ensures heard { IfErr result (λ fault. fault ≡ TalkFault.NotHeard → ⊥) }
{
    match answer_piece(ear, peer, front, out) {
        Ok(()) => close_talk(ear, peer, out),
        Err(fault) => Err(fault),
    }
}
