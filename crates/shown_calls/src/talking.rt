//! A talk by lines, for `line_talk`.

ghost use Rattle.std.specs.Prelude.{◌≡◌, OnOk};

use line_talk::{Answerer, Ear, Peer, TalkFault, WholeEnd, talk_whole};
use std::alloc::Global;

/// Hears a peer until its bytes end or the answerer takes no further line, and tells it at once what
/// is due of each line. Of more than a million bytes it says that they are too long.
pub fn talk_to_the_end<A: Answerer, P: Peer>(
    alloc: Global,
    answerer: A,
    peer: &mut P,
) -> Result<WholeEnd, TalkFault>
    ensures steady { OnOk result (P.faults peer.new ≡ P.faults peer.old) }
{
    let mut ear = Ear::new(answerer);
    let mut buffer = [0; 4096];
    let mut told = Vec::new(alloc);
    // what was heard before the answerer was known would stand in place of `&[]`
    talk_whole(
        &mut ear,
        peer,
        &[],
        &mut buffer,
        &mut told,
        1_000_000,
        b"too long\n",
    )
}
