//! The front of a talk: its first line is heard before it is known who answers.

ghost use Rattle.std.specs.Prelude.{◌≡◌, true, false, [], None, IfOk, IfSome, OnOk, OnErr};
ghost use Rattle.tss_io.specs.Streams.{Rose};
ghost use Rattle.line_talk.specs.Talk.{shown, HearsOne, HeardFront, IsOpening, IsTorn, HeardTorn};

use crate::ear::LOOKED_AT;
use crate::peer::Peer;
use arrayvec::ArrayVec;
use tss_io::Failed;

/// What a talk begins with.
#[derive(Drop)]
pub struct Front {
    /// The first line with its newline, or as much of it as is looked at: 121 bytes.
    pub bytes: ArrayVec<u8, LOOKED_AT>,
    /// Whether the peer's bytes ended before the line did.
    pub is_last: bool,
}

/// Hears one byte, or none at the end. On `Failed` nothing was heard.
pub fn hear_one<P: Peer>(peer: &mut P) -> Result<Option<u8>, Failed>
    ensures heard { IfOk result (λ one. HearsOne
        (shown P.left P.said peer.old) (shown P.left P.said peer.new) one) }
    ensures end { IfOk result (λ one. one ≡ None → IfSome (P.left peer.new) (λ rest. rest ≡ [])) }
    ensures left_still { OnErr result (P.left peer.new ≡ P.left peer.old) }
    ensures unsaid { OnErr result (P.said peer.new ≡ P.said peer.old) }
    ensures steady { OnOk result (P.faults peer.new ≡ P.faults peer.old) }
    ensures rose { OnErr result (Rose (P.faults peer.old) (P.faults peer.new)) }
{
    let mut room = [0; 1];
    match peer.hear(&mut room) {
        Ok(0) => Ok(None),
        Ok(_) => Ok(Some(room[0])),
        Err(Failed) => Err(Failed),
    }
}

/// Hears the peer's first line, byte by byte and no byte behind it: until its newline, until the
/// peer's bytes end, or until as much was heard as is looked at of a line, 121 bytes. On `Failed`
/// a front of the line was heard.
pub fn hear_front<P: Peer>(peer: &mut P) -> Result<Front, Failed>
    ensures heard { IfOk result (λ front. HeardFront
        (shown P.left P.said peer.old) (shown P.left P.said peer.new) front.bytes.items) }
    ensures opening { IfOk result (λ front. front.is_last ≡ false → IsOpening front.bytes.items) }
    ensures torn { IfOk result (λ front. front.is_last ≡ true → IsTorn front.bytes.items) }
    ensures end { IfOk result (λ front. front.is_last ≡ true
        → IfSome (P.left peer.new) (λ rest. rest ≡ [])) }
    ensures unheard { OnErr result (HeardTorn
        (shown P.left P.said peer.old) (shown P.left P.said peer.new)) }
    ensures steady { OnOk result (P.faults peer.new ≡ P.faults peer.old) }
    ensures rose { OnErr result (Rose (P.faults peer.old) (P.faults peer.new)) }
{
    let mut bytes = ArrayVec::new();
    while !bytes.is_full() {
        let byte = match hear_one(peer) {
            Ok(Some(byte)) => byte,
            Ok(None) => {
                return Ok(Front {
                    bytes,
                    is_last: true,
                });
            }
            Err(Failed) => return Err(Failed),
        };
        bytes.push(byte);
        if byte == b'\n' {
            return Ok(Front {
                bytes,
                is_last: false,
            });
        }
    }
    Ok(Front {
        bytes,
        is_last: false,
    })
}
