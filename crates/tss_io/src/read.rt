//! A source is read to its end, up to a limit.
ghost use Rattle.std.specs.Prelude.{◌≡◌, ◌≤◌, ◌<◌, ◌+◌, ◌⊎◌, ℕ, List, [], length, vec_len, IfOk, OnOk, OnErr, IsErrOf, IfSome};
ghost use Rattle.tss_io.specs.Streams.{Rose, Yields};
ghost use Rattle.tss_io.specs.declared.read.TheConstants.{PIECE};

use crate::faults::ReadFault;
use crate::source::Source;
use std::alloc::Global;
use tss_base::NoMemory;

// How many bytes a read asks for at most.
const PIECE: usize = 65_536;

/// Reads to the source's end, in at most `limit + 1` calls. `TooLong` is answered once `limit + 1`
/// bytes are read, and no more are. A read that fails ends it with `Failed`, and nothing else does:
/// after every other answer the count of faults is as it was. On `Failed` and on `NoMemory` what
/// was read till then is lost.
pub fn read_all<S: Source>(
    alloc: Global,
    source: &mut S,
    limit: usize,
) -> Result<Vec<u8>, ReadFault>
    // What was left is what is answered, and nothing is left now.
    ensures whole { IfOk result (λ v. Yields (S.left source.old) v.items (S.left source.new)) }
    ensures end { OnOk result (IfSome (S.left source.new) (λ rest. rest ≡ [])) }
    ensures told { IfOk result (λ v. IfSome (S.left source.old) (λ bytes. v.items ≡ bytes)) }
    ensures within { IfOk result (λ v. length v.items ≤ limit) }

    // Where no read failed, the length of what was left decides.
    ensures fits { OnOk result (IfSome (S.left source.old) (λ bytes. length bytes ≤ limit)) }
    ensures over { IsErrOf result ReadFault.TooLong
        → IfSome (S.left source.old) (λ bytes. limit < length bytes) }

    // No read failed, unless it is said.
    ensures steady { IsErrOf result ReadFault.Failed ⊎ (S.faults source.new ≡ S.faults source.old) }
    ensures rose { IsErrOf result ReadFault.Failed
        → Rose (S.faults source.old) (S.faults source.new) }
    ensures never_falls { S.faults source.old ≤ S.faults source.new }

    // What was taken from the source.
    ensures too_long { IsErrOf result ReadFault.TooLong
        → (front : List ℕ) × (length front ≡ limit + 1)
        × Yields (S.left source.old) front (S.left source.new) }
    ensures front { OnErr result
        ((front : List ℕ) × (length front ≤ limit + 1)
        × Yields (S.left source.old) front (S.left source.new)) }
    ensures called { S.calls source.new ≤ S.calls source.old + (limit + 1) }
{
    let mut buffer = blank(alloc, PIECE)?;
    let mut text = Vec::new(alloc);
    read_pieces(source, &mut buffer, limit, &mut text)?;
    Ok(text)
}

// Reads to the source's end, piece by piece, and appends all of it to the empty text.
fn read_pieces<S: Source>(
    source: &mut S,
    buffer: &mut [u8],
    limit: usize,
    text: &mut Vec<u8>,
) -> Result<(), ReadFault>
    requires buffer { length buffer.old ≡ PIECE }
    requires empty { text.old.items ≡ [] }
    ensures ok { OnOk result
        ((length text.new.items ≤ limit)
        × Yields (S.left source.old) text.new.items (S.left source.new)
        × IfSome (S.left source.new) (λ rest. rest ≡ [])) }
    ensures too_long { IsErrOf result ReadFault.TooLong
        → (length text.new.items ≡ limit + 1)
        × Yields (S.left source.old) text.new.items (S.left source.new) }
    ensures front { OnErr result
        ((front : List ℕ) × (length front ≤ limit + 1)
        × Yields (S.left source.old) front (S.left source.new)) }
    ensures steady { IsErrOf result ReadFault.Failed ⊎ (S.faults source.new ≡ S.faults source.old) }
    ensures rose { IsErrOf result ReadFault.Failed
        → Rose (S.faults source.old) (S.faults source.new) }
    ensures never_falls { S.faults source.old ≤ S.faults source.new }
    ensures called { S.calls source.new ≤ S.calls source.old + (limit + 1) }
{
    while text.len() <= limit {
        let room = (limit - text.len()).min(PIECE - 1) + 1;
        let (out, _) = buffer.split_at_mut(room);
        let count = source.read(out)?;
        if count == 0 {
            return Ok(());
        }
        let (piece, _) = out.split_at(count);
        text.extend_from_slice(piece)?;
    }
    Err(ReadFault::TooLong)
}

fn blank(alloc: Global, len: usize) -> Result<Vec<u8>, NoMemory>
    ensures { IfOk result (λ v. vec_len v ≡ len) }
{
    Ok(vec![in alloc; 0; len]?)
}
