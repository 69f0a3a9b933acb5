//! A whole text is put into a sink.
ghost use Rattle.std.specs.Prelude.{◌≡◌, ◌≤◌, ◌<◌, ◌+◌, ℕ, length, take, OnOk, OnErr};
ghost use Rattle.tss_io.specs.Streams.{Rose, Gains};

use crate::faults::Failed;
use crate::sink::Sink;

/// Puts the whole text, in as many calls as the sink asks for, and at most as many as the text has
/// bytes. It takes no memory. On `Failed` the sink took a proper prefix of the text, and its count
/// of faults rose.
pub fn put_all<K: Sink>(sink: &mut K, text: &[u8]) -> Result<(), Failed>
    ensures whole { OnOk result (Gains (K.taken sink.old) text.now (K.taken sink.new)) }
    ensures proper_prefix { OnErr result
        ((n : ℕ) × (n < length text.now)
        × Gains (K.taken sink.old) (take n text.now) (K.taken sink.new)) }

    ensures steady { OnOk result (K.faults sink.new ≡ K.faults sink.old) }
    ensures rose { OnErr result (Rose (K.faults sink.old) (K.faults sink.new)) }
    ensures never_falls { K.faults sink.old ≤ K.faults sink.new }
    ensures called { K.calls sink.new ≤ K.calls sink.old + length text.now }
{
    let mut at = 0;
    while at < text.len() {
        let (_, rest) = text.split_at(at);
        at += sink.put(rest)?;
    }
    Ok(())
}
