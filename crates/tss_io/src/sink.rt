//! Where bytes go.
ghost use Rattle.std.specs.Prelude.{◌≡◌, ◌≤◌, ◌<◌, ◌+◌, ℕ, List, Option, length, take, IfOk, OnOk, OnErr};
ghost use Rattle.tss_io.specs.Streams.{Rose, Gains};

use crate::faults::Failed;

/// Where bytes go, piece by piece.
pub trait Sink {
    // The bytes that were taken, where the sink tells them.
    ghost taken: { Self → Option (List ℕ) };

    // How many calls failed. A counter stays at its last value, 2 ^ 64 - 1.
    ghost faults: { Self → ℕ };

    // How many calls were made, as far as the sink counts them.
    ghost calls: { Self → ℕ };

    /// Takes bytes from the front of `piece`, and answers how many: at least one. On `Failed` it
    /// took none, as far as it tells. The count of faults rises where the call fails, and nowhere
    /// else.
    fn put(&mut self, piece: &[u8]) -> Result<usize, Failed>
        requires { 0 < length piece.now }
        ensures progress { IfOk result (λ n. 1 ≤ n) }
        ensures within { IfOk result (λ n. n ≤ length piece.now) }
        ensures bytes { IfOk result
            (λ n. Gains (taken self.old) (take n piece.now) (taken self.new)) }
        ensures err { OnErr result (taken self.new ≡ taken self.old) }

        ensures steady { OnOk result (faults self.new ≡ faults self.old) }
        ensures rose { OnErr result (Rose (faults self.old) (faults self.new)) }
        ensures never_falls { faults self.old ≤ faults self.new }
        ensures called { calls self.new ≤ calls self.old + 1 };
}
