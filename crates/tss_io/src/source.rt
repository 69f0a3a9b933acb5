//! Where bytes come from.
ghost use Rattle.std.specs.Prelude.{◌≡◌, ◌≤◌, ◌<◌, ◌+◌, ◌↔◌, ℕ, List, [], Option, length, take, IfOk, OnOk, OnErr, IfSome};
ghost use Rattle.tss_io.specs.Streams.{Rose, Yields};

use crate::faults::Failed;

/// Where bytes come from, piece by piece.
pub trait Source {
    // The bytes that are left, where the source tells them.
    ghost left: { Self → Option (List ℕ) };

    // How many calls failed. A counter stays at its last value, 2 ^ 64 - 1.
    ghost faults: { Self → ℕ };

    // How many calls were made, as far as the source counts them.
    ghost calls: { Self → ℕ };

    /// Puts the next bytes to the front of `out`, and answers how many: none exactly at the end. On
    /// `Failed` what is left is left still, and `out` may hold anything. The count of faults rises
    /// where the call fails, and nowhere else.
    fn read(&mut self, out: &mut [u8]) -> Result<usize, Failed>
        requires { 0 < length out.old }
        ensures within { IfOk result (λ n. n ≤ length out.new) }
        ensures bytes { IfOk result (λ n. Yields (left self.old) (take n out.new) (left self.new)) }
        ensures end { IfOk result (λ n. IfSome (left self.old) (λ bytes. (n ≡ 0) ↔ (bytes ≡ []))) }
        ensures err { OnErr result (left self.new ≡ left self.old) }

        ensures steady { OnOk result (faults self.new ≡ faults self.old) }
        ensures rose { OnErr result (Rose (faults self.old) (faults self.new)) }
        ensures never_falls { faults self.old ≤ faults self.new }
        ensures called { calls self.new ≤ calls self.old + 1 };
}
