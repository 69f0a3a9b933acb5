//! An object for a turn lock: a counter.

ghost use Rattle.std.specs.Prelude.{◌≡◌};

use turn_lock::Held;

/// Counts what is added; the reply is the count before.
#[derive(Drop)]
pub struct Counter {
    pub count: u64,
}

impl Held for Counter {
    type Call = u64;

    type Reply = u64;

    ghost use Rattle.std.specs.Prelude.{◌+◌, ◌%◌, ◌^◌, false};
    ghost use Rattle.std.proofs.Common.{arith};

    ghost rules = { record {
      next = λ v q. record { count = (v.count + q) % 2 ^ 64 };
      said = λ v q. v.count;
      Fits = λ v q. Unit {0};
      spare = λ v. 0;
      grows = λ q. false;
    } };

    fn grows(call: &u64) -> bool {
        let _ = call;
        false
    }

    fn answer(&mut self, call: &u64, reply: &mut u64) {
        *reply = self.count;
        self.count = (*reply).wrapping_add(*call);
    }

    ghost laws = { record { stays = λ v p q f g. tt; spends = λ v q f. Prim.omega arith } };
}
