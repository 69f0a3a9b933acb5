//! Two threads that count in turns, for `turn_lock`.

ghost use Rattle.std.specs.Prelude.{◌≡◌};
ghost use Rattle.turn_lock.specs.Naming.{lock_name, seat_name};

use crate::counter::Counter;
use std::alloc::Global;
use std::sync::Wait;
use std::thread::{Threads, map_vec};
use turn_lock::{Share, TurnLock, TurnSeat};

/// Two threads each add one to a counter under a lock, which is closed when both are back. `None`
/// where memory ran out, or no thread could be made.
pub fn count_in_turns<R: Threads + Wait + Sync>(rt: &R, alloc: Global) -> Option<u64> {
    let each = Share { calls: 1, grows: 0 };
    let counter = Counter { count: 0 };
    let (lock, seats) = TurnLock::<Counter>::start(alloc, counter, &[each, each]).ok()?;
    let back = map_vec(
        rt,
        seats,
        &|mut seat: TurnSeat<Counter>| -> TurnSeat<Counter>
            requires { seat_name seat.seat ≡ lock_name lock }
            ensures { seat_name result.seat ≡ lock_name lock }
        {
            let mut before = 0;
            if seat.calls_left() > 0 {
                lock.call(rt, &mut seat, &1, &mut before);
            }
            seat
        },
    )
    .ok()?;
    Some(lock.close(back).count)
}
