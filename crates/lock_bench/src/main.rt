//! Calls of a counter by a number of threads, each with a seat of a turn lock, or behind std's
//! mutex. It measures alone: `turn` or `mutex`, how many threads, how many calls each of them
//! makes, and further pairs of these. What it prints is the same whatever the schedule: a line for
//! each pair, the count before the last call.
#![tactic(auto)]

ghost use Rattle.std.specs.Prelude.{◌≡◌, ◌<◌, ◌≤◌, ◌^◌, length};
ghost use Rattle.std.specs.List.{All};
ghost use Rattle.tss_base.specs.Totals.{total};
ghost use Rattle.turn_lock.specs.Naming.{lock_name, seat_name};

use std::alloc::Global;
use std::sync::{Mutex, Wait};
use std::thread::{Threads, map_indices, map_vec};
use std::{env, io};
use turn_lock::{Held, Share, TurnLock, TurnSeat};

// Counts what is added.
#[derive(Drop)]
struct Counter {
    count: u64,
}

impl Held for Counter {
    type Call = u64;

    type Reply = u64;

    ghost use Rattle.std.specs.Prelude.{◌+◌, ◌%◌, ◌^◌, false};
    ghost use Rattle.std.proofs.Common.{arith};

    ghost rules = { record {
      next = λ v q. record { count = (v.count + q) % 2 ^ 64 };
      said = λ v q. v.count;
      Fits = λ v q. Unit {0};
      spare = λ v. 0;
      grows = λ q. false;
    } };

    fn grows(call: &u64) -> bool {
        let _ = call;
        false
    }

    fn answer(&mut self, call: &u64, reply: &mut u64) {
        *reply = self.count;
        self.count = (*reply).wrapping_add(*call);
    }

    ghost laws = { record { stays = λ v p q f g. tt; spends = λ v q f. Prim.omega arith } };
}

// Calls as often as the seat may, and tells the greatest reply.
fn add_all<R: Wait>(rt: &R, lock: &TurnLock<Counter>, mut seat: TurnSeat<Counter>) -> u64
    requires { seat_name seat.seat ≡ lock_name lock.now }
{
    let mut greatest = 0;
    let mut reply = 0;
    'adding: while seat.calls_left() > 0 {
        lock.call(rt, &mut seat, &1, &mut reply);
        greatest = reply.max(greatest);
    }
    greatest
}

// The same with all seats, in a thread each. Tells the greatest reply of all.
fn by_seats<R: Threads + Wait + Sync>(
    rt: &R,
    lock: &TurnLock<Counter>,
    seats: Vec<TurnSeat<Counter>>,
) -> Option<u64>
    requires { All (λ s. seat_name s.seat ≡ lock_name lock.now) seats.items }
{
    let replies = map_vec(
        rt,
        seats,
        &|seat: TurnSeat<Counter>| -> u64
            requires { seat_name seat.seat ≡ lock_name lock.now }
        { add_all(rt, lock, seat) },
    )
    .ok()?;
    replies.iter().max().copied()
}

// A thread for each share. Tells the last count.
fn by_shares<R: Threads + Wait + Sync>(rt: &R, alloc: Global, shares: &[Share]) -> Option<u64>
    requires some_share { 0 < length shares.now }
    requires calls { total (λ s. s.calls) shares.now < 2 ^ 63 }
    requires grows { total (λ s. s.grows) shares.now ≤ 0 }
{
    let (lock, seats) = TurnLock::<Counter>::start(alloc, Counter { count: 0 }, shares).ok()?;
    by_seats(rt, &lock, seats)
}

// 1, 2, 4 or 9 threads that each make as many calls, under a turn lock. Tells the last count.
fn by_turns<R: Threads + Wait + Sync>(
    rt: &R,
    alloc: Global,
    threads: usize,
    calls: u32,
) -> Option<u64> {
    let s = Share {
        calls: u64::from(calls),
        grows: 0,
    };
    match threads {
        1 => by_shares(rt, alloc, &[s]),
        2 => by_shares(rt, alloc, &[s, s]),
        4 => by_shares(rt, alloc, &[s, s, s, s]),
        _ => by_shares(rt, alloc, &[s, s, s, s, s, s, s, s, s]),
    }
}

fn mutex_all<R: Wait>(rt: &R, lock: &Mutex<u64>, calls: u32) -> u64 {
    let mut greatest = 0;
    for _ in 0..calls {
        let mut count = lock.lock(rt);
        greatest = *count;
        *count = (*count).wrapping_add(1);
    }
    greatest
}

// The same under a mutex.
fn by_mutex<R: Threads + Wait + Sync>(
    rt: &R,
    alloc: Global,
    threads: usize,
    calls: u32,
) -> Option<u64> {
    let lock = Mutex::new(0u64);
    let replies = map_indices(
        rt,
        alloc,
        threads,
        &|_| -> u64 { mutex_all(rt, &lock, calls) },
    )
    .ok()?;
    replies.iter().max().copied()
}

// The number that a word is, or another where it is none.
fn number_of(words: &[String], place: usize, other: u32) -> u32 {
    words
        .get(place)
        .and_then(|w| w.parse::<u32>().ok())
        .unwrap_or(other)
}

fn main(rt: HostRuntime) -> io::Result<()> {
    let words: Vec<String> = env::args(&rt)?.collect(rt.alloc())?;
    let is_mutex = match words.get(1) {
        Some(word) => word.as_str() == "mutex",
        None => false,
    };
    let pairs = words.len().saturating_sub(2) / 2;
    for pair in 0..pairs.max(1) {
        let threads = number_of(&words, 2 * pair + 2, 2);
        let calls = number_of(&words, 2 * pair + 3, 1000);
        let last = if is_mutex {
            by_mutex(&rt, rt.alloc(), threads as usize, calls)
        } else {
            by_turns(&rt, rt.alloc(), threads as usize, calls)
        };
        println!(rt; "{}", last.unwrap_or(0))?;
    }
    Ok(())
}
