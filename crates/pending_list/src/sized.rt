//! An order in buckets of a fixed size, of which all but the last are full: what is put in moves few
//! of its bucket, and the last one of each full bucket from there on goes to the front of the next.

ghost use Rattle.std.specs.Prelude.{◌≡◌, ◌+◌, ◌*◌, ◌^◌, ◌<◌, ◌≤◌, ℕ, List, [], length, map, take, slice_get};
ghost use Rattle.std.specs.Prelude.{slice_index_or, IfOk, vec_len};
ghost use Rattle.std.specs.List.{AllByRecursion, insert};
ghost use Rattle.std.specs.VecDeque.{deque_len, deque_capacity};
ghost use Rattle.pending_list.specs.Sized.{joined, AreBuckets};
ghost use Rattle.pending_list.specs.Keyed.{placed_of};

use crate::keyed::{Placed, keyed_place};
use std::alloc::Global;
use std::collections::VecDeque;
use tss_base::NoMemory;

// How many a bucket holds.
const BUCKET: usize = 2_048;

/// Buckets that hold nothing, with room for so many and one more. On `NoMemory` nothing is created.
pub fn new_buckets(alloc: Global, room: usize) -> Result<Vec<VecDeque<Placed>>, NoMemory>
    requires { room < 2 ^ 32 }
    ensures items { IfOk result (λ buckets. joined (map (λ b. b.items) buckets.items) ≡ []) }
    ensures cut { IfOk result (λ buckets. AreBuckets [] (map (λ b. b.items) buckets.items)) }
    ensures room { IfOk result (λ buckets. room < 2048 * length buckets.items) }
    ensures capacities { IfOk result (λ buckets. AllByRecursion (λ b. 2048 ≤ deque_capacity b) buckets.items) }
{
    let count = room / BUCKET + 1;
    let mut buckets = Vec::with_capacity(alloc, count)?;
    for made in 0..count {
        let _ = made;
        buckets.push_reserved(VecDeque::with_capacity(alloc, BUCKET)?);
    }
    Ok(buckets)
}

/// What stands at a place of the order.
#[inline(always)]
pub fn placed_at(buckets: &Vec<VecDeque<Placed>>, place: usize) -> Placed
    requires cut { AreBuckets (joined (map (λ b. b.items) buckets.now.items)) (map (λ b. b.items) buckets.now.items) }
    requires there { place < length (joined (map (λ b. b.items) buckets.now.items)) }
    ensures { result ≡ slice_index_or (joined (map (λ b. b.items) buckets.now.items)) place result }
{
    buckets[place / BUCKET][place % BUCKET]
}

// Puts one between others.
#[inline(never)]
fn put_between(bucket: &mut VecDeque<Placed>, place: usize, placed: Placed)
    requires within { place ≤ deque_len bucket.old }
    requires room { deque_len bucket.old < deque_capacity bucket.old }
    ensures items { bucket.new.items ≡ insert bucket.old.items place placed }
    ensures capacity { deque_capacity bucket.old ≤ deque_capacity bucket.new }
{
    match bucket.insert(place, placed) {
        Ok(()) => {}
        Err(_) => unreachable!(),
    }
}

// Puts one at a place of a bucket, where there is room for it. At the ends nothing is moved.
fn put(bucket: &mut VecDeque<Placed>, place: usize, placed: Placed)
    requires within { place ≤ deque_len bucket.old }
    requires room { deque_len bucket.old < deque_capacity bucket.old }
    ensures items { bucket.new.items ≡ insert bucket.old.items place placed }
    ensures capacity { deque_capacity bucket.old ≤ deque_capacity bucket.new }
{
    if place == bucket.len() {
        bucket.push_back_reserved(placed);
    } else if place == 0 {
        bucket.push_front_reserved(placed);
    } else {
        put_between(bucket, place, placed);
    }
}

// Takes the last one out of a bucket that is full.
fn last_over(bucket: &mut VecDeque<Placed>) -> Option<Placed>
    requires { deque_len bucket.old ≤ 2048 }
    ensures items { bucket.new.items ≡ take 2047 bucket.old.items }
    ensures over { result ≡ slice_get bucket.old.items 2047 }
    ensures capacity { deque_capacity bucket.new ≡ deque_capacity bucket.old }
{
    if bucket.len() < BUCKET {
        return None;
    }
    bucket.pop_back()
}

// Puts one at a place of a bucket, and answers the one for which it has no room any more.
fn put_in(bucket: &mut VecDeque<Placed>, place: usize, placed: Placed) -> Option<Placed>
    requires few { deque_len bucket.old ≤ 2048 }
    requires place { place < 2048 }
    requires within { place ≤ deque_len bucket.old }
    requires room { 2048 ≤ deque_capacity bucket.old }
    ensures items { bucket.new.items ≡ take 2048 (insert bucket.old.items place placed) }
    ensures over { result ≡ slice_get (insert bucket.old.items place placed) 2048 }
    ensures capacity { 2048 ≤ deque_capacity bucket.new }
{
    let over = last_over(bucket);
    put(bucket, place, placed);
    over
}

// Puts one in front of a bucket's others, and answers the one for which it has no room any more.
fn put_first(bucket: &mut VecDeque<Placed>, placed: Placed) -> Option<Placed>
    requires few { deque_len bucket.old ≤ 2048 }
    requires room { 2048 ≤ deque_capacity bucket.old }
    ensures items { bucket.new.items ≡ take 2048 (insert bucket.old.items 0 placed) }
    ensures over { result ≡ slice_get (insert bucket.old.items 0 placed) 2048 }
    ensures capacity { 2048 ≤ deque_capacity bucket.new }
{
    let over = last_over(bucket);
    bucket.push_front_reserved(placed);
    over
}

/// Puts one at a place of the order.
pub fn put_at(buckets: &mut Vec<VecDeque<Placed>>, place: usize, placed: Placed)
    requires cut { AreBuckets (joined (map (λ b. b.items) buckets.old.items)) (map (λ b. b.items) buckets.old.items) }
    requires within { place ≤ length (joined (map (λ b. b.items) buckets.old.items)) }
    requires room { length (joined (map (λ b. b.items) buckets.old.items)) < 2048 * length buckets.old.items }
    requires capacities { AllByRecursion (λ b. 2048 ≤ deque_capacity b) buckets.old.items }
    ensures items { joined (map (λ b. b.items) buckets.new.items) ≡ insert (joined (map (λ b. b.items) buckets.old.items)) place placed }
    ensures cut { AreBuckets (joined (map (λ b. b.items) buckets.new.items)) (map (λ b. b.items) buckets.new.items) }
    ensures len { length buckets.new.items ≡ length buckets.old.items }
    ensures capacities { AllByRecursion (λ b. 2048 ≤ deque_capacity b) buckets.new.items }
{
    let mut i = place / BUCKET;
    let mut over = put_in(&mut buckets[i], place % BUCKET, placed);
    while let Some(next) = over {
        i += 1;
        over = put_first(&mut buckets[i], next);
    }
}

/// Takes out all that the buckets hold.
pub fn empty(buckets: &mut Vec<VecDeque<Placed>>)
    requires { AllByRecursion (λ b. 2048 ≤ deque_capacity b) buckets.old.items }
    ensures items { joined (map (λ b. b.items) buckets.new.items) ≡ [] }
    ensures cut { AreBuckets [] (map (λ b. b.items) buckets.new.items) }
    ensures len { length buckets.new.items ≡ length buckets.old.items }
    ensures capacities { AllByRecursion (λ b. 2048 ≤ deque_capacity b) buckets.new.items }
{
    for i in 0..buckets.len() {
        buckets[i].clear();
    }
}

/// Puts the slots of sorted commands in the place of all that the buckets hold, where there is room
/// for them.
pub fn fill(buckets: &mut Vec<VecDeque<Placed>>, keys: &[u64])
    requires room { length keys.now < 2048 * length buckets.old.items }
    requires capacities { AllByRecursion (λ b. 2048 ≤ deque_capacity b) buckets.old.items }
    ensures items { joined (map (λ b. b.items) buckets.new.items) ≡ map placed_of keys.now }
    ensures cut { AreBuckets (joined (map (λ b. b.items) buckets.new.items)) (map (λ b. b.items) buckets.new.items) }
    ensures len { length buckets.new.items ≡ length buckets.old.items }
    ensures capacities { AllByRecursion (λ b. 2048 ≤ deque_capacity b) buckets.new.items }
{
    empty(buckets);
    let mut place = 0;
    for key in keys {
        put_at(buckets, place, keyed_place(*key));
        place += 1;
    }
}
