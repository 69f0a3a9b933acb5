//! The race: a match's mirrors, each with a feeder and a worker for each copy in threads of their
//! own, and its finish.

ghost use Rattle.std.specs.Prelude.{◌≡◌, ◌+◌, ◌*◌, ◌≤◌, ℕ, List, [], map, length, vec_len, vec_capacity};
ghost use Rattle.std.specs.Prelude.{IfOk};
ghost use Rattle.std.specs.List.{AllByRecursion, AllZip};
ghost use Rattle.sync_model.specs.Schedule.{longest_delay};
ghost use Rattle.copy_workers.specs.declared.feeder_job.FeederJob.{FeederJob};
ghost use Rattle.race_hall.specs.Race.{Course};
ghost use Rattle.race_hall.specs.Finish.{EndsAtFold};
ghost use Rattle.race_hall.specs.Jobs.{Ends, CanDo};
ghost use Rattle.race_hall.specs.Crews.{ByMirror, IsCrewDone, IsLockOf, IsRaceOf, IsRoomy};
ghost use Rattle.race_hall.specs.Raced.{AreRaced};
ghost use Rattle.turn_lock.specs.Naming.{lock_name, opened_with};

use crate::board::{Board, boards};
use crate::crews::{close_all, crews, feeders};
use crate::doer::{Doing, EndOver, JobOver};
use crate::finish::{Sender, finish_joined};
use copy_workers::{FeederEnd, Gate};
use game_trait::Game;
use link_ring::{LinkReceive, LinkSend};
use match_data::Match;
use mirror_core::Mirror;
use mirror_lock::{MirrorLock, MirrorSeat};
use std::alloc::Global;
use std::sync::Wait;
use std::thread::Threads;
use task_threads::{Backs, Rooms, do_all};
use tss_base::NoMemory;

/// The most turns that a job of a race may make.
pub const MOST_BUDGET: u64 = 1_048_576;

// Empty lists with room for this number of jobs.
fn make_rooms<H: Drop, J: Drop, E: Drop>(
    alloc: Global,
    jobs: usize,
) -> Result<Rooms<H, J, E>, NoMemory>
    ensures empty { IfOk result (λ r. (r.begun.items ≡ []) × (r.going.items ≡ [])
        × (r.ends.items ≡ [])) }
    ensures room { IfOk result (λ r. (jobs ≤ vec_capacity r.begun) × (jobs ≤ vec_capacity r.going)
        × (jobs ≤ vec_capacity r.ends)) }
{
    Ok(Rooms {
        back: Backs::new(alloc, jobs)?,
        begun: Vec::with_capacity(alloc, jobs)?,
        going: Vec::with_capacity(alloc, jobs)?,
        ends: Vec::with_capacity(alloc, jobs)?,
    })
}

// Does the jobs of a race, over these locks. Where there isn't memory to begin, none is done.
fn do_jobs<R: Threads + Wait + Sync, G: Game + Send, P: Gate + Sync>(
    rt: &R,
    alloc: Global,
    gate: &P,
    locks: &[MirrorLock<G>],
    boards: &[Board],
    jobs: Vec<JobOver<MirrorSeat<G>>>,
    inline: u128,
) -> Result<Vec<EndOver<MirrorSeat<G>>>, NoMemory>
    requires can { AllByRecursion (CanDo G.rules (λ s. s.seat)
        (map (λ l. lock_name l.lock) locks.now))
        jobs.items }
    requires few { vec_len jobs ≤ 128 }
    ensures { IfOk result (λ ends. AllZip (Ends (λ s. s.seat)) jobs.items ends.items) }
{
    let rooms = make_rooms(alloc, jobs.len())?;
    let doer = Doing::new(rt, gate, locks, boards);
    Ok(do_all(rt, &doer, jobs, inline, rooms))
}

// For each mirror an empty list with room for the seats of its crew, which has this number of
// copies.
fn seat_lists<T: Drop>(alloc: Global, mirrors: usize, copies: u8) -> Result<Vec<Vec<T>>, NoMemory>
    ensures roomy { IfOk result (λ lists.
        AllByRecursion (λ v. IsRoomy copies v.items (vec_capacity v)) lists.items) }
    ensures count { IfOk result (λ lists. vec_len lists ≡ mirrors) }
{
    let mut lists = Vec::new(alloc);
    for _ in 0..mirrors {
        lists.push(Vec::with_capacity(alloc, usize::from(copies) + 1)?)?;
    }
    Ok(lists)
}

// Empty lists for what is done after the joins, made before the threads, so that nothing later
// takes memory.
#[derive(Drop)]
struct Spaces<T, M> {
    seats: Vec<Vec<T>>,
    mirrors: Vec<M>,
    feeders: Vec<FeederEnd>,
    sends: Vec<Vec<LinkSend>>,
    rows: Vec<Vec<LinkReceive>>,
    senders: Vec<Sender>,
}

// Empty lists with room for these numbers of mirrors and of copies in each mirror's crew.
fn make_spaces<T: Drop, M: Drop>(
    alloc: Global,
    mirrors: usize,
    copies: u8,
) -> Result<Spaces<T, M>, NoMemory>
    ensures seats { IfOk result (λ s.
        AllByRecursion (λ v. IsRoomy copies v.items (vec_capacity v)) s.seats.items) }
    ensures count { IfOk result (λ s. vec_len s.seats ≡ mirrors) }
    ensures empty { IfOk result (λ s. (s.mirrors.items ≡ []) × (s.feeders.items ≡ [])
        × (s.sends.items ≡ [])
        × (s.rows.items ≡ []) × (s.senders.items ≡ [])) }
    ensures room { IfOk result (λ s. (mirrors ≤ vec_capacity s.mirrors)
        × (mirrors ≤ vec_capacity s.feeders)
        × (mirrors ≤ vec_capacity s.sends) × (mirrors ≤ vec_capacity s.rows)
        × (mirrors ≤ vec_capacity s.senders)) }
{
    Ok(Spaces {
        seats: seat_lists(alloc, mirrors, copies)?,
        mirrors: Vec::with_capacity(alloc, mirrors)?,
        feeders: Vec::with_capacity(alloc, mirrors)?,
        sends: Vec::with_capacity(alloc, mirrors)?,
        rows: Vec::with_capacity(alloc, mirrors)?,
        senders: Vec::with_capacity(alloc, mirrors)?,
    })
}

// Closes the locks of a race whose jobs have ended, and finishes its mirrors. It takes no memory.
fn end_race<G: Game>(
    locks: Vec<MirrorLock<G>>,
    copies: u8,
    ends: Vec<EndOver<MirrorSeat<G>>>,
    spaces: Spaces<MirrorSeat<G>, Mirror<G>>,
) -> Vec<Mirror<G>>
    requires ended { (c : Course) × (opening : G) × (budget : ℕ) × (jobs : List FeederJob)
        × IsRaceOf c budget copies jobs
        × ByMirror (λ k lock job crew.
        IsCrewDone (λ s. s.seat) copies (lock_name lock.lock) job crew
        × IsLockOf c opening (length c.commands)
        (opened_with lock.lock) lock.lock.seats)
        0 locks.items jobs ends.items }
    requires seats { AllByRecursion (λ v. IsRoomy copies v.items (vec_capacity v))
        spaces.seats.items }
    requires count { vec_len spaces.seats ≡ vec_len locks }
    requires empty { (spaces.mirrors.items ≡ []) × (spaces.feeders.items ≡ [])
        × (spaces.sends.items ≡ [])
        × (spaces.rows.items ≡ []) × (spaces.senders.items ≡ []) }
    requires room { (vec_len locks ≤ vec_capacity spaces.mirrors)
        × (vec_len locks ≤ vec_capacity spaces.feeders)
        × (vec_len locks ≤ vec_capacity spaces.sends) × (vec_len locks ≤ vec_capacity spaces.rows)
        × (vec_len locks ≤ vec_capacity spaces.senders) }
    ensures { (c : Course) (opening : G) (budget : ℕ) (jobs : List FeederJob)
        → IsRaceOf c budget copies jobs
        → ByMirror (λ k lock job crew.
        IsCrewDone (λ s. s.seat) copies (lock_name lock.lock) job crew
        × IsLockOf c opening (length c.commands)
        (opened_with lock.lock) lock.lock.seats)
        0 locks.items jobs ends.items
        → (length result.items ≡ c.mirrors)
        × AllByRecursion (EndsAtFold G.rules c opening) result.items }
{
    let Spaces {
        seats,
        mirrors,
        feeders,
        sends,
        rows,
        senders,
    } = spaces;
    let (mut mirrors, feeders) = close_all(locks, copies, ends, seats, mirrors, feeders);
    finish_joined(&mut mirrors, feeders, sends, rows, senders);
    mirrors
}

/// Races a match from this world: each mirror has a feeder and a worker for each of its copies, and
/// each of these makes at most `budget` turns. Job number `mirror * (copies + 1) + worker` is done
/// by the caller where that bit of `inline` is set or where no thread can be made for it, and by a
/// thread otherwise; the feeder is worker `copies`. The threads are started first, and beside them
/// the caller does its own jobs, in rising number. When all have ended, it delivers what they left,
/// and makes turns until each mirror is drained. The mirrors, mirror 0 first: whatever the threads
/// did, each has every command once, turned none away, and its copies' worlds are the time-ordered
/// execution of all commands. `NoMemory` where there isn't memory to begin; then nothing ran. It may
/// wait, for the locks and at the gate.
pub fn race_with<R: Threads + Wait + Sync, G: Game + Send, P: Gate + Sync>(
    rt: &R,
    alloc: Global,
    m: &Match,
    opening: &G,
    gate: &P,
    budget: u64,
    inline: u128,
) -> Result<Vec<Mirror<G>>, NoMemory>
    requires { budget ≤ MOST_BUDGET }
    ensures { IfOk result (λ mirrors. AreRaced G.rules m.now opening.now mirrors.items) }
{
    let copies = m.delays.len() as u8;
    let feeders = feeders(alloc, m, budget)?;
    let (locks, jobs) = crews(alloc, m, opening, feeders)?;
    let boards = boards(alloc, m, locks.len())?;
    let spaces = make_spaces(alloc, locks.len(), copies)?;
    let ends = do_jobs(rt, alloc, gate, &locks, &boards, jobs, inline)?;
    Ok(end_race(locks, copies, ends, spaces))
}

/// How many turns each job of a match's race may make, where it is to do its whole work: 64 for each
/// tick of a mirror's clock, which ends at the match's length and its longest delay, and 64 more.
pub fn budget_of(m: &Match) -> u64
    ensures turns { result ≡ 64 * (m.now.length + longest_delay m.now.delays + 1) }
    ensures most { result ≤ MOST_BUDGET }
{
    let delay = m.delays.as_slice()[m.delays.len() - 1];
    64 * (u64::from(m.length) + u64::from(delay) + 1)
}

/// Races a match from this world, as `race_with` does, with all jobs in threads, and with turns
/// enough for each to do its whole work, as `budget_of` says.
pub fn race<R: Threads + Wait + Sync, G: Game + Send, P: Gate + Sync>(
    rt: &R,
    alloc: Global,
    m: &Match,
    opening: &G,
    gate: &P,
) -> Result<Vec<Mirror<G>>, NoMemory>
    ensures { IfOk result (λ mirrors. AreRaced G.rules m.now opening.now mirrors.items) }
{
    race_with(rt, alloc, m, opening, gate, budget_of(m), 0)
}
