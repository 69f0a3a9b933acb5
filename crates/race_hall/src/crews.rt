//! The crews of a race: each mirror behind its lock, with the jobs of its feeder and of its copies'
//! workers; and the close, once all are done.

ghost use Rattle.std.specs.Prelude.{◌≡◌, ◌∷◌, ◌+◌, ◌-◌, ◌≤◌, ◌<◌, ◌==◌, IfOk, filter, length, ◌≢◌, ℕ, ◌++◌, List, map, vec_len, OnOk, [], vec_capacity};
ghost use Rattle.std.specs.List.{AllByRecursion, AllZip};
ghost use Rattle.std.specs.Vec.Iter.{into_iter_items};
ghost use Rattle.game_trait.specs.Keys.{in_key_order, NamesDiffer};
ghost use Rattle.match_data.specs.Data.{schedule_of, schedules};
ghost use Rattle.race_hall.specs.Race.{count_from, plan_of, Course, first_plan};
ghost use Rattle.race_hall.specs.Raced.{course_of};
ghost use Rattle.race_hall.specs.Crews.{IsPlanOf, IsRoomOf, AreFeeders, ByMirror, IsFeederOf, IsCrew, IsManning, IsLockOf, IsPosted, shares_of, HasCrew, IsCrewDone, IsClosed, AllClosed, IsTakenBack, IsRoomy};
ghost use Rattle.race_hall.specs.FeederJobs.{AreLinedUp};
ghost use Rattle.race_hall.specs.declared.doer.JobOver.{JobOver};
ghost use Rattle.copy_workers.specs.declared.feeder_job.FeederJob.{FeederJob};
ghost use Rattle.turn_lock.specs.Naming.{lock_name, opened_with};

use crate::doer::{EndOver, JobOver, Work};
use copy_workers::{CopyJob, FeederEnd, FeederJob};
use game_trait::{Command, Game, MirrorId, order_by_key};
use link_mesh::make_links;
use link_ring::{LinkReceive, LinkSend};
use match_data::{Match, plans_of};
use mirror_core::Mirror;
use mirror_lock::{MirrorLock, MirrorSeat};
use stagger_clock::Stagger;
use std::alloc::Global;
use std::vec::IntoIter;
use tss_base::NoMemory;
use turn_lock::Share;

// A mirror's own commands, in key order.
fn own_commands(
    alloc: Global,
    commands: &[Command],
    mirror: MirrorId,
) -> Result<Vec<Command>, NoMemory>
    requires { NamesDiffer commands.now }
    ensures { IfOk result (λ plan. plan.items
        ≡ in_key_order (filter (λ x. x.from == mirror) commands.now)) }
{
    let mut plan = Vec::new(alloc);
    for x in commands {
        if x.from == mirror {
            plan.push(*x)?;
        }
    }
    order_by_key(&mut plan);
    Ok(plan)
}

// Each mirror's own commands, and how many messages a link from it has room for: these commands,
// and a mark a tick.
fn plans_and_rooms(alloc: Global, m: &Match) -> Result<(Vec<Vec<Command>>, Vec<u32>), NoMemory>
    ensures plans { IfOk result (λ r.
        AllZip (IsPlanOf (course_of m.now)) (count_from 0 m.now.mirrors) r.0.items) }
    ensures rooms { IfOk result (λ r.
        AllZip (IsRoomOf (course_of m.now)) (count_from 0 m.now.mirrors) r.1.items) }
{
    let mut plans = Vec::new(alloc);
    let mut rooms = Vec::new(alloc);
    for mirror in 0..m.mirrors {
        let plan = own_commands(alloc, m.commands.as_slice(), mirror)?;
        rooms.push(plan.len() as u32 + m.length)?;
        plans.push(plan)?;
    }
    Ok((plans, rooms))
}

// The next of what is being given out, of which some is left.
fn take_next<T: Drop>(list: &mut IntoIter<T>) -> T
    requires { 0 < length (into_iter_items list.old) }
    ensures { into_iter_items list.old ≡ result ∷ into_iter_items list.new }
{
    match list.next() {
        Some(x) => x,
        None => unreachable!(),
    }
}

// The feeders' jobs, mirror by mirror, which take these plans and links.
fn line_up(
    alloc: Global,
    m: &Match,
    stagger: Stagger,
    budget: u64,
    plans: Vec<Vec<Command>>,
    sends: Vec<Vec<LinkSend>>,
    rows: Vec<Vec<LinkReceive>>,
) -> Result<Vec<FeederJob>, NoMemory>
    requires stagger { stagger ≡ schedule_of m.now m.now.delays }
    requires plans { AllZip (IsPlanOf (course_of m.now)) (count_from 0 m.now.mirrors) plans.items }
    requires sends { length sends.items ≡ m.now.mirrors }
    requires rows { length rows.items ≡ m.now.mirrors }
    ensures { IfOk result (λ jobs.
        AreLinedUp (course_of m.now) budget sends.items rows.items m.now.mirrors jobs.items) }
{
    let mut jobs = Vec::new(alloc);
    let mut plans = plans.into_iter();
    let mut sends = sends.into_iter();
    let mut rows = rows.into_iter();
    for mirror in 0..m.mirrors {
        let plan = take_next(&mut plans);
        jobs.push(FeederJob {
            mirror,
            copies: stagger.copies(),
            stagger,
            pace: m.pace,
            foreign: (m.commands.len() - plan.len()) as u32,
            plan,
            sends: take_next(&mut sends),
            receives: take_next(&mut rows),
            budget,
        })?;
    }
    Ok(jobs)
}

/// The jobs of a match's feeders, mirror by mirror, each of at most `budget` turns: the mirror's
/// plan, and new links from and to each other mirror, with room for all that may be sent.
pub fn feeders(alloc: Global, m: &Match, budget: u64) -> Result<Vec<FeederJob>, NoMemory>
    ensures { IfOk result (λ jobs. AreFeeders (course_of m.now) budget jobs.items) }
{
    let stagger = Stagger::new(m.delays.as_slice(), m.length);
    let (plans, rooms) = plans_and_rooms(alloc, m)?;
    let (sends, rows) = make_links(alloc, &rooms)?;
    line_up(alloc, m, stagger, budget, plans, sends, rows)
}

// What the seats of a mirror may ask for, which has this feeder.
fn shares(alloc: Global, feeder: &FeederJob) -> Result<Vec<Share>, NoMemory>
    requires budget { feeder.now.budget ≤ 1_048_576 }
    requires plan { vec_len feeder.now.plan ≤ 32_768 }
    requires foreign { feeder.now.foreign ≤ 32_768 }
    ensures { IfOk result (λ shares. shares.items
        ≡ shares_of feeder.now.copies feeder.now.budget
        (vec_len feeder.now.plan) feeder.now.foreign) }
{
    let mut shares = Vec::new(alloc);
    for _ in 0..feeder.copies {
        shares.push(Share {
            calls: 2 * feeder.budget,
            grows: 0,
        })?;
    }
    let plan = feeder.plan.len() as u64;
    shares.push(Share {
        calls: 8 * feeder.budget + plan,
        grows: plan + u64::from(feeder.foreign),
    })?;
    Ok(shares)
}

// Puts a crew's jobs behind the others, over these seats: a worker for each copy, and then the
// feeder. On `NoMemory` some of them may be there.
fn push_crew<T: Drop>(
    jobs: &mut Vec<JobOver<T>>,
    seats: Vec<T>,
    feeder: FeederJob,
) -> Result<(), NoMemory>
    requires { vec_len seats ≡ feeder.copies + 1 }
    ensures { OnOk result ((crew : List (JobOver T)) × (jobs.new.items ≡ jobs.old.items ++ crew)
        × (map (λ job. job.seat) crew ≡ seats.items)
        × AllZip (IsPosted feeder) (count_from 0 (feeder.copies + 1)) crew) }
{
    let mirror = feeder.mirror;
    let length = feeder.stagger.length();
    let budget = feeder.budget;
    let mut seats = seats.into_iter();
    for copy in 0..feeder.copies {
        let seat = take_next(&mut seats);
        let work = Work::Copy(CopyJob {
            mirror,
            copy,
            length,
            budget,
        });
        jobs.push(JobOver { mirror, seat, work })?;
    }
    let seat = take_next(&mut seats);
    let work = Work::Feeder(feeder);
    jobs.push(JobOver { mirror, seat, work })?;
    Ok(())
}

// Locks a mirror of a match as it begins, and puts the jobs over its seats behind the others.
fn man_mirror<G: Game>(
    alloc: Global,
    m: &Match,
    opening: &G,
    plans: &[Stagger],
    feeder: FeederJob,
    jobs: &mut Vec<JobOver<MirrorSeat<G>>>,
) -> Result<MirrorLock<G>, NoMemory>
    requires plans { plans.now ≡ schedules m.now }
    requires feeder { IsFeederOf (course_of m.now) feeder.budget feeder.mirror feeder }
    requires there { feeder.mirror < m.now.mirrors }
    requires budget { feeder.budget ≤ 1_048_576 }
    ensures manned { IfOk result (λ lock.
        IsManning (λ s. s.seat) G.rules (lock_name lock.lock) feeder jobs.old.items
        jobs.new.items) }
    ensures locked { IfOk result (λ lock.
        IsLockOf (course_of m.now) opening.now (length m.now.commands)
        (opened_with lock.lock) lock.lock.seats) }
{
    let room = m.commands.len() as u32;
    let mirror = Mirror::new(alloc, opening, plans, room, 0)?;
    let shares = shares(alloc, &feeder)?;
    let (lock, seats) = MirrorLock::start(alloc, mirror, &shares)?;
    push_crew(jobs, seats, feeder)?;
    Ok(lock)
}

/// The locks of a match's mirrors, mirror 0 first, which begin with this world, and the jobs over
/// their seats, mirror by mirror: a worker for each copy, and then the feeder.
pub fn crews<G: Game>(
    alloc: Global,
    m: &Match,
    opening: &G,
    feeders: Vec<FeederJob>,
) -> Result<(Vec<MirrorLock<G>>, Vec<JobOver<MirrorSeat<G>>>), NoMemory>
    requires feeders { (budget : ℕ) × (budget ≤ 1_048_576)
        × AllZip (IsFeederOf (course_of m.now) budget) (count_from 0 m.now.mirrors) feeders.items }
    ensures { IfOk result (λ r. ByMirror (λ k lock feeder crew.
        IsCrew (λ s. s.seat) G.rules feeder.copies k (lock_name lock.lock) feeder crew
        × IsLockOf (course_of m.now) opening.now (length m.now.commands)
        (opened_with lock.lock) lock.lock.seats)
        0 r.0.items feeders.items r.1.items) }
{
    let plans = plans_of(alloc, m)?;
    let mut locks = Vec::new(alloc);
    let mut jobs = Vec::new(alloc);
    for feeder in feeders {
        let lock = man_mirror(alloc, m, opening, &plans, feeder, &mut jobs)?;
        locks.push(lock)?;
    }
    Ok((locks, jobs))
}

// Takes back the seats of a crew, which is a front of the ends, and what the last of
// these gave back.
fn take_crew<T: Drop>(
    ends: &mut IntoIter<EndOver<T>>,
    count: usize,
    mut seats: Vec<T>,
) -> (Vec<T>, Option<FeederEnd>)
    requires there { count ≤ length (into_iter_items ends.old) }
    requires empty { seats.items ≡ [] }
    requires room { count ≤ vec_capacity seats }
    ensures { IsTakenBack count (into_iter_items ends.old) (into_iter_items ends.new)
        result.0.items result.1 }
{
    let mut given = None;
    for _ in 0..count {
        let EndOver { seat, end } = take_next(ends);
        seats.push_reserved(seat);
        given = end.into_feeder();
    }
    (seats, given)
}

// Closes a mirror's lock with the seats of its crew, which are the first of these ends. The mirror
// and what its feeder gave back.
fn close_one<G: Game>(
    lock: MirrorLock<G>,
    copies: u8,
    ends: &mut IntoIter<EndOver<MirrorSeat<G>>>,
    seats: Vec<MirrorSeat<G>>,
) -> (Mirror<G>, FeederEnd)
    requires crew { (c : Course) × (opening : G) × (spare : ℕ) × (job : FeederJob) × (rest : List _)
        × (copies ≡ length (first_plan c))
        × HasCrew (λ s. s.seat) copies (lock_name lock.lock) job (into_iter_items ends.old) rest
        × IsLockOf c opening spare (opened_with lock.lock) lock.lock.seats }
    requires room { IsRoomy copies seats.items (vec_capacity seats) }
    ensures { (c : Course) (opening : G) (spare : ℕ) (job : FeederJob) (rest : List _)
        → copies ≡ length (first_plan c)
        → HasCrew (λ s. s.seat) copies (lock_name lock.lock) job (into_iter_items ends.old) rest
        → IsLockOf c opening spare (opened_with lock.lock) lock.lock.seats
        → (into_iter_items ends.new ≡ rest) × IsClosed c opening spare job result.1 result.0 }
{
    let (seats, given) = take_crew(ends, usize::from(copies) + 1, seats);
    let mirror = lock.close(seats);
    match given {
        Some(end) => (mirror, end),
        None => unreachable!(),
    }
}

/// Closes the locks, each with the seats of its crew, into empty lists that have room for it. The
/// mirrors, and what their feeders gave back. It takes no memory.
pub fn close_all<G: Game>(
    locks: Vec<MirrorLock<G>>,
    copies: u8,
    ends: Vec<EndOver<MirrorSeat<G>>>,
    seats: Vec<Vec<MirrorSeat<G>>>,
    mut mirrors: Vec<Mirror<G>>,
    mut feeders: Vec<FeederEnd>,
) -> (Vec<Mirror<G>>, Vec<FeederEnd>)
    requires crews { (c : Course) × (opening : G) × (spare : ℕ) × (jobs : List FeederJob)
        × (copies ≡ length (first_plan c))
        × ByMirror (λ k lock job crew.
        IsCrewDone (λ s. s.seat) copies (lock_name lock.lock) job crew
        × IsLockOf c opening spare (opened_with lock.lock) lock.lock.seats)
        0 locks.items jobs ends.items }
    requires seats { AllByRecursion (λ v. IsRoomy copies v.items (vec_capacity v)) seats.items }
    requires empty { (mirrors.items ≡ []) × (feeders.items ≡ []) }
    requires room { (vec_len locks ≤ vec_len seats) × (vec_len locks ≤ vec_capacity mirrors)
        × (vec_len locks ≤ vec_capacity feeders) }
    ensures { (c : Course) (opening : G) (spare : ℕ) (jobs : List FeederJob)
        → copies ≡ length (first_plan c)
        → ByMirror (λ k lock job crew.
        IsCrewDone (λ s. s.seat) copies (lock_name lock.lock) job crew
        × IsLockOf c opening spare (opened_with lock.lock) lock.lock.seats)
        0 locks.items jobs ends.items
        → AllClosed c opening spare jobs result.1.items result.0.items }
{
    let mut ends = ends.into_iter();
    let mut seats = seats.into_iter();
    for lock in locks {
        let (mirror, feeder) = close_one(lock, copies, &mut ends, take_next(&mut seats));
        mirrors.push_reserved(mirror);
        feeders.push_reserved(feeder);
    }
    (mirrors, feeders)
}
