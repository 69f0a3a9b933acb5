//! Who does the jobs of a race: a job over a seat of a mirror's lock, and the post through which it
//! asks.

ghost use Rattle.std.specs.Prelude.{◌≡◌, []};
ghost use Rattle.turn_lock.specs.Views.{view};
ghost use Rattle.race_hall.specs.Posting.{asked_by, trail_by, SameSeat, draft_told};
ghost use Rattle.race_hall.specs.Jobs.{CanCopy, CanFeed, CanWork, Ends, feeder_in};
ghost use Rattle.copy_workers.specs.Copied.{CopyEnds};
ghost use Rattle.copy_workers.specs.Fed.{FeederEnds};
ghost use Rattle.sync_model.specs.Drafts.{DraftTick, ready_of};
ghost use Rattle.mirror_core.specs.declared.drafts.Drafted.TheVariants.{Draft as ADraft};
ghost use Rattle.mirror_lock.specs.declared.calls.LockCall.TheVariants.{Commit as AskCommit};
ghost use Rattle.mirror_lock.specs.declared.calls.LockReply.TheVariants.{Draft as ToDraft};
ghost use Rattle.copy_workers.specs.Trail.{draw_of};
ghost use Rattle.turn_lock.specs.Naming.{lock_name, seat_name};

use crate::board::{Board, Notes};
use copy_workers::{
    CopyEnd, CopyJob, DraftPost, Draw, FeederEnd, FeederJob, Gate, Post, run_copy, run_feeder,
};
use game_trait::{Event, Game, MirrorId, Reply};
use mirror_core::{Committed, Drafted};
use mirror_lock::{LockCall, LockReply, MirrorLock, MirrorSeat, Slip};
use std::marker::Model;
use std::sync::Wait;
use task_threads::{Doer, Task};
use turn_lock::Named;

/// What a job is about.
#[derive(Drop)]
pub enum Work {
    /// A copy's worker.
    Copy(CopyJob),
    /// A feeder.
    Feeder(FeederJob),
}

impl Work {
    // The worker's number: its copy's, or for the feeder that of copies.
    fn worker(&self) -> u8 {
        match self {
            Work::Copy(job) => job.copy,
            Work::Feeder(job) => job.copies,
        }
    }
}

/// How the work ended.
#[derive(Drop)]
pub enum WorkEnd {
    /// A copy's worker.
    Copy(CopyEnd),
    /// A feeder.
    Feeder(FeederEnd),
}

impl WorkEnd {
    // What a feeder gives back; nothing where it was a copy's worker.
    pub(crate) fn into_feeder(self) -> Option<FeederEnd>
        ensures { result ≡ feeder_in self }
    {
        match self {
            WorkEnd::Copy(_end) => None,
            WorkEnd::Feeder(end) => Some(end),
        }
    }
}

/// A job that owns a seat `T`.
#[derive(Drop)]
pub struct JobOver<T> {
    /// The mirror, from 0 on.
    pub mirror: MirrorId,
    /// The seat of the mirror's lock.
    pub seat: T,
    /// What is to be done.
    pub work: Work,
}

/// What a job gives back.
#[derive(Drop)]
pub struct EndOver<T> {
    /// The seat of the job.
    pub seat: T,
    /// What its work gives back.
    pub end: WorkEnd,
}

// Feeds a mirror over a seat of its lock.
fn feed_over<R: Wait, G: Game, P: Gate>(
    rt: &R,
    gate: &P,
    lock: &MirrorLock<G>,
    notes: Notes,
    seat: MirrorSeat<G>,
    job: FeederJob,
) -> (MirrorSeat<G>, FeederEnd)
    requires own { seat_name seat.seat ≡ lock_name lock.now.lock }
    requires can { CanFeed G.rules job seat.seat }
    ensures same { SameSeat seat.seat result.0.seat }
    ensures fed { FeederEnds job result.1 [] (asked_by (view result.0.seat)) }
{
    let mut post = PostOver::new(rt, lock, notes, seat, Slips::new());
    let worker = job.copies;
    notes.begin(worker);
    let end = run_feeder(&mut post, gate, job);
    notes.end(worker);
    (post.into_seat(), end)
}

// Runs a copy over a seat of its mirror's lock.
fn copy_over<R: Wait, G: Game, P: Gate>(
    rt: &R,
    gate: &P,
    lock: &MirrorLock<G>,
    notes: Notes,
    seat: MirrorSeat<G>,
    job: CopyJob,
) -> (MirrorSeat<G>, CopyEnd)
    requires own { seat_name seat.seat ≡ lock_name lock.now.lock }
    requires can { CanCopy G.rules job seat.seat }
    ensures same { SameSeat seat.seat result.0.seat }
    ensures ran { CopyEnds job result.1 (view seat.seat).calls (view result.0.seat).calls
        [] (asked_by (view result.0.seat))
        [] (trail_by (view result.0.seat)) }
{
    let mut post = PostOver::new(rt, lock, notes, seat, Slips::new());
    notes.begin(job.copy);
    let end = run_copy::<G, _, P>(&mut post, gate, job);
    notes.end(job.copy);
    (post.into_seat(), end)
}

/// Does a job of a race, over its seat of this lock, and gives the seat back with the end of its
/// work, which keeps what `run_copy` or `run_feeder` promises. It may wait for the lock and at the
/// gate.
pub fn do_job<R: Wait, G: Game, P: Gate>(
    rt: &R,
    gate: &P,
    lock: &MirrorLock<G>,
    notes: Notes,
    job: JobOver<MirrorSeat<G>>,
) -> EndOver<MirrorSeat<G>>
    requires own { seat_name job.seat.seat ≡ lock_name lock.now.lock }
    requires can { CanWork G.rules job.work job.seat.seat }
    ensures { Ends (λ s. s.seat) job result }
{
    let JobOver {
        mirror: _,
        seat,
        work,
    } = job;
    match work {
        Work::Copy(job) => {
            let (seat, end) = copy_over(rt, gate, lock, notes, seat, job);
            EndOver {
                seat,
                end: WorkEnd::Copy(end),
            }
        }
        Work::Feeder(job) => {
            let (seat, end) = feed_over(rt, gate, lock, notes, seat, job);
            EndOver {
                seat,
                end: WorkEnd::Feeder(end),
            }
        }
    }
}

impl<G: Game> Task<EndOver<MirrorSeat<G>>> for JobOver<MirrorSeat<G>> {
    ghost use Rattle.race_hall.specs.Jobs.{Ends};

    ghost ends = { Ends (λ s. s.seat) };
}

/// Who does jobs: at a gate `P`, over locks `L`, of which each mirror has one.
#[derive(Drop)]
pub struct Doing<'a, R, P, L> {
    rt: &'a R,
    gate: &'a P,
    locks: &'a [L],
    boards: &'a [Board],
}

impl<'a, R, P, L> Doing<'a, R, P, L> {
    /// Who does jobs at this gate, over these locks, mirror 0's first.
    pub fn new(rt: &'a R, gate: &'a P, locks: &'a [L], boards: &'a [Board]) -> Doing<'a, R, P, L>
        ensures { result.locks.now ≡ locks.now }
    {
        Doing {
            rt,
            gate,
            locks,
            boards,
        }
    }
}

impl<'a, R: Wait, P: Gate, G: Game> Doer<JobOver<MirrorSeat<G>>, EndOver<MirrorSeat<G>>>
    for Doing<'a, R, P, MirrorLock<G>> {
    ghost use Rattle.std.specs.Prelude.{map};
    ghost use Rattle.race_hall.specs.Jobs.{CanDo};
    ghost use Rattle.turn_lock.specs.Naming.{lock_name};

    ghost can = { λ d job. CanDo G.rules (λ s. s.seat)
        (map (λ l. lock_name l.lock) d.locks.now) job };

    fn work(&self, task: JobOver<MirrorSeat<G>>) -> EndOver<MirrorSeat<G>> {
        let lock = &self.locks[usize::from(task.mirror)];
        let notes = Notes::new(self.boards, task.mirror);
        do_job(self.rt, self.gate, lock, notes, task)
    }

    fn keep(&self, task: &JobOver<MirrorSeat<G>>) {
        Notes::new(self.boards, task.mirror).keep(task.work.worker());
    }
}

/// What a post keeps beside its seat `T`.
pub trait Keeps<T> {
    /// It is what belongs to the seat as that is between two calls.
    ghost kept: { Self → T → Type 0 };
}

/// What a post asks a mirror's lock and what that answers: a slip for each kind of call, which all
/// calls of the kind use again, so that no world is handed about.
#[derive(Drop)]
pub struct Slips<G: Game> {
    events: Slip<G>,
    drafts: Slip<G>,
    commits: Slip<G>,
}

impl<G: Game> Slips<G> {
    /// Before any call.
    pub fn new() -> Slips<G> {
        Slips {
            events: Slip::new(),
            drafts: Slip::new(),
            commits: Slip::new(),
        }
    }
}

impl<G: Game> Keeps<MirrorSeat<G>> for Slips<G> {
    ghost use Rattle.turn_lock.specs.Views.{view};
    ghost use Rattle.race_hall.specs.Posting.{IsReadied};

    ghost kept = { λ slips s. IsReadied G.rules slips.drafts.reply (view s.seat) };
}

/// A post over a lock `L` and a seat `T` of it. Contracts see it as the seat.
pub struct PostOver<'a, R: Wait, L: Named, T: Named, B: Keeps<T>> {
    rt: &'a R,
    lock: &'a L,
    notes: Notes<'a>,
    seat: T,
    slips: B,
}

impl<'a, R: Wait, L: Named, T: Named, B: Keeps<T>> Model for PostOver<'a, R, L, T, B> {
    ghost Value = { T };

    ghost view = { λ p. p.seat };

    ghost invariant = { λ p. (T.name p.seat ≡ L.name p.lock.now) × B.kept p.slips p.seat };
}

impl<'a, R: Wait, L: Named, T: Named, B: Keeps<T>> PostOver<'a, R, L, T, B> {
    /// A post over this lock, for this seat of it. It notes on the board what it is answered.
    pub fn new(
        rt: &'a R,
        lock: &'a L,
        notes: Notes<'a>,
        seat: T,
        slips: B,
    ) -> PostOver<'a, R, L, T, B>
        requires own { T.name seat ≡ L.name lock.now }
        requires kept { B.kept slips seat }
        ensures { result ≡ seat }
    {
        PostOver {
            rt,
            lock,
            notes,
            seat,
            slips,
        }
    }
}

impl<'a, R: Wait, L: Named, T: Named, B: Keeps<T> + Drop> PostOver<'a, R, L, T, B> {
    /// The seat again.
    pub fn into_seat(self) -> T
        ensures { result ≡ self.entry }
    {
        let PostOver {
            rt: _,
            lock: _,
            notes: _,
            seat,
            slips: _,
        } = self;
        seat
    }
}

// Notes on the board that a copy ran a tick, where it did.
fn note_ran(notes: Notes, copy: u8, committed: &Committed) {
    if let Committed::Ran { repaired: _ } = committed {
        notes.note_ran(copy);
    }
}

// What was answered, without the draft.
fn drawn_in<G: Game>(drafted: &LockReply<G>) -> Draw
    ensures { result ≡ draw_of (draft_told drafted.now) }
{
    match drafted {
        LockReply::Draft(Drafted::Draft(_)) => Draw::Draft,
        LockReply::Draft(Drafted::Wide { commands }) => Draw::Wide {
            commands: *commands,
        },
        _ => Draw::Idle,
    }
}

// Executes the draft that was answered, to be committed. Tells its copy.
fn run_drafted<G: Game>(drafted: &LockReply<G>, ready: &mut LockCall<G>) -> u8
    requires { (d : DraftTick G) × (drafted.now ≡ ToDraft (ADraft d)) }
    ensures { (d : DraftTick G) → drafted.now ≡ ToDraft (ADraft d)
        → ready.new ≡ AskCommit (ready_of G.rules d) }
{
    match drafted {
        LockReply::Draft(Drafted::Draft(draft)) => {
            ready.put_ready(draft);
            draft.copy()
        }
        _ => unreachable!(),
    }
}

// Over a mirror's lock and a seat of it. What was asked are the events among the seat's own entries
// in the lock's history, and the steps that its commits stand for.
impl<'a, R: Wait, G: Game> Post for PostOver<'a, R, MirrorLock<G>, MirrorSeat<G>, Slips<G>> {
    ghost use Rattle.std.specs.Prelude.{None};
    ghost use Rattle.mirror_lock.specs.declared.calls.LockCall.TheVariants.{Event as AskEvent};
    ghost use Rattle.turn_lock.specs.Views.{view, FitsSeat};
    ghost use Rattle.mirror_lock.specs.Locked.{mirror_rules};
    ghost use Rattle.race_hall.specs.Posting.{asked_by, trail_by, drawn_by, SameSeat};

    ghost asked = { λ p. asked_by (view p.seat) };

    ghost trail = { λ p. trail_by (view p.seat) };

    ghost calls = { λ p. p.calls };

    ghost grows = { λ p. p.grows };

    ghost takes = { λ p event. FitsSeat (mirror_rules G.rules) (view p.seat) (AskEvent event) };

    ghost same = { λ p q. SameSeat p.seat q.seat };

    ghost bare = { λ p. drawn_by (view p.seat) ≡ None };

    fn ask(&mut self, event: &Event) -> Reply {
        let reply = self
            .lock
            .ask_on(self.rt, &mut self.seat, &mut self.slips.events, event);
        self.notes.note(event, reply);
        reply
    }

    fn nap(&self, taken: u32) {
        turn_lock::nap(self.rt, Notes::nap_length(taken));
    }

    fn patience(&self, worker: u8) -> u32 {
        self.notes.patience(worker)
    }
}

impl<'a, R: Wait, G: Game> DraftPost<G>
    for PostOver<'a, R, MirrorLock<G>, MirrorSeat<G>, Slips<G>> {
    ghost use Rattle.std.specs.Prelude.{◌+◌, ◌<◌, ◌++◌, ◌∷◌, [], Some, None};
    ghost use Rattle.game_trait.specs.declared.event.Event.{Event as AnEvent};
    ghost use Rattle.sync_model.specs.Drafts.{DraftTick};
    ghost use Rattle.mirror_lock.specs.declared.calls.LockCall.TheVariants.{Event as AskEvent};
    ghost use Rattle.turn_lock.specs.Views.{view, FitsSeat};
    ghost use Rattle.mirror_lock.specs.Locked.{mirror_rules};
    ghost use Rattle.copy_workers.specs.Trail.{commit_mark, commit_asked};
    ghost use Rattle.race_hall.specs.Posting.{asked_by, trail_by, drawn_by, StaysSame};

    ghost drawn = { λ p. drawn_by (view p.seat) };

    fn draft(&mut self, copy: u8, times: u64) -> Draw {
        self.lock.draft_on(self.rt, &mut self.seat, &mut self.slips.drafts, copy, times);
        drawn_in(&self.slips.drafts.reply)
    }

    fn commit(&mut self) -> Committed
        requires drawn { (d : DraftTick G) × (drawn_by (view self.old.seat) ≡ Some d) }
        requires calls { 0 < self.old.calls }
        ensures trail { (d : DraftTick G) → drawn_by (view self.old.seat) ≡ Some d
            → trail_by (view self.new.seat)
            ≡ trail_by (view self.old.seat) ++ commit_mark d.copy result ∷ [] }
        ensures asked { (d : DraftTick G) → drawn_by (view self.old.seat) ≡ Some d
            → asked_by (view self.new.seat)
            ≡ asked_by (view self.old.seat) ++ commit_asked d.copy result }
        ensures calls { self.new.calls + 1 ≡ self.old.calls }
        ensures grows { self.new.grows ≡ self.old.grows }
        ensures takes { (e : AnEvent)
            → FitsSeat (mirror_rules G.rules) (view self.old.seat) (AskEvent e)
            → FitsSeat (mirror_rules G.rules) (view self.new.seat) (AskEvent e) }
        ensures same { StaysSame (λ s. s.seat) self.old self.new }
        ensures left { drawn_by (view self.new.seat) ≡ None }
    {
        let copy = run_drafted(&self.slips.drafts.reply, &mut self.slips.commits.call);
        let committed = self
            .lock
            .commit_on(self.rt, &mut self.seat, &mut self.slips.commits);
        note_ran(self.notes, copy, &committed);
        committed
    }

    fn seems_due(&self, copy: u8) -> bool {
        self.notes.seems_due(copy)
    }

    ghost laws = { λ p none. none };
}
