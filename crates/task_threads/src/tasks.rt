//! Tasks, done in threads or by the caller beside them.

ghost use Rattle.std.specs.Prelude.{◌≡◌, ◌<◌, ◌≤◌, List, [], vec_len, vec_capacity};
ghost use Rattle.std.specs.List.{AllByRecursion, AllZip};
ghost use Rattle.task_threads.specs.Begun.{IsBegun, IsGoing, IsGivenFor};
ghost use Rattle.task_threads.specs.declared.tasks.Given.{Given};

use std::alloc::Global;
use std::snapshot::Snapshot;
use std::sync::Wait;
use std::sync::atomic::{AtomicBool, Ordering};
use std::thread::{Promise, PromisedHandle, Scope, Threads, scope, scope_env};
use tss_base::NoMemory;

/// What may be done, and comes to an end `E`.
pub trait Task<E> {
    /// Which ends are ends of it.
    ghost ends: { Self → E → Type 0 };
}

/// Who does tasks.
pub trait Doer<J: Task<E>, E> {
    /// Which tasks it may do.
    ghost can: { Self → J → Type 0 };

    /// Does the task. It may wait.
    fn work(&self, task: J) -> E
        requires { can self.now task }
        ensures { J.ends task result };

    /// Is told of a task that the caller is going to do, once all threads are begun.
    fn keep(&self, task: &J);
}

/// What the code for a thread gives: an end of its task, or the task again, where no thread could be
/// made for it.
#[derive(Drop)]
pub enum Given<J, E> {
    /// The task, which wasn't done.
    Back(J),
    /// It is done.
    Done(E),
}

/// That a thread gives an end of this task, or this task.
#[derive(Drop)]
pub struct EndOf<J> {
    task: Snapshot<J>,
}

impl<E, J: Task<E>> Promise<Given<J, E>> for EndOf<J> {
    ghost kept_by = { λ p given. IsGivenFor J.ends p.task.value given };
}

/// A task that was begun.
#[derive(Drop)]
pub enum Begun<H, J, E> {
    /// A thread does it.
    Thread(H),
    /// The caller is to do it.
    Kept(J),
    /// It is done.
    Done(E),
}

/// The handle of a thread that does a task.
pub type EndHandle<J, E> = PromisedHandle<Given<J, E>, EndOf<J>>;

/// A task that was begun, which a thread may do.
pub type InThread<J, E> = Begun<EndHandle<J, E>, J, E>;

// Does a task that was kept.
fn go_on<E: Drop, J: Task<E> + Drop, D: Doer<J, E>>(doer: &D, one: InThread<J, E>) -> InThread<J, E>
    requires { (task : J) × IsBegun (λ h. h.promise.task.value) J.ends task one
        × D.can doer.now task }
    ensures { (task : J) → IsBegun (λ h. h.promise.task.value) J.ends task one
        → IsGoing (λ h. h.promise.task.value) J.ends task result }
{
    match one {
        Begun::Thread(handle) => Begun::Thread(handle),
        Begun::Kept(task) => Begun::Done(doer.work(task)),
        Begun::Done(end) => Begun::Done(end),
    }
}

// Tells who does tasks of those that were kept.
fn tell_kept<E: Drop, J: Task<E> + Drop, D: Doer<J, E>>(doer: &D, begun: &[InThread<J, E>]) {
    for one in begun {
        if let Begun::Kept(task) = one {
            doer.keep(task);
        }
    }
}

// Does the tasks that were kept, in order.
fn go_on_all<E: Drop, J: Task<E> + Drop, D: Doer<J, E>>(
    doer: &D,
    begun: Vec<InThread<J, E>>,
    mut going: Vec<InThread<J, E>>,
) -> Vec<InThread<J, E>>
    requires begun { (tasks : List J)
        × AllZip (IsBegun (λ h. h.promise.task.value) J.ends) tasks begun.items
        × AllByRecursion (D.can doer.now) tasks }
    requires room { (going.items ≡ []) × (vec_len begun ≤ vec_capacity going) }
    ensures { (tasks : List J)
        → AllZip (IsBegun (λ h. h.promise.task.value) J.ends) tasks begun.items
        → AllZip (IsGoing (λ h. h.promise.task.value) J.ends) tasks result.items }
{
    for one in begun {
        going.push_reserved(go_on(doer, one));
    }
    going
}

// What became of a task for which the code of a thread gave this.
fn take_given<E: Drop, J: Task<E> + Drop, D: Doer<J, E>>(doer: &D, given: Given<J, E>) -> E
    requires { (task : J) × IsGivenFor J.ends task given × D.can doer.now task }
    ensures { (task : J) → IsGivenFor J.ends task given → J.ends task result }
{
    match given {
        Given::Back(task) => doer.work(task),
        Given::Done(end) => end,
    }
}

// The end of a task that a thread does, or that is done.
fn join_one<R: Threads, E: Drop, J: Task<E> + Drop, D: Doer<J, E>>(
    rt: &R,
    doer: &D,
    one: InThread<J, E>,
) -> E
    requires { (task : J) × IsGoing (λ h. h.promise.task.value) J.ends task one
        × D.can doer.now task }
    ensures { (task : J) → IsGoing (λ h. h.promise.task.value) J.ends task one
        → J.ends task result }
{
    match one {
        Begun::Thread(handle) => take_given(doer, handle.join(rt)),
        Begun::Kept(_) => unreachable!(),
        Begun::Done(end) => end,
    }
}

// The ends of all tasks, in order.
fn join_all<R: Threads, E: Drop, J: Task<E> + Drop, D: Doer<J, E>>(
    rt: &R,
    doer: &D,
    going: Vec<InThread<J, E>>,
    mut ends: Vec<E>,
) -> Vec<E>
    requires going { (tasks : List J)
        × AllZip (IsGoing (λ h. h.promise.task.value) J.ends) tasks going.items
        × AllByRecursion (D.can doer.now) tasks }
    requires room { (ends.items ≡ []) × (vec_len going ≤ vec_capacity ends) }
    ensures { (tasks : List J)
        → AllZip (IsGoing (λ h. h.promise.task.value) J.ends) tasks going.items
        → AllZip J.ends tasks result.items }
{
    for one in going {
        ends.push_reserved(join_one(rt, doer, one));
    }
    ends
}

/// For each task, whether it is to be handed back, since no thread could be made for it.
#[derive(Drop)]
pub struct Backs {
    flags: Vec<AtomicBool>,
}

impl Backs {
    /// So many tasks, of which none is to be handed back.
    pub fn new(alloc: Global, tasks: usize) -> Result<Backs, NoMemory> {
        let mut flags = Vec::with_capacity(alloc, tasks)?;
        for _ in 0..tasks {
            flags.push(AtomicBool::new(false))?;
        }
        Ok(Backs { flags })
    }

    /// Whether the task of this number is to be handed back.
    pub fn goes_back(&self, number: u32) -> bool {
        match self.flags.get(number as usize) {
            Some(flag) => flag.load(Ordering::SeqCst),
            None => false,
        }
    }

    // Has the task of this number handed back.
    fn hand_back(&self, number: u32) {
        if let Some(flag) = self.flags.get(number as usize) {
            flag.store(true, Ordering::SeqCst);
        }
    }
}

/// Lists with room for each task, made before the threads, so that these take no memory.
#[derive(Drop)]
pub struct Rooms<H, J, E> {
    /// Which tasks are to be handed back.
    pub back: Backs,
    /// For tasks that were begun.
    pub begun: Vec<Begun<H, J, E>>,
    /// For tasks that go on.
    pub going: Vec<Begun<H, J, E>>,
    /// For ends.
    pub ends: Vec<E>,
}

// What a thread runs: it does the task, unless this is to be handed back.
fn run<E: Drop, J: Task<E> + Drop, D: Doer<J, E>>(
    doer: &D,
    back: &Backs,
    number: u32,
    task: J,
) -> Given<J, E>
    requires { D.can doer.now task }
    ensures { IsGivenFor J.ends task result }
{
    if back.goes_back(number) {
        Given::Back(task)
    } else {
        Given::Done(doer.work(task))
    }
}

// A task for which no thread could be made, as its code gave it.
fn taken_back<E: Drop, J: Task<E> + Drop>(given: Given<J, E>) -> InThread<J, E>
    ensures { (task : J) → IsGivenFor J.ends task given
        → IsBegun (λ h. h.promise.task.value) J.ends task result }
{
    match given {
        Given::Back(task) => Begun::Kept(task),
        Given::Done(end) => Begun::Done(end),
    }
}

/// Keeps the task of this number, for which no thread could be made: its code, which is handed back,
/// is told to give the task and not to do it, so that the threads behind it are begun first.
pub fn keep_refused<E: Drop, J: Task<E> + Drop, C: FnOnce() -> Given<J, E>>(
    back: &Backs,
    number: u32,
    code: C,
) -> InThread<J, E>
    requires { C.pre code }
    ensures { (task : J)
        → ((given : Given J E) → C.post code given → IsGivenFor J.ends task given)
        → IsBegun (λ h. h.promise.task.value) J.ends task result }
{
    back.hand_back(number);
    taken_back(code())
}

// Begins a task in a thread of the scope, and keeps it where none can be made for it.
fn begin<'s, S, E, J, D>(
    scope: &Scope<'s, S>,
    doer: &'s D,
    back: &'s Backs,
    number: u32,
    task: J,
) -> InThread<J, E>
where
    E: Drop + Send + 's,
    J: Task<E> + Drop + Send + 's,
    D: Doer<J, E> + Sync,
    requires { D.can doer.now task }
    ensures { IsBegun (λ h. h.promise.task.value) J.ends task result }
{
    let promise = EndOf {
        task: Snapshot::of(&task),
    };
    let begun = scope.spawn_with(
        promise,
        move || -> Given<J, E>
            requires { D.can doer.now task }
            ensures { IsGivenFor J.ends task result }
        { run(doer, back, number, task) },
    );
    match begun {
        Ok(handle) => Begun::Thread(handle),
        Err(code) => keep_refused(back, number, code.value),
    }
}

// Begins a task in a thread of the scope, or keeps it, where its bit of `inline` is set.
fn begin_or_keep<'s, S, E, J, D>(
    scope: &Scope<'s, S>,
    doer: &'s D,
    back: &'s Backs,
    inline: u128,
    number: u32,
    task: J,
) -> InThread<J, E>
where
    E: Drop + Send + 's,
    J: Task<E> + Drop + Send + 's,
    D: Doer<J, E> + Sync,
    requires can { D.can doer.now task }
    requires few { number < 128 }
    ensures { IsBegun (λ h. h.promise.task.value) J.ends task result }
{
    if (inline >> number) & 1 == 1 {
        Begun::Kept(task)
    } else {
        begin(scope, doer, back, number, task)
    }
}

// Begins all tasks in threads, in order, but those whose bit of `inline` is set. Beside the threads
// the caller then does those, and the ones for which no thread could be made, in order.
fn go_in<'s, S, E, J, D>(
    scope: &Scope<'s, S>,
    doer: &'s D,
    back: &'s Backs,
    tasks: Vec<J>,
    inline: u128,
    mut begun: Vec<InThread<J, E>>,
    going: Vec<InThread<J, E>>,
) -> Vec<InThread<J, E>>
where
    E: Drop + Send + 's,
    J: Task<E> + Drop + Send + 's,
    D: Doer<J, E> + Sync,
    requires can { AllByRecursion (D.can doer.now) tasks.items }
    requires few { vec_len tasks ≤ 128 }
    requires room { (begun.items ≡ []) × (vec_len tasks ≤ vec_capacity begun) }
    requires more { (going.items ≡ []) × (vec_len tasks ≤ vec_capacity going) }
    ensures { AllZip (IsGoing (λ h. h.promise.task.value) J.ends) tasks.items result.items }
{
    let mut number = 0u32;
    for task in tasks {
        begun.push_reserved(begin_or_keep(scope, doer, back, inline, number, task));
        number += 1;
    }
    tell_kept(doer, &begun);
    go_on_all(doer, begun, going)
}

// Does all tasks, in a scope of threads. All that threads do has ended then.
fn go_through<R, E, J, D>(
    rt: &R,
    doer: &D,
    back: &Backs,
    tasks: Vec<J>,
    inline: u128,
    begun: Vec<InThread<J, E>>,
    going: Vec<InThread<J, E>>,
) -> Vec<InThread<J, E>>
where
    R: Threads + Wait + Sync,
    E: Drop + Send,
    J: Task<E> + Drop + Send,
    D: Doer<J, E> + Sync,
    requires can { AllByRecursion (D.can doer.now) tasks.items }
    requires few { vec_len tasks ≤ 128 }
    requires room { (begun.items ≡ []) × (vec_len tasks ≤ vec_capacity begun) }
    requires more { (going.items ≡ []) × (vec_len tasks ≤ vec_capacity going) }
    ensures { AllZip (IsGoing (λ h. h.promise.task.value) J.ends) tasks.items result.items }
{
    scope(
        scope_env(),
        rt,
        move |scope| -> Vec<InThread<J, E>>
            requires { AllByRecursion (D.can doer.now) tasks.items
                × (vec_len tasks ≤ 128) × (begun.items ≡ [])
                × (vec_len tasks ≤ vec_capacity begun) × (going.items ≡ [])
                × (vec_len tasks ≤ vec_capacity going) }
            ensures { AllZip (IsGoing (λ h. h.promise.task.value) J.ends) tasks.items result.items }
        { go_in(scope, doer, back, tasks, inline, begun, going) },
    )
}

/// Does the tasks, of which there are at most 128, and gives an end of each, in order. A task is
/// done by the caller where its bit of `inline` is set or where no thread can be made for it, and
/// by a thread otherwise. All threads are begun first; beside them the caller does its own tasks,
/// in order. It takes no memory, and waits for all threads.
pub fn do_all<R, E, J, D>(
    rt: &R,
    doer: &D,
    tasks: Vec<J>,
    inline: u128,
    rooms: Rooms<EndHandle<J, E>, J, E>,
) -> Vec<E>
where
    R: Threads + Wait + Sync,
    E: Drop + Send,
    J: Task<E> + Drop + Send,
    D: Doer<J, E> + Sync,
    requires can { AllByRecursion (D.can doer.now) tasks.items }
    requires few { vec_len tasks ≤ 128 }
    requires empty { (rooms.begun.items ≡ []) × (rooms.going.items ≡ []) × (rooms.ends.items ≡ []) }
    requires room { (vec_len tasks ≤ vec_capacity rooms.begun)
        × (vec_len tasks ≤ vec_capacity rooms.going)
        × (vec_len tasks ≤ vec_capacity rooms.ends) }
    ensures { AllZip J.ends tasks.items result.items }
{
    let Rooms {
        back,
        begun,
        going,
        ends,
    } = rooms;
    let going = go_through(rt, doer, &back, tasks, inline, begun, going);
    join_all(rt, doer, going, ends)
}
