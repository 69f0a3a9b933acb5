//! A race: mirrors whose workers run in threads, finished by the caller.
//!
//! `race` and `race_with` make each mirror, its lock, its links and a job for each of its workers
//! (`link_mesh`, `crews`), have the jobs done by threads and by the caller beside them
//! (`task_threads`, `doer`), close the locks, deliver what was left, and drain each mirror
//! (`finish`). Why each mirror then has every command once and all copies end at one world is told
//! by `laws`.
#![tactic(auto)]

mod board;
mod crews;
mod doer;
mod finish;
mod laws;
mod racing;

pub use laws::{
    nothing_is_late, race_ends, raced_mirrors_have_every_command, what_is_left_is_taken,
    workers_may_do_nothing,
};
pub use racing::{MOST_BUDGET, budget_of, race, race_with};
pub use task_threads as threads;
