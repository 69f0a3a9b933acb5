//! Tasks done by threads, or by the caller beside them: of each an end.
//!
//! `do_all` begins a thread for each task. Where none can be made the caller does the task itself,
//! as it does those that it was told to keep. It takes no memory, and returns once all threads have
//! ended. What a task is, and what an end of it, says a `Task`; who does it, a `Doer`.
#![tactic(auto)]

mod tasks;

pub use tasks::{
    Backs, Begun, Doer, EndHandle, EndOf, Given, InThread, Rooms, Task, do_all, keep_refused,
};
