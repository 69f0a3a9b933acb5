//! A lock that hands out turns: threads share one object, and its whole history is known when the
//! lock is closed.
//!
//! An object is a [`Held`]: its rules say what each call changes and replies. `TurnLock::start`
//! takes it and gives a seat for each share. A thread calls with its own seat; contracts see what
//! the seat has seen of the one history of all calls, which ends with the seat's own call when that
//! returns. `TurnLock::close` takes all seats, and gives the object at the end of the history.
//!
//! A ticket lock. A thread spins while others queue, at most for a bounded number of looks, then
//! draws a ticket and spins until it is served. Between two looks it pauses, and every 32 looks it
//! naps: it sleeps for some hundred microseconds, about as short a time as the system has, and no
//! one has to wake it. One that yields the processor would give up its share of it instead, and
//! beside other work get it back milliseconds later. Where a thread needn't wait, a call costs two
//! atomic additions, three atomic loads, two moves of a pointer, since the object lies on the heap,
//! and what the object does. Each call hands the turn to the thread that drew the next ticket, and
//! that one may be off its processor, which holds up all behind: so hardly anyone is put off with a
//! ticket in its hand. `start` takes all memory; `call` and `close` take none. The lock's rule
//! counts tickets: each that was drawn is passed on, or a seat holds it, so none is lost, for which
//! all behind would wait for good.
//!
//! What isn't promised: that a turn ever comes, or when. A seat that was dropped can't be brought
//! to `close`. Before `close` no clause says how what two seats have seen compares.
//!
//! It stands on `atomic_table` of the kit. The design is this project's own.
#![tactic(auto)]

mod crossing;
mod deal;
mod gather;
mod held;
mod history;
mod law;
pub mod laws;
mod lock;
mod named;
mod napping;
mod place;
mod plays;
mod seat;
mod share;
mod steps;
mod view;

pub use crossing::cross;
pub use held::Held;
pub use history::Entry;
pub use law::{Law, Plan};
pub use lock::{Counts, LockOver, TurnLock};
pub use named::Named;
pub use napping::nap;
pub use place::Place;
pub use seat::{Rests, SeatOver, TurnSeat};
pub use share::Share;
pub use view::{Member, Stage, View};
