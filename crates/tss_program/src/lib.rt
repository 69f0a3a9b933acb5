//! The program: words and bytes come in, bytes and a status go out.
#![tactic(auto)]

mod answer;
mod asked;
mod done;
mod due;
pub mod laws;
mod plain;
mod race;
mod status;
mod stop;
mod watched;

pub use done::Done;
pub use due::Due;
pub use plain::run_plain;
pub use race::{asks_race, run_race};
pub use status::Status;
pub use stop::Stop;
pub use tss_words::words_behind;
pub use watched::run_watched;
