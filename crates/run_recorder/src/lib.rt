//! The log of a mirror, and records: a match, what changed each of its mirrors, and the worlds that
//! these showed.
#![tactic(auto)]

mod block;
pub mod laws;
mod printing;
mod race_record;
mod reading;
mod tail;

pub use block::Block;
pub use match_data::MirrorLog;
pub use printing::print_record;
pub use race_record::RaceRecord;
pub use reading::read_record;
