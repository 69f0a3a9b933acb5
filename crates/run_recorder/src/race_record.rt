//! A record of a match.

use crate::block::Block;
use match_data::{Match, MirrorLog};
use tss_base::Seq;

/// A match, the log of each of its mirrors, and the worlds that their copies stood at, as they were
/// stated: `worlds[m][c]` is the block of copy c of mirror m, its head line included. Contracts see
/// it as a record of plain lists.
#[derive(Drop)]
pub struct RaceRecord {
    /// The match.
    pub game: Match,
    /// The mirrors' logs, mirror 0 first, each of at most 131,072 events.
    pub logs: Seq<MirrorLog>,
    /// The stated worlds, mirror 0 first, and of each mirror copy 0 first.
    pub worlds: Seq<Seq<Block>>,
}
