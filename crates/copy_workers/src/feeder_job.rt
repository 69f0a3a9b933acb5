//! What a feeder is given, and what it gives back.

use game_trait::{Command, Tick};
use link_ring::{LinkReceive, LinkSend};
use stagger_clock::Stagger;

/// What a feeder is given.
#[derive(Drop)]
pub struct FeederJob {
    /// The mirror that it feeds, from 0 on.
    pub mirror: u8,
    /// How many copies the mirror has, which is the feeder's number among its workers.
    pub copies: u8,
    /// The mirror's delays, and the match's length.
    pub stagger: Stagger,
    /// How far the clock may go past the least mark that came, in ticks.
    pub pace: Tick,
    /// The mirror's own commands, in key order.
    pub plan: Vec<Command>,
    /// How many received commands may be asked: the commands of all other mirrors.
    pub foreign: u32,
    /// The links to the other mirrors.
    pub sends: Vec<LinkSend>,
    /// The links from the other mirrors.
    pub receives: Vec<LinkReceive>,
    /// The most turns that are made.
    pub budget: u64,
}

/// What a feeder gives back.
#[derive(Drop)]
pub struct FeederEnd {
    /// The plan of the job.
    pub plan: Vec<Command>,
    /// How many of its commands were issued: asked here, and sent over each link.
    pub issued: u32,
    /// The last mark that was sent: each command that is due before it was issued.
    pub marked: Tick,
    /// How often the mirror's clock went on.
    pub clock: Tick,
    /// The links of the job.
    pub sends: Vec<LinkSend>,
    /// The links of the job.
    pub receives: Vec<LinkReceive>,
    /// How many turns were made.
    pub turns: u64,
}
