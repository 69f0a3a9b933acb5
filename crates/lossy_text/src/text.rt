//! What a lossy text says.

use crate::net_line::NetLine;
use match_data::Match;
use std::marker::Model;
use tss_base::Seq;

/// A match, and what a net does with its commands, line by line: what a lossy text can say, and
/// nothing else. Contracts see it as a record of plain lists.
#[derive(Drop)]
pub struct LossyText {
    /// The match, whose script isn't used.
    pub game: Match,
    /// The lines of the net, at most 262,144.
    pub lines: Seq<NetLine>,
}

impl Model for LossyText {
    ghost use Rattle.lossy_text.specs.Data.{LossyData, IsLossy};

    ghost Value = { LossyData };

    ghost view = { λ x. record { game = x.game; lines = x.lines } };

    ghost invariant = { λ x. IsLossy (record { game = x.game; lines = x.lines }) };
}
