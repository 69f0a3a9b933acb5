//! The lines behind the match of a lossy text.

ghost use Rattle.std.specs.Prelude.{◌≡◌, OnOk};
ghost use Rattle.tss_io.specs.Kinds.{step};
ghost use Rattle.tss_io.specs.Lines.{words_of};
ghost use Rattle.tss_io.specs.Machines.{take_words, take_by};
ghost use Rattle.tss_io.specs.Reading.{Answers, GivesLine};
ghost use Rattle.lossy_text.specs.declared.net_line.NetLine.TheVariants.{Send, Carry, Hear};
ghost use Rattle.lossy_text.specs.Kinds.{is_net_due, is_in_net, is_done, is_event_due, is_end_due, with_line, net_kind, issue_kind, send_kind, carry_kind, ack_kind, hear_kind, turn_kind, net_table};

use crate::net_line::NetLine;
use game_trait::MirrorId;
use game_trait::limits::{GREATEST_NET_NUMBER, MOST_NET_LINES};
use match_data::Match;
use match_file::{BehindMatch, mirror_named};
use std::alloc::Global;
use tss_base::{NoMemory, Seq};
use tss_io::words::{front, last, number};
use tss_io::{Cause, LineFault, check, is_above};

/// How far a lossy text was read behind its match.
#[derive(Clone, Copy, Debug, PartialEq, Eq)]
pub enum Stage {
    /// Up to the match.
    NetDue,
    /// Up to a line of the net.
    InNet,
    /// Up to its end.
    Done,
}

/// What the lines behind the match say, as far as they were read.
#[derive(Drop)]
pub struct Tail {
    /// How far that is.
    pub stage: Stage,
    /// How many lines of the net follow.
    pub left: u32,
    /// Those that were read.
    pub lines: Seq<NetLine>,
}

fn is_net_due(stage: Stage) -> bool
    ensures { result ≡ is_net_due stage }
{
    matches!(stage, Stage::NetDue)
}

fn is_in_net(stage: Stage) -> bool
    ensures { result ≡ is_in_net stage }
{
    matches!(stage, Stage::InNet)
}

fn is_done(stage: Stage) -> bool
    ensures { result ≡ is_done stage }
{
    matches!(stage, Stage::Done)
}

impl Tail {
    // Whether a line of the net is due.
    fn is_event_due(&self) -> bool
        ensures { result ≡ is_event_due self.now }
    {
        is_in_net(self.stage) && self.left > 0
    }

    // Whether the end is due.
    fn is_end_due(&self) -> bool
        ensures { result ≡ is_end_due self.now }
    {
        is_in_net(self.stage) && self.left == 0
    }

    // Appends a line of the net.
    fn push(&mut self, line: NetLine) -> Result<(), NoMemory>
        ensures { OnOk result (self.new ≡ with_line self.old line) }
    {
        self.lines.push(line)?;
        self.left = self.left.saturating_sub(1);
        Ok(())
    }

    fn take_net(&mut self, words: &[u8]) -> Result<(), LineFault>
        ensures { GivesLine (λ _. self.new) result (step net_kind self.old (words_of words.now)) }
    {
        check(is_net_due(self.stage), Cause::Shape)?;
        let count = last(words)?;
        check(!is_above(MOST_NET_LINES as u32, count), Cause::Many)?;
        let count = number(0, MOST_NET_LINES as u32, count)?;
        self.stage = Stage::InNet;
        self.left = count;
        Ok(())
    }

    fn take_issue(&mut self, game: &Match, words: &[u8]) -> Result<(), LineFault>
        ensures { GivesLine (λ _. self.new) result
            (step (issue_kind game.now) self.old (words_of words.now)) }
    {
        check(self.is_event_due(), Cause::Shape)?;
        let (from, words) = front(words)?;
        let name = last(words)?;
        let from = mirror_named(game, from)?;
        let number = number(0, GREATEST_NET_NUMBER, name)?;
        check(game.commands.has(from, number), Cause::Name)?;
        self.push(NetLine::Issue { from, number })?;
        Ok(())
    }

    // The two mirrors of a link and the number behind them, where a line of the net is due.
    fn link_number(&self, game: &Match, words: &[u8]) -> Result<(MirrorId, MirrorId, u32), Cause>
        ensures send { Answers (λ x. with_line self.now (Send x.0 x.1 x.2)) result
            (step (send_kind game.now) self.now (words_of words.now)) }
        ensures carry { Answers (λ x. with_line self.now (Carry x.0 x.1 x.2)) result
            (step (carry_kind game.now) self.now (words_of words.now)) }
        ensures hear { Answers (λ x. with_line self.now (Hear x.0 x.1 x.2)) result
            (step (hear_kind game.now) self.now (words_of words.now)) }
    {
        check(self.is_event_due(), Cause::Shape)?;
        let (from, words) = front(words)?;
        let (to, words) = front(words)?;
        let count = last(words)?;
        let from = mirror_named(game, from)?;
        let to = mirror_named(game, to)?;
        let count = number(0, GREATEST_NET_NUMBER, count)?;
        check(from != to, Cause::Number)?;
        Ok((from, to, count))
    }

    fn take_send(&mut self, game: &Match, words: &[u8]) -> Result<(), LineFault>
        ensures { GivesLine (λ _. self.new) result
            (step (send_kind game.now) self.old (words_of words.now)) }
    {
        let (from, to, packet) = self.link_number(game, words)?;
        self.push(NetLine::Send { from, to, packet })?;
        Ok(())
    }

    fn take_carry(&mut self, game: &Match, words: &[u8]) -> Result<(), LineFault>
        ensures { GivesLine (λ _. self.new) result
            (step (carry_kind game.now) self.old (words_of words.now)) }
    {
        let (from, to, packet) = self.link_number(game, words)?;
        self.push(NetLine::Carry { from, to, packet })?;
        Ok(())
    }

    fn take_ack(&mut self, game: &Match, words: &[u8]) -> Result<(), LineFault>
        ensures { GivesLine (λ _. self.new) result
            (step (ack_kind game.now) self.old (words_of words.now)) }
    {
        check(self.is_event_due(), Cause::Shape)?;
        let (from, words) = front(words)?;
        let to = last(words)?;
        let from = mirror_named(game, from)?;
        let to = mirror_named(game, to)?;
        check(from != to, Cause::Number)?;
        self.push(NetLine::Ack { from, to })?;
        Ok(())
    }

    fn take_hear(&mut self, game: &Match, words: &[u8]) -> Result<(), LineFault>
        ensures { GivesLine (λ _. self.new) result
            (step (hear_kind game.now) self.old (words_of words.now)) }
    {
        let (from, to, count) = self.link_number(game, words)?;
        self.push(NetLine::Hear { from, to, count })?;
        Ok(())
    }

    fn take_turn(&mut self, game: &Match, words: &[u8]) -> Result<(), LineFault>
        ensures { GivesLine (λ _. self.new) result
            (step (turn_kind game.now) self.old (words_of words.now)) }
    {
        check(self.is_event_due(), Cause::Shape)?;
        let mirror = mirror_named(game, last(words)?)?;
        self.push(NetLine::Turn { mirror })?;
        Ok(())
    }

    // A line of the kind that its first word names.
    #[tactic(auto, unfolding(tss_io::specs::Machines::take_words))]
    fn take_words(&mut self, game: &Match, word: &[u8], words: &[u8]) -> Result<(), LineFault>
        ensures { GivesLine (λ _. self.new) result
            (take_words (net_table game.now).entries self.old word.now (words_of words.now)) }
    {
        if word == b"issue".as_slice() {
            self.take_issue(game, words)
        } else if word == b"send".as_slice() {
            self.take_send(game, words)
        } else if word == b"carry".as_slice() {
            self.take_carry(game, words)
        } else if word == b"ack".as_slice() {
            self.take_ack(game, words)
        } else if word == b"hear".as_slice() {
            self.take_hear(game, words)
        } else if word == b"turn".as_slice() {
            self.take_turn(game, words)
        } else if word == b"net".as_slice() {
            self.take_net(words)
        } else {
            Err(LineFault::Refused(Cause::Shape))
        }
    }

    // A line behind the match.
    #[tactic(auto, unfolding(tss_io::specs::Machines::take_by, tss_io::specs::Machines::take_whole))]
    fn take_line(&mut self, game: &Match, line: &[u8]) -> Result<(), LineFault>
        ensures { GivesLine (λ _. self.new) result
            (take_by (net_table game.now) self.old line.now) }
    {
        if line == b"done".as_slice() {
            check(self.is_end_due(), Cause::Shape)?;
            self.stage = Stage::Done;
            return Ok(());
        }
        let (word, words) = front(line)?;
        self.take_words(game, word, words)
    }
}

impl BehindMatch for Tail {
    ghost use Rattle.lossy_text.specs.Kinds.{net_machine, no_tail};

    ghost machine = { net_machine };

    ghost start = { no_tail };

    fn new(alloc: Global) -> Tail {
        Tail {
            stage: Stage::NetDue,
            left: 0,
            lines: Seq::new(alloc),
        }
    }

    fn is_last(&self) -> bool {
        is_done(self.stage)
    }

    fn take(&mut self, _alloc: Global, game: &Match, line: &[u8]) -> Result<(), LineFault> {
        self.take_line(game, line)
    }
}
