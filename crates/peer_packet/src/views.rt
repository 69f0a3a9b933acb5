//! Walks over what a packet hands on, in its bytes. No call takes memory.

ghost use Rattle.std.specs.Prelude.{◌≡◌, Ok};
ghost use Rattle.tss_io.specs.Reading.{Answers};
ghost use Rattle.peer_packet.specs.Packet.{Part, Sent, head_of};
ghost use Rattle.peer_packet.specs.Reading.{AreCommands, IsNext, any_part, part_at, plain_parts, parts_in, sents_in};
ghost use Rattle.peer_packet.specs.Seen.{IsNextSent};

use crate::fault::Fault;
use crate::part::{PartHead, SentView, head_of, pass_sents, sent_of};
use std::marker::Model;

/// A part over its bytes.
#[derive(Debug, Drop)]
pub struct PartView<'a> {
    head: PartHead,
    commands: &'a [u8],
}

impl<'a> Model for PartView<'a> {
    ghost use Rattle.std.specs.Prelude.{◌≡◌, length};
    ghost use Rattle.peer_packet.specs.Packet.{Part};
    ghost use Rattle.peer_packet.specs.Reading.{sents_in, AreCommands};

    ghost Value = { Part };

    ghost view = { λ p. record {
      origin = p.head.origin;
      first = p.head.first;
      before = p.head.before;
      commands = sents_in p.head.count p.head.before p.commands.now;
    } };

    ghost invariant = { λ p. AreCommands p.head.count p.head.before p.commands.now };
}

impl<'a> PartView<'a> {
    /// What it begins with.
    pub fn head(&self) -> PartHead
        ensures { result ≡ head_of self.now }
    {
        self.head
    }

    /// Its commands in order.
    pub fn commands(&self) -> CommandsView<'a>
        ensures { result ≡ self.now.commands }
    {
        CommandsView::of(self.head.count, self.head.before, self.commands)
    }
}

/// The commands that are left of a part, over their bytes.
#[derive(Debug, Drop)]
pub struct CommandsView<'a> {
    left: u16,
    last: u32,
    rest: &'a [u8],
}

impl<'a> Model for CommandsView<'a> {
    ghost use Rattle.std.specs.Prelude.{List};
    ghost use Rattle.peer_packet.specs.Packet.{Sent};
    ghost use Rattle.peer_packet.specs.Reading.{sents_in, AreCommands};

    ghost Value = { List Sent };

    ghost view = { λ c. sents_in c.left c.last c.rest.now };

    ghost invariant = { λ c. AreCommands c.left c.last c.rest.now };
}

impl<'a> CommandsView<'a> {
    // So many commands in front of these bytes, none due before `last`.
    pub fn of(left: u16, last: u32, rest: &'a [u8]) -> CommandsView<'a>
        requires { AreCommands left last rest.now }
        ensures { result ≡ sents_in left last rest.now }
    {
        CommandsView { left, last, rest }
    }

    /// The next command, where there is one.
    pub fn next(&mut self) -> Option<SentView<'a>>
        ensures { IsNextSent result self.old self.new }
    {
        if self.left == 0 {
            return None;
        }
        match sent_of(255, self.last, self.rest) {
            Ok((sent, rest)) => {
                self.left -= 1;
                self.last = sent.time;
                self.rest = rest;
                Some(sent)
            }
            Err(_) => unreachable!(),
        }
    }
}

/// The parts that are left of a packet, over their bytes.
#[derive(Debug, Drop)]
pub struct PartsView<'a> {
    rest: &'a [u8],
}

impl<'a> Model for PartsView<'a> {
    ghost use Rattle.std.specs.Prelude.{◌≡◌, List, Ok};
    ghost use Rattle.peer_packet.specs.Packet.{Part};
    ghost use Rattle.peer_packet.specs.Reading.{plain_parts, parts_in};

    ghost Value = { List Part };

    ghost view = { λ p. parts_in p.rest.now };

    ghost invariant = { λ p. plain_parts p.rest.now ≡ Ok (parts_in p.rest.now) };
}

// The part in front of bytes, whatever it is, and what is behind it.
fn part_of(bytes: &[u8]) -> Result<(PartView<'_>, &[u8]), Fault>
    ensures { Answers (λ x. (x.0, x.1.now)) result (part_at (any_part 0) 255 bytes.now) }
{
    let (head, commands) = head_of(bytes)?;
    let rest = pass_sents(255, head.count, head.before, commands)?;
    Ok((PartView { head, commands }, rest))
}

impl<'a> PartsView<'a> {
    // The parts in these bytes.
    pub fn of(rest: &'a [u8]) -> PartsView<'a>
        requires { plain_parts rest.now ≡ Ok (parts_in rest.now) }
        ensures { result ≡ parts_in rest.now }
    {
        PartsView { rest }
    }

    /// The next part, where there is one.
    pub fn next(&mut self) -> Option<PartView<'a>>
        ensures { IsNext result self.old self.new }
    {
        if self.rest.is_empty() {
            return None;
        }
        match part_of(self.rest) {
            Ok((part, rest)) => {
                self.rest = rest;
                Some(part)
            }
            Err(_) => unreachable!(),
        }
    }
}
