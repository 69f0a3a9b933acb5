//! A walk over the queues of a snapshot, in its bytes. No call takes memory.

ghost use Rattle.std.specs.Prelude.{◌≡◌, Ok};
ghost use Rattle.tss_io.specs.Reading.{Answers};
ghost use Rattle.peer_packet.specs.Reading.{IsNext};
ghost use Rattle.peer_packet.specs.Snapshot.{Queue, any_queue_at, plain_queues, queue_head, queues_in};

use crate::fault::Fault;
use crate::part::pass_sents;
use crate::snapshot::{QueueHead, queue_head_of};
use crate::views::CommandsView;
use std::marker::Model;

/// A slot's queue over its bytes.
#[derive(Debug, Drop)]
pub struct QueueView<'a> {
    head: QueueHead,
    base: u32,
    commands: &'a [u8],
}

impl<'a> Model for QueueView<'a> {
    ghost use Rattle.peer_packet.specs.Reading.{sents_in, AreCommands};
    ghost use Rattle.peer_packet.specs.Snapshot.{Queue};

    ghost Value = { Queue };

    ghost view = { λ q. record {
      late = q.head.late;
      before = q.head.before;
      commands = sents_in q.head.count q.base q.commands.now;
    } };

    ghost invariant = { λ q. AreCommands q.head.count q.base q.commands.now };
}

impl<'a> QueueView<'a> {
    /// What it begins with.
    pub fn head(&self) -> QueueHead
        ensures { result ≡ queue_head self.now }
    {
        self.head
    }

    /// Its commands in order.
    pub fn commands(&self) -> CommandsView<'a>
        ensures { result ≡ self.now.commands }
    {
        CommandsView::of(self.head.count, self.base, self.commands)
    }
}

/// The queues that are left of a snapshot, over their bytes.
#[derive(Debug, Drop)]
pub struct QueuesView<'a> {
    base: u32,
    rest: &'a [u8],
}

impl<'a> Model for QueuesView<'a> {
    ghost use Rattle.std.specs.Prelude.{◌≡◌, List, Ok};
    ghost use Rattle.peer_packet.specs.Snapshot.{Queue, plain_queues, queues_in};

    ghost Value = { List Queue };

    ghost view = { λ q. queues_in q.base q.rest.now };

    ghost invariant = { λ q. plain_queues q.base q.rest.now ≡ Ok (queues_in q.base q.rest.now) };
}

// The queue in front of bytes, whatever it is, and what is behind it.
fn queue_of(base: u32, bytes: &[u8]) -> Result<(QueueView<'_>, &[u8]), Fault>
    ensures { Answers (λ x. (x.0, x.1.now)) result (any_queue_at base bytes.now) }
{
    let (head, commands) = queue_head_of(bytes)?;
    let rest = pass_sents(255, head.count, base, commands)?;
    let queue = QueueView {
        head,
        base,
        commands,
    };
    Ok((queue, rest))
}

impl<'a> QueuesView<'a> {
    // The queues in these bytes.
    pub fn of(base: u32, rest: &'a [u8]) -> QueuesView<'a>
        requires { plain_queues base rest.now ≡ Ok (queues_in base rest.now) }
        ensures { result ≡ queues_in base rest.now }
    {
        QueuesView { base, rest }
    }

    /// The next queue, where there is one.
    pub fn next(&mut self) -> Option<QueueView<'a>>
        ensures { IsNext result self.old self.new }
    {
        if self.rest.is_empty() {
            return None;
        }
        match queue_of(self.base, self.rest) {
            Ok((queue, rest)) => {
                self.rest = rest;
                Some(queue)
            }
            Err(_) => unreachable!(),
        }
    }
}
