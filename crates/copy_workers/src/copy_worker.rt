//! The worker of a copy: it runs the copy's ticks, away from the mirror where it can.

ghost use Rattle.std.specs.Prelude.{◌≡◌, ◌+◌, ◌*◌, ◌<◌, ◌≤◌, cond};
ghost use Rattle.game_trait.specs.declared.event.Event.{Event as AnEvent};
ghost use Rattle.game_trait.specs.declared.event.Event.TheVariants.{Step};
ghost use Rattle.copy_workers.specs.Copied.{is_ran, AreTurns, CopyEnds};

use crate::copy_job::{CopyEnd, CopyJob};
use crate::draft_post::{DraftPost, Draw};
use crate::gate::Gate;
use crate::rest::Rest;
use game_trait::{Event, Game, Reply, Stepped, Tick};
use mirror_core::Committed;
use std::ops::Range;

// How many ticks a copy ran by an answer.
fn runs_by(reply: Reply) -> Tick
    ensures { result ≡ cond (is_ran reply) 1 0 }
{
    match reply {
        Reply::Step(Stepped::Ran { repaired: _ }) => 1,
        Reply::Step(Stepped::Idle) => 0,
        Reply::Tick(_) => 0,
        Reply::Arrive(_) => 0,
        Reply::Restaggered => 0,
    }
}

// The outcome of one draft.
#[derive(Clone, Copy)]
struct Turned {
    // How many ticks the copy ran.
    ran: Tick,
    // For how many turns it stands.
    turns: u64,
    // Whether nothing was found to do in them.
    idle: bool,
}

// One turn, or a batch of them where no tick is due.
fn run_turns<G: Game, P: DraftPost<G>>(post: &mut P, copy: u8, times: u64) -> Turned
    requires takes { P.takes post.old (Step copy) }
    requires calls { 2 ≤ P.calls post.old }
    requires some { 0 < times }
    requires at_once { times ≤ 64 }
    ensures turns { AreTurns copy result.turns result.ran (P.asked post.old) (P.asked post.new)
        (P.trail post.old) (P.trail post.new) }
    ensures some { 0 < result.turns }
    ensures few { result.turns ≤ times }
    ensures calls { P.calls post.old ≤ P.calls post.new + 2 }
    ensures often { result.turns + 64 * P.calls post.new ≤ 64 * P.calls post.old }
    ensures takes { (e : AnEvent) → P.takes post.old e → P.takes post.new e }
    ensures same { (p : P) → P.same p post.old → P.same p post.new }
{
    match post.draft(copy, times) {
        Draw::Idle => Turned {
            ran: 0,
            turns: times,
            idle: true,
        },
        Draw::Wide { commands: _ } => Turned {
            ran: runs_by(post.ask(&Event::Step(copy))),
            turns: 1,
            idle: false,
        },
        Draw::Draft => match post.commit() {
            Committed::Ran { repaired: _ } => Turned {
                ran: 1,
                turns: 1,
                idle: false,
            },
            Committed::Stale { held: _, now: _ } => Turned {
                ran: 0,
                turns: 1,
                idle: false,
            },
        },
    }
}

// Passes the gate for these turns.
fn pass_all<Q: Gate>(gate: &Q, job: CopyJob, turns: Range<u64>) {
    for turn in turns {
        gate.pass(job.mirror, job.copy, turn);
    }
}

/// Runs one copy of a mirror, turn by turn, until it has run as many ticks as the match has or the
/// budget is spent. Each turn passes the gate and asks the post for the copy's due tick, once one
/// seems to be due. A draft is executed away from the mirror and given back; where the tick has too
/// many commands for one, the copy's step is asked; where no tick is due, nothing is. A worker that
/// has stopped backing off batches its turns in one call; where none of them has a tick it then
/// passes the gate for the rest of the batch too. It takes no memory. It may wait where the post or
/// the gate does.
pub fn run_copy<G: Game, P: DraftPost<G>, Q: Gate>(post: &mut P, gate: &Q, job: CopyJob) -> CopyEnd
    requires takes { P.takes post.old (Step job.copy) }
    requires calls { 2 * job.budget ≤ P.calls post.old }
    ensures ends { CopyEnds job result (P.calls post.old) (P.calls post.new)
        (P.asked post.old) (P.asked post.new) (P.trail post.old) (P.trail post.new) }
    ensures same { (p : P) → P.same p post.old → P.same p post.new }
{
    let mut end = CopyEnd { ran: 0, turns: 0 };
    let mut rest = Rest::new(job.copy);
    'turns: while end.ran < job.length && end.turns < job.budget {
        gate.pass(job.mirror, job.copy, end.turns);
        let times = rest.until_due::<G, P>(post).min(job.budget - end.turns);
        let turned = run_turns::<G, P>(post, job.copy, times);
        let turns = end.turns + turned.turns;
        pass_all(gate, job, end.turns + 1..turns);
        rest.after(post, turned.idle);
        end.ran += turned.ran;
        end.turns = turns;
    }
    end
}
