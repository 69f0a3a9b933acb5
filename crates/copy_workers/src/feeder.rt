//! The feeder: it feeds a mirror with ticks and arrivals, its own and those that come on links.

ghost use Rattle.std.specs.Prelude.{◌≡◌, ℕ, ◌+◌, ◌*◌, ◌-◌, ◌<◌, ◌≤◌, ◌^◌, min, cond, [], ◌∷◌, ◌++◌, List, length};
ghost use Rattle.std.specs.List.{AllByRecursion};
ghost use Rattle.game_trait.specs.declared.event.Event.{Event};
ghost use Rattle.game_trait.specs.Keys.{KeysRise};
ghost use Rattle.link_ring.specs.Ends.{misses_of};
ghost use Rattle.game_trait.specs.Events.{is_moved};
ghost use Rattle.copy_workers.specs.Asking.{IsFeedingBelow};
ghost use Rattle.copy_workers.specs.Sending.{MaySend};
ghost use Rattle.copy_workers.specs.Fed.{FeederEnds};

use crate::feeder_job::{FeederEnd, FeederJob};
use crate::gate::Gate;
use crate::hearing::{hear_all, least};
use crate::issues::issue_tick;
use crate::post::Post;
use crate::rest::Rest;
use game_trait::{Command, Event, Reply, Tick, Ticked};
use link_ring::{LinkReceive, LinkSend};

/// What bounds a feeder.
#[derive(Clone, Copy)]
pub struct Bounds {
    length: Tick,
    delay: Tick,
    pace: Tick,
    foreign: u32,
}

/// A feeder at work.
pub struct Feeder {
    mirror: u8,
    copies: u8,
    bounds: Bounds,
    plan: Vec<Command>,
    sends: Vec<LinkSend>,
    receives: Vec<LinkReceive>,
    marks: [Tick; 7],
    clock: Tick,
    issued: usize,
    marked: Tick,
    taken: u32,
    turns: u64,
}

impl Feeder {
    ghost use Rattle.std.specs.Prelude.{replicate};
    ghost use Rattle.sync_model.specs.Schedule.{longest_delay};

    // A feeder before its first turn.
    fn begin(job: FeederJob) -> Feeder
        ensures { result ≡ record {
          mirror = job.mirror;
          copies = job.copies;
          bounds = record {
            length = job.stagger.length;
            delay = longest_delay job.stagger.delays;
            pace = job.pace;
            foreign = job.foreign;
          };
          plan = job.plan;
          sends = job.sends;
          receives = job.receives;
          marks = replicate 7 0;
          clock = 0;
          issued = 0;
          marked = 0;
          taken = 0;
          turns = 0;
        } }
    {
        let bounds = Bounds {
            length: job.stagger.length(),
            delay: job.stagger.longest(),
            pace: job.pace,
            foreign: job.foreign,
        };
        let FeederJob {
            mirror,
            copies,
            stagger: _,
            pace: _,
            plan,
            foreign: _,
            sends,
            receives,
            budget: _,
        } = job;
        Feeder {
            mirror,
            copies,
            bounds,
            plan,
            sends,
            receives,
            marks: [0; 7],
            clock: 0,
            issued: 0,
            marked: 0,
            taken: 0,
            turns: 0,
        }
    }
}

impl Feeder {
    ghost use Rattle.game_trait.specs.declared.event.Event.{Event};
    ghost use Rattle.copy_workers.specs.Asking.{IsFeedingBelow};
    ghost use Rattle.copy_workers.specs.Standing.{Start, InTurn, IsIssued};

    // Issues the tick of the clock, where it is within the match and isn't issued.
    fn issue<P: Post>(&mut self, post: &mut P)
        requires stands { (c : Start)
            × InTurn c self.old (P.asked post.old) (P.calls post.old) (P.grows post.old) 0 0 }
        requires takes { (e : Event) → IsFeedingBelow self.old.bounds.length e
            → P.takes post.old e }
        ensures stands { (c : Start)
            → InTurn c self.old (P.asked post.old) (P.calls post.old) (P.grows post.old) 0 0
            → InTurn c self.new (P.asked post.new) (P.calls post.new) (P.grows post.new) 0 0 }
        ensures issued { IsIssued self.new }
        ensures takes { (e : Event) → P.takes post.old e → P.takes post.new e }
        ensures same { (p : P) → P.same p post.old → P.same p post.new }
        ensures bounds { self.new.bounds ≡ self.old.bounds }
        ensures turns { self.new.turns ≡ self.old.turns }
        ensures clock { self.new.clock ≡ self.old.clock }
    {
        if self.clock < self.bounds.length && self.marked <= self.clock {
            self.issued = issue_tick(
                post,
                &mut self.sends,
                &self.plan,
                self.issued,
                self.clock,
                self.bounds.length,
            );
            self.marked = self.clock + 1;
        }
    }
}

impl Feeder {
    ghost use Rattle.std.specs.Prelude.{true};
    ghost use Rattle.game_trait.specs.declared.event.Event.{Event};
    ghost use Rattle.copy_workers.specs.Asking.{IsFeedingBelow};
    ghost use Rattle.copy_workers.specs.Standing.{Start, InTurn, IsIssued, IsHeld};

    // Asks each link once. Whether nothing came: then marks that hold the clock still do.
    fn hear<P: Post>(&mut self, post: &mut P) -> bool
        requires stands { (c : Start)
            × InTurn c self.old (P.asked post.old) (P.calls post.old) (P.grows post.old) 0 0 }
        requires takes { (e : Event) → IsFeedingBelow self.old.bounds.length e
            → P.takes post.old e }
        ensures stands { (c : Start)
            → InTurn c self.old (P.asked post.old) (P.calls post.old) (P.grows post.old) 0 0
            → InTurn c self.new (P.asked post.new) (P.calls post.new) (P.grows post.new) 7 1 }
        ensures issued { IsIssued self.old → IsIssued self.new }
        ensures takes { (e : Event) → P.takes post.old e → P.takes post.new e }
        ensures same { (p : P) → P.same p post.old → P.same p post.new }
        ensures bounds { self.new.bounds ≡ self.old.bounds }
        ensures turns { self.new.turns ≡ self.old.turns }
        ensures clock { self.new.clock ≡ self.old.clock }
        ensures held { result ≡ true → IsHeld self.old → IsHeld self.new }
    {
        hear_all(
            post,
            &mut self.receives,
            &mut self.marks,
            &mut self.taken,
            self.bounds.length,
            self.bounds.foreign,
        )
    }
}

// How far a reply moves the clock.
fn moves_by(reply: Reply) -> Tick
    ensures { result ≡ cond (is_moved reply) 1 0 }
{
    match reply {
        Reply::Tick(Ticked::Moved) => 1,
        Reply::Tick(Ticked::Over) => 0,
        Reply::Arrive(_) => 0,
        Reply::Step(_) => 0,
        Reply::Restaggered => 0,
    }
}

impl Feeder {
    ghost use Rattle.std.specs.Prelude.{◌⊎◌, ◌↔◌, true, IsTrue, vec_len};
    ghost use Rattle.game_trait.specs.declared.event.Event.{Event};
    ghost use Rattle.copy_workers.specs.Asking.{IsFeedingBelow};
    ghost use Rattle.copy_workers.specs.Feed.{Hearing, least_mark};
    ghost use Rattle.copy_workers.specs.Refining.{AllKept};
    ghost use Rattle.copy_workers.specs.Standing.{Start, InTurn, IsIssued, IsHeld, Rests};

    // The marks don't hold the clock.
    fn is_free(&self) -> bool
        requires { vec_len self.now.receives ≤ length self.now.marks }
        ensures { (hearings : List Hearing) → length hearings ≡ vec_len self.now.receives
            → AllKept self.now.marks hearings
            → IsTrue result
            ↔ ((self.now.clock + 1
            ≤ least_mark self.now.bounds.length hearings + self.now.bounds.pace)
            ⊎ (self.now.bounds.length ≤ least_mark self.now.bounds.length hearings)) }
    {
        let least = least(&self.marks, self.receives.len(), self.bounds.length);
        u64::from(self.clock) + 1 <= u64::from(least) + u64::from(self.bounds.pace)
            || self.bounds.length <= least
    }

    // Ends the turn: with a tick, unless the marks hold the clock, which it tells.
    fn end_turn<P: Post>(&mut self, post: &mut P) -> bool
        requires stands { (c : Start)
            × InTurn c self.old (P.asked post.old) (P.calls post.old) (P.grows post.old) 7 1 }
        requires issued { IsIssued self.old }
        requires takes { (e : Event) → IsFeedingBelow self.old.bounds.length e
            → P.takes post.old e }
        ensures stands { (c : Start)
            → InTurn c self.old (P.asked post.old) (P.calls post.old) (P.grows post.old) 7 1
            → Rests c self.new (P.asked post.new) (P.calls post.new) (P.grows post.new) }
        ensures takes { (e : Event) → P.takes post.old e → P.takes post.new e }
        ensures same { (p : P) → P.same p post.old → P.same p post.new }
        ensures bounds { self.new.bounds ≡ self.old.bounds }
        ensures turns { self.new.turns ≡ self.old.turns + 1 }
        ensures held { result ≡ true → IsHeld self.new }
        ensures clock { result ≡ true → self.new.clock ≡ self.old.clock }
    {
        if self.is_free() {
            let reply = post.ask(&Event::Tick);
            self.clock += moves_by(reply);
            self.turns += 1;
            false
        } else {
            self.turns += 1;
            true
        }
    }
}

impl Feeder {
    ghost use Rattle.std.specs.Prelude.{true, vec_len};
    ghost use Rattle.game_trait.specs.declared.event.Event.{Event};
    ghost use Rattle.copy_workers.specs.Asking.{IsFeedingBelow};
    ghost use Rattle.copy_workers.specs.Feed.{ending_clock};
    ghost use Rattle.copy_workers.specs.Standing.{Start, IsHeld, Rests, Goes};

    // One turn. Whether the marks hold the clock.
    fn turn<P: Post>(&mut self, post: &mut P) -> bool
        requires stands { (c : Start)
            × Goes c self.old (P.asked post.old) (P.calls post.old) (P.grows post.old) }
        requires takes { (e : Event) → IsFeedingBelow self.old.bounds.length e
            → P.takes post.old e }
        ensures stands { (c : Start)
            → Goes c self.old (P.asked post.old) (P.calls post.old) (P.grows post.old)
            → Rests c self.new (P.asked post.new) (P.calls post.new) (P.grows post.new) }
        ensures takes { (e : Event) → P.takes post.old e → P.takes post.new e }
        ensures same { (p : P) → P.same p post.old → P.same p post.new }
        ensures bounds { self.new.bounds ≡ self.old.bounds }
        ensures turns { self.new.turns ≡ self.old.turns + 1 }
        ensures held { result ≡ true → IsHeld self.new }
        ensures clock { result ≡ true → self.new.clock ≡ self.old.clock }
    {
        self.issue(post);
        self.hear(post);
        self.end_turn(post)
    }
}

impl Feeder {
    ghost use Rattle.game_trait.specs.declared.event.Event.{Event};
    ghost use Rattle.copy_workers.specs.Asking.{IsFeedingBelow};
    ghost use Rattle.copy_workers.specs.Feed.{ending_clock};
    ghost use Rattle.copy_workers.specs.Standing.{Start, IsHeld, Rests};

    // Makes up to `most` turns more, as long as nothing comes: the marks hold the clock, so that
    // each of them only passes the gate and asks each link. The last is that in which something came.
    fn hold<P: Post, Q: Gate>(&mut self, post: &mut P, gate: &Q, most: u64)
        requires held { IsHeld self.old }
        requires stands { (c : Start)
            × Rests c self.old (P.asked post.old) (P.calls post.old) (P.grows post.old)
            × (self.old.clock < ending_clock c.job) × (self.old.turns + most ≤ c.budget) }
        requires takes { (e : Event) → IsFeedingBelow self.old.bounds.length e
            → P.takes post.old e }
        ensures stands { (c : Start)
            → Rests c self.old (P.asked post.old) (P.calls post.old) (P.grows post.old)
            → self.old.clock < ending_clock c.job → self.old.turns + most ≤ c.budget
            → Rests c self.new (P.asked post.new) (P.calls post.new) (P.grows post.new) }
        ensures takes { (e : Event) → P.takes post.old e → P.takes post.new e }
        ensures same { (p : P) → P.same p post.old → P.same p post.new }
        ensures bounds { self.new.bounds ≡ self.old.bounds }
        ensures more { self.old.turns ≤ self.new.turns }
        ensures most { self.new.turns ≤ self.old.turns + most }
    {
        for _ in 0..most {
            gate.pass(self.mirror, self.copies, self.turns);
            if !self.hear(post) {
                self.end_turn(post);
                return;
            }
            self.turns += 1;
        }
    }
}

impl Feeder {
    // What a turn in which there was something to do raises: the clock, the commands that were
    // taken and the marks, in sum.
    fn progress(&self) -> u64 {
        let mut sum = u64::from(self.clock).wrapping_add(u64::from(self.taken));
        for mark in self.marks {
            sum = sum.wrapping_add(u64::from(mark));
        }
        sum
    }

    // What the feeder gives back.
    fn ended(self) -> FeederEnd
        requires { self.issued < 2 ^ 32 }
        ensures plan { result.plan ≡ self.plan }
        ensures issued { result.issued ≡ self.issued }
        ensures marked { result.marked ≡ self.marked }
        ensures clock { result.clock ≡ self.clock }
        ensures sends { result.sends ≡ self.sends }
        ensures receives { result.receives ≡ self.receives }
        ensures turns { result.turns ≡ self.turns }
    {
        let Feeder {
            mirror: _,
            copies: _,
            bounds: _,
            plan,
            sends,
            receives,
            marks: _,
            clock,
            issued,
            marked,
            taken: _,
            turns,
        } = self;
        FeederEnd {
            plan,
            issued: issued as u32,
            marked,
            clock,
            sends,
            receives,
            turns,
        }
    }
}

/// Feeds a mirror, turn by turn, until the clock stands at the match's length plus the longest
/// delay or the budget is spent. Each turn passes the gate, issues the tick of the clock, asks each
/// link once, and asks a tick unless the marks hold the clock.
pub fn run_feeder<P: Post, Q: Gate>(post: &mut P, gate: &Q, job: FeederJob) -> FeederEnd
    requires rises { KeysRise job.plan.items }
    requires room { AllByRecursion
        (MaySend (length job.plan.items + job.stagger.length)) job.sends.items }
    requires misses { AllByRecursion (λ r. misses_of r < 2 ^ 63) job.receives.items }
    requires seven { length job.receives.items ≤ 7 }
    requires budget { job.budget < 2 ^ 63 }
    requires short { length job.plan.items < 2 ^ 32 }
    requires takes { (e : Event) → IsFeedingBelow job.stagger.length e → P.takes post.old e }
    requires calls { 8 * job.budget + length job.plan.items ≤ P.calls post.old }
    requires grows { length job.plan.items + job.foreign ≤ P.grows post.old }
    ensures ends { FeederEnds job result (P.asked post.old) (P.asked post.new) }
    ensures same { (p : P) → P.same p post.old → P.same p post.new }
{
    let end = job.stagger.length() + job.stagger.longest();
    let budget = job.budget;
    let mut rest = Rest::new(job.copies);
    let mut feeder = Feeder::begin(job);
    let mut before = feeder.progress();
    while feeder.clock < end && feeder.turns < budget {
        gate.pass(feeder.mirror, feeder.copies, feeder.turns);
        let held = feeder.turn(post);
        let progress = feeder.progress();
        let hurried = rest.after(post, progress == before);
        before = progress;
        if held {
            let left = budget - feeder.turns;
            feeder.hold(post, gate, hurried.min(left));
        }
    }
    feeder.ended()
}
