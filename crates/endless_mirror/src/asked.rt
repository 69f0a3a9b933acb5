//! What a mirror of a session without an end does that is asked.

ghost use Rattle.std.specs.Prelude.{◌≡◌, ◌≤◌, IfOk};
ghost use Rattle.std.specs.List.{list_all};
ghost use Rattle.game_trait.specs.declared.limits.TheConstants.{GREATEST_NUMBER};
ghost use Rattle.tss_io.specs.Reading.{Answers};
ghost use Rattle.match_data.specs.Data.{schedules};
ghost use Rattle.endless_mirror.specs.Session.{is_past, number_behind, how_far, is_ahead, next_behind};
ghost use Rattle.endless_mirror.specs.Way.{but_for_runs, lets_run, may_open};

use crate::session::EndlessSession;
use crate::show::{push_arrival, push_copy, push_end, push_remembered, push_replies};
use command_lines::push_command;
use game_trait::limits::GREATEST_NUMBER;
use game_trait::{Act, Command, Game, MirrorId, Number, Tick, Ticked};
use live_talk::{Asked, Begins};
use live_text::{Request, read_request};
use match_data::{Match, plans_of};
use match_setup::Shown;
use report_text::{step_line, tick_line};
use stagger_clock::Stagger;
use std::alloc::Global;
use tss_base::NoMemory;
use tss_io::{Cause, LineFault, check};

// The number that follows a number: 0 behind the greatest.
fn number_behind(number: Number) -> Number
    ensures { result ≡ number_behind number }
{
    if number >= GREATEST_NUMBER {
        0
    } else {
        number + 1
    }
}

// How many numbers there are, in a circle.
const CIRCLE: Number = GREATEST_NUMBER + 1;

// How far a number stands ahead of another one, round the circle.
fn how_far(next: Number, number: Number) -> Number
    requires { next ≤ GREATEST_NUMBER }
    ensures { result ≡ how_far next number }
{
    if next <= number {
        number - next
    } else {
        number + CIRCLE - next
    }
}

// The number of the own next command of the mirror of this number, which was this, after a command came.
fn next_behind(own: MirrorId, next: Number, x: &Command) -> Number
    requires { next ≤ GREATEST_NUMBER }
    ensures next { result ≡ next_behind own next x.now }
    ensures few { result ≤ GREATEST_NUMBER }
{
    if x.from == own && how_far(next, x.number) < CIRCLE / 2 {
        number_behind(x.number)
    } else {
        next
    }
}

// The request, unless it asks for a run, which isn't remembered.
#[tactic(auto, unfolding(crate::specs::Way::but_for_runs))]
fn but_for_runs(request: Request) -> Result<Request, Cause>
    ensures asked { Answers (λ x. x) result (but_for_runs request) }
    ensures same { IfOk result (λ r. r ≡ request) }
{
    match request {
        Request::Run(_) => Err(Cause::Shape),
        _ => Ok(request),
    }
}

// Whether the window lets the last copy run.
fn lets_run(plan: &Stagger) -> bool
    ensures { result ≡ lets_run plan.now }
{
    plan.longest() + 2 <= plan.length()
}

// The same of each plan.
fn let_run(plans: &[Stagger]) -> bool
    ensures { result ≡ list_all lets_run plans.now }
{
    plans.iter().all(|plan| lets_run(plan))
}

// Whether the match has this mirror, and a window for each of its plans.
fn may_open(alloc: Global, m: &Match, number: MirrorId) -> Result<bool, NoMemory>
    ensures { IfOk result (λ may. may ≡ may_open m.now number) }
{
    let plans = plans_of(alloc, m)?;
    let let_run = let_run(plans.as_slice());
    Ok(number < m.mirrors && let_run)
}

impl<G: Game + Shown> EndlessSession<G> {
    // Whether the clock stands at the session's last tick.
    fn is_past(&self) -> bool
        ensures { result ≡ is_past self.now }
    {
        self.mirror.clock() == Tick::MAX
    }
}

impl<G: Begins> Asked for EndlessSession<G> {
    ghost use Rattle.endless_mirror.specs.Way.{session_asking};
    ghost use Rattle.live_talk.specs.Staging.{staging};

    ghost asking = { session_asking (staging G.rules G.lines G.opening) };

    fn is_first(line: &[u8]) -> bool {
        line == b"tss live 2".as_slice()
    }

    fn begin(alloc: Global, m: Match, number: MirrorId) -> Result<EndlessSession<G>, LineFault> {
        check(may_open(alloc, &m, number)?, Cause::Number)?;
        let opening = G::at_start(&m.setup);
        let session = EndlessSession::open(alloc, &opening, m, number)?;
        Ok(session)
    }

    fn read(&self, line: &[u8]) -> Result<Request, Cause> {
        but_for_runs(read_request(&self.terms(), line)?)
    }

    #[tactic(auto, unfolding(crate::specs::Session::mirror_after, crate::specs::Session::next_after, crate::specs::Told::answer_text))]
    fn own(&mut self, player: u8, act: Act, out: &mut Vec<u8>) -> Result<(), NoMemory> {
        if self.is_past() {
            return tick_line(out, self.number, Ticked::Over);
        }
        let command = Command {
            time: self.mirror.clock(),
            from: self.number,
            number: self.next,
            player,
            act,
        };
        let _ = self.mirror.arrive(&command);
        self.next = number_behind(self.next);
        push_command(out, &command)
    }

    #[tactic(auto, unfolding(crate::specs::Session::mirror_after, crate::specs::Session::next_after, crate::specs::Told::answer_text))]
    fn cmd(&mut self, command: Command, out: &mut Vec<u8>) -> Result<(), NoMemory> {
        let arrival = self.mirror.arrive(&command);
        self.next = next_behind(self.number, self.next, &command);
        push_arrival(out, self.number, &command, arrival)
    }

    #[tactic(auto, unfolding(crate::specs::Session::mirror_after, crate::specs::Session::next_after, crate::specs::Told::answer_text))]
    fn tick(&mut self, out: &mut Vec<u8>) -> Result<(), NoMemory> {
        let ticked = self.mirror.tick();
        tick_line(out, self.number, ticked)
    }

    #[tactic(auto, unfolding(crate::specs::Session::mirror_after, crate::specs::Session::next_after, crate::specs::Told::answer_text))]
    fn turn(&mut self, out: &mut Vec<u8>) -> Result<(), NoMemory> {
        let replies = self.mirror.turn();
        push_replies(out, self.number, replies.as_slice())
    }

    #[tactic(auto, unfolding(crate::specs::Session::mirror_after, crate::specs::Session::next_after, crate::specs::Told::answer_text, crate::specs::Told::step_told))]
    fn step(&mut self, copy: u8, out: &mut Vec<u8>) -> Result<(), NoMemory> {
        self.always();
        let stepped = self.mirror.step(copy);
        step_line(out, self.number, copy, stepped)
    }

    #[tactic(auto, unfolding(crate::specs::Session::mirror_after, crate::specs::Session::next_after, crate::specs::Told::answer_text))]
    fn restagger(&mut self, plan: u8, out: &mut Vec<u8>) -> Result<(), NoMemory> {
        self.always();
        self.mirror.restagger(plan);
        Ok(())
    }

    #[tactic(auto, unfolding(crate::specs::Session::mirror_after, crate::specs::Session::next_after, crate::specs::Told::answer_text))]
    fn world(&mut self, copy: u8, out: &mut Vec<u8>) -> Result<(), NoMemory> {
        self.always();
        self.mirror.refresh();
        push_copy(out, self.number, &self.mirror, copy, &self.roster)
    }

    // No line asks it.
    #[tactic(auto, unfolding(crate::specs::Session::mirror_after, crate::specs::Session::next_after, crate::specs::Told::answer_text))]
    fn run(&mut self, _copy: u8, _out: &mut Vec<u8>) -> Result<(), NoMemory> {
        Ok(())
    }

    #[tactic(auto, unfolding(crate::specs::Session::mirror_after, crate::specs::Session::next_after, crate::specs::Told::answer_text))]
    fn commands(&mut self, out: &mut Vec<u8>) -> Result<(), NoMemory> {
        push_remembered(out, &self.mirror)
    }

    #[tactic(auto, unfolding(crate::specs::Session::mirror_after, crate::specs::Session::next_after, crate::specs::Told::answer_text))]
    fn end(&mut self, out: &mut Vec<u8>) -> Result<(), NoMemory> {
        push_end(out, self.number, &self.mirror, &self.roster)
    }
}
