//! A mirror of any kind that is asked line by line, and answers each line at once.

ghost use Rattle.std.specs.Prelude.{◌≡◌, ◌++◌, ◌≤◌, length, take, OnOk, IfOk, Ok, Err};
ghost use Rattle.game_trait.specs.declared.limits.TheConstants.{MOST_ROOM};
ghost use Rattle.tss_io.specs.Reading.{Answers};
ghost use Rattle.match_data.specs.Data.{most_commands};
ghost use Rattle.live_text.specs.Requests.{FitsTerms};
ghost use Rattle.live_talk.specs.Lines.{is_end, last_line};
ghost use Rattle.live_talk.specs.Talked.{asked_by, led_by, told_by, talk_from};

use crate::asked::Asked;
use crate::opens::Opens;
use crate::telling::{is_end, push_last, push_refusal, push_torn};
use game_trait::MirrorId;
use game_trait::limits::{MOST_COMMANDS_IN_1, MOST_COMMANDS_IN_2};
use line_talk::Answerer;
use live_text::Request;
use match_data::Match;
use std::alloc::Global;
use std::marker::Model;
use tss_base::NoMemory;
use tss_io::{Cause, LONGEST_LINE, LineFault};

/// For how many arrivals that are taken or turned away there is room: as many as a match of the
/// version may have commands.
pub fn room_of(version: u8) -> u32
    ensures room { result ≡ most_commands version }
    ensures few { result ≤ MOST_ROOM }
{
    if version == 1 {
        MOST_COMMANDS_IN_1 as u32
    } else {
        MOST_COMMANDS_IN_2 as u32
    }
}

/// A mirror that is asked line by line: the number of the next line, and whether no further line is
/// taken.
#[derive(Drop)]
pub struct Talked<S> {
    session: S,
    line: u32,
    is_over: bool,
}

impl<S> Model for Talked<S> {
    ghost use Rattle.live_talk.specs.Talked.{TalkState};

    ghost Value = { TalkState S };

    ghost view = { λ t. record { session = t.session; line = t.line; is_over = t.is_over } };
}

impl<S: Asked> Talked<S> {
    /// What is asked.
    pub fn session(&self) -> &S
        ensures { result.now ≡ self.now.session }
    {
        &self.session
    }

    // What the line asks.
    fn read(&self, line: &[u8]) -> Result<Request, Cause>
        ensures read { Answers (λ x. x) result (asked_by S.asking self.now.session line.now) }
        ensures fits { IfOk result (λ r. FitsTerms (S.asking.terms self.now.session) r) }
    {
        if line.len() > LONGEST_LINE {
            return Err(Cause::Long);
        }
        self.session.read(line)
    }

    // Does what is asked, and appends what is told of it. On `NoMemory` some may have been appended.
    fn play(&mut self, request: Request, out: &mut Vec<u8>) -> Result<(), NoMemory>
        requires { FitsTerms (S.asking.terms self.old.session) request }
        ensures state { OnOk result (self.new
            ≡ record self.old { session = S.asking.played self.old.session request }) }
        ensures told { OnOk result
            (out.new.items ≡ out.old.items ++ S.asking.answer self.old.session request) }
        ensures front { take (length out.old.items) out.new.items ≡ out.old.items }
    {
        match request {
            Request::Own { player, act } => self.session.own(player, act, out),
            Request::Cmd(command) => self.session.cmd(command, out),
            Request::Tick => self.session.tick(out),
            Request::Turn => self.session.turn(out),
            Request::Step(copy) => self.session.step(copy, out),
            Request::Restagger(plan) => self.session.restagger(plan, out),
            Request::World(copy) => self.session.world(copy, out),
            Request::Run(copy) => self.session.run(copy, out),
            Request::Commands => self.session.commands(out),
            Request::End => self.session.end(out),
        }
    }

    // Does what is asked, and appends the whole answer.
    fn take(&mut self, request: Request, out: &mut Vec<u8>) -> Result<(), NoMemory>
        requires fits { FitsTerms (S.asking.terms self.old.session) request }
        ensures state { OnOk result (self.new ≡ led_by S.asking self.old (Ok request)) }
        ensures told { OnOk result
            (out.new.items ≡ out.old.items ++ told_by S.asking self.old (Ok request)) }
        ensures front { take (length out.old.items) out.new.items ≡ out.old.items }
    {
        self.play(request, out)?;
        push_last(out, request)?;
        self.line = self.line.saturating_add(1);
        self.is_over = is_end(request);
        Ok(())
    }

    // Refuses a line.
    fn refuse(&mut self, cause: Cause, out: &mut Vec<u8>) -> Result<(), NoMemory>
        ensures state { OnOk result (self.new ≡ led_by S.asking self.old (Err cause)) }
        ensures told { OnOk result
            (out.new.items ≡ out.old.items ++ told_by S.asking self.old (Err cause)) }
        ensures front { take (length out.old.items) out.new.items ≡ out.old.items }
    {
        push_refusal(out, self.line, cause)?;
        self.line = self.line.saturating_add(1);
        Ok(())
    }

    // Takes a line. On `NoMemory` some of what is told may have been appended.
    fn answer_parts(&mut self, line: &[u8], out: &mut Vec<u8>) -> Result<(), NoMemory>
        ensures state { OnOk result
            (self.new ≡ led_by S.asking self.old (asked_by S.asking self.old.session line.now)) }
        ensures told { OnOk result (out.new.items ≡ out.old.items
            ++ told_by S.asking self.old (asked_by S.asking self.old.session line.now)) }
        ensures front { take (length out.old.items) out.new.items ≡ out.old.items }
    {
        match self.read(line) {
            Ok(request) => self.take(request, out),
            Err(cause) => self.refuse(cause, out),
        }
    }
}

impl<S: Asked> Answerer for Talked<S> {
    ghost use Rattle.live_talk.specs.Talked.{talk_way};

    ghost way = { talk_way S.asking };

    fn is_over(&self) -> bool {
        self.is_over
    }

    fn answer(&mut self, line: &[u8], out: &mut Vec<u8>) -> Result<(), NoMemory> {
        let length = out.len();
        match self.answer_parts(line, out) {
            Ok(()) => Ok(()),
            Err(fault) => {
                out.truncate(length);
                Err(fault)
            }
        }
    }

    fn close(&mut self, begun: &[u8], out: &mut Vec<u8>) -> Result<(), NoMemory> {
        push_torn(out, self.line, begun)?;
        self.is_over = true;
        Ok(())
    }
}

impl<S: Asked> Opens for Talked<S> {
    ghost use Rattle.live_talk.specs.Talked.{talk_kind};

    ghost kind = { talk_kind S.asking };

    fn is_first(line: &[u8]) -> bool {
        S::is_first(line)
    }

    fn open(alloc: Global, m: Match, number: MirrorId, line: u32) -> Result<Talked<S>, LineFault> {
        let session = S::begin(alloc, m, number)?;
        Ok(Talked {
            session,
            line,
            is_over: false,
        })
    }
}
