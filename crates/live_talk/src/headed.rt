//! A live text: its head is heard line by line, and then by what stands behind it.

ghost use Rattle.std.specs.Prelude.{◌≡◌, ◌++◌, true, false, ℕ, Ok, OnOk, OnErr, IfOk, option_map};
ghost use Rattle.tss_io.specs.Kinds.{is_long};
ghost use Rattle.tss_io.specs.Reading.{GivesLine};
ghost use Rattle.match_file.specs.Around.{in_match, behind};
ghost use Rattle.match_file.specs.ByLine.{at_of, IsRight};
ghost use Rattle.match_file.specs.Reading.{match_of};
ghost use Rattle.match_file.specs.Sections.{IsRead};
ghost use Rattle.live_talk.specs.Head.{led_to, head_step, opening_headed, headed_way, behind_head, fed_at, head_told, IsHeading};
ghost use Rattle.live_talk.specs.Parts.{read_of, place_of, IsRightHead, IsRightPart};

use crate::fed::Fed;
use crate::opens::Opens;
use crate::telling::{cut_short, push_ok, push_refusal};
use game_trait::MirrorId;
use line_talk::Answerer;
use match_file::MatchReading;
use std::alloc::Global;
use std::marker::Model;
use std::mem;
use tss_base::NoMemory;
use tss_io::{Cause, LONGEST_LINE, LineFault, check};

// What was heard of a head.
#[derive(Drop)]
pub enum Head {
    // Nothing.
    First,
    // The first line, and lines of the match.
    Match(MatchReading),
}

// Which part of its text is heard.
#[derive(Drop)]
pub enum Part<S> {
    // The head.
    InHead(Head),
    // What stands behind it.
    Behind(S),
    // None any more, since the head was refused.
    Refused,
}

/// A live text as what answers its lines: those of the head, and then what stands behind it.
#[derive(Drop)]
pub struct Headed<S> {
    alloc: Global,
    number: MirrorId,
    line: u32,
    part: Part<S>,
}

impl<S> Model for Headed<S> {
    ghost use Rattle.live_talk.specs.Head.{HeadedState};

    ghost Value = { HeadedState S };

    ghost use Rattle.live_talk.specs.Parts.{place_of, IsRightPart};

    ghost view = { λ m. record { number = m.number; place = place_of m.line m.part } };

    ghost invariant = { λ m. IsRightPart m.part };
}

// What stands behind the head, which was read. The next line has this number.
fn open<S: Opens>(
    alloc: Global,
    number: MirrorId,
    next: u32,
    reading: MatchReading,
) -> Result<Part<S>, LineFault>
    requires { IsRead reading.opening reading.body }
    ensures opened { GivesLine (λ part. place_of next part) result
        (led_to S.kind number next (behind (match_of reading.opening reading.body) tt)) }
    ensures right { IfOk result IsRightPart }
{
    let m = reading.finish(alloc)?;
    let session = S::open(alloc, m, number, next)?;
    Ok(Part::Behind(session))
}

// Takes a line of the match, which isn't too long. The next line has this number.
fn read_on<S: Opens>(
    alloc: Global,
    number: MirrorId,
    next: u32,
    reading: MatchReading,
    line: &[u8],
) -> Result<Part<S>, LineFault>
    requires right { IsRight reading }
    requires short { is_long line.now ≡ false }
    ensures led { GivesLine (λ part. place_of next part) result
        (head_step S.kind number next (in_match (at_of reading)) line.now) }
    ensures right { IfOk result IsRightPart }
{
    let mut reading = reading;
    reading.take_line(alloc, line)?;
    if reading.is_last() {
        return open(alloc, number, next, reading);
    }
    Ok(Part::InHead(Head::Match(reading)))
}

// Takes a line of the head. The next line has this number.
fn take_head<S: Opens>(
    alloc: Global,
    number: MirrorId,
    next: u32,
    head: Head,
    line: &[u8],
) -> Result<Part<S>, LineFault>
    requires right { IsRightHead head }
    ensures led { GivesLine (λ part. place_of next part) result
        (head_step S.kind number next (read_of head) line.now) }
    ensures right { IfOk result IsRightPart }
{
    check(line.len() <= LONGEST_LINE, Cause::Long)?;
    match head {
        Head::First => {
            check(S::is_first(line), Cause::Head)?;
            Ok(Part::InHead(Head::Match(MatchReading::new(alloc))))
        }
        Head::Match(reading) => read_on(alloc, number, next, reading, line),
    }
}

// Appends what is told of a line of the head that was taken. On `NoMemory` `out` is unchanged.
fn push_taken<S>(out: &mut Vec<u8>, part: &Part<S>) -> Result<(), NoMemory>
    ensures ok { (line next : ℕ) → OnOk result
        (out.new.items ≡ out.old.items ++ head_told line (Ok (place_of next part.now))) }
    ensures err { OnErr result (out.new.items ≡ out.old.items) }
{
    match part {
        Part::Behind(_) => push_ok(out),
        _ => Ok(()),
    }
}

impl<S: Opens> Headed<S> {
    /// The mirror of this number, of which nothing was heard. It takes no memory.
    pub fn new(alloc: Global, number: MirrorId) -> Headed<S>
        ensures { result ≡ opening_headed number }
    {
        Headed {
            alloc,
            number,
            line: 1,
            part: Part::InHead(Head::First),
        }
    }

    /// What stands behind its head, once that was read.
    pub fn behind(&self) -> Option<&S>
        ensures { option_map (λ s. s.now) result ≡ behind_head self.now.place }
    {
        match &self.part {
            Part::Behind(session) => Some(session),
            _ => None,
        }
    }

    /// How it stands.
    pub fn fed(&self) -> Fed
        ensures { result ≡ fed_at S.way self.now.place }
    {
        match &self.part {
            Part::InHead(_) => Fed::Goes,
            Part::Behind(session) => {
                if session.is_over() {
                    Fed::Ended
                } else {
                    Fed::Goes
                }
            }
            Part::Refused => Fed::Refused,
        }
    }

    // Goes on at a part of the text to which a line of the head led, where the next line has this
    // number, and appends what is told of that line. On `NoMemory` `out` is unchanged.
    fn go_on(&mut self, part: Part<S>, next: u32, out: &mut Vec<u8>) -> Result<(), NoMemory>
        requires { IsRightPart part }
        ensures state { OnOk result
            (self.new ≡ record { number = self.old.number; place = place_of next part }) }
        ensures told { (line : ℕ) → OnOk result
            (out.new.items ≡ out.old.items ++ head_told line (Ok (place_of next part))) }
        ensures err { OnErr result (out.new.items ≡ out.old.items) }
    {
        self.part = part;
        self.line = next;
        push_taken(out, &self.part)
    }

    // Answers a line of the head.
    fn answer_head(&mut self, line: &[u8], out: &mut Vec<u8>) -> Result<(), NoMemory>
        requires { IsHeading self.old.place }
        ensures state { OnOk result (self.new ≡ (headed_way S.kind S.way).led self.old line.now) }
        ensures told { OnOk result
            (out.new.items ≡ out.old.items ++ (headed_way S.kind S.way).told self.old line.now) }
        ensures err { OnErr result (out.new.items ≡ out.old.items) }
    {
        let next = self.line.saturating_add(1);
        let Part::InHead(head) = mem::replace(&mut self.part, Part::Refused) else {
            return Ok(());
        };
        match take_head(self.alloc, self.number, next, head, line) {
            Ok(part) => self.go_on(part, next, out),
            Err(LineFault::Refused(cause)) => push_refusal(out, self.line, cause),
            Err(LineFault::NoMemory) => Err(NoMemory),
        }
    }

    // Answers the end of the text in the head.
    fn close_head(&mut self, begun: &[u8], out: &mut Vec<u8>) -> Result<(), NoMemory>
        requires { IsHeading self.old.place }
        ensures state { OnOk result (self.new ≡ (headed_way S.kind S.way).closed self.old begun.now) }
        ensures told { OnOk result
            (out.new.items ≡ out.old.items ++ (headed_way S.kind S.way).told_at_end self.old begun.now) }
        ensures err { OnErr result (out.new.items ≡ out.old.items) }
    {
        self.part = Part::Refused;
        push_refusal(out, self.line, cut_short(begun))
    }
}

impl<S: Opens> Answerer for Headed<S> {
    ghost use Rattle.live_talk.specs.Head.{headed_way};

    ghost way = { headed_way S.kind S.way };

    fn is_over(&self) -> bool {
        match &self.part {
            Part::InHead(_) => false,
            Part::Behind(session) => session.is_over(),
            Part::Refused => true,
        }
    }

    fn answer(&mut self, line: &[u8], out: &mut Vec<u8>) -> Result<(), NoMemory> {
        match &mut self.part {
            Part::Behind(session) => session.answer(line, out),
            _ => self.answer_head(line, out),
        }
    }

    fn close(&mut self, begun: &[u8], out: &mut Vec<u8>) -> Result<(), NoMemory> {
        match &mut self.part {
            Part::Behind(session) => session.close(begun, out),
            _ => self.close_head(begun, out),
        }
    }
}
