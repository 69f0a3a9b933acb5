//! What requests are made of.

ghost use Rattle.std.specs.Prelude.{◌≡◌, ◌++◌, false, length, take, bytes_eq, OnOk, IfOk};
ghost use Rattle.tss_io.specs.Kinds.{is_long};
ghost use Rattle.tss_io.specs.Reading.{Answers, GivesLine};
ghost use Rattle.live_text.specs.Requests.{FitsTerms};
ghost use Rattle.live_text.specs.declared.request.Request.TheVariants as requests;

use game_trait::{Act, Command, MirrorId};
use live_text::Request;
use match_data::Match;
use std::alloc::Global;
use tss_base::NoMemory;
use tss_io::{Cause, LineFault};

/// A mirror of some kind, with what it needs to do what a line asks.
pub trait Asked: Drop {
    ghost use Rattle.live_talk.specs.Talked.{Asking};

    /// How its text begins, how its lines are read, and what requests make of it and tell.
    ghost asking: { Asking Self };

    /// Whether this is the first line of its text.
    fn is_first(line: &[u8]) -> bool
        ensures { result ≡ bytes_eq line.now asking.first_line };

    /// The mirror of this number as the match begins, or why there is none.
    fn begin(alloc: Global, m: Match, number: MirrorId) -> Result<Self, LineFault>
        ensures { GivesLine (λ s. s) result (asking.begun m number) };

    /// What the line asks, which isn't too long, or why it is refused.
    fn read(&self, line: &[u8]) -> Result<Request, Cause>
        requires { is_long line.now ≡ false }
        ensures read { Answers (λ x. x) result (asking.asked self.now line.now) }
        ensures fits { IfOk result (λ r. FitsTerms (asking.terms self.now) r) };

    // What each request does, and appends of it. On `NoMemory` some may have been appended, and the state
    // may be any.

    /// A command of the mirror's own, due at its clock.
    fn own(&mut self, player: u8, act: Act, out: &mut Vec<u8>) -> Result<(), NoMemory>
        requires { FitsTerms (asking.terms self.old) (requests.Own player act) }
        ensures state { OnOk result (self.new ≡ asking.played self.old (requests.Own player act)) }
        ensures told { OnOk result
            (out.new.items ≡ out.old.items ++ asking.answer self.old (requests.Own player act)) }
        ensures front { take (length out.old.items) out.new.items ≡ out.old.items };

    /// A command arrives.
    fn cmd(&mut self, command: Command, out: &mut Vec<u8>) -> Result<(), NoMemory>
        requires { FitsTerms (asking.terms self.old) (requests.Cmd command) }
        ensures state { OnOk result (self.new ≡ asking.played self.old (requests.Cmd command)) }
        ensures told { OnOk result
            (out.new.items ≡ out.old.items ++ asking.answer self.old (requests.Cmd command)) }
        ensures front { take (length out.old.items) out.new.items ≡ out.old.items };

    /// The clock goes on by one tick.
    fn tick(&mut self, out: &mut Vec<u8>) -> Result<(), NoMemory>
        ensures state { OnOk result (self.new ≡ asking.played self.old requests.Tick) }
        ensures told { OnOk result
            (out.new.items ≡ out.old.items ++ asking.answer self.old requests.Tick) }
        ensures front { take (length out.old.items) out.new.items ≡ out.old.items };

    /// A tick, and then a step of each copy.
    fn turn(&mut self, out: &mut Vec<u8>) -> Result<(), NoMemory>
        ensures state { OnOk result (self.new ≡ asking.played self.old requests.Turn) }
        ensures told { OnOk result
            (out.new.items ≡ out.old.items ++ asking.answer self.old requests.Turn) }
        ensures front { take (length out.old.items) out.new.items ≡ out.old.items };

    /// A copy runs a tick.
    fn step(&mut self, copy: u8, out: &mut Vec<u8>) -> Result<(), NoMemory>
        requires { FitsTerms (asking.terms self.old) (requests.Step copy) }
        ensures state { OnOk result (self.new ≡ asking.played self.old (requests.Step copy)) }
        ensures told { OnOk result
            (out.new.items ≡ out.old.items ++ asking.answer self.old (requests.Step copy)) }
        ensures front { take (length out.old.items) out.new.items ≡ out.old.items };

    /// Another plan of delays comes into force.
    fn restagger(&mut self, plan: u8, out: &mut Vec<u8>) -> Result<(), NoMemory>
        requires { FitsTerms (asking.terms self.old) (requests.Restagger plan) }
        ensures state { OnOk result (self.new ≡ asking.played self.old (requests.Restagger plan)) }
        ensures told { OnOk result
            (out.new.items ≡ out.old.items ++ asking.answer self.old (requests.Restagger plan)) }
        ensures front { take (length out.old.items) out.new.items ≡ out.old.items };

    /// The world of a copy is told.
    fn world(&mut self, copy: u8, out: &mut Vec<u8>) -> Result<(), NoMemory>
        requires { FitsTerms (asking.terms self.old) (requests.World copy) }
        ensures state { OnOk result (self.new ≡ asking.played self.old (requests.World copy)) }
        ensures told { OnOk result
            (out.new.items ≡ out.old.items ++ asking.answer self.old (requests.World copy)) }
        ensures front { take (length out.old.items) out.new.items ≡ out.old.items };

    /// The run of a copy is told.
    fn run(&mut self, copy: u8, out: &mut Vec<u8>) -> Result<(), NoMemory>
        requires { FitsTerms (asking.terms self.old) (requests.Run copy) }
        ensures state { OnOk result (self.new ≡ asking.played self.old (requests.Run copy)) }
        ensures told { OnOk result
            (out.new.items ≡ out.old.items ++ asking.answer self.old (requests.Run copy)) }
        ensures front { take (length out.old.items) out.new.items ≡ out.old.items };

    /// The commands that were accepted are told.
    fn commands(&mut self, out: &mut Vec<u8>) -> Result<(), NoMemory>
        ensures state { OnOk result (self.new ≡ asking.played self.old requests.Commands) }
        ensures told { OnOk result
            (out.new.items ≡ out.old.items ++ asking.answer self.old requests.Commands) }
        ensures front { take (length out.old.items) out.new.items ≡ out.old.items };

    /// All that is told at the end.
    fn end(&mut self, out: &mut Vec<u8>) -> Result<(), NoMemory>
        ensures state { OnOk result (self.new ≡ asking.played self.old requests.End) }
        ensures told { OnOk result
            (out.new.items ≡ out.old.items ++ asking.answer self.old requests.End) }
        ensures front { take (length out.old.items) out.new.items ≡ out.old.items };
}
