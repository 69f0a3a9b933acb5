//! All links of a net, and what its lines do to them.

ghost use Rattle.std.specs.Prelude.{◌≡◌, ◌<◌, ◌≤◌, [], if◌then◌else◌, length, option_to_list, IfOk, IfSome};
ghost use Rattle.game_trait.specs.declared.limits.TheConstants.{MOST_ROOM};
ghost use Rattle.game_trait.specs.Count.{times};
ghost use Rattle.lossy_link.specs.Way.{IsThere};
ghost use Rattle.lossy_link.specs.Links.{AreLinks, is_from, new_links, next_links, script_of, note_text, nothing_line, link_at, row_at};
ghost use Rattle.lossy_link.specs.Outcome.{script_in, note_in, outcome_of};
ghost use Rattle.lossy_text.specs.declared.net_line.NetLine.TheVariants.{Issue as IssueLine, Send as SendLine, Carry as CarryLine, Ack as AckLine, Hear as HearLine};

use crate::link::{Carried, Link};
use crate::row::Row;
use game_trait::{Command, CommandList, MirrorId, Number};
use lossy_text::NetLine;
use match_data::{Match, ScriptLine, find_command};
use std::alloc::Global;
use std::marker::Model;
use tss_base::NoMemory;

/// All links of a net, and the commands that were issued. Only `new` takes memory.
#[derive(Drop)]
pub struct Links {
    issued: CommandList,
    rows: Vec<Row>,
}

impl Model for Links {
    ghost use Rattle.lossy_link.specs.Links.{NetLinks};

    ghost Value = { NetLinks };

    ghost view = { λ n.
        record { room = n.issued.room; issued = n.issued.items; rows = n.rows.items } };
}

/// What comes of a net line.
#[derive(Clone, Copy)]
pub enum Outcome {
    /// Nothing that is printed, and nothing at the mirrors.
    Quiet,
    /// The command was issued before.
    Again {
        from: MirrorId,
        number: Number,
    },
    /// Nothing changed.
    Nothing,
    /// A packet was dropped.
    Dropped {
        from: MirrorId,
        to: MirrorId,
        packet: u32,
    },
    /// A script line at a mirror.
    Script(ScriptLine),
}

/// The script line of an outcome, if it is one; then it has no note.
pub fn script_line(outcome: Outcome) -> Option<ScriptLine>
    ensures script { script_in outcome ≡ option_to_list result }
    ensures note { IfSome result (λ l. note_in outcome ≡ []) }
{
    match outcome {
        Outcome::Script(l) => Some(l),
        Outcome::Quiet | Outcome::Nothing | Outcome::Again { .. } | Outcome::Dropped { .. } => None,
    }
}

// What comes of a line that changes something or not.
fn of_change(changed: bool) -> Outcome
    ensures script { script_in result ≡ [] }
    ensures note { note_in result ≡ (if changed then [] else nothing_line) }
{
    if changed {
        return Outcome::Quiet;
    }
    Outcome::Nothing
}

// What comes of a packet that is carried.
fn of_carried(from: MirrorId, to: MirrorId, packet: u32, carried: Carried) -> Outcome
    ensures { result ≡ outcome_of from to packet carried }
{
    match carried {
        Carried::Nothing => Outcome::Nothing,
        Carried::Dropped => Outcome::Dropped { from, to, packet },
        Carried::Brought(x) => Outcome::Script(ScriptLine::Arrive {
            mirror: to,
            from: x.from,
            number: x.number,
        }),
    }
}

// How many of the commands are of this mirror.
#[tactic(auto, unfolding(game_trait::specs::Count::times))]
fn count_from(commands: &[Command], from: MirrorId) -> u32
    requires { length commands.now ≤ MOST_ROOM }
    ensures value { result ≡ times (is_from from) commands.now }
    ensures few { result ≤ MOST_ROOM }
{
    let mut many = 0;
    for x in commands {
        many += u32::from(x.from == from);
    }
    many
}

impl Links {
    /// The links of a match's mirrors over which nothing was sent, each with room for the commands
    /// of the mirror that sends. On `NoMemory` nothing is created.
    #[tactic(auto, unfolding(crate::specs::Links::new_rows))]
    pub fn new(alloc: Global, m: &Match) -> Result<Links, NoMemory>
        ensures { IfOk result (λ n. n ≡ new_links m.now.mirrors m.now.commands) }
    {
        let mut rows = Vec::new(alloc);
        for from in 0..m.mirrors {
            let room = count_from(m.commands.as_slice(), from);
            rows.push(Row::new(alloc, m.mirrors, room)?)?;
        }
        Ok(Links {
            issued: CommandList::with_room(alloc, m.commands.len())?,
            rows,
        })
    }

    /// The link from one mirror to another. Both are there.
    pub fn link(&self, from: MirrorId, to: MirrorId) -> &Link
        requires from { from < length self.now.rows }
        requires to { to < length (row_at self.now.rows from) }
        ensures { result.now ≡ link_at self.now.rows from to }
    {
        self.rows[usize::from(from)].link(to)
    }

    // A mirror issues its command of this number.
    #[tactic(auto, unfolding(crate::specs::Links::next_links, crate::specs::Links::script_of, crate::specs::Links::note_text))]
    fn issue(&mut self, m: &Match, from: MirrorId, number: Number) -> Outcome
        requires line { from < m.now.mirrors }
        requires links { AreLinks m.now self.old }
        ensures state { self.new ≡ next_links m.now.commands self.old (IssueLine from number) }
        ensures script { script_in result
            ≡ script_of m.now.commands self.old (IssueLine from number) }
        ensures note { note_in result ≡ note_text self.old (IssueLine from number) }
    {
        if self.issued.has(from, number) {
            return Outcome::Again { from, number };
        }
        match find_command(m, from, number) {
            None => Outcome::Quiet,
            Some(x) => {
                self.issued.push_reserved(&x);
                self.rows[usize::from(from)].issue(&x, from);
                Outcome::Script(ScriptLine::Arrive {
                    mirror: from,
                    from: x.from,
                    number: x.number,
                })
            }
        }
    }

    // A packet flies.
    #[tactic(auto, unfolding(crate::specs::Links::next_links, crate::specs::Links::script_of, crate::specs::Links::note_text))]
    fn send(&mut self, m: &Match, from: MirrorId, to: MirrorId, packet: u32) -> Outcome
        requires { (from < length self.old.rows) × (to < length (row_at self.old.rows from)) }
        ensures state { self.new ≡ next_links m.now.commands self.old (SendLine from to packet) }
        ensures script { script_in result ≡ script_of m.now.commands self.old (SendLine from to packet) }
        ensures note { note_in result ≡ note_text self.old (SendLine from to packet) }
    {
        of_change(self.rows[usize::from(from)].send(to, packet))
    }

    // A count flies.
    #[tactic(auto, unfolding(crate::specs::Links::next_links, crate::specs::Links::script_of, crate::specs::Links::note_text))]
    fn ack(&mut self, m: &Match, from: MirrorId, to: MirrorId) -> Outcome
        requires { (from < length self.old.rows) × (to < length (row_at self.old.rows from)) }
        ensures state { self.new ≡ next_links m.now.commands self.old (AckLine from to) }
        ensures script { script_in result ≡ script_of m.now.commands self.old (AckLine from to) }
        ensures note { note_in result ≡ note_text self.old (AckLine from to) }
    {
        self.rows[usize::from(from)].ack(to);
        Outcome::Quiet
    }

    // A count is heard.
    #[tactic(auto, unfolding(crate::specs::Links::next_links, crate::specs::Links::script_of, crate::specs::Links::note_text))]
    fn hear(&mut self, m: &Match, from: MirrorId, to: MirrorId, count: u32) -> Outcome
        requires { (from < length self.old.rows) × (to < length (row_at self.old.rows from)) }
        ensures state { self.new ≡ next_links m.now.commands self.old (HearLine from to count) }
        ensures script { script_in result ≡ script_of m.now.commands self.old (HearLine from to count) }
        ensures note { note_in result ≡ note_text self.old (HearLine from to count) }
    {
        of_change(self.rows[usize::from(from)].hear(to, count))
    }

    // A packet is carried.
    #[tactic(auto, unfolding(crate::specs::Links::next_links, crate::specs::Links::script_of, crate::specs::Links::note_text))]
    fn carry(&mut self, m: &Match, from: MirrorId, to: MirrorId, packet: u32) -> Outcome
        requires { (from < length self.old.rows) × (to < length (row_at self.old.rows from)) }
        ensures state { self.new ≡ next_links m.now.commands self.old (CarryLine from to packet) }
        ensures script { script_in result
            ≡ script_of m.now.commands self.old (CarryLine from to packet) }
        ensures note { note_in result ≡ note_text self.old (CarryLine from to packet) }
    {
        of_carried(
            from,
            to,
            packet,
            self.rows[usize::from(from)].carry(to, packet),
        )
    }

    /// Makes a net line, and tells what comes of it. The mirrors that it names are there.
    #[tactic(auto, unfolding(crate::specs::Links::next_links, crate::specs::Links::script_of, crate::specs::Links::note_text))]
    pub fn make(&mut self, m: &Match, line: &NetLine) -> Outcome
        requires line { IsThere m.now.mirrors line.now }
        requires links { AreLinks m.now self.old }
        ensures state { self.new ≡ next_links m.now.commands self.old line.now }
        ensures script { script_in result ≡ script_of m.now.commands self.old line.now }
        ensures note { note_in result ≡ note_text self.old line.now }
    {
        match *line {
            NetLine::Issue { from, number } => self.issue(m, from, number),
            NetLine::Send { from, to, packet } => self.send(m, from, to, packet),
            NetLine::Carry { from, to, packet } => self.carry(m, from, to, packet),
            NetLine::Ack { from, to } => self.ack(m, from, to),
            NetLine::Hear { from, to, count } => self.hear(m, from, to, count),
            NetLine::Turn { mirror } => Outcome::Script(ScriptLine::Turn { mirror }),
        }
    }
}
