//! The net of a match: its links and its mirrors.

ghost use Rattle.std.specs.Prelude.{◌≡◌, ◌<◌, ◌++◌, ℕ, Some, length, take, slice_get, OnOk, OnErr, IfOk};
ghost use Rattle.std.specs.List.{AllByRecursion};
ghost use Rattle.sync_model.specs.Turns.{IsDrained};
ghost use Rattle.match_data.specs.Data.{IsMatch};
ghost use Rattle.match_hall.specs.Report.{Showing};
ghost use Rattle.match_hall.specs.Stops.{IsFrontPut};
ghost use Rattle.match_hall.specs.Script.{logs_from};
ghost use Rattle.lossy_text.specs.Data.{LossyData};
ghost use Rattle.lossy_link.specs.Links.{row_at, link_at};
ghost use Rattle.lossy_link.specs.Net.{opening_net, next_net, net_line_text, after_net, net_text, made_net, HasEach, AreLinked};
ghost use Rattle.lossy_link.specs.Finish.{ended_net, end_text, IsEndedNet};
ghost use Rattle.lossy_link.specs.Way.{IsThere, IsNet};

use crate::closing::push_left;
use crate::in_end::InEnd;
use crate::links::{Links, script_line};
use crate::notes::push_note;
use crate::out_end::OutEnd;
use game_trait::{Game, MirrorId};
use lossy_text::{LossyText, NetLine};
use match_data::{Match, MirrorLog};
use match_hall::Hall;
use match_setup::Shown;
use mirror_core::DeferredMirror;
use report_text::done_line;
use std::alloc::Global;
use std::marker::Model;
use tss_base::{NoMemory, Seq};

/// The net of a match: a link from each mirror to each, and the mirrors. Only `over`, `finish` and
/// `into_logs` take memory.
#[derive(Drop)]
pub struct Net<G: Game> {
    links: Links,
    hall: Hall<G>,
}

impl<G: Game> Model for Net<G> {
    ghost use Rattle.lossy_link.specs.Net.{NetState};

    ghost Value = { NetState G };

    ghost view = { λ n. record { links = n.links; mirrors = n.hall } };
}

impl<G: Game + Shown> Net<G> {
    // Makes a net line, and appends what it prints. On `NoMemory` `out` is unchanged.
    fn make(&mut self, m: &Match, line: &NetLine, out: &mut Vec<u8>) -> Result<(), NoMemory>
        requires sound { IsMatch m.now }
        requires line { IsThere m.now.mirrors line.now }
        requires net { (opening : G) × IsNet m.now opening self.old }
        ensures state { OnOk result (self.new ≡ next_net m.now.commands self.old line.now) }
        ensures ok { let show : Showing G =
            record { rules = G.rules; lines = G.lines; names = m.now.names } in
            OnOk result (out.new.items
            ≡ out.old.items ++ net_line_text show m.now.commands self.old line.now) }
        ensures err { OnErr result (out.new.items ≡ out.old.items) }
    {
        let outcome = self.links.make(m, line);
        match script_line(outcome) {
            Some(l) => self.hall.make(m, &l, out),
            None => push_note(out, outcome),
        }
    }

    // Makes net lines one after another, and appends what they print. On `NoMemory` `out` gained a
    // front of that.
    fn make_each(&mut self, m: &Match, lines: &[NetLine], out: &mut Vec<u8>) -> Result<(), NoMemory>
        requires sound { IsMatch m.now }
        requires lines { AllByRecursion (IsThere m.now.mirrors) lines.now }
        requires net { (opening : G) × IsNet m.now opening self.old }
        ensures state { OnOk result (self.new ≡ after_net m.now.commands self.old lines.now) }
        ensures ok { let show : Showing G =
            record { rules = G.rules; lines = G.lines; names = m.now.names } in
            OnOk result (out.new.items
            ≡ out.old.items ++ net_text show m.now.commands self.old lines.now) }
        ensures err { let show : Showing G =
            record { rules = G.rules; lines = G.lines; names = m.now.names } in
            OnErr result (IsFrontPut out.old.items out.new.items
            (net_text show m.now.commands self.old lines.now)) }
    {
        for line in lines {
            self.make(m, line, out)?;
        }
        Ok(())
    }

    /// The net of a match that opens with this world, after all its lines, one after another. What
    /// they print is appended. On `NoMemory` `out` gained a front of that.
    pub fn over(
        alloc: Global,
        x: &LossyText,
        opening: &G,
        out: &mut Vec<u8>,
    ) -> Result<Net<G>, NoMemory>
        ensures net { IfOk result (λ n. n ≡ made_net opening.now x.now) }
        ensures count { IfOk result (λ n. HasEach x.now.game.mirrors n) }
        ensures text { let show : Showing G =
            record { rules = G.rules; lines = G.lines; names = x.now.game.names } in
            OnOk result (out.new.items ≡ out.old.items
            ++ net_text show x.now.game.commands (opening_net opening.now x.now.game) x.now.lines) }
        ensures err { let show : Showing G =
            record { rules = G.rules; lines = G.lines; names = x.now.game.names } in
            OnErr result (IsFrontPut out.old.items out.new.items
            (net_text show x.now.game.commands (opening_net opening.now x.now.game) x.now.lines)) }
        ensures linked { (k : ℕ) → AreLinked x.now.game
            (after_net x.now.game.commands (opening_net opening.now x.now.game)
            (take k x.now.lines)).links }
    {
        let m = &x.game;
        let room = m.commands.len() as u32;
        let links = Links::new(alloc, m)?;
        let hall = Hall::with_room(alloc, m, opening, room)?;
        let mut net = Net { links, hall };
        net.make_each(m, x.lines.as_slice(), out)?;
        Ok(net)
    }

    /// The end that sends of the link from one mirror to another. Both are there.
    pub fn out_end(&self, from: MirrorId, to: MirrorId) -> &OutEnd
        requires from { from < length self.now.links.rows }
        requires to { to < length (row_at self.now.links.rows from) }
        ensures { let l = link_at self.now.links.rows from to in
            result.now ≡ record { room = l.room; sent = l.sent; acked = l.acked } }
    {
        self.links.link(from, to).out_end()
    }

    /// The end that receives of the link from one mirror to another. Both are there.
    pub fn in_end(&self, from: MirrorId, to: MirrorId) -> &InEnd
        requires from { from < length self.now.links.rows }
        requires to { to < length (row_at self.now.links.rows from) }
        ensures { result.now ≡ length (link_at self.now.links.rows from to).received }
    {
        self.links.link(from, to).in_end()
    }

    /// The mirror of this number, which is there.
    pub fn mirror(&self, mirror: MirrorId) -> &DeferredMirror<G>
        requires { mirror < length self.now.mirrors }
        ensures { slice_get self.now.mirrors mirror ≡ Some result.now }
    {
        self.hall.mirror(mirror)
    }

    /// Sends and carries what is left in the links, drains the mirrors, and appends what that
    /// prints, the mirrors at their end and the last line. The net is as `over` made it of this
    /// match. The mirrors' live worlds are then made. On `NoMemory` `out` gained a front of that.
    pub fn finish(&mut self, x: &LossyText, out: &mut Vec<u8>) -> Result<(), NoMemory>
        requires fresh { (opening : G) × (self.old ≡ made_net opening x.now) }
        ensures state { OnOk result (self.new ≡ ended_net x.now.game.commands self.old) }
        ensures count { OnOk result (HasEach x.now.game.mirrors self.new) }
        ensures drained { OnOk result (AllByRecursion (λ s. IsDrained s) self.new.mirrors) }
        ensures ended { OnOk result ((opening : G) → self.old ≡ made_net opening x.now
            → IsEndedNet G.rules x.now opening self.new) }
        ensures text { let show : Showing G =
            record { rules = G.rules; lines = G.lines; names = x.now.game.names } in
            OnOk result (out.new.items
            ≡ out.old.items ++ end_text show x.now.game.commands self.old) }
        ensures err { let show : Showing G =
            record { rules = G.rules; lines = G.lines; names = x.now.game.names } in
            OnErr result (IsFrontPut out.old.items out.new.items
            (end_text show x.now.game.commands self.old)) }
    {
        let m = &x.game;
        let mut lines = Vec::new(*out.allocator());
        push_left(&mut lines, &self.links, m.mirrors)?;
        self.make_each(m, lines.as_slice(), out)?;
        self.hall.drain(out)?;
        self.hall.show(&m.roster, out)?;
        done_line(out)
    }

    /// The logs of the mirrors, mirror 0 first: of each the events that changed it, in order, which
    /// are taken over and not copied. On `NoMemory` nothing is created.
    pub fn into_logs(self, alloc: Global) -> Result<Seq<MirrorLog>, NoMemory>
        ensures { IfOk result (λ kept. kept ≡ logs_from 0 self.mirrors) }
    {
        let Net { hall, .. } = self;
        hall.into_logs(alloc)
    }
}
