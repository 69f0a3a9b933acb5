//! The hall of a match: its mirrors, played along its script and drained.

ghost use Rattle.std.specs.Prelude.{◌≡◌, ◌++◌, ◌<◌, ◌≤◌, [], ◌∷◌, Some, length, map, replicate, OnOk, OnErr, IfOk, slice_get};
ghost use Rattle.std.specs.List.{AllByRecursion};
ghost use Rattle.sync_model.specs.State.{MirrorState};
ghost use Rattle.sync_model.specs.Change.{Fits};
ghost use Rattle.sync_model.specs.History.{HasRoomAlong};
ghost use Rattle.sync_model.specs.Turns.{drain, IsDrained};
ghost use Rattle.match_data.specs.Data.{IsScriptLine};
ghost use Rattle.game_trait.specs.declared.limits.TheConstants.{MOST_ROOM};
ghost use Rattle.sync_model.specs.State.{opening_state};
ghost use Rattle.match_hall.specs.Script.{all_plans, mirror_of, changed_at, told_at, events_of, after_line, after_script, opening_mirrors, logs_from};
ghost use Rattle.match_hall.specs.Ready.{IsReady};
ghost use Rattle.match_hall.specs.Report.{showing, line_text, script_text, drains_text, mirrors_text, lines_of_mirrors};
ghost use Rattle.match_hall.specs.Stops.{IsStoppedScript, IsStoppedDraining, IsFrontPut};
ghost use Rattle.match_hall.specs.Notes.{notes_of_all};
ghost use Rattle.watch_board.specs.Told.{AreTold};

use crate::events::command_of;
use crate::logs::into_logs;
use crate::open::{open, open_with};
use crate::script::mirror_of;
use crate::show::push_mirror;
use crate::tell::tell_mirror;
use game_trait::{Game, MirrorId};
use match_data::{Match, MirrorLog, ScriptLine};
use match_setup::{Roster, Shown};
use mirror_core::{DeferredMirror, Mirrored};
use mirror_report::{drain_mirror, push_copy, push_line_of_mirror, push_run, push_turn};
use report_text::{arrival_line, step_line, tick_line};
use std::alloc::Global;
use std::marker::Model;
use tss_base::{NoMemory, Seq};
use watch_board::{Board, Watcher};

/// The mirrors of a match. Contracts see the list of their states, mirror 0 first.
#[derive(Drop)]
pub struct Hall<G: Game> {
    mirrors: Vec<DeferredMirror<G>>,
}

impl<G: Game> Model for Hall<G> {
    ghost use Rattle.std.specs.Prelude.{List, ◌≤◌, length};
    ghost use Rattle.sync_model.specs.State.{MirrorState};

    ghost Value = { List (MirrorState G) };

    ghost view = { λ h. h.mirrors.items };

    ghost invariant = { λ h. length h.mirrors.items ≤ 8 };
}

// Makes a script line at the mirror that it names, and appends what it prints. On `NoMemory` the
// line was made, and `out` is unchanged.
#[tactic(auto, unfolding(crate::specs::Report::line_text, crate::specs::Report::reply_text, crate::specs::Script::events_of, sync_model::specs::Change::after, sync_model::specs::Change::answers, sync_model::specs::History::HasRoomAlong))]
fn play_line<G: Game + Shown>(
    mirror: &mut DeferredMirror<G>,
    m: &Match,
    line: &ScriptLine,
    out: &mut Vec<u8>,
) -> Result<(), NoMemory>
    requires line { IsScriptLine m.now line.now }
    requires copies { length mirror.old.runs ≡ length m.now.delays }
    requires fits { AllByRecursion (Fits mirror.old)
        (events_of m.now.commands (length mirror.old.runs) line.now) }
    requires room { HasRoomAlong mirror.old
        (events_of m.now.commands (length mirror.old.runs) line.now) }
    ensures state { mirror.new ≡ after_line m.now.commands line.now mirror.old }
    ensures ok { let show = showing G.rules G.lines m.now.names in
        OnOk result (out.new.items
        ≡ out.old.items ++ line_text show m.now.commands line.now mirror.old) }
    ensures err { OnErr result (out.new.items ≡ out.old.items) }
{
    match *line {
        ScriptLine::Tick { mirror: at } => tick_line(out, at, mirror.tick()),
        ScriptLine::Turn { mirror: at } => push_turn(mirror, at, out),
        ScriptLine::Arrive {
            mirror: at,
            from,
            number,
        } => {
            let x = command_of(m, from, number);
            arrival_line(out, at, from, number, &mirror.arrive(&x))
        }
        ScriptLine::Step { mirror: at, copy } => step_line(out, at, copy, mirror.step(copy)),
        ScriptLine::World { mirror: at, copy } => {
            mirror.refresh();
            push_copy::<G, _>(out, at, mirror, copy, &m.roster)
        }
        ScriptLine::Run { mirror: at, copy } => push_run(out, at, mirror, copy),
        ScriptLine::Restagger { plan, .. } => {
            mirror.restagger(plan);
            Ok(())
        }
    }
}

// Makes the lines of a match's script one after another, each at the mirror that it names, and
// appends what they print.
fn play_script<G: Game + Shown>(
    mirrors: &mut Vec<DeferredMirror<G>>,
    m: &Match,
    out: &mut Vec<u8>,
) -> Result<(), NoMemory>
    requires opening { (opening : G) × (mirrors.old.items ≡ opening_mirrors opening m.now) }
    ensures count { length mirrors.new.items ≡ length mirrors.old.items }
    ensures state { OnOk result (mirrors.new.items
        ≡ after_script m.now.commands mirrors.old.items m.now.script) }
    ensures text { let show = showing G.rules G.lines m.now.names in
        OnOk result (out.new.items ≡ out.old.items
        ++ script_text show m.now.commands mirrors.old.items m.now.script) }
    ensures stopped { let show = showing G.rules G.lines m.now.names in
        OnErr result (IsStoppedScript show m.now mirrors.old.items mirrors.new.items
        out.old.items out.new.items) }
{
    let script = m.script.as_slice();
    for line in script {
        let at = usize::from(mirror_of(line));
        play_line(&mut mirrors[at], m, line, out)?;
    }
    Ok(())
}

// Drains mirrors one after another, and appends what that prints.
fn drain_mirrors<G: Game>(
    mirrors: &mut Vec<DeferredMirror<G>>,
    out: &mut Vec<u8>,
) -> Result<(), NoMemory>
    requires { length mirrors.old.items ≤ 8 }
    ensures count { length mirrors.new.items ≡ length mirrors.old.items }
    ensures state { OnOk result (mirrors.new.items ≡ map (λ s. drain s) mirrors.old.items) }
    ensures drained { OnOk result (AllByRecursion (λ s. IsDrained s) mirrors.new.items) }
    ensures text { OnOk result (out.new.items ≡ out.old.items ++ drains_text 0 mirrors.old.items) }
    ensures stopped { OnErr result
        (IsStoppedDraining mirrors.old.items mirrors.new.items out.old.items out.new.items) }
{
    for at in 0..mirrors.len() {
        let turns = mirrors[at].turns_to_drain();
        drain_mirror(&mut mirrors[at], at as MirrorId, turns, out)?;
    }
    Ok(())
}

// Plays mirrors to watchers, one after another.
fn tell_mirrors<G: Game>(
    mirrors: &mut Vec<DeferredMirror<G>>,
    m: &Match,
    board: &mut Board,
    out: &mut Vec<u8>,
) -> Result<(), NoMemory>
    requires opening { (opening : G) × (mirrors.old.items ≡ opening_mirrors opening m.now) }
    ensures count { length mirrors.new.items ≡ length mirrors.old.items }
    ensures state { OnOk result (mirrors.new.items
        ≡ map (λ s. drain s) (after_script m.now.commands mirrors.old.items m.now.script)) }
    ensures drained { OnOk result (AllByRecursion (λ s. IsDrained s) mirrors.new.items) }
    ensures told { OnOk result (AreTold (notes_of_all 0 mirrors.new.items)
        (map (λ w. behaviour (w.vtable, w.value)) board.old.watchers.items)
        (map (λ w. behaviour
        (w.vtable, w.value)) board.new.watchers.items) out.old.items out.new.items) }
{
    for number in 0..m.mirrors {
        tell_mirror(&mut mirrors[usize::from(number)], number, m, board, out)?;
    }
    Ok(())
}

// Appends the lines of mirrors that are drained, mirror 0 first, each with its copies' blocks. On
// `NoMemory` `out` gained a front of that.
#[tactic(auto, unfolding(crate::specs::Report::mirrors_text))]
fn push_mirrors<G: Game + Shown>(
    mirrors: &[DeferredMirror<G>],
    roster: &Roster,
    out: &mut Vec<u8>,
) -> Result<(), NoMemory>
    requires few { length mirrors.now ≤ 8 }
    requires drained { AllByRecursion (λ s. IsDrained s) mirrors.now }
    ensures ok { let show = showing G.rules G.lines roster.now in
        OnOk result (out.new.items ≡ out.old.items ++ mirrors_text show 0 mirrors.now) }
    ensures err { let show = showing G.rules G.lines roster.now in
        OnErr result (IsFrontPut out.old.items out.new.items (mirrors_text show 0 mirrors.now)) }
{
    let mut number: MirrorId = 0;
    for mirror in mirrors {
        push_mirror(out, number, mirror, roster)?;
        number += 1;
    }
    Ok(())
}

// Appends the lines of mirrors, mirror 0 first. On `NoMemory` `out` gained a front of that.
#[tactic(auto, unfolding(crate::specs::Report::lines_of_mirrors))]
fn push_lines_of_mirrors<G: Game>(
    mirrors: &[DeferredMirror<G>],
    out: &mut Vec<u8>,
) -> Result<(), NoMemory>
    requires { length mirrors.now ≤ 8 }
    ensures ok { OnOk result (out.new.items ≡ out.old.items ++ lines_of_mirrors 0 mirrors.now) }
    ensures err { OnErr result
        (IsFrontPut out.old.items out.new.items (lines_of_mirrors 0 mirrors.now)) }
{
    let mut number: MirrorId = 0;
    for mirror in mirrors {
        push_line_of_mirror::<G, _>(out, number, mirror)?;
        number += 1;
    }
    Ok(())
}

impl<G: Game + Shown> Hall<G> {
    /// The mirrors of a match as it begins with this world. Each has room for the script's arrivals
    /// at it, and for the script's changes of its plan. On `NoMemory` nothing is created.
    pub fn new(alloc: Global, m: &Match, opening: &G) -> Result<Hall<G>, NoMemory>
        ensures mirrors { IfOk result (λ hall. hall ≡ opening_mirrors opening.now m.now) }
        ensures count { IfOk result (λ hall. length hall ≡ m.now.mirrors) }
    {
        let mirrors = open(alloc, opening, m)?;
        Ok(Hall { mirrors })
    }

    /// The mirrors of a match as it begins with this world, each with room for `room` arrivals, at
    /// most 1,048,576, and for no change of its plan. On `NoMemory` nothing is created.
    pub fn with_room(alloc: Global, m: &Match, opening: &G, room: u32) -> Result<Hall<G>, NoMemory>
        requires { room ≤ MOST_ROOM }
        ensures { IfOk result (λ hall. hall
            ≡ replicate m.now.mirrors
            (opening_state opening.now m.now.length (all_plans m.now) room 0)) }
    {
        let mirrors = open_with(alloc, opening, m, room)?;
        Ok(Hall { mirrors })
    }

    /// Makes a script line at the mirror that it names, and appends what it prints. It may be made
    /// there. On `NoMemory` it was made, and `out` is unchanged.
    pub fn make(&mut self, m: &Match, line: &ScriptLine, out: &mut Vec<u8>) -> Result<(), NoMemory>
        requires { IsReady m.now line.now self.old }
        ensures state { self.new
            ≡ changed_at (after_line m.now.commands line.now) (mirror_of line.now) self.old }
        ensures ok { let show = showing G.rules G.lines m.now.names in
            OnOk result (out.new.items ≡ out.old.items
            ++ told_at (line_text show m.now.commands line.now) (mirror_of line.now) self.old) }
        ensures err { OnErr result (out.new.items ≡ out.old.items) }
    {
        let place = usize::from(mirror_of(line));
        play_line(&mut self.mirrors[place], m, line, out)
    }

    /// Makes the lines of the match's script one after another, each at the mirror that it names,
    /// and appends what they print. The hall is as `new` made it of this match. On `NoMemory` it
    /// stopped at one of the lines, which was made and whose text wasn't appended; each mirror is
    /// the state after its history, as always.
    pub fn play(&mut self, m: &Match, out: &mut Vec<u8>) -> Result<(), NoMemory>
        requires opened { (opening : G) × (self.old ≡ opening_mirrors opening m.now) }
        ensures count { length self.new ≡ length self.old }
        ensures state { OnOk result (self.new ≡ after_script m.now.commands self.old m.now.script) }
        ensures text { let show = showing G.rules G.lines m.now.names in
            OnOk result (out.new.items
            ≡ out.old.items ++ script_text show m.now.commands self.old m.now.script) }
        ensures stopped { let show = showing G.rules G.lines m.now.names in
            OnErr result (IsStoppedScript show m.now self.old self.new
            out.old.items out.new.items) }
    {
        play_script(&mut self.mirrors, m, out)
    }

    /// Drains the mirrors, mirror 0 first: turns of each until each of its copies has run the whole
    /// match, and has its live world. It appends what these print, which is their repairs. On
    /// `NoMemory` it stopped at a turn of one of the mirrors, which was made and whose text wasn't
    /// appended.
    pub fn drain(&mut self, out: &mut Vec<u8>) -> Result<(), NoMemory>
        ensures count { length self.new ≡ length self.old }
        ensures state { OnOk result (self.new ≡ map (λ s. drain s) self.old) }
        ensures drained { OnOk result (AllByRecursion (λ s. IsDrained s) self.new) }
        ensures text { OnOk result (out.new.items ≡ out.old.items ++ drains_text 0 self.old) }
        ensures stopped { OnErr result
            (IsStoppedDraining self.old self.new out.old.items out.new.items) }
    {
        drain_mirrors(&mut self.mirrors, out)
    }

    /// Plays the match to watchers: each mirror, mirror 0 first, makes the script's lines that name
    /// it and is drained, and each event that changed it is told to the board with its answer. Of
    /// that only the lines of watchers that left are appended. The hall is as `new` made it of this
    /// match. On `NoMemory` it stopped at one of the events, and that mirror may have made some more
    /// than were told; each mirror is the state after its history, as always.
    pub fn tell(&mut self, m: &Match, board: &mut Board, out: &mut Vec<u8>) -> Result<(), NoMemory>
        requires opened { (opening : G) × (self.old ≡ opening_mirrors opening m.now) }
        ensures count { length self.new ≡ length self.old }
        ensures state { OnOk result (self.new
            ≡ map (λ s. drain s) (after_script m.now.commands self.old m.now.script)) }
        ensures drained { OnOk result (AllByRecursion (λ s. IsDrained s) self.new) }
        ensures told { OnOk result (AreTold (notes_of_all 0 self.new)
            (map (λ w. behaviour (w.vtable, w.value)) board.old.watchers.items)
            (map (λ w. behaviour
            (w.vtable, w.value)) board.new.watchers.items) out.old.items out.new.items) }
    {
        tell_mirrors(&mut self.mirrors, m, board, out)
    }

    /// Appends the line of each mirror, mirror 0 first, and behind it the blocks of its copies'
    /// live worlds, copy 0 first. Each mirror is drained. On `NoMemory` `out` gained a front of
    /// that.
    pub fn show(&self, roster: &Roster, out: &mut Vec<u8>) -> Result<(), NoMemory>
        requires { AllByRecursion (λ s. IsDrained s) self.now }
        ensures ok { let show = showing G.rules G.lines roster.now in
            OnOk result (out.new.items ≡ out.old.items ++ mirrors_text show 0 self.now) }
        ensures err { let show = showing G.rules G.lines roster.now in
            OnErr result (IsFrontPut out.old.items out.new.items (mirrors_text show 0 self.now)) }
    {
        push_mirrors(self.mirrors.as_slice(), roster, out)
    }

    /// Appends the line of each mirror, mirror 0 first. On `NoMemory` `out` gained a front of that.
    pub fn show_lines(&self, out: &mut Vec<u8>) -> Result<(), NoMemory>
        ensures ok { OnOk result (out.new.items ≡ out.old.items ++ lines_of_mirrors 0 self.now) }
        ensures err { OnErr result
            (IsFrontPut out.old.items out.new.items (lines_of_mirrors 0 self.now)) }
    {
        push_lines_of_mirrors(self.mirrors.as_slice(), out)
    }

    /// The mirror of this number, which is there.
    pub fn mirror(&self, mirror: MirrorId) -> &DeferredMirror<G>
        requires { mirror < length self.now }
        ensures { slice_get self.now mirror ≡ Some result.now }
    {
        &self.mirrors[usize::from(mirror)]
    }

    /// The logs of the mirrors, mirror 0 first: of each the events that changed it, in order, which
    /// are taken over and not copied. On `NoMemory` nothing is created.
    pub fn into_logs(self, alloc: Global) -> Result<Seq<MirrorLog>, NoMemory>
        ensures { IfOk result (λ kept. kept ≡ logs_from 0 self) }
    {
        let Hall { mirrors } = self;
        into_logs(alloc, mirrors)
    }
}
