//! A match that is played to watchers, mirror after mirror.

ghost use Rattle.std.specs.Prelude.{◌≡◌, length, filter, map, OnOk};
ghost use Rattle.std.specs.List.{AllByRecursion};
ghost use Rattle.sync_model.specs.Change.{Fits, is_change};
ghost use Rattle.sync_model.specs.History.{HasRoomAlong};
ghost use Rattle.sync_model.specs.Turns.{turn, drain, drain_within};
ghost use Rattle.match_data.specs.Data.{IsScriptLine};
ghost use Rattle.match_hall.specs.Script.{names, events_of, after_line, after_lines, opening_mirror};
ghost use Rattle.watch_board.specs.Told.{AreTold};
ghost use Rattle.match_hall.specs.Notes.{notes_with, IsToldOn};

use crate::events::events_of;
use crate::script::mirror_of;
use arrayvec::ArrayVec;
use game_trait::{Arrived, Event, Game, MirrorId, Note, Reply, Stepped, Ticked};
use match_data::{Match, ScriptLine};
use mirror_core::{DeferredMirror, Mirrored, turn_events};
use tss_base::NoMemory;
use watch_board::{Board, Watcher};

// Whether an answer tells of a change.
fn is_change(reply: Reply) -> bool
    ensures { result ≡ is_change reply }
{
    match reply {
        Reply::Tick(Ticked::Over) | Reply::Arrive(Arrived::Repeat) | Reply::Step(Stepped::Idle) =>
            false,
        _ => true,
    }
}

// Whether a script line names this mirror.
fn names(number: MirrorId, line: &ScriptLine) -> bool
    ensures { result ≡ names number line.now }
{
    mirror_of(line) == number
}

// Tells the watchers of those of the events whose answers tell of a change, in order.
fn tell_changes(
    number: MirrorId,
    events: &[Event],
    replies: &ArrayVec<Reply, 9>,
    board: &mut Board,
    out: &mut Vec<u8>,
) -> Result<(), NoMemory>
    requires { length replies.now.items ≡ length events.now }
    ensures { OnOk result
        (AreTold (notes_with number events.now replies.now.items)
        (map (λ w. behaviour (w.vtable, w.value)) board.old.watchers.items)
        (map (λ w. behaviour
        (w.vtable, w.value)) board.new.watchers.items) out.old.items out.new.items) }
{
    let replies = replies.as_slice();
    for place in 0..replies.len() {
        let reply = replies[place];
        if !is_change(reply) {
            continue;
        }
        let note = Note {
            mirror: number,
            event: events[place],
            reply,
        };
        board.take(&note, out)?;
    }
    Ok(())
}

// Makes a script line that names the mirror, and tells the watchers of those of its events that
// changed it.
fn tell_line<G: Game>(
    mirror: &mut DeferredMirror<G>,
    number: MirrorId,
    m: &Match,
    line: &ScriptLine,
    board: &mut Board,
    out: &mut Vec<u8>,
) -> Result<(), NoMemory>
    requires line { IsScriptLine m.now line.now }
    requires fits { AllByRecursion (Fits mirror.old)
        (events_of m.now.commands (length mirror.old.runs) line.now) }
    requires room { HasRoomAlong mirror.old
        (events_of m.now.commands (length mirror.old.runs) line.now) }
    ensures state { OnOk result (mirror.new ≡ after_line m.now.commands line.now mirror.old) }
    ensures told { OnOk result
        (IsToldOn number mirror.old mirror.new
        (map (λ w. behaviour (w.vtable, w.value)) board.old.watchers.items)
        (map (λ w. behaviour
        (w.vtable, w.value)) board.new.watchers.items) out.old.items out.new.items) }
{
    mirror.always();
    let made = events_of(m, mirror.copies(), line);
    let events = made.as_slice();
    let replies = mirror.make_each(events);
    tell_changes(number, events, &replies, board, out)
}

// Makes the lines of the match's script that name the mirror, which stands as the match begins.
fn tell_script<G: Game>(
    mirror: &mut DeferredMirror<G>,
    number: MirrorId,
    m: &Match,
    board: &mut Board,
    out: &mut Vec<u8>,
) -> Result<(), NoMemory>
    requires opened { (opening : G) × (mirror.old ≡ opening_mirror opening m.now number) }
    ensures state { OnOk result (mirror.new
        ≡ after_lines m.now.commands (filter (names number) m.now.script) mirror.old) }
    ensures told { OnOk result
        (IsToldOn number mirror.old mirror.new
        (map (λ w. behaviour (w.vtable, w.value)) board.old.watchers.items)
        (map (λ w. behaviour
        (w.vtable, w.value)) board.new.watchers.items) out.old.items out.new.items) }
{
    let script = m.script.as_slice();
    for line in script {
        if !names(number, line) {
            continue;
        }
        tell_line(mirror, number, m, line, board, out)?;
    }
    Ok(())
}

// Makes a turn of the mirror.
fn tell_turn<G: Game>(
    mirror: &mut DeferredMirror<G>,
    number: MirrorId,
    board: &mut Board,
    out: &mut Vec<u8>,
) -> Result<(), NoMemory>
    ensures state { OnOk result (mirror.new ≡ turn mirror.old) }
    ensures told { OnOk result
        (IsToldOn number mirror.old mirror.new
        (map (λ w. behaviour (w.vtable, w.value)) board.old.watchers.items)
        (map (λ w. behaviour
        (w.vtable, w.value)) board.new.watchers.items) out.old.items out.new.items) }
{
    mirror.always();
    let turn = turn_events(mirror.copies());
    let events = turn.as_slice();
    let replies = mirror.turn();
    tell_changes(number, events, &replies, board, out)
}

// Makes turns until the mirror is drained, at most `turns` of them.
fn tell_turns<G: Game>(
    mirror: &mut DeferredMirror<G>,
    number: MirrorId,
    turns: u32,
    board: &mut Board,
    out: &mut Vec<u8>,
) -> Result<(), NoMemory>
    ensures state { OnOk result (mirror.new ≡ drain_within turns mirror.old) }
    ensures told { OnOk result
        (IsToldOn number mirror.old mirror.new
        (map (λ w. behaviour (w.vtable, w.value)) board.old.watchers.items)
        (map (λ w. behaviour
        (w.vtable, w.value)) board.new.watchers.items) out.old.items out.new.items) }
{
    for _ in 0..turns {
        if mirror.drained() {
            return Ok(());
        }
        tell_turn(mirror, number, board, out)?;
    }
    Ok(())
}

/// Plays the mirror of this number along those lines of the match's script that name it, drains it,
/// and tells the watchers of each event that changed it. The mirror stands as the match begins.
/// On `NoMemory` it stopped at one of the events, and the mirror may have made some more of that
/// line or turn than the watchers were told of.
pub fn tell_mirror<G: Game>(
    mirror: &mut DeferredMirror<G>,
    number: MirrorId,
    m: &Match,
    board: &mut Board,
    out: &mut Vec<u8>,
) -> Result<(), NoMemory>
    requires opened { (opening : G) × (mirror.old ≡ opening_mirror opening m.now number) }
    ensures state { OnOk result (mirror.new
        ≡ drain (after_lines m.now.commands (filter (names number) m.now.script) mirror.old)) }
    ensures told { OnOk result
        (IsToldOn number mirror.old mirror.new
        (map (λ w. behaviour (w.vtable, w.value)) board.old.watchers.items)
        (map (λ w. behaviour
        (w.vtable, w.value)) board.new.watchers.items) out.old.items out.new.items) }
{
    tell_script(mirror, number, m, board, out)?;
    let turns = mirror.turns_to_drain();
    tell_turns(mirror, number, turns, board, out)
}
