//! Script lines at the mirror of which a snapshot is taken.

ghost use Rattle.std.specs.Prelude.{◌≡◌, ◌<◌, filter, length};
ghost use Rattle.std.specs.List.{AllByRecursion};
ghost use Rattle.sync_model.specs.Change.{Fits};
ghost use Rattle.sync_model.specs.History.{HasRoomAlong};
ghost use Rattle.sync_model.specs.State.{last_clock};
ghost use Rattle.match_data.specs.Data.{IsMatch, IsScriptLine};
ghost use Rattle.match_hall.specs.Script.{names, events_of, after_line, after_lines};
ghost use Rattle.match_join.specs.Join.{finished_mirror};
ghost use Rattle.match_join.specs.Lines.{IsAlong};

use arrayvec::ArrayVec;
use game_trait::{Game, MirrorId, Reply, Tick};
use match_data::{Match, ScriptLine};
use match_hall::{events_of, mirror_of};
use mirror_core::{DeferredMirror, Mirrored};

// Makes a script line at a mirror; nothing is printed of it.
fn make_line<G: Game>(mirror: &mut DeferredMirror<G>, m: &Match, line: &ScriptLine)
    requires line { IsScriptLine m.now line.now }
    requires fits { AllByRecursion (Fits mirror.old)
        (events_of m.now.commands (length mirror.old.runs) line.now) }
    requires room { HasRoomAlong mirror.old
        (events_of m.now.commands (length mirror.old.runs) line.now) }
    ensures { mirror.new ≡ after_line m.now.commands line.now mirror.old }
{
    mirror.always();
    let events = events_of(m, mirror.copies(), line);
    let _replies: ArrayVec<Reply, 9> = mirror.make_each(events.as_slice());
}

/// Makes those of the script lines that name the mirror of this number at that mirror, which has
/// made all its lines in front of them. Nothing is printed.
pub fn make_lines<G: Game>(
    mirror: &mut DeferredMirror<G>,
    m: &Match,
    number: MirrorId,
    lines: &[ScriptLine],
)
    requires sound { IsMatch m.now }
    requires along { IsAlong m.now number lines.now mirror.old }
    ensures { mirror.new ≡ after_lines m.now.commands (filter (names number) lines.now) mirror.old }
{
    for line in lines {
        if mirror_of(line) == number {
            make_line(mirror, m, line);
        }
    }
}

/// Makes those of the script lines that name the mirror of this number at that mirror, which has
/// made all its lines in front of them, and drains it. Nothing is printed.
pub fn finish_mirror<G: Game>(
    mirror: &mut DeferredMirror<G>,
    m: &Match,
    number: MirrorId,
    later: &[ScriptLine],
)
    requires sound { IsMatch m.now }
    requires number { number < m.now.mirrors }
    requires along { IsAlong m.now number later.now mirror.old }
    ensures state { mirror.new ≡ finished_mirror m.now.commands number later.now mirror.old }
    ensures copies { length mirror.new.runs ≡ length m.now.delays }
{
    make_lines(mirror, m, number, later);
    mirror.drain();
}

/// The last copy's clock, in ticks.
pub fn last_clock<G: Game>(mirror: &DeferredMirror<G>) -> Tick
    ensures { result ≡ last_clock mirror.now.runs }
{
    mirror.always();
    let last = mirror.copies() - 1;
    mirror.copy_clock(last)
}
