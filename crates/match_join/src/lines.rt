//! Script lines at a joiner, and its turns.

ghost use Rattle.std.specs.Prelude.{◌≡◌, ◌++◌, ◌∷◌, [], filter, length, OnOk, OnErr};
ghost use Rattle.match_data.specs.Data.{IsMatch, IsScriptLine};
ghost use Rattle.match_hall.specs.Script.{names};
ghost use Rattle.match_join.specs.Join.{joiner_line, joiner_lines, joiner_line_text, joiner_text, finished_joiner};
ghost use Rattle.match_join.specs.Lines.{IsJoinerOf, HasRoomFor, IsReady};

use crate::text::joined_line;
use game_trait::{Game, MirrorId};
use late_joiner::Joiner;
use match_data::{Match, ScriptLine};
use match_hall::{command_of, mirror_of};
use tss_base::NoMemory;

// Makes a script line at a joiner, and appends what it prints. On `NoMemory` the line was made, and
// `out` is unchanged.
#[tactic(auto, unfolding(crate::specs::Join::joiner_line_text, match_hall::specs::Script::events_of, late_joiner::specs::Joiner::joiner_after))]
fn join_line<G: Game>(
    joiner: &mut Joiner<G>,
    m: &Match,
    line: &ScriptLine,
    out: &mut Vec<u8>,
) -> Result<(), NoMemory>
    requires sound { IsMatch m.now }
    requires line { IsScriptLine m.now line.now }
    requires joiner { IsJoinerOf m.now joiner.old }
    requires room { HasRoomFor line.now joiner.old }
    ensures state { joiner.new ≡ joiner_line m.now.commands line.now joiner.old }
    ensures ok { OnOk result (out.new.items
        ≡ out.old.items ++ joiner_line_text m.now.commands line.now joiner.old) }
    ensures err { OnErr result (out.new.items ≡ out.old.items) }
{
    match *line {
        ScriptLine::Tick { .. } => {
            joiner.tick();
            Ok(())
        }
        ScriptLine::Turn { .. } => {
            let _replies = joiner.turn();
            Ok(())
        }
        ScriptLine::Arrive { from, number, .. } => {
            let x = command_of(m, from, number);
            joined_line(out, from, number, joiner.arrive(&x))
        }
        ScriptLine::Step { copy, .. } => {
            joiner.step(copy);
            Ok(())
        }
        ScriptLine::Restagger { plan, .. } => {
            joiner.restagger(plan);
            Ok(())
        }
        ScriptLine::World { .. } | ScriptLine::Run { .. } => Ok(()),
    }
}

// Makes a script line at a joiner where it names the mirror of this number, and appends what it
// prints.
#[tactic(auto, unfolding(crate::specs::Join::joiner_lines, crate::specs::Join::joiner_text))]
fn join_named<G: Game>(
    joiner: &mut Joiner<G>,
    m: &Match,
    number: MirrorId,
    line: &ScriptLine,
    out: &mut Vec<u8>,
) -> Result<(), NoMemory>
    requires { IsReady m.now number (line.now ∷ []) joiner.old }
    ensures state { OnOk result (joiner.new
        ≡ joiner_lines m.now.commands (filter (names number) (line.now ∷ [])) joiner.old) }
    ensures text { OnOk result (out.new.items ≡ out.old.items
        ++ joiner_text m.now.commands (filter (names number) (line.now ∷ [])) joiner.old) }
{
    if mirror_of(line) != number {
        return Ok(());
    }
    join_line(joiner, m, line, out)
}

/// Makes those of the script lines that name the mirror of this number at a joiner, and appends
/// what they print. On `NoMemory` some of them were made.
pub fn join_lines<G: Game>(
    joiner: &mut Joiner<G>,
    m: &Match,
    number: MirrorId,
    lines: &[ScriptLine],
    out: &mut Vec<u8>,
) -> Result<(), NoMemory>
    requires { IsReady m.now number lines.now joiner.old }
    ensures state { OnOk result (joiner.new
        ≡ joiner_lines m.now.commands (filter (names number) lines.now) joiner.old) }
    ensures text { OnOk result (out.new.items ≡ out.old.items
        ++ joiner_text m.now.commands (filter (names number) lines.now) joiner.old) }
{
    for line in lines {
        join_named(joiner, m, number, line, out)?;
    }
    Ok(())
}

/// Makes those of the script lines that name the mirror of this number at a joiner, appends what
/// they print, and drains the joiner. On `NoMemory` some of the lines were made.
pub fn finish_joiner<G: Game>(
    joiner: &mut Joiner<G>,
    m: &Match,
    number: MirrorId,
    lines: &[ScriptLine],
    out: &mut Vec<u8>,
) -> Result<(), NoMemory>
    requires { IsReady m.now number lines.now joiner.old }
    ensures state { OnOk result
        (joiner.new ≡ finished_joiner m.now.commands number lines.now joiner.old) }
    ensures copies { OnOk result (length joiner.new.inner.runs ≡ length m.now.delays) }
    ensures text { OnOk result (out.new.items ≡ out.old.items
        ++ joiner_text m.now.commands (filter (names number) lines.now) joiner.old) }
{
    join_lines(joiner, m, number, lines, out)?;
    joiner.drain();
    Ok(())
}
