//! The lines of a script, as they are read.

ghost use Rattle.std.specs.Prelude.{◌≤◌, ◌-◌, length};
ghost use Rattle.game_trait.specs.declared.limits.TheConstants.{MOST_COPIES};
ghost use Rattle.tss_io.specs.Lines.{words_of};
ghost use Rattle.tss_io.specs.Reading.{Answers, GivesLine};
ghost use Rattle.tss_io.specs.Forms.{number_in};
ghost use Rattle.tss_io.specs.Kinds.{step};
ghost use Rattle.match_file.specs.Kinds.{tick_kind, turn_kind, arrive_kind, step_kind, world_kind, run_kind, restagger_kind};

use crate::body::{Body, is_script};
use crate::opening::Opening;
use game_trait::MirrorId;
use game_trait::limits::{GREATEST_NUMBER, MOST_PLANS};
use match_data::ScriptLine;
use tss_io::glance::{digit_of, front_of, last_of};
use tss_io::words::number;
use tss_io::{Cause, LineFault, check};

// The mirror that the word names.
#[inline(always)]
fn mirror_of(opening: &Opening, word: &[u8]) -> Result<MirrorId, Cause>
    ensures { Answers (λ x. x) result (number_in 0 (opening.now.mirrors - 1) word.now) }
{
    let most = opening.last_mirror();
    if let Some(mirror) = digit_of(most, word) {
        return Ok(mirror);
    }
    Ok(number(0, u32::from(most), word)? as u8)
}

// The copy that the word names.
#[inline(always)]
fn copy_of(opening: &Opening, word: &[u8]) -> Result<u8, Cause>
    requires { length opening.now.delays ≤ MOST_COPIES }
    ensures { Answers (λ x. x) result (number_in 0 (length opening.now.delays - 1) word.now) }
{
    let most = opening.last_copy();
    if let Some(copy) = digit_of(most, word) {
        return Ok(copy);
    }
    Ok(number(0, u32::from(most), word)? as u8)
}

impl Body {
    /// Takes in a `tick` line of a script: its mirror is there.
    /// Else the line's first failing check is answered, or `NoMemory`.
    #[inline(never)]
    pub fn take_tick(&mut self, opening: &Opening, words: &[u8]) -> Result<(), LineFault>
        ensures { GivesLine (λ _. self.new) result
            (step (tick_kind opening.now) self.old (words_of words.now)) }
    {
        check(is_script(self.stage), Cause::Shape)?;
        let mirror = last_of(words)?;
        check(self.script.has_room(), Cause::Many)?;
        let mirror = mirror_of(opening, mirror)?;
        self.script.push(ScriptLine::Tick { mirror })?;
        Ok(())
    }

    /// Takes in a `turn` line of a script: its mirror is there.
    /// Else the line's first failing check is answered, or `NoMemory`.
    #[inline(never)]
    pub fn take_turn(&mut self, opening: &Opening, words: &[u8]) -> Result<(), LineFault>
        ensures { GivesLine (λ _. self.new) result
            (step (turn_kind opening.now) self.old (words_of words.now)) }
    {
        check(is_script(self.stage), Cause::Shape)?;
        let mirror = last_of(words)?;
        check(self.script.has_room(), Cause::Many)?;
        let mirror = mirror_of(opening, mirror)?;
        self.script.push(ScriptLine::Turn { mirror })?;
        Ok(())
    }

    /// Takes in an `arrive` line of a script: its mirror is there, and it names a command of the
    /// match. Else the line's first failing check is answered, or `NoMemory`.
    #[inline(never)]
    pub fn take_arrive(&mut self, opening: &Opening, words: &[u8]) -> Result<(), LineFault>
        ensures { GivesLine (λ _. self.new) result
            (step (arrive_kind opening.now) self.old (words_of words.now)) }
    {
        check(is_script(self.stage), Cause::Shape)?;
        let (mirror, words) = front_of(words)?;
        let (from, words) = front_of(words)?;
        let name = last_of(words)?;
        check(self.script.has_room(), Cause::Many)?;
        let mirror = mirror_of(opening, mirror)?;
        let from = mirror_of(opening, from)?;
        let number = number(0, GREATEST_NUMBER, name)?;
        check(self.commands.has(from, number), Cause::Name)?;
        self.script.push(ScriptLine::Arrive {
            mirror,
            from,
            number,
        })?;
        Ok(())
    }

    /// Takes in a `step` line of a script: its mirror and its copy are there.
    /// Else the line's first failing check is answered, or `NoMemory`.
    #[inline(never)]
    pub fn take_step(&mut self, opening: &Opening, words: &[u8]) -> Result<(), LineFault>
        requires { length opening.now.delays ≤ MOST_COPIES }
        ensures { GivesLine (λ _. self.new) result
            (step (step_kind opening.now) self.old (words_of words.now)) }
    {
        check(is_script(self.stage), Cause::Shape)?;
        let (mirror, words) = front_of(words)?;
        let copy = last_of(words)?;
        check(self.script.has_room(), Cause::Many)?;
        let mirror = mirror_of(opening, mirror)?;
        let copy = copy_of(opening, copy)?;
        self.script.push(ScriptLine::Step { mirror, copy })?;
        Ok(())
    }

    /// Takes in a `world` line of a script: its mirror and its copy are there, and there is room
    /// for a line that shows. Else the line's first failing check is answered, or `NoMemory`.
    #[inline(never)]
    pub fn take_world(&mut self, opening: &Opening, words: &[u8]) -> Result<(), LineFault>
        requires { length opening.now.delays ≤ MOST_COPIES }
        ensures { GivesLine (λ _. self.new) result
            (step (world_kind opening.now) self.old (words_of words.now)) }
    {
        check(is_script(self.stage), Cause::Shape)?;
        let (mirror, words) = front_of(words)?;
        let copy = last_of(words)?;
        check(self.script.has_showing_room(), Cause::Many)?;
        let mirror = mirror_of(opening, mirror)?;
        let copy = copy_of(opening, copy)?;
        self.script.push(ScriptLine::World { mirror, copy })?;
        Ok(())
    }

    /// Takes in a `run` line of a script: its mirror and its copy are there, and there is room for
    /// a line that shows. Else the line's first failing check is answered, or `NoMemory`.
    #[inline(never)]
    pub fn take_run(&mut self, opening: &Opening, words: &[u8]) -> Result<(), LineFault>
        requires { length opening.now.delays ≤ MOST_COPIES }
        ensures { GivesLine (λ _. self.new) result
            (step (run_kind opening.now) self.old (words_of words.now)) }
    {
        check(is_script(self.stage), Cause::Shape)?;
        let (mirror, words) = front_of(words)?;
        let copy = last_of(words)?;
        check(self.script.has_showing_room(), Cause::Many)?;
        let mirror = mirror_of(opening, mirror)?;
        let copy = copy_of(opening, copy)?;
        self.script.push(ScriptLine::Run { mirror, copy })?;
        Ok(())
    }

    /// Takes in a `restagger` line of a script: its mirror and its plan are there.
    /// Else the line's first failing check is answered, or `NoMemory`.
    #[inline(never)]
    pub fn take_restagger(&mut self, opening: &Opening, words: &[u8]) -> Result<(), LineFault>
        ensures { GivesLine (λ _. self.new) result
            (step (restagger_kind opening.now) self.old (words_of words.now)) }
    {
        check(is_script(self.stage), Cause::Shape)?;
        let (mirror, words) = front_of(words)?;
        let plan = last_of(words)?;
        check(self.script.has_room(), Cause::Many)?;
        let mirror = mirror_of(opening, mirror)?;
        let plan = number(0, MOST_PLANS as u32 - 1, plan)? as u8;
        check(usize::from(plan) <= self.plans.len(), Cause::Number)?;
        self.script.push(ScriptLine::Restagger { mirror, plan })?;
        Ok(())
    }
}
