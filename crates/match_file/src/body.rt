//! The lines behind the pace.

ghost use Rattle.std.specs.Prelude.{◌≡◌, ◌≤◌, ◌<◌, ◌+◌, ◌++◌, ◌&&◌, [], ◌∷◌, length, IfOk, IfErr, IfSome, IfNone, Ok};
ghost use Rattle.game_trait.specs.declared.limits.TheConstants.{MOST_COPIES};
ghost use Rattle.tss_io.specs.Lines.{lines_of, words_of};
ghost use Rattle.tss_io.specs.Reading.{GivesLine, Placed};
ghost use Rattle.tss_io.specs.declared.fault.LineFault.TheVariants as line_faults;
ghost use Rattle.tss_io.specs.Kinds.{checked, step};
ghost use Rattle.tss_io.specs.Machines.{take_words};
ghost use Rattle.tss_io.specs.Runs.{line_step, run_to, stopped};
ghost use Rattle.match_file.specs.Kinds.{is_open, is_script, is_ended, is_none, home_tests, plan_kind, wall_kind, pickup_kind, player_kind, command_kind};
ghost use Rattle.match_setup.specs.declared.pickup.PickupSpot.{PickupSpot};
ghost use Rattle.match_file.specs.Sections.{IsOpening};
ghost use Rattle.match_file.specs.declared.player.Player.{Player};
ghost use Rattle.match_file.specs.Reading.{body_entries, may_open, may_end, take, is_last, no_body};

use crate::cell::Cell;
use crate::commands::Commands;
use crate::opening::{Opening, rises};
use crate::place::{PickupWords, has_pickup, has_wall, is_behind_all};
use crate::player::{Player, PlayerWords, has_home, has_name};
use crate::script::Script;
use crate::seen::{arrival_of, command_of, turn_of};
use crate::versions::{most_commands, most_players};
use command_lines::CommandWords;
use game_trait::limits::{GREATEST_NUMBER, LONGEST_DELAY, MOST_PICKUPS, MOST_PLANS};
use game_trait::{MirrorId, Tick};
use match_data::{ScriptLine, is_name};
use match_setup::{Kind, PickupSpot, Spot};
use std::alloc::Global;
use tss_base::Seq;
use tss_io::glance::{is_text, keyword_of, line_of};
use tss_io::words::{front, last, number, numbers, so_many_words};
use tss_io::{Cause, LineFault, check};

/// How far a text was read.
#[derive(Clone, Copy, Debug, PartialEq, Eq)]
pub enum Stage {
    /// Up to a line in front of the script.
    Open,
    /// Up to a line of the script.
    InScript,
    /// Up to its end.
    Ended,
}

/// What the lines behind the pace say, as far as they were read.
#[derive(Drop)]
pub struct Body {
    /// How far that is.
    pub stage: Stage,
    /// The further plans of delays, at most 7.
    pub plans: Seq<Seq<Tick>>,
    /// The walls, row by row.
    pub walls: Seq<Cell>,
    /// The pickups, at most 32.
    pub pickups: Seq<PickupSpot>,
    /// The players, in version 1 at most 16, in version 2 at most 32.
    pub players: Seq<Player>,
    /// The commands, in version 1 at most 16,384, in version 2 at most 32,768.
    pub commands: Commands,
    /// The script, at most 262,144 lines.
    pub script: Script,
}

fn is_open(stage: Stage) -> bool
    ensures { result ≡ is_open stage }
{
    matches!(stage, Stage::Open)
}

/// Whether the lines stand behind the `script` line, and before the last one.
pub fn is_script(stage: Stage) -> bool
    ensures { result ≡ is_script stage }
{
    matches!(stage, Stage::InScript)
}

/// Whether the last line of a match was read.
pub fn is_ended(stage: Stage) -> bool
    ensures { result ≡ is_ended stage }
{
    matches!(stage, Stage::Ended)
}

impl Body {
    pub(crate) fn new(alloc: Global) -> Body
        ensures { result ≡ no_body }
    {
        Body {
            stage: Stage::Open,
            plans: Seq::new(alloc),
            walls: Seq::new(alloc),
            pickups: Seq::new(alloc),
            players: Seq::new(alloc),
            commands: Commands::new(alloc),
            script: Script::new(alloc),
        }
    }

    // Whether no player and no command was read.
    fn has_no_player(&self) -> bool
        ensures { result ≡ (is_none self.now.players && is_none self.now.commands) }
    {
        self.players.is_empty() && self.commands.len() == 0
    }

    #[inline(never)]
    fn take_plan(&mut self, alloc: Global, opening: &Opening, words: &[u8]) -> Result<(), LineFault>
        ensures { GivesLine (λ _. self.new) result
            (step (plan_kind opening.now) self.old (words_of words.now)) }
    {
        let is_due = is_open(self.stage)
            && self.walls.is_empty()
            && self.pickups.is_empty()
            && self.has_no_player();
        check(is_due, Cause::Shape)?;
        so_many_words(opening.delays.len(), words)?;
        check(self.plans.len() < MOST_PLANS - 1, Cause::Many)?;
        let delays = numbers(alloc, 0, LONGEST_DELAY, words)?;
        check(rises(delays.as_slice()), Cause::Order)?;
        self.plans.push(delays)?;
        Ok(())
    }

    #[inline(never)]
    fn take_wall(&mut self, opening: &Opening, words: &[u8]) -> Result<(), LineFault>
        ensures { GivesLine (λ _. self.new) result
            (step (wall_kind opening.now) self.old (words_of words.now)) }
    {
        let is_due = is_open(self.stage) && self.pickups.is_empty() && self.has_no_player();
        check(is_due, Cause::Shape)?;
        let (x, words) = front(words)?;
        let y = last(words)?;
        let x = number(0, u32::MAX, x)?;
        let y = number(0, u32::MAX, y)?;
        check(opening.in_grid(x, y), Cause::Place)?;
        let cell = Cell {
            x: x as u8,
            y: y as u8,
        };
        check(is_behind_all(cell, self.walls.as_slice()), Cause::Order)?;
        self.walls.push(cell)?;
        Ok(())
    }

    #[inline(never)]
    fn take_pickup(&mut self, opening: &Opening, words: &[u8]) -> Result<(), LineFault>
        ensures { GivesLine (λ _. self.new) result
            (step (pickup_kind opening.now) self.old (words_of words.now)) }
    {
        check(is_open(self.stage) && self.has_no_player(), Cause::Shape)?;
        let words = PickupWords::of(words)?;
        check(self.pickups.len() < MOST_PICKUPS, Cause::Many)?;
        let (x, y) = words.cell()?;
        self.add_pickup(opening, x, y, words.kind)
    }

    // Adds a pickup, where its cell is free.
    fn add_pickup(&mut self, opening: &Opening, x: u32, y: u32, kind: Kind) -> Result<(), LineFault>
        ensures { let pickup : PickupSpot = record { x = x; y = y; kind = kind } in
            GivesLine (λ _. self.new) result
            (checked ((pickup_kind opening.now).tests self.old pickup)
            ((pickup_kind opening.now).put self.old pickup)) }
    {
        check(opening.in_grid(x, y), Cause::Place)?;
        let pickup = PickupSpot {
            x: x as u8,
            y: y as u8,
            kind,
        };
        let walls = self.walls.as_slice();
        let pickups = self.pickups.as_slice();
        check(!has_wall(pickup.x, pickup.y, walls), Cause::Place)?;
        check(!has_pickup(pickup.x, pickup.y, pickups), Cause::Place)?;
        self.pickups.push(pickup)?;
        Ok(())
    }

    #[inline(never)]
    fn take_player(
        &mut self,
        alloc: Global,
        opening: &Opening,
        words: &[u8],
    ) -> Result<(), LineFault>
        ensures { GivesLine (λ _. self.new) result
            (step (player_kind opening.now) self.old (words_of words.now)) }
    {
        let is_due = is_open(self.stage) && self.commands.len() == 0;
        check(is_due, Cause::Shape)?;
        let words = PlayerWords::of(words)?;
        let most = most_players(opening.version);
        check(self.players.len() < most, Cause::Many)?;
        let (x, y) = words.cell()?;
        check(is_name(words.name), Cause::Name)?;
        check(!has_name(words.name, self.players.as_slice()), Cause::Name)?;
        check(opening.in_grid(x, y), Cause::Place)?;
        let home = Spot {
            x: x as u8,
            y: y as u8,
            face: words.face,
        };
        self.add_player(alloc, words.name, home)
    }

    // Adds a player, where the cell of the home, which is in the grid, is free.
    fn add_player(&mut self, alloc: Global, name: &[u8], home: Spot) -> Result<(), LineFault>
        ensures { let player : Player = record { name = name.now; home = home } in
            GivesLine (λ _. self.new) result
            (checked (home_tests self.old home)
            (record self.old { players = self.old.players ++ player ∷ [] })) }
    {
        let walls = self.walls.as_slice();
        let pickups = self.pickups.as_slice();
        let players = self.players.as_slice();
        check(!has_wall(home.x, home.y, walls), Cause::Place)?;
        check(!has_pickup(home.x, home.y, pickups), Cause::Place)?;
        check(!has_home(home.x, home.y, players), Cause::Place)?;
        let name = Seq::of(name.to_vec(alloc)?);
        self.players.push(Player { name, home })?;
        Ok(())
    }

    #[inline(never)]
    fn take_command(&mut self, opening: &Opening, words: &[u8]) -> Result<(), LineFault>
        ensures { GivesLine (λ _. self.new) result
            (step (command_kind opening.now) self.old (words_of words.now)) }
    {
        check(self.may_open(), Cause::Shape)?;
        let words = CommandWords::of(opening.version, words)?;
        let most = most_commands(opening.version);
        check(self.commands.len() < most, Cause::Many)?;
        let command = words.read(opening.ranges())?;
        let player = usize::from(command.player);
        check(player < self.players.len(), Cause::Name)?;
        let is_new = self.commands.insert(&command)?;
        check(is_new, Cause::Name)?;
        Ok(())
    }

    // Whether the script may begin.
    fn may_open(&self) -> bool
        ensures { result ≡ may_open self.now }
    {
        is_open(self.stage) && !self.players.is_empty()
    }

    // Whether the text may end here.
    fn may_end(&self) -> bool
        ensures { result ≡ may_end self.now }
    {
        self.may_open() || (is_script(self.stage) && !self.script.is_none())
    }

    // A line of the kind that its first word names, of whichever it is.
    #[inline(never)]
    #[tactic(auto, unfolding(tss_io::specs::Machines::take_words, crate::specs::Reading::body_entries))]
    fn take_kind(
        &mut self,
        alloc: Global,
        opening: &Opening,
        word: &[u8],
        words: &[u8],
    ) -> Result<(), LineFault>
        requires { length opening.now.delays ≤ MOST_COPIES }
        ensures { GivesLine (λ _. self.new) result
            (take_words (body_entries opening.now) self.old word.now (words_of words.now)) }
    {
        if is_text(word, b"arrive") {
            self.take_arrive(opening, words)
        } else if is_text(word, b"turn") {
            self.take_turn(opening, words)
        } else if is_text(word, b"tick") {
            self.take_tick(opening, words)
        } else if is_text(word, b"step") {
            self.take_step(opening, words)
        } else if is_text(word, b"world") {
            self.take_world(opening, words)
        } else if is_text(word, b"run") {
            self.take_run(opening, words)
        } else if is_text(word, b"restagger") {
            self.take_restagger(opening, words)
        } else if is_text(word, b"cmd") {
            self.take_command(opening, words)
        } else if is_text(word, b"wall") {
            self.take_wall(opening, words)
        } else if is_text(word, b"pickup") {
            self.take_pickup(opening, words)
        } else if is_text(word, b"player") {
            self.take_player(alloc, opening, words)
        } else if is_text(word, b"plan") {
            self.take_plan(alloc, opening, words)
        } else {
            Err(LineFault::Refused(Cause::Shape))
        }
    }

    // A line of the kind that its first word names. The most frequent kinds come first and apart;
    // otherwise every line would zero stack space for all kinds' results.
    #[tactic(auto, unfolding(tss_io::specs::Machines::take_words, crate::specs::Reading::body_entries))]
    fn take_words(
        &mut self,
        alloc: Global,
        opening: &Opening,
        word: &[u8],
        words: &[u8],
    ) -> Result<(), LineFault>
        requires { length opening.now.delays ≤ MOST_COPIES }
        ensures { GivesLine (λ _. self.new) result
            (take_words (body_entries opening.now) self.old word.now (words_of words.now)) }
    {
        if is_text(word, b"arrive") {
            return self.take_arrive(opening, words);
        }
        if is_text(word, b"turn") {
            return self.take_turn(opening, words);
        }
        self.take_kind(alloc, opening, word, words)
    }

    // A line of the body.
    #[tactic(auto, unfolding(tss_io::specs::Machines::take_by, tss_io::specs::Machines::take_whole))]
    pub(crate) fn take(
        &mut self,
        alloc: Global,
        opening: &Opening,
        line: &[u8],
    ) -> Result<(), LineFault>
        requires { length opening.now.delays ≤ MOST_COPIES }
        ensures { GivesLine (λ _. self.new) result (take opening.now self.old line.now) }
    {
        if is_text(line, b"script") {
            check(self.may_open(), Cause::Shape)?;
            self.stage = Stage::InScript;
            return Ok(());
        }
        if is_text(line, b"end") {
            check(self.may_end(), Cause::Shape)?;
            self.stage = Stage::Ended;
            return Ok(());
        }
        let (word, words) = keyword_of(line)?;
        self.take_words(alloc, opening, word, words)
    }

    // A command's line at the front of the text, if all is right with it, and the text behind it.
    #[inline(never)]
    #[tactic(auto, using(crate::proofs::SeenLaws::command_taken))]
    fn take_command_seen<'a>(
        &mut self,
        opening: &Opening,
        text: &'a [u8],
    ) -> Result<Option<&'a [u8]>, LineFault>
        requires { IsOpening opening.now }
        ensures some { IfOk result (λ x. IfSome x (λ rest. (line_step (take opening.now) self.old
            (lines_of text.now) ≡ Ok (self.new, lines_of rest.now))
            × (length rest.now < length text.now))) }
        ensures none { IfOk result (λ x. IfNone x (self.new ≡ self.old)) }
        ensures err { IfErr result (λ fault. fault ≡ line_faults.NoMemory) }
    {
        let Some((command, rest)) = command_of(opening.ranges(), text) else {
            return Ok(None);
        };
        if !self.may_open()
            || self.commands.len() >= most_commands(opening.version)
            || usize::from(command.player) >= self.players.len()
        {
            return Ok(None);
        }
        if self.commands.insert(&command)? {
            return Ok(Some(rest));
        }
        Ok(None)
    }

    // An arrival's line at the front of the text, if all is right with it, and the text behind it.
    #[inline(never)]
    #[tactic(auto, using(crate::proofs::SeenLaws::arrival_taken))]
    fn take_arrive_seen<'a>(
        &mut self,
        opening: &Opening,
        text: &'a [u8],
    ) -> Result<Option<&'a [u8]>, LineFault>
        requires { IsOpening opening.now }
        ensures some { IfOk result (λ x. IfSome x (λ rest. (line_step (take opening.now) self.old
            (lines_of text.now) ≡ Ok (self.new, lines_of rest.now))
            × (length rest.now < length text.now))) }
        ensures none { IfOk result (λ x. IfNone x (self.new ≡ self.old)) }
        ensures err { IfErr result (λ fault. fault ≡ line_faults.NoMemory) }
    {
        let Some((mirror, from, number, rest)) = arrival_of(opening.last_mirror(), text) else {
            return Ok(None);
        };
        if is_script(self.stage) && self.script.has_room() && self.commands.has(from, number) {
            self.script.push(ScriptLine::Arrive {
                mirror,
                from,
                number,
            })?;
            return Ok(Some(rest));
        }
        Ok(None)
    }

    // A turn's line at the front of the text, if all is right with it, and the text behind it.
    #[inline(never)]
    #[tactic(auto, using(crate::proofs::SeenLaws::turn_taken))]
    fn take_turn_seen<'a>(
        &mut self,
        opening: &Opening,
        text: &'a [u8],
    ) -> Result<Option<&'a [u8]>, LineFault>
        requires { IsOpening opening.now }
        ensures some { IfOk result (λ x. IfSome x (λ rest. (line_step (take opening.now) self.old
            (lines_of text.now) ≡ Ok (self.new, lines_of rest.now))
            × (length rest.now < length text.now))) }
        ensures none { IfOk result (λ x. IfNone x (self.new ≡ self.old)) }
        ensures err { IfErr result (λ fault. fault ≡ line_faults.NoMemory) }
    {
        let Some((mirror, rest)) = turn_of(opening.last_mirror(), text) else {
            return Ok(None);
        };
        if is_script(self.stage) && self.script.has_room() {
            self.script.push(ScriptLine::Turn { mirror })?;
            return Ok(Some(rest));
        }
        Ok(None)
    }

    fn take_frequent<'a>(
        &mut self,
        opening: &Opening,
        text: &'a [u8],
    ) -> Result<Option<&'a [u8]>, LineFault>
        requires { IsOpening opening.now }
        ensures some { IfOk result (λ x. IfSome x (λ rest. (line_step (take opening.now) self.old
            (lines_of text.now) ≡ Ok (self.new, lines_of rest.now))
            × (length rest.now < length text.now))) }
        ensures none { IfOk result (λ x. IfNone x (self.new ≡ self.old)) }
        ensures err { IfErr result (λ fault. fault ≡ line_faults.NoMemory) }
    {
        if text.is_empty() {
            return Ok(None);
        }
        if text[0] == b'a' {
            return self.take_arrive_seen(opening, text);
        }
        if text[0] == b't' {
            return self.take_turn_seen(opening, text);
        }
        if text[0] == b'c' {
            return self.take_command_seen(opening, text);
        }
        Ok(None)
    }

    // The next line of the body, and the text behind it.
    #[tactic(auto, unfolding(tss_io::specs::Runs::line_step))]
    fn take_line<'a>(
        &mut self,
        alloc: Global,
        opening: &Opening,
        text: &'a [u8],
    ) -> Result<&'a [u8], LineFault>
        requires copies { length opening.now.delays ≤ MOST_COPIES }
        requires opening { IsOpening opening.now }
        ensures read { GivesLine (λ rest. (self.new, lines_of rest.now)) result
            (line_step (take opening.now) self.old (lines_of text.now)) }
        ensures shorter { IfOk result (λ rest. length rest.now < length text.now) }
    {
        if let Some(rest) = self.take_frequent(opening, text)? {
            return Ok(rest);
        }
        let (line, rest) = line_of(text)?;
        self.take(alloc, opening, line)?;
        Ok(rest)
    }
}

/// The lines of the body, from this one on, and the text behind them. The number of the line that
/// is read is kept in `line`, which has the first one's.
pub fn read_body<'a>(
    alloc: Global,
    opening: &Opening,
    line: &mut u32,
    text: &'a [u8],
) -> Result<(Body, &'a [u8]), LineFault>
    requires copies { length opening.now.delays ≤ MOST_COPIES }
    requires opening { IsOpening opening.now }
    requires counted { line.old ≤ 4000000010 }
    ensures read { Placed (λ x. stopped x.0 line.new (lines_of x.1.now)) line.new result
        (run_to (take opening.now) is_last line.old no_body (lines_of text.now)) }
    ensures shorter { IfOk result (λ x. length x.1.now ≤ length text.now) }
{
    let mut body = Body::new(alloc);
    let mut rest = text;
    while !is_ended(body.stage) {
        rest = body.take_line(alloc, opening, rest)?;
        *line += 1;
    }
    Ok((body, rest))
}
