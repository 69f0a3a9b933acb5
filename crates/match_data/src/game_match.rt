//! A match that a match text can give.

ghost use Rattle.std.specs.Prelude.{◌≡◌};
ghost use Rattle.game_trait.specs.CommandList.{command_named};
ghost use Rattle.match_data.specs.Data.{lifted};

use crate::script_line::ScriptLine;
use game_trait::{Command, CommandList, MirrorId, Number, Tick};
use match_setup::{Roster, Setup};
use std::marker::Model;
use tss_base::Seq;

/// A match that a match text can give: its numbers are in their ranges, and whatever it names is
/// there. Contracts see it as a record of plain lists.
#[derive(Drop)]
pub struct Match {
    /// The version of its text, 1 or 2.
    pub version: u8,
    /// How many ticks the match has, from 1 to 8,192.
    pub length: Tick,
    /// How many mirrors play it, from 1 to 8.
    pub mirrors: u8,
    /// How many ticks each mirror's copies lag, the first copy first: 1 to 8 rising numbers up to
    /// 1,024.
    pub delays: Seq<Tick>,
    /// The further plans of delays, at most 7, each with as many delays. Plan 0 is `delays`, and
    /// plan 1 is the first of these.
    pub plans: Seq<Seq<Tick>>,
    /// How many ticks a mirror may be ahead of another, at most the last delay.
    pub pace: Tick,
    /// How the world begins.
    pub setup: Setup,
    /// The players' names, in player order.
    pub roster: Roster,
    /// The commands, in version 1 at most 16,384, in version 2 at most 32,768, in the order of
    /// their lines.
    pub commands: CommandList,
    /// The script, at most 262,144 lines.
    pub script: Seq<ScriptLine>,
}

impl Model for Match {
    ghost use Rattle.match_setup.specs.Setup.{layout_of};
    ghost use Rattle.match_data.specs.Data.{MatchData, IsMatch};

    ghost Value = { MatchData };

    ghost view = { λ m.
        record {
          version = m.version;
          length = m.length;
          mirrors = m.mirrors;
          delays = m.delays;
          plans = m.plans;
          pace = m.pace;
          layout = layout_of m.setup;
          names = m.roster;
          commands = m.commands.items;
          script = m.script;
        } };

    ghost invariant = { λ m. IsMatch
        (record {
          version = m.version;
          length = m.length;
          mirrors = m.mirrors;
          delays = m.delays;
          plans = m.plans;
          pace = m.pace;
          layout = layout_of m.setup;
          names = m.roster;
          commands = m.commands.items;
          script = m.script;
        }) };
}

/// The match's command of this mirror and number, or `None` where it has none; no two have the
/// same. It takes no memory.
pub fn find_command(m: &Match, from: MirrorId, number: Number) -> Option<Command>
    ensures { result ≡ command_named m.now.commands from number }
{
    m.commands.get(from, number)
}

/// The same match with version 2. It takes no memory.
pub fn lift(m: Match) -> Match
    ensures { result ≡ lifted m }
{
    let mut lifted = m;
    lifted.version = 2;
    lifted
}
