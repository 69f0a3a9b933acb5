//! The commands of a match, each with its lags.

ghost use Rattle.std.specs.Prelude.{◌≡◌, ◌+◌, ◌*◌, ◌<◌, length, map, IfOk, OnOk};
ghost use Rattle.match_maker.specs.Below.{each_below};
ghost use Rattle.match_maker.specs.Generator.{act_of, command_at, lag};

use crate::draws::Draws;
use crate::lags::{Lags, Row, draw_row};
use game_trait::{Act, Command, CommandList, MirrorId};
use std::alloc::Global;
use tss_base::NoMemory;

/// How many commands a match that is made has.
pub const COMMANDS: u32 = 4096;

#[tactic(auto, unfolding(crate::specs::Generator::act_of))]
fn act_of(drawn: u32) -> Act
    ensures { result ≡ act_of drawn }
{
    match drawn {
        0..=3 => Act::Go,
        4 => Act::Left,
        5 => Act::Right,
        _ => Act::Shoot,
    }
}

// Draws the command in this place: its player, and then its act.
fn draw_command(draws: &mut Draws, place: u32) -> Command
    requires place { place < 4096 }
    requires count { draws.old.count ≡ 9 * place }
    ensures command { result ≡ command_at draws.old.seed place }
    ensures seed { draws.new.seed ≡ draws.old.seed }
    ensures count { draws.new.count ≡ 9 * place + 2 }
{
    let player = draws.draw(16) as u8;
    let act = act_of(draws.draw(8));
    Command {
        time: place / 8,
        from: (place % 8) as MirrorId,
        number: place / 8,
        player,
        act,
    }
}

// Draws the next command and its lags, and puts both last.
fn draw_next(
    draws: &mut Draws,
    place: u32,
    commands: &mut CommandList,
    rows: &mut Vec<Row>,
) -> Result<(), NoMemory>
    requires place { place < 4096 }
    requires count { draws.old.count ≡ 9 * place }
    requires commands { commands.old.items ≡ each_below (command_at draws.old.seed) place }
    requires rows { map (λ row. row.items) rows.old.items
        ≡ each_below (λ j. each_below (lag draws.old.seed j) 8) place }
    ensures commands { OnOk result
        (commands.new.items ≡ each_below (command_at draws.old.seed) (place + 1)) }
    ensures rows { OnOk result (map (λ row. row.items) rows.new.items
        ≡ each_below (λ j. each_below (lag draws.old.seed j) 8) (place + 1)) }
    ensures seed { draws.new.seed ≡ draws.old.seed }
    ensures count { OnOk result (draws.new.count ≡ 9 * (place + 1)) }
{
    let command = draw_command(draws, place);
    commands.insert(&command)?;
    rows.push(draw_row(draws, place))?;
    Ok(())
}

/// The commands of the match that this number makes, and their lags.
#[tactic(auto, using(crate::proofs::Lists::joined_more, crate::proofs::Lists::joined_none))]
pub fn commands_of(alloc: Global, seed: u32) -> Result<(CommandList, Lags), NoMemory>
    ensures commands { IfOk result (λ r. r.0.items ≡ each_below (command_at seed) 4096) }
    ensures lags { IfOk result (λ r. r.1 ≡ seed) }
{
    let mut draws = Draws::new(seed);
    let mut commands = CommandList::new(alloc);
    let mut rows = Vec::new(alloc);
    for place in 0..COMMANDS {
        draw_next(&mut draws, place, &mut commands, &mut rows)?;
    }
    Ok((commands, Lags::of(seed, rows)))
}
