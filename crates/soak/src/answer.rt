//! The match made from a number, played, and its text.

ghost use Rattle.std.specs.Prelude.{◌≡◌, length, IfOk, OnOk};
ghost use Rattle.std.specs.List.{AllByRecursion};
ghost use Rattle.arena_rules.specs.World.{arena_rules};
ghost use Rattle.game_trait.specs.Ordered.{time_ordered};
ghost use Rattle.sync_model.specs.Turns.{IsDrained};
ghost use Rattle.match_hall.specs.Script.{played, logs_from};
ghost use Rattle.soak.specs.Answer.{soaked, IsSoakText, soak_text, TellsOf, TellsAgreement};

use crate::agree::are_all_at;
use crate::laws::the_text_says_same_yes;
use arena_rules::Arena;
use game_trait::{Game, MirrorId, execute_in_order};
use match_data::Match;
use match_hall::{Hall, Played};
use match_maker::{COMMANDS, make_match};
use report_text::{done_line, same_line, soak_line};
use std::alloc::Global;
use tss_base::{NoMemory, Seq};
use watch_board::Board;

// Plays and drains the match's mirrors, without watchers.
fn play(alloc: Global, opening: &Arena, m: &Match) -> Result<Hall<Arena>, NoMemory>
    ensures mirrors { IfOk result (λ hall. hall ≡ played opening.now m.now) }
    ensures count { IfOk result (λ hall. length hall ≡ m.now.mirrors) }
    ensures drained { IfOk result (λ hall. AllByRecursion (λ s. IsDrained s) hall) }
{
    let mut hall = Hall::new(alloc, m, opening)?;
    let mut nobody = Board::over(Vec::new(alloc));
    let mut lines = Vec::new(alloc);
    hall.tell(m, &mut nobody, &mut lines)?;
    Ok(hall)
}

// The time-ordered execution of all commands of a match that opens so.
fn in_order(alloc: Global, opening: &Arena, m: &Match) -> Result<Arena, NoMemory>
    ensures { IfOk result
        (λ world. world ≡ time_ordered arena_rules opening.now m.now.commands m.now.length) }
{
    let mut commands = Vec::from_slice(alloc, m.commands.as_slice())?;
    let mut world = opening.twin();
    execute_in_order(&mut world, commands.as_mut_slice(), m.length);
    Ok(world)
}

// Appends whether each copy of each mirror of the hall, which has this number of mirrors and is
// drained, has this world.
fn push_agreement(
    out: &mut Vec<u8>,
    hall: &Hall<Arena>,
    mirrors: MirrorId,
    world: &Arena,
) -> Result<(), NoMemory>
    requires count { length hall.now ≡ mirrors }
    requires drained { AllByRecursion (λ s. IsDrained s) hall.now }
    ensures { OnOk result
        (TellsAgreement arena_rules world.now hall.now out.old.items out.new.items) }
{
    same_line(out, are_all_at(hall, mirrors, world))
}

// The text of a number and of the drained hall of its match, whose time-ordered execution is this
// world.
#[tactic(auto, unfolding(crate::specs::Answer::agreement_text))]
fn text_of(
    alloc: Global,
    number: u32,
    hall: &Hall<Arena>,
    mirrors: MirrorId,
    world: &Arena,
) -> Result<Seq<u8>, NoMemory>
    requires count { length hall.now ≡ mirrors }
    requires drained { AllByRecursion (λ s. IsDrained s) hall.now }
    ensures { IfOk result (λ text. TellsOf arena_rules world.now number hall.now text) }
{
    let mut text = Vec::new(alloc);
    soak_line(&mut text, number, COMMANDS)?;
    hall.show_lines(&mut text)?;
    push_agreement(&mut text, hall, mirrors, world)?;
    done_line(&mut text)?;
    Ok(Seq::of(text))
}

// The answer to a number, with the match that it makes and its opening.
fn answer(alloc: Global, number: u32, opening: &Arena, m: &Match) -> Result<Played, NoMemory>
    ensures told { IfOk result (λ s. TellsOf arena_rules
        (time_ordered arena_rules opening.now m.now.commands m.now.length) number
        (played opening.now m.now) s.text) }
    ensures kept { IfOk result (λ s. s.kept ≡ logs_from 0 (played opening.now m.now)) }
{
    let world = in_order(alloc, opening, m)?;
    let hall = play(alloc, opening, m)?;
    let text = text_of(alloc, number, &hall, m.mirrors, &world)?;
    let kept = hall.into_logs(alloc)?;
    Ok(Played { text, kept })
}

// Makes the match of a number and plays it; what is told of it compares its copies.
fn make_and_play(alloc: Global, number: u32) -> Result<Played, NoMemory>
    ensures told { IfOk result (λ s. IsSoakText number s.text) }
    ensures kept { IfOk result (λ s. s.kept ≡ logs_from 0 (soaked number)) }
{
    let m = make_match(alloc, number)?;
    answer(alloc, number, &Arena::start(&m.setup), &m)
}

/// Makes the match of a number, plays it along its script and drains it. The text is that of
/// `soak`: it says that all copies have the time-ordered execution of all commands as their world,
/// which was compared and is so for every number. On `NoMemory` nothing is returned.
pub fn soak(alloc: Global, number: u32) -> Result<Played, NoMemory>
    ensures told { IfOk result (λ s. IsSoakText number s.text) }
    ensures same { IfOk result (λ s. s.text ≡ soak_text number) }
    ensures kept { IfOk result (λ s. s.kept ≡ logs_from 0 (soaked number)) }
{
    the_text_says_same_yes();
    make_and_play(alloc, number)
}
