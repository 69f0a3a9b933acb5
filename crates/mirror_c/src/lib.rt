//! The engine for C: a static library. The host keeps its worlds, of any game and in any language;
//! here stands which commands are accepted, the runs of the copies, the clocks, and what is late or
//! repaired, as `mirror_core` proves it. `tsync_mirror.h` declares the calls and says what a host does.
#![tactic(auto)]

ghost use Rattle.std.specs.Prelude.{if◌then◌else◌, ◌≡◌, ◌==◌, ◌⊎◌, ◌↔◌, ℕ, ◌+◌, ◌<◌, None, Some, is_some, length, slice_get, option_map, IfSome};
ghost use Rattle.game_trait.specs.Run.{beats};
ghost use Rattle.sync_model.specs.Turns.{is_drained};
ghost use Rattle.sync_model.specs.Drafts.{run_of};
ghost use Rattle.mirror_c.specs.Legal.{IsLegal};
ghost use Rattle.mirror_c.specs.Answers.{IsMade, after_call, after_turn, answer_to, answer_from, after_arrival, answer_to_arrival, turned_answer, of_copy, valued, told_item, told_command, told_turned, told_event, items_answer, items_put, put_answer, put_of};

mod answer;
mod codes;
mod engine;
mod handle;
mod held;
pub mod laws;
mod listed;
mod turns;

use answer::{Answer, CommandItem, HistoryItem, RunItem, TurnedItem, bare};
use codes::{MADE, NO_ENGINE, NO_MEMORY, NOT_LEGAL, NOT_THERE};
use engine::Engine;
use game_trait::{Act, Command, Event, Tick};
use handle::Handle;
use std::alloc::Global;

/// Makes an engine in a handle. The delays are those of 1 to 8 plans, one plan after another, each of
/// so many copies; the first is in force. An engine that the handle had is freed once the new one is
/// made; where the call is refused, it stays.
#[unsafe(no_mangle)]
pub extern "C" fn tsync_mirror_new(
    alloc: Global,
    handle: &mut Handle,
    delays: &[Tick],
    copies: usize,
    length: Tick,
    room: u32,
    restaggers: u32,
) -> Answer
    ensures made { result.kind ≡ MADE
        → IsMade delays.now copies length room restaggers handle.new.held.engine }
    ensures kept { (result.kind ≡ MADE → ⊥)
        → handle.new.held.engine ≡ handle.old.held.engine }
    ensures refused { (result.kind ≡ MADE) ⊎ ((result.kind ≡ NO_MEMORY) ⊎ (result.kind ≡ NOT_LEGAL)) }
    ensures legal { (result.kind ≡ NOT_LEGAL)
        ↔ (IsLegal delays.now copies length room restaggers → ⊥) }
{
    let engine = match Engine::new(alloc, delays, copies, length, room, restaggers) {
        Ok(engine) => engine,
        Err(why) => return bare(why),
    };
    match Box::new(alloc, engine) {
        Ok(engine) => {
            drop(handle.take(alloc));
            *handle = Handle::of(engine);
            bare(MADE)
        }
        Err(_) => bare(NO_MEMORY),
    }
}

/// Frees the engine, if the handle has one.
#[unsafe(no_mangle)]
pub extern "C" fn tsync_mirror_free(alloc: Global, handle: &mut Handle)
    ensures { handle.new.held.engine ≡ None }
{
    drop(handle.take(alloc));
}

/// The clock goes on by one tick.
#[unsafe(no_mangle)]
pub extern "C" fn tsync_mirror_tick(alloc: Global, handle: &mut Handle) -> Answer
    ensures state { handle.new.held.engine ≡ after_call handle.old.held.engine Event.Tick }
    ensures answer { result ≡ answer_to handle.old.held.engine Event.Tick }
{
    let Some(mut engine) = handle.take(alloc) else {
        return bare(NO_ENGINE);
    };
    let answer = engine.tick();
    *handle = Handle::of(engine);
    answer
}

/// A command of mirror `from`, 0 to 255, with this number, due at this tick, arrives.
#[unsafe(no_mangle)]
pub extern "C" fn tsync_mirror_arrive(
    alloc: Global,
    handle: &mut Handle,
    time: Tick,
    from: u32,
    number: u32,
) -> Answer
    ensures state { handle.new.held.engine
        ≡ after_arrival handle.old.held.engine time from number }
    ensures answer { result ≡ answer_to_arrival handle.old.held.engine time from number }
{
    let Some(mut engine) = handle.take(alloc) else {
        return bare(NO_ENGINE);
    };
    let answer = if from > 255 {
        bare(NOT_THERE)
    } else {
        engine.arrive(&Command {
            time,
            number,
            from: from as u8,
            player: 0,
            act: Act::Go,
        })
    };
    *handle = Handle::of(engine);
    answer
}

/// A copy runs a tick, where it may.
#[unsafe(no_mangle)]
pub extern "C" fn tsync_mirror_step(alloc: Global, handle: &mut Handle, copy: u32) -> Answer
    ensures state { handle.new.held.engine ≡ after_call handle.old.held.engine (Event.Step copy) }
    ensures answer { result ≡ answer_to handle.old.held.engine (Event.Step copy) }
{
    let Some(mut engine) = handle.take(alloc) else {
        return bare(NO_ENGINE);
    };
    let answer = engine.step(copy);
    *handle = Handle::of(engine);
    answer
}

/// Another plan is in force from here on.
#[unsafe(no_mangle)]
pub extern "C" fn tsync_mirror_restagger(alloc: Global, handle: &mut Handle, plan: u32) -> Answer
    ensures state { handle.new.held.engine ≡ after_call handle.old.held.engine (Event.Restagger plan) }
    ensures answer { result ≡ answer_to handle.old.held.engine (Event.Restagger plan) }
{
    let Some(mut engine) = handle.take(alloc) else {
        return bare(NO_ENGINE);
    };
    let answer = engine.restagger(plan);
    *handle = Handle::of(engine);
    answer
}

/// A turn: the clock goes on by one tick, and then each copy, from copy 0 on, runs a tick, where it
/// may. Told are the tick's kind, and the most copies that one of the steps repaired.
#[unsafe(no_mangle)]
pub extern "C" fn tsync_mirror_turn(alloc: Global, handle: &mut Handle) -> Answer
    ensures state { handle.new.held.engine ≡ after_turn handle.old.held.engine }
    ensures answer { result ≡ answer_from handle.old.held.engine turned_answer }
{
    let Some(mut engine) = handle.take(alloc) else {
        return bare(NO_ENGINE);
    };
    let answer = engine.turn();
    *handle = Handle::of(engine);
    answer
}

/// For how many more arrivals there is room.
#[unsafe(no_mangle)]
pub extern "C" fn tsync_mirror_spare(alloc: Global, handle: &mut Handle) -> Answer
    ensures state { handle.new.held.engine ≡ handle.old.held.engine }
    ensures answer { result ≡ answer_from handle.old.held.engine (λ s. valued s.spare) }
{
    let Some(engine) = handle.take(alloc) else {
        return bare(NO_ENGINE);
    };
    let answer = engine.spare();
    *handle = Handle::of(engine);
    answer
}

/// The number of the plan in force.
#[unsafe(no_mangle)]
pub extern "C" fn tsync_mirror_plan(alloc: Global, handle: &mut Handle) -> Answer
    ensures state { handle.new.held.engine ≡ handle.old.held.engine }
    ensures answer { result ≡ answer_from handle.old.held.engine (λ s. valued s.plan) }
{
    let Some(engine) = handle.take(alloc) else {
        return bare(NO_ENGINE);
    };
    let answer = engine.plan();
    *handle = Handle::of(engine);
    answer
}

/// The match's length in ticks.
#[unsafe(no_mangle)]
pub extern "C" fn tsync_mirror_length(alloc: Global, handle: &mut Handle) -> Answer
    ensures state { handle.new.held.engine ≡ handle.old.held.engine }
    ensures answer { result ≡ answer_from handle.old.held.engine (λ s. valued s.length) }
{
    let Some(engine) = handle.take(alloc) else {
        return bare(NO_ENGINE);
    };
    let answer = engine.length();
    *handle = Handle::of(engine);
    answer
}

/// How many copies there are, 1 to 8.
#[unsafe(no_mangle)]
pub extern "C" fn tsync_mirror_copies(alloc: Global, handle: &mut Handle) -> Answer
    ensures state { handle.new.held.engine ≡ handle.old.held.engine }
    ensures answer { result ≡ answer_from handle.old.held.engine (λ s. valued (length s.runs)) }
{
    let Some(engine) = handle.take(alloc) else {
        return bare(NO_ENGINE);
    };
    let answer = engine.copies();
    *handle = Handle::of(engine);
    answer
}

/// Whether each copy has run the whole match: 1 or 0.
#[unsafe(no_mangle)]
pub extern "C" fn tsync_mirror_drained(alloc: Global, handle: &mut Handle) -> Answer
    ensures state { handle.new.held.engine ≡ handle.old.held.engine }
    ensures answer { result
        ≡ answer_from handle.old.held.engine (λ s. valued (if is_drained s then 1 else 0)) }
{
    let Some(engine) = handle.take(alloc) else {
        return bare(NO_ENGINE);
    };
    let answer = engine.drained();
    *handle = Handle::of(engine);
    answer
}

/// The mirror's clock.
#[unsafe(no_mangle)]
pub extern "C" fn tsync_mirror_clock(alloc: Global, handle: &mut Handle) -> Answer
    ensures state { handle.new.held.engine ≡ handle.old.held.engine }
    ensures answer { result ≡ answer_from handle.old.held.engine (λ s. valued s.clock) }
{
    let Some(engine) = handle.take(alloc) else {
        return bare(NO_ENGINE);
    };
    let answer = engine.clock();
    *handle = Handle::of(engine);
    answer
}

/// A copy's clock.
#[unsafe(no_mangle)]
pub extern "C" fn tsync_mirror_copy_clock(alloc: Global, handle: &mut Handle, copy: u32) -> Answer
    ensures state { handle.new.held.engine ≡ handle.old.held.engine }
    ensures answer { result ≡ answer_from handle.old.held.engine (of_copy copy beats) }
{
    let Some(engine) = handle.take(alloc) else {
        return bare(NO_ENGINE);
    };
    let answer = engine.copy_clock(copy);
    *handle = Handle::of(engine);
    answer
}

/// How many items a copy has run.
#[unsafe(no_mangle)]
pub extern "C" fn tsync_mirror_run_len(alloc: Global, handle: &mut Handle, copy: u32) -> Answer
    ensures state { handle.new.held.engine ≡ handle.old.held.engine }
    ensures answer { result ≡ answer_from handle.old.held.engine (of_copy copy length) }
{
    let Some(engine) = handle.take(alloc) else {
        return bare(NO_ENGINE);
    };
    let answer = engine.run_len(copy);
    *handle = Handle::of(engine);
    answer
}

/// Puts the items of a copy's run from a place on into `out`, as many as there are and it holds, and
/// tells how many.
#[unsafe(no_mangle)]
pub extern "C" fn tsync_mirror_items(
    alloc: Global,
    handle: &mut Handle,
    copy: u32,
    place: u32,
    out: &mut [RunItem],
) -> Answer
    ensures state { handle.new.held.engine ≡ handle.old.held.engine }
    ensures answer { result
        ≡ answer_from handle.old.held.engine (items_answer copy place (length out.old)) }
    ensures length { length out.new ≡ length out.old }
    ensures items { IfSome handle.old.held.engine (λ engine. (j : ℕ)
        → j < items_put copy place (length out.old) engine.mirror → slice_get out.new j
        ≡ option_map told_item (slice_get (run_of engine.mirror copy) (place + j))) }
{
    let Some(engine) = handle.take(alloc) else {
        return bare(NO_ENGINE);
    };
    let answer = engine.items(copy, place, out);
    *handle = Handle::of(engine);
    answer
}

/// Puts the commands that were accepted, in order of arrival and from a place on, into `out`, as many
/// as there are and it holds, and tells how many.
#[unsafe(no_mangle)]
pub extern "C" fn tsync_mirror_accepted(
    alloc: Global,
    handle: &mut Handle,
    place: u32,
    out: &mut [CommandItem],
) -> Answer
    ensures state { handle.new.held.engine ≡ handle.old.held.engine }
    ensures answer { result ≡ answer_from handle.old.held.engine
        (λ s. put_answer (length s.accepted) place (length out.old)) }
    ensures length { length out.new ≡ length out.old }
    ensures items { IfSome handle.old.held.engine (λ engine. (j : ℕ)
        → j < put_of (length engine.mirror.accepted) place (length out.old) → slice_get out.new j
        ≡ option_map told_command (slice_get engine.mirror.accepted (place + j))) }
{
    let Some(engine) = handle.take(alloc) else {
        return bare(NO_ENGINE);
    };
    let answer = engine.accepted(place, out);
    *handle = Handle::of(engine);
    answer
}

/// Puts the commands that were turned away, in order of arrival and from a place on, into `out`, as
/// many as there are and it holds, and tells how many.
#[unsafe(no_mangle)]
pub extern "C" fn tsync_mirror_turned(
    alloc: Global,
    handle: &mut Handle,
    place: u32,
    out: &mut [TurnedItem],
) -> Answer
    ensures state { handle.new.held.engine ≡ handle.old.held.engine }
    ensures answer { result ≡ answer_from handle.old.held.engine
        (λ s. put_answer (length s.turned) place (length out.old)) }
    ensures length { length out.new ≡ length out.old }
    ensures items { IfSome handle.old.held.engine (λ engine. (j : ℕ)
        → j < put_of (length engine.mirror.turned) place (length out.old) → slice_get out.new j
        ≡ option_map told_turned (slice_get engine.mirror.turned (place + j))) }
{
    let Some(engine) = handle.take(alloc) else {
        return bare(NO_ENGINE);
    };
    let answer = engine.turned(place, out);
    *handle = Handle::of(engine);
    answer
}

/// Puts the events that changed the mirror, in order and from a place on, into `out`, as many as there
/// are and it holds, and tells how many.
#[unsafe(no_mangle)]
pub extern "C" fn tsync_mirror_history(
    alloc: Global,
    handle: &mut Handle,
    place: u32,
    out: &mut [HistoryItem],
) -> Answer
    ensures state { handle.new.held.engine ≡ handle.old.held.engine }
    ensures answer { result ≡ answer_from handle.old.held.engine
        (λ s. put_answer (length s.history) place (length out.old)) }
    ensures length { length out.new ≡ length out.old }
    ensures items { IfSome handle.old.held.engine (λ engine. (j : ℕ)
        → j < put_of (length engine.mirror.history) place (length out.old) → slice_get out.new j
        ≡ option_map told_event (slice_get engine.mirror.history (place + j))) }
{
    let Some(engine) = handle.take(alloc) else {
        return bare(NO_ENGINE);
    };
    let answer = engine.history(place, out);
    *handle = Handle::of(engine);
    answer
}
