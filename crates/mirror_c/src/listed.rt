//! Lists of a mirror, put into what C gives.

ghost use Rattle.std.specs.Prelude.{◌≡◌, ℕ, ◌+◌, ◌-◌, ◌^◌, ◌<◌, ◌≤◌, min, length, slice_get, option_map};
ghost use Rattle.std.specs.List.{list_any};
ghost use Rattle.mirror_c.specs.Answers.{has_name_of, told_command, told_turned, told_event, put_of, put_answer};

use crate::answer::{
    Answer, CommandItem, HistoryItem, TurnedItem, bare, command_for_c, event_for_c, turned_for_c,
    value,
};
use crate::codes::NOT_THERE;
use game_trait::{Command, Event};
use sync_model::Turned;

/// A length as a number of items, at most the greatest `u32`.
pub fn fitting(len: usize) -> u32
    ensures { result ≡ min len (2 ^ 32 - 1) }
{
    if len > u32::MAX as usize {
        u32::MAX
    } else {
        len as u32
    }
}

/// Whether a command with this one's mirror and number was turned away.
pub fn was_turned(turned: &[Turned], x: &Command) -> bool
    ensures { result ≡ list_any (has_name_of x.now) turned.now }
{
    turned
        .iter()
        .any(|a| a.from == x.from && a.number == x.number)
}

// How many of a list of so many are put from a place on, which is there.
fn count_of(len: usize, place: u32, room: usize) -> u32
    requires { place ≤ len }
    ensures { result ≡ put_of len place room }
{
    fitting((len - place as usize).min(fitting(room) as usize))
}

/// Puts the commands that were accepted, from a place on, into the front of `out`, as many as there
/// are and it holds, and tells how many.
pub fn accepted_from(all: &[Command], place: u32, out: &mut [CommandItem]) -> Answer
    ensures answer { result ≡ put_answer (length all.now) place (length out.old) }
    ensures length { length out.new ≡ length out.old }
    ensures items { (j : ℕ) → j < put_of (length all.now) place (length out.old)
        → slice_get out.new j ≡ option_map told_command (slice_get all.now (place + j)) }
{
    if place as usize > all.len() {
        return bare(NOT_THERE);
    }
    let count = count_of(all.len(), place, out.len());
    put_accepted(all, place as usize, count as usize, out);
    value(count)
}

// Puts so many from a place on, which are there, into the front of `out`.
fn put_accepted(all: &[Command], place: usize, count: usize, out: &mut [CommandItem])
    requires there { place + count ≤ length all.now }
    requires fits { count ≤ length out.old }
    ensures length { length out.new ≡ length out.old }
    ensures items { (j : ℕ) → j < count
        → slice_get out.new j ≡ option_map told_command (slice_get all.now (place + j)) }
    ensures rest { (j : ℕ) → count ≤ j → slice_get out.new j ≡ slice_get out.old j }
{
    for i in 0..count {
        out[i] = command_for_c(&all[place + i]);
    }
}

/// Puts the commands that were turned away, from a place on, into the front of `out`, as many as
/// there are and it holds, and tells how many.
pub fn turned_from(all: &[Turned], place: u32, out: &mut [TurnedItem]) -> Answer
    ensures answer { result ≡ put_answer (length all.now) place (length out.old) }
    ensures length { length out.new ≡ length out.old }
    ensures items { (j : ℕ) → j < put_of (length all.now) place (length out.old)
        → slice_get out.new j ≡ option_map told_turned (slice_get all.now (place + j)) }
{
    if place as usize > all.len() {
        return bare(NOT_THERE);
    }
    let count = count_of(all.len(), place, out.len());
    put_turned(all, place as usize, count as usize, out);
    value(count)
}

// Puts so many from a place on, which are there, into the front of `out`.
fn put_turned(all: &[Turned], place: usize, count: usize, out: &mut [TurnedItem])
    requires there { place + count ≤ length all.now }
    requires fits { count ≤ length out.old }
    ensures length { length out.new ≡ length out.old }
    ensures items { (j : ℕ) → j < count
        → slice_get out.new j ≡ option_map told_turned (slice_get all.now (place + j)) }
    ensures rest { (j : ℕ) → count ≤ j → slice_get out.new j ≡ slice_get out.old j }
{
    for i in 0..count {
        out[i] = turned_for_c(&all[place + i]);
    }
}

/// Puts the events of a history, from a place on, into the front of `out`, as many as there are and
/// it holds, and tells how many.
pub fn events_from(all: &[Event], place: u32, out: &mut [HistoryItem]) -> Answer
    ensures answer { result ≡ put_answer (length all.now) place (length out.old) }
    ensures length { length out.new ≡ length out.old }
    ensures items { (j : ℕ) → j < put_of (length all.now) place (length out.old)
        → slice_get out.new j ≡ option_map told_event (slice_get all.now (place + j)) }
{
    if place as usize > all.len() {
        return bare(NOT_THERE);
    }
    let count = count_of(all.len(), place, out.len());
    put_events(all, place as usize, count as usize, out);
    value(count)
}

// Puts so many from a place on, which are there, into the front of `out`.
fn put_events(all: &[Event], place: usize, count: usize, out: &mut [HistoryItem])
    requires there { place + count ≤ length all.now }
    requires fits { count ≤ length out.old }
    ensures length { length out.new ≡ length out.old }
    ensures items { (j : ℕ) → j < count
        → slice_get out.new j ≡ option_map told_event (slice_get all.now (place + j)) }
    ensures rest { (j : ℕ) → count ≤ j → slice_get out.new j ≡ slice_get out.old j }
{
    for i in 0..count {
        out[i] = event_for_c(&all[place + i]);
    }
}
