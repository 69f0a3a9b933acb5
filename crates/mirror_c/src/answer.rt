//! What is answered to C.

ghost use Rattle.std.specs.Prelude.{◌≡◌};
ghost use Rattle.game_trait.specs.declared.event.Reply.TheVariants.{Tick as ToTick, Arrive as ToArrive, Step as ToStep};
ghost use Rattle.mirror_c.specs.Answers.{told, told_item, told_command, told_turned, told_event, refused};

use crate::codes::{
    A_RESTAGGER, A_STEP, A_TICK, AN_ARRIVAL, IDLE, LATE, MOVED, OVER, RAN, REPEAT, RESTAGGERED,
    TAKEN, VALUE,
};
use game_trait::{Arrived, Command, Event, Item, Reply, Stepped, Ticked};
use sync_model::Turned;

/// An answer: its kind, and a number that goes with it, else 0.
#[repr(C)]
#[derive(Clone, Copy, Debug)]
pub struct Answer {
    pub kind: u32,
    pub value: u32,
}

/// An item of a run. A beat has `is_beat` 1, and the other numbers are 0.
#[repr(C)]
#[derive(Clone, Copy, Debug)]
pub struct RunItem {
    pub is_beat: u32,
    pub from: u32,
    pub number: u32,
    pub time: u32,
}

/// A command that was accepted.
#[repr(C)]
#[derive(Clone, Copy, Debug)]
pub struct CommandItem {
    pub from: u32,
    pub number: u32,
    pub time: u32,
}

/// A command that was turned away: older than the last copy's clock then, the bound.
#[repr(C)]
#[derive(Clone, Copy, Debug)]
pub struct TurnedItem {
    pub from: u32,
    pub number: u32,
    pub bound: u32,
}

/// An event of the history: what happened, to which copy or plan, and with which command. The
/// numbers that it doesn't have are 0.
#[repr(C)]
#[derive(Clone, Copy, Debug)]
pub struct HistoryItem {
    pub what: u32,
    pub which: u32,
    pub time: u32,
    pub from: u32,
    pub number: u32,
}

/// An answer with no number.
pub fn bare(kind: u32) -> Answer
    ensures { result ≡ refused kind }
{
    Answer { kind, value: 0 }
}

/// What was asked.
pub fn value(value: u32) -> Answer
    ensures { result ≡ record { kind = VALUE; value = value } }
{
    Answer { kind: VALUE, value }
}

/// The answer to a tick.
pub fn told_tick(ticked: Ticked) -> Answer
    ensures { result ≡ told (ToTick ticked) }
{
    match ticked {
        Ticked::Moved => bare(MOVED),
        Ticked::Over => bare(OVER),
    }
}

/// The answer to an arrival.
pub fn told_arrival(arrived: Arrived) -> Answer
    ensures { result ≡ told (ToArrive arrived) }
{
    match arrived {
        Arrived::Taken { repaired } => Answer {
            kind: TAKEN,
            value: u32::from(repaired),
        },
        Arrived::Repeat => bare(REPEAT),
        Arrived::Late { bound } => Answer {
            kind: LATE,
            value: bound,
        },
    }
}

/// The answer to a step.
pub fn told_step(stepped: Stepped) -> Answer
    ensures { result ≡ told (ToStep stepped) }
{
    match stepped {
        Stepped::Ran { repaired } => Answer {
            kind: RAN,
            value: u32::from(repaired),
        },
        Stepped::Idle => bare(IDLE),
    }
}

/// An item as C sees it.
pub fn item_for_c(item: &Item) -> RunItem
    ensures { result ≡ told_item item.now }
{
    match item {
        Item::Cmd(x) => RunItem {
            is_beat: 0,
            from: u32::from(x.from),
            number: x.number,
            time: x.time,
        },
        Item::Beat => RunItem {
            is_beat: 1,
            from: 0,
            number: 0,
            time: 0,
        },
    }
}

/// A reply as C sees it.
pub fn told(reply: Reply) -> Answer
    ensures { result ≡ told reply }
{
    match reply {
        Reply::Tick(ticked) => told_tick(ticked),
        Reply::Arrive(arrived) => told_arrival(arrived),
        Reply::Step(stepped) => told_step(stepped),
        Reply::Restaggered => bare(RESTAGGERED),
    }
}

/// A command as C sees it.
pub fn command_for_c(x: &Command) -> CommandItem
    ensures { result ≡ told_command x.now }
{
    CommandItem {
        from: u32::from(x.from),
        number: x.number,
        time: x.time,
    }
}

/// A command that was turned away, as C sees it.
pub fn turned_for_c(away: &Turned) -> TurnedItem
    ensures { result ≡ told_turned away.now }
{
    TurnedItem {
        from: u32::from(away.from),
        number: away.number,
        bound: away.bound,
    }
}

/// An event as C sees it.
pub fn event_for_c(event: &Event) -> HistoryItem
    ensures { result ≡ told_event event.now }
{
    match event {
        Event::Tick => event_of(A_TICK, 0),
        Event::Arrive(x) => HistoryItem {
            what: AN_ARRIVAL,
            which: 0,
            time: x.time,
            from: u32::from(x.from),
            number: x.number,
        },
        Event::Step(copy) => event_of(A_STEP, u32::from(*copy)),
        Event::Restagger(plan) => event_of(A_RESTAGGER, u32::from(*plan)),
    }
}

// An event without a command.
fn event_of(what: u32, which: u32) -> HistoryItem
    ensures { result ≡ record { what = what; which = which; time = 0; from = 0; number = 0 } }
{
    HistoryItem {
        what,
        which,
        time: 0,
        from: 0,
        number: 0,
    }
}
