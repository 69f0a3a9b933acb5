//! What is answered to C.

ghost use Rattle.std.specs.Prelude.{◌≡◌, Ok, option_map};
ghost use Rattle.game_trait.specs.declared.event.Reply.{Reply};
ghost use Rattle.peer_c.specs.Answers.{refused, with_value, valued, number_of, told_own, told_turn, told_step, told_restagger, told_packet, told_fault, told_heard, stopped_bits, nothing_heard, item_of_heard, told_mark, told_item, told_snapshot};

use crate::codes::{
    AGAIN, AHEAD, BEHIND, CONFLICT, END, FAR, FULL, GAP, HEARD, IDLE, MALFORMED, MARKED, MOVED,
    NOT_FOR_ME, NOT_THERE, OTHER_SESSION, OVER, RAN, RESTAGGERED, SHORT, STOP_FAR, STOP_FULL,
    TAKEN, TOO_LONG, VALUE,
};
use game_trait::{Item, Stepped, Tick, Ticked};
use peer_calls::{HearAnswer, PacketAnswer, SnapshotAnswer, Told, TurnAnswer};
use peer_model::OwnAnswer;
use peer_packet::Fault;

/// An answer: its kind, and two numbers that go with it, else 0.
#[repr(C)]
#[derive(Clone, Copy, Debug)]
pub struct Answer {
    pub kind: u32,
    pub other: u32,
    pub value: u64,
}

/// What came of a packet; all zeroes where it is refused.
#[repr(C)]
#[derive(Clone, Copy, Debug)]
pub struct HeardItem {
    /// Commands that were turned away, also such as were forgotten everywhere.
    pub late: u64,
    /// Whose packet it is.
    pub from: u32,
    /// Commands that were taken.
    pub taken: u32,
    /// The most copies that one of them repaired, counted from copy 0.
    pub repaired: u32,
    /// Why not all was taken: the sum of `GAP`, `STOP_FAR` and `STOP_FULL`.
    pub stopped: u32,
    /// 1 where the packet's mark has the tick of one of this peer's, and another sum.
    pub differs: u32,
    pub zero: u32,
}

/// An item of a run. A beat, where a tick ends, has `is_beat` 1, and the other numbers are 0.
#[repr(C)]
#[derive(Clone, Copy, Debug)]
pub struct RunItem {
    pub is_beat: u32,
    pub from: u32,
    pub number: u32,
    pub time: u32,
}

/// What is known of a slot.
#[repr(C)]
#[derive(Clone, Copy, Debug)]
pub struct SlotItem {
    /// How many of its commands were received, of this peer's own: issued.
    pub have: u32,
    /// The first of these whose payload is remembered.
    pub kept: u32,
    /// The tick at which the newest of these is due, 0 where there is none.
    pub last: u32,
    /// How many of these were turned away.
    pub late: u32,
    /// 1 where a packet of it was heard; else the next three are 0.
    pub heard: u32,
    /// Its newest clock that was heard.
    pub clock: u32,
    /// What it said there of this peer's clock, 0: nothing yet.
    pub echo: u32,
    /// This peer's clock at that moment.
    pub at: u32,
    /// 1 where its newest mark, this peer's own or one that was heard, follows.
    pub marked: u32,
    pub mark_tick: u32,
    pub mark_sum: u32,
    /// 1 where its mark was seen to differ, first at the tick that follows.
    pub differs: u32,
    pub differs_tick: u32,
}

/// An answer with no number.
pub fn bare(kind: u32) -> Answer
    ensures { result ≡ refused kind }
{
    with(kind, 0)
}

/// An answer with a value.
pub fn with(kind: u32, value: u64) -> Answer
    ensures { result ≡ with_value kind value }
{
    Answer {
        kind,
        other: 0,
        value,
    }
}

/// What was asked.
pub fn value(value: u64) -> Answer
    ensures { result ≡ valued value }
{
    with(VALUE, value)
}

/// 1 where it is so, and else 0.
pub fn number_of(is: bool) -> u32
    ensures { result ≡ number_of is }
{
    u32::from(is)
}

/// The answer to an own command.
pub fn told_own(answer: OwnAnswer) -> Answer
    ensures { result ≡ told_own answer }
{
    match answer {
        OwnAnswer::TooLong => bare(TOO_LONG),
        OwnAnswer::Behind { start } => with(BEHIND, u64::from(start)),
        OwnAnswer::End => bare(END),
        OwnAnswer::Far { end } => with(FAR, end),
        OwnAnswer::Full => bare(FULL),
        OwnAnswer::Taken { time, number } => Answer {
            kind: TAKEN,
            other: time,
            value: u64::from(number),
        },
    }
}

/// The answer to a turn.
pub fn told_turn(turn: TurnAnswer) -> Answer
    ensures { result ≡ told_turn turn }
{
    let kind = match turn.ticked {
        Ticked::Moved => MOVED,
        Ticked::Over => OVER,
    };
    with(kind, u64::from(turn.repaired))
}

/// The answer to a step, where there is the copy.
pub fn told_step(stepped: Option<Stepped>) -> Answer
    ensures { result ≡ told_step (option_map Reply.Step stepped) }
{
    match stepped {
        Some(Stepped::Ran { repaired }) => with(RAN, u64::from(repaired)),
        Some(Stepped::Idle) => bare(IDLE),
        None => bare(NOT_THERE),
    }
}

/// The answer to another plan, where there is the plan.
pub fn told_restagger(is: bool) -> Answer
    ensures { result ≡ told_restagger is }
{
    if is {
        bare(RESTAGGERED)
    } else {
        bare(NOT_THERE)
    }
}

/// The answer where a packet is to be made.
pub fn told_packet(answer: PacketAnswer) -> Answer
    ensures { result ≡ told_packet answer }
{
    match answer {
        PacketAnswer::NotThere => bare(NOT_THERE),
        PacketAnswer::Short { head } => with(SHORT, head as u64),
        PacketAnswer::Made { is_more, size } => Answer {
            kind: VALUE,
            other: number_of(is_more),
            value: size as u64,
        },
    }
}

/// The answer to bytes that are no packet or snapshot of the session.
pub fn told_fault(fault: Fault) -> Answer
    ensures { result ≡ told_fault fault }
{
    let field = fault.number();
    if field == 0 {
        return bare(OTHER_SESSION);
    }
    with(MALFORMED, u64::from(field))
}

// The answer to a packet of the session.
fn told_packet_heard(answer: HearAnswer) -> Answer
    ensures { result ≡ told_heard (Ok answer) }
{
    match answer {
        HearAnswer::NotForMe => bare(NOT_FOR_ME),
        HearAnswer::Ahead => bare(AHEAD),
        HearAnswer::Conflict { origin } => with(CONFLICT, u64::from(origin)),
        HearAnswer::Heard { from, told } => Answer {
            kind: HEARD,
            other: u32::from(from),
            value: u64::from(told.repaired),
        },
    }
}

/// The answer to a packet that came.
pub fn told_heard(heard: Result<HearAnswer, Fault>) -> Answer
    ensures { result ≡ told_heard heard }
{
    match heard {
        Err(fault) => told_fault(fault),
        Ok(answer) => told_packet_heard(answer),
    }
}

// Why not all of a packet was taken.
fn stopped_bits(told: &Told) -> u32
    ensures { result ≡ stopped_bits told.now }
{
    number_of(told.gap) * GAP + number_of(told.far) * STOP_FAR + number_of(told.full) * STOP_FULL
}

/// Of a packet that is refused.
pub fn nothing_heard() -> HeardItem
    ensures { result ≡ nothing_heard }
{
    HeardItem {
        late: 0,
        from: 0,
        taken: 0,
        repaired: 0,
        stopped: 0,
        differs: 0,
        zero: 0,
    }
}

/// What came of a packet.
pub fn item_of_heard(heard: Result<HearAnswer, Fault>) -> HeardItem
    ensures { result ≡ item_of_heard heard }
{
    match heard {
        Ok(HearAnswer::Heard { from, told }) => HeardItem {
            late: told.late,
            from: u32::from(from),
            taken: told.taken,
            repaired: u32::from(told.repaired),
            stopped: stopped_bits(&told),
            differs: number_of(told.differs),
            zero: 0,
        },
        _ => nothing_heard(),
    }
}

/// The answer to a mark.
pub fn told_mark(marked: Option<(Tick, u8)>) -> Answer
    ensures { result ≡ told_mark marked }
{
    match marked {
        None => bare(AGAIN),
        Some((tick, differing)) => Answer {
            kind: MARKED,
            other: u32::from(differing),
            value: u64::from(tick),
        },
    }
}

/// An item as C sees it.
pub fn item_for_c(item: &Item) -> RunItem
    ensures { result ≡ told_item item.now }
{
    match item {
        Item::Cmd(x) => RunItem {
            is_beat: 0,
            from: u32::from(x.from),
            number: x.number,
            time: x.time,
        },
        Item::Beat => RunItem {
            is_beat: 1,
            from: 0,
            number: 0,
            time: 0,
        },
    }
}

/// The answer where what is handed to a joiner is to be put.
pub fn told_snapshot(answer: SnapshotAnswer) -> Answer
    ensures { result ≡ told_snapshot answer }
{
    match answer {
        SnapshotAnswer::TooShort { size } => with(SHORT, size as u64),
        SnapshotAnswer::Put { size } => value(size as u64),
    }
}
