//! A part is heard: its commands arrive at the mirror, and are counted.

ghost use Rattle.std.specs.Prelude.{◌≡◌, ◌+◌, ◌-◌, ◌^◌, ◌≤◌, ◌<◌, [], ◌∷◌, length, map, true, false, ◌==◌, if◌then◌else◌};
ghost use Rattle.rolling_mirror.specs.Rolling.{last_tick, said_to_arrival, arrived};
ghost use Rattle.peer_model.specs.Queue.{have_of, last_time, conflicts, joined};
ghost use Rattle.peer_window.specs.Window.{is_counted, next_command, counts, counts_each, rolls_part};
ghost use Rattle.peer_packet.specs.Packet.{AreSent};
ghost use Rattle.peer_calls.specs.Wire.{sent_from, part_from};
ghost use Rattle.peer_calls.specs.Hearing.{with_answer, tells_each, tells_part};
ghost use Rattle.peer_queue.specs.Room.{sent_of, heard_of};

use crate::queue::SlotQueue;
use crate::sent::SentBytes;
use crate::walk::behind;
use game_trait::{Act, Command, Game, MirrorId, Tick};
use peer_calls::Told;
use peer_packet::{CommandsView, PartView, SentView};
use rolling_mirror::{Arrival, RollingMirror};

// An answer by which a command is counted.
fn is_counted(answer: Arrival) -> bool
    ensures { result ≡ is_counted answer }
{
    match answer {
        Arrival::Taken { repaired: _ } => true,
        Arrival::Repeat => false,
        Arrival::Late { bound: _ } => true,
        Arrival::Far { end: _ } => false,
        Arrival::Full => false,
    }
}

// What is told, with the mirror's answer to a command.
fn with_answer(answer: Arrival, told: Told) -> Told
    requires taken { told.taken + 1 < 2 ^ 32 }
    requires late { told.late + 1 < 2 ^ 64 }
    ensures { result ≡ with_answer answer told }
{
    match answer {
        Arrival::Taken { repaired } => Told {
            taken: told.taken + 1,
            repaired: told.repaired.max(repaired),
            ..told
        },
        Arrival::Repeat => told,
        Arrival::Late { bound: _ } => Told {
            late: told.late + 1,
            ..told
        },
        Arrival::Far { end: _ } => Told { far: true, ..told },
        Arrival::Full => Told { full: true, ..told },
    }
}

// The clock of the mirror's last copy, as a tick of the session.
fn last_tick<G: Game>(mirror: &RollingMirror<G>) -> Tick
    ensures { result ≡ last_tick mirror.now }
{
    mirror.copy_clock(mirror.copies() - 1)
}

// The next command of a slot.
fn next_command(origin: MirrorId, x: &SentBytes, queue: &SlotQueue) -> Command
    ensures { result ≡ next_command origin (sent_of x.now) queue.now.queue }
{
    Command {
        time: x.time,
        number: queue.have(),
        from: origin,
        player: 0,
        act: Act::Go,
    }
}

// The next command of a slot arrives, and is counted or not.
fn hear_next<G: Game>(
    queue: &mut SlotQueue,
    mirror: &mut RollingMirror<G>,
    origin: MirrorId,
    x: &SentBytes,
    told: &mut Told,
) -> bool
    requires number { have_of queue.old.queue + 1 < 2 ^ 32 }
    requires rises { last_time queue.old.queue.gone queue.old.queue.commands ≤ x.now.time }
    requires short { x.now.size ≤ 64 }
    requires taken { told.old.taken + 1 < 2 ^ 32 }
    requires late { told.old.late + 1 < 2 ^ 64 }
    ensures counted { result ≡ counts queue.old.room origin (sent_of x.now) queue.old.queue mirror.old }
    ensures queue { queue.new ≡ record queue.old {
      queue =
          (if result then joined (last_tick mirror.old) (sent_of x.now ∷ []) queue.old.queue else queue.old.queue);
    } }
    ensures mirror { mirror.new ≡ (if result
        then arrived mirror.old (next_command origin (sent_of x.now) queue.old.queue) (said_to_arrival mirror.old (next_command origin (sent_of x.now) queue.old.queue))
        else mirror.old) }
    ensures told { told.new ≡ (if length queue.old.queue.commands == queue.old.room
        then record told.old { full = true }
        else with_answer (said_to_arrival mirror.old (next_command origin (sent_of x.now) queue.old.queue)) told.old) }
{
    if queue.is_full() {
        told.full = true;
        return false;
    }
    let bound = last_tick(mirror);
    let command = next_command(origin, x, queue);
    let answer = mirror.arrive(&command);
    *told = with_answer(answer, *told);
    if !is_counted(answer) {
        return false;
    }
    queue.count(x, bound);
    true
}

// Commands of a slot arrive and are counted, until one isn't.
fn hear_each<G: Game>(
    queue: &mut SlotQueue,
    mirror: &mut RollingMirror<G>,
    origin: MirrorId,
    commands: CommandsView<'_>,
    told: &mut Told,
)
    requires number { have_of queue.old.queue + length commands < 2 ^ 32 }
    requires sent { AreSent 64 (last_time queue.old.queue.gone queue.old.queue.commands) commands }
    requires taken { told.old.taken + length commands < 2 ^ 32 }
    requires late { told.old.late + length commands < 2 ^ 64 }
    ensures heard { heard_of queue.new mirror.new
        ≡ counts_each queue.old.room origin (map sent_from commands.entry) queue.old.queue mirror.old }
    ensures told { told.new ≡ tells_each queue.old.room origin (map sent_from commands.entry) queue.old.queue mirror.old told.old }
    ensures few { (told.new.taken ≤ told.old.taken + length commands.entry) × (told.new.late ≤ told.old.late + length commands.entry) }
    ensures room { queue.new.room ≡ queue.old.room }
{
    let mut left = commands;
    while let Some(x) = left.next() {
        let next = SentBytes::new(x.time, x.payload);
        if !hear_next(queue, mirror, origin, &next, told) {
            return;
        }
    }
}

// A part is heard that begins behind what was counted.
fn hear_behind<G: Game>(
    queue: &mut SlotQueue,
    mirror: &mut RollingMirror<G>,
    part: &PartView<'_>,
    told: &mut Told,
)
    requires number { part.now.first + length part.now.commands < 2 ^ 32 }
    requires behind { have_of queue.old.queue < part.now.first }
    requires sent { AreSent 64 part.now.before part.now.commands }
    requires taken { told.old.taken + length part.now.commands < 2 ^ 32 }
    requires late { told.old.late + 2 ^ 33 < 2 ^ 64 }
    ensures heard { heard_of queue.new mirror.new
        ≡ rolls_part queue.old.room (part_from part.now) queue.old.queue mirror.old }
    ensures told { told.new ≡ tells_part queue.old.room (part_from part.now) queue.old.queue mirror.old told.old }
    ensures few { (told.new.taken ≤ told.old.taken + length part.now.commands) × (told.new.late ≤ told.old.late + 2 ^ 33) }
    ensures room { queue.new.room ≡ queue.old.room }
{
    let head = part.head();
    if head.before >= last_tick(mirror) {
        told.gap = true;
        return;
    }
    told.late += u64::from(head.first - queue.have());
    queue.skip(head.first, head.before);
    hear_each(queue, mirror, head.origin, part.commands(), told);
}

/// A part is heard: numbers `first` on of a slot, of which number `first` - 1 is due at `before`. What is
/// counted of it arrives at the mirror, in order, until the window, the mirror's room or the queue's stops
/// it. A part behind what was counted is left, unless all that is missing is late. What came of it is told.
pub fn hear_part<G: Game>(
    queue: &mut SlotQueue,
    mirror: &mut RollingMirror<G>,
    part: &PartView<'_>,
    told: &mut Told,
)
    requires number { part.now.first + length part.now.commands < 2 ^ 32 }
    requires agrees { conflicts (part_from part.now) queue.old.queue ≡ false }
    requires sent { AreSent 64 part.now.before part.now.commands }
    requires taken { told.old.taken + length part.now.commands < 2 ^ 32 }
    requires late { told.old.late + 2 ^ 33 < 2 ^ 64 }
    ensures heard { heard_of queue.new mirror.new
        ≡ rolls_part queue.old.room (part_from part.now) queue.old.queue mirror.old }
    ensures told { told.new ≡ tells_part queue.old.room (part_from part.now) queue.old.queue mirror.old told.old }
    ensures few { (told.new.taken ≤ told.old.taken + length part.now.commands) × (told.new.late ≤ told.old.late + 2 ^ 33) }
    ensures room { queue.new.room ≡ queue.old.room }
{
    let head = part.head();
    let have = queue.have();
    if have < head.first {
        hear_behind(queue, mirror, part, told);
        return;
    }
    let commands = behind(part, have - head.first);
    hear_each(queue, mirror, head.origin, commands, told);
}
