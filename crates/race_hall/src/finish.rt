//! The finish of a race: what the feeders left is delivered, and each mirror is drained.

ghost use Rattle.std.specs.Prelude.{◌≡◌, ◌≤◌, [], map, vec_len, vec_capacity, ℕ, ◌+◌, ◌-◌, ◌<◌, ◌∷◌, ◌++◌, List, length, drop, slice_index_or};
ghost use Rattle.std.specs.List.{AllByRecursion, AllZip};
ghost use mathlib.Core.List.{IsPrefix};
ghost use Rattle.game_trait.specs.declared.command.Command.{Command};
ghost use Rattle.link_ring.specs.declared.message.Message.{Message};
ghost use Rattle.link_ring.specs.Ends.{waiting_of};
ghost use Rattle.copy_workers.specs.Messages.{commands_in};
ghost use Rattle.race_hall.specs.Finish.{delivered, finished, CanTake, HasNext, EndsAtFold};
ghost use Rattle.race_hall.specs.Undelivered.{left_in, unissued_in, sender_of_end};
ghost use Rattle.sync_model.specs.State.{MirrorState};
ghost use Rattle.link_mesh.specs.Mesh.{SameSends};
ghost use Rattle.race_hall.specs.AfterJoins.{Holding, IsOneHeld, AreHeld, AreJoined};

use copy_workers::FeederEnd;
use game_trait::{Command, Game};
use link_mesh::look_row;
use link_ring::{LinkReceive, LinkSend, Message};
use mirror_core::Mirror;

/// Takes apart what the feeders gave back, mirror by mirror, into empty lists that have room for
/// it: the ends that each mirror sends on, those that it receives on, and its plan with how much of
/// it was issued. It takes no memory.
pub fn part_ends(
    ends: Vec<FeederEnd>,
    sends: &mut Vec<Vec<LinkSend>>,
    rows: &mut Vec<Vec<LinkReceive>>,
    senders: &mut Vec<Sender>,
)
    requires empty { (sends.old.items ≡ []) × (rows.old.items ≡ []) × (senders.old.items ≡ []) }
    requires room { (vec_len ends ≤ vec_capacity sends.old) × (vec_len ends ≤ vec_capacity rows.old)
        × (vec_len ends ≤ vec_capacity senders.old) }
    ensures sends { sends.new.items ≡ map (λ e. e.sends) ends.items }
    ensures rows { rows.new.items ≡ map (λ e. e.receives) ends.items }
    ensures senders { senders.new.items ≡ map sender_of_end ends.items }
{
    for end in ends {
        sends.push_reserved(end.sends);
        rows.push_reserved(end.receives);
        senders.push_reserved(Sender {
            plan: end.plan,
            issued: end.issued,
        });
    }
}

// Delivers what a message brings.
fn take_message<G: Game>(mirror: &mut Mirror<G>, message: &Message)
    requires { CanTake mirror.old (commands_in (message.now ∷ [])) }
    ensures { mirror.new ≡ delivered mirror.old (commands_in (message.now ∷ [])) }
{
    match message {
        Message::Cmd(x) => {
            let _answer = mirror.arrive(x);
        }
        Message::Mark(_) => {}
    }
}

// Delivers the next message of a link, which is known to be there.
fn take_next<G: Game>(mirror: &mut Mirror<G>, link: &mut LinkReceive)
    requires { HasNext mirror.old (waiting_of link.old) }
    ensures taken { (message : Message) (more : List Message)
        → IsPrefix (message ∷ more) (waiting_of link.old)
        → (mirror.new ≡ delivered mirror.old (commands_in (message ∷ [])))
        × IsPrefix more (waiting_of link.new) }
{
    if let Some(message) = link.receive() {
        take_message(mirror, &message);
    }
}

/// Delivers the commands that are left in a link, in the order in which they were sent. It takes as
/// many messages as the link's last look knew of; marks are passed over. The mirror must have room
/// for each command, which must be due within the match.
pub fn take_left<G: Game>(mirror: &mut Mirror<G>, link: &mut LinkReceive)
    requires { CanTake mirror.old (commands_in (waiting_of link.old)) }
    ensures { mirror.new ≡ delivered mirror.old (commands_in (waiting_of link.old)) }
{
    for _ in 0..link.known() {
        take_next(mirror, link);
    }
}

/// Delivers the commands of a plan from a place on, counted from 0, in the plan's order.
pub fn take_plan<G: Game>(mirror: &mut Mirror<G>, plan: &[Command], from: usize)
    requires place { from ≤ length plan.now }
    requires can { CanTake mirror.old (drop from plan.now) }
    ensures { mirror.new ≡ delivered mirror.old (drop from plan.now) }
{
    for x in &plan[from..] {
        let _answer = mirror.arrive(x);
    }
}

/// Delivers what is left in a mirror's links, each to its end, from the first link on.
pub fn take_links<G: Game>(mirror: &mut Mirror<G>, links: &mut [LinkReceive])
    requires { CanTake mirror.old (left_in links.old) }
    ensures { mirror.new ≡ delivered mirror.old (left_in links.old) }
{
    for link in links.iter_mut() {
        take_left(mirror, link);
    }
}

/// What the caller holds of a mirror's feeder.
#[derive(Drop)]
pub struct Sender {
    /// The mirror's own commands, in key order.
    pub plan: Vec<Command>,
    /// How many of them the feeder issued: always the first ones.
    pub issued: u32,
}

/// Delivers what the feeders never issued, from the first sender on, each one's commands in key
/// order. This is this project's own: a feeder whose budget runs out leaves commands that no mirror
/// has seen.
pub fn take_unissued<G: Game>(mirror: &mut Mirror<G>, senders: &[Sender])
    requires places { AllByRecursion (λ one. one.issued ≤ length one.plan.items) senders.now }
    requires can { CanTake mirror.old (unissued_in senders.now) }
    ensures { mirror.new ≡ delivered mirror.old (unissued_in senders.now) }
{
    for one in senders {
        take_plan(mirror, &one.plan, one.issued as usize);
    }
}

/// Finishes a mirror of a race, in three parts: it delivers what is left in the links to it, by
/// rising sender, then what was never issued, by rising sender, and makes turns until it is
/// drained. The order is this project's own.
pub fn finish_mirror<G: Game>(mirror: &mut Mirror<G>, links: &mut [LinkReceive], senders: &[Sender])
    requires places { AllByRecursion (λ one. one.issued ≤ length one.plan.items) senders.now }
    requires can { CanTake mirror.old (left_in links.old ++ unissued_in senders.now) }
    ensures { mirror.new ≡ finished mirror.old (left_in links.old ++ unissued_in senders.now) }
{
    take_links(mirror, links);
    take_unissued(mirror, senders);
    mirror.drain();
}

// Finishes one mirror of a race: afterwards it has every command of the match once, and its copies'
// worlds are at the time-ordered execution of all commands.
fn finish_one<G: Game>(
    number: usize,
    mirror: &mut Mirror<G>,
    sends: &mut [Vec<LinkSend>],
    row: &mut [LinkReceive],
    senders: &[Sender],
)
    requires held { (h : Holding G) × IsOneHeld h number mirror.old sends.old row.old senders.now }
    ensures ends { (h : Holding G) → IsOneHeld h number mirror.old sends.old row.old senders.now
        → EndsAtFold G.rules h.course h.opening mirror.new }
    ensures sends { AllZip SameSends sends.old sends.new }
{
    look_row(number, sends, row);
    finish_mirror(mirror, row, senders);
}

/// Finishes all mirrors of a race, mirror by mirror. Afterwards each has every command of the match
/// once, and its copies' worlds are at the time-ordered execution of all commands, whatever the
/// workers did before they ended.
pub fn finish_race<G: Game>(
    mirrors: &mut [Mirror<G>],
    sends: &mut [Vec<LinkSend>],
    rows: &mut [Vec<LinkReceive>],
    senders: &[Sender],
)
    requires held { (h : Holding G) × AreHeld h mirrors.old sends.old rows.old senders.now }
    ensures ends { (h : Holding G) → AreHeld h mirrors.old sends.old rows.old senders.now
        → (m : ℕ) (s : MirrorState G) → m < length mirrors.new → s ≡ slice_index_or mirrors.new m s
        → EndsAtFold G.rules h.course h.opening s }
{
    for number in 0..mirrors.len() {
        finish_one(
            number,
            &mut mirrors[number],
            sends,
            &mut rows[number],
            senders,
        );
    }
}

/// Finishes a race from what the joins gave: the mirrors of the locks, and what the feeders gave
/// back, mirror by mirror, with empty lists that have room for what these hold. Afterwards each
/// mirror stands as `finish_race` leaves it.
pub fn finish_joined<G: Game>(
    mirrors: &mut [Mirror<G>],
    ends: Vec<FeederEnd>,
    mut sends: Vec<Vec<LinkSend>>,
    mut rows: Vec<Vec<LinkReceive>>,
    mut senders: Vec<Sender>,
)
    requires joined { (h : Holding G) × AreJoined h mirrors.old ends.items }
    requires empty { (sends.items ≡ []) × (rows.items ≡ []) × (senders.items ≡ []) }
    requires room { (vec_len ends ≤ vec_capacity sends) × (vec_len ends ≤ vec_capacity rows)
        × (vec_len ends ≤ vec_capacity senders) }
    ensures { (h : Holding G) → AreJoined h mirrors.old ends.items
        → (m : ℕ) (s : MirrorState G) → m < length mirrors.new → s ≡ slice_index_or mirrors.new m s
        → EndsAtFold G.rules h.course h.opening s }
{
    part_ends(ends, &mut sends, &mut rows, &mut senders);
    finish_race(mirrors, &mut sends, &mut rows, &senders);
}
