//! A peer's turns, steps, plans and marks.

ghost use Rattle.std.specs.Prelude.{◌≡◌, ◌+◌, List, ◌∷◌, length, nat_lt, option_map};
ghost use Rattle.game_trait.specs.declared.event.Reply.{Reply};
ghost use Rattle.game_trait.specs.declared.event.Ticked.{Ticked};
ghost use Rattle.sync_model.specs.Host.{most_repaired};
ghost use Rattle.rolling_mirror.specs.Rolling.{last_tick};
ghost use Rattle.peer_calls.specs.Moving.{after_turn, said_to_peers_turn, after_step, said_to_peers_step, after_restagger, after_mark};
ghost use Rattle.peer_slots.specs.Links.{links_of, said_to_mark};
ghost use Rattle.peer_session.specs.Parts.{state_of, forgotten_by};

use crate::peer::Peer;
use game_trait::{Game, Reply, Stepped, Tick, Ticked};
use peer_calls::TurnAnswer;
use peer_handing::last_tick;
use sync_model::repaired_in;

// The most copies that one of these answers tells of as repaired.
#[tactic(auto, unfolding(sync_model::specs::Host::most_repaired))]
fn most_repaired(replies: &[Reply]) -> u8
    ensures { result ≡ most_repaired replies.now }
{
    let mut most = 0;
    for reply in replies {
        most = most.max(repaired_in(reply));
    }
    most
}

// What the first of these answers, which is to a tick, tells of the clock.
fn ticked_in(replies: &[Reply]) -> Ticked
    requires { (rest : List Reply) × (t : Ticked) × (replies.now ≡ Reply.Tick t ∷ rest) }
    ensures { (t : Ticked) (rest : List Reply) → replies.now ≡ Reply.Tick t ∷ rest → result ≡ t }
{
    match replies {
        [Reply::Tick(ticked), ..] => *ticked,
        _ => Ticked::Over,
    }
}

impl<G: Game> Peer<G> {
    /// A tick of the clock, a step of each copy from copy 0 on, also where the clock doesn't move, and
    /// then what the last copy passed more than `keep` ticks ago is forgotten.
    pub fn turn(&mut self) -> TurnAnswer
        ensures answer { result ≡ said_to_peers_turn G.rules (state_of self.old) }
        ensures state { state_of self.new ≡ after_turn G.rules self.old.config (state_of self.old) }
        ensures config { self.new.config ≡ self.old.config }
        ensures forgotten { self.new.forgotten ≡ self.old.forgotten + forgotten_by self.old.roll }
    {
        let base = self.mirror.base();
        let spare = self.mirror.spare();
        let replies = self.mirror.turn();
        let ticks = self.mirror.base() - base;
        let commands = self.mirror.spare() - spare;
        self.forgotten += u64::from(ticks) + u64::from(commands);
        let bound = self.last_tick().saturating_sub(self.config.keep);
        self.queues.trim(bound);
        TurnAnswer {
            ticked: ticked_in(replies.as_slice()),
            repaired: most_repaired(replies.as_slice()),
        }
    }

    // The last copy's clock, as a tick of the session.
    pub(crate) fn last_tick(&self) -> Tick
        ensures { result ≡ last_tick self.now.roll }
    {
        last_tick(&self.mirror)
    }

    /// A step of a copy, where it may run a tick. `None`: there is no such copy.
    pub fn step(&mut self, copy: u8) -> Option<Stepped>
        ensures answer { option_map Reply.Step result ≡ said_to_peers_step copy (state_of self.old) }
        ensures state { state_of self.new ≡ after_step copy (state_of self.old) }
        ensures config { self.new.config ≡ self.old.config }
        ensures forgotten { self.new.forgotten ≡ self.old.forgotten }
    {
        if copy >= self.mirror.copies() {
            return None;
        }
        Some(self.mirror.step(copy))
    }

    /// The plan of this number is in force from here on, at this peer alone. False: there is none.
    pub fn restagger(&mut self, plan: u8) -> bool
        ensures answer { result ≡ nat_lt plan (length self.old.roll.left.plans) }
        ensures state { state_of self.new ≡ after_restagger plan (state_of self.old) }
        ensures config { self.new.config ≡ self.old.config }
        ensures forgotten { self.new.forgotten ≡ self.old.forgotten }
    {
        if usize::from(plan) >= self.mirror.plans() {
            return false;
        }
        self.mirror.restagger(plan);
        true
    }

    /// Marks the sum of the last copy's world at its clock, and answers that tick and how many others'
    /// newest marks are of it with another sum. `None`: that tick or a later one is marked.
    pub fn mark(&mut self, sum: u32) -> Option<(Tick, u8)>
        ensures answer { result
            ≡ option_map (λ n. (last_tick self.old.roll, n)) (said_to_mark (record { tick = last_tick self.old.roll; sum = sum }) (links_of self.old.links)) }
        ensures state { state_of self.new ≡ after_mark sum (state_of self.old) }
        ensures config { self.new.config ≡ self.old.config }
        ensures forgotten { self.new.forgotten ≡ self.old.forgotten }
    {
        let tick = self.last_tick();
        match self.links.mark(tick, sum) {
            Some(differing) => Some((tick, differing)),
            None => None,
        }
    }
}
