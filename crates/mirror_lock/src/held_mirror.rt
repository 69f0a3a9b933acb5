//! The mirror, as what a lock holds.

ghost use Rattle.std.specs.Prelude.{◌≡◌};
ghost use Rattle.sync_model.specs.Consistent.{IsConsistent};

use crate::calls::{LockCall, LockReply};
use game_trait::{Event, Game};
use mirror_core::Mirror;
use std::marker::Model;
use turn_lock::Held;

/// A mirror behind a lock. Contracts see it as the mirror's state. A call is an event other than a
/// change of the plan, or it takes out a draft, or commits one. An arrival is a growing call.
#[derive(Drop)]
pub struct HeldMirror<G: Game> {
    mirror: Mirror<G>,
}

impl<G: Game> Model for HeldMirror<G> {
    ghost use Rattle.sync_model.specs.State.{MirrorState};

    ghost Value = { MirrorState G };

    ghost view = { λ m. m.mirror };
}

impl<G: Game> HeldMirror<G> {
    /// The mirror, to be held.
    pub fn new(mirror: Mirror<G>) -> HeldMirror<G>
        ensures { result ≡ mirror }
    {
        HeldMirror { mirror }
    }

    /// The mirror again. It is consistent, as a mirror always is.
    pub fn into_mirror(self) -> Mirror<G>
        ensures same { result ≡ self }
        ensures consistent { IsConsistent result }
    {
        let Self { mirror } = self;
        mirror.always();
        mirror
    }
}

impl<G: Game> Held for HeldMirror<G> {
    type Call = LockCall<G>;

    type Reply = LockReply<G>;

    ghost use Rattle.mirror_lock.specs.Locked.{mirror_rules};
    ghost use Rattle.mirror_lock.specs.Laws.{stays, spends};

    ghost rules = { mirror_rules G.rules };

    fn grows(call: &LockCall<G>) -> bool {
        matches!(call, LockCall::Event(Event::Arrive(_)))
    }

    #[inline(always)]
    fn answer(&mut self, call: &LockCall<G>, reply: &mut LockReply<G>) {
        match call {
            LockCall::Event(event) => reply.put_event(self.mirror.make(event)),
            LockCall::Draft { copy, times: _ } => reply.put_draft(&mut self.mirror, *copy),
            LockCall::Commit(ready) => reply.put_commit(self.mirror.commit(ready)),
        }
    }

    ghost laws = { record {
      stays = λ s p q _ fits. stays G.rules s p q fits;
      spends = λ s q _. spends s q;
    } };
}
