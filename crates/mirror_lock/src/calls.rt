//! What is asked of a locked mirror, and what it answers.

ghost use Rattle.std.specs.Prelude.{◌≡◌, ◌<◌, length};
ghost use Rattle.sync_model.specs.Drafts.{ready_of};
ghost use Rattle.mirror_core.specs.Drafts.{drafted};

use game_trait::{Event, Game, Reply};
use mirror_core::{Committed, Draft, Drafted, Mirror, Ready};

/// What is asked of a locked mirror.
#[derive(Drop)]
pub enum LockCall<G: Game> {
    /// That an event is made, which is no change of the plan.
    Event(Event),
    /// The due tick of a copy, to be executed outside the lock.
    Draft {
        /// The copy's number.
        copy: u8,
        /// How many times in a row it is asked for where none is due. While the call is made
        /// nothing changes, so that one answer is that to all of them.
        times: u64,
    },
    /// That a copy runs this tick, which was executed outside the lock.
    Commit(Ready<G>),
}

impl<G: Game> LockCall<G> {
    // Makes it that this event is made. It stands apart, since a value as large as a world is made
    // for it, and that is seldom needed.
    #[cold]
    #[inline(never)]
    fn make_event(&mut self, event: &Event)
        ensures { self.new ≡ LockCall.Event event.now }
    {
        *self = LockCall::Event(*event);
    }

    // Makes it that a draft of this copy is asked for this many times in a row.
    #[cold]
    #[inline(never)]
    fn make_draft(&mut self, copy: u8, times: u64)
        ensures { self.new ≡ LockCall.Draft copy times }
    {
        *self = LockCall::Draft { copy, times };
    }

    // Makes it that this event is made, in the place of the one before.
    pub(crate) fn put_event(&mut self, event: &Event)
        ensures { self.new ≡ LockCall.Event event.now }
    {
        if let LockCall::Event(place) = self {
            *place = *event;
            return;
        }
        self.make_event(event);
    }

    // Makes it that a draft of this copy is asked for this many times in a row, in the place of
    // what was asked before.
    pub(crate) fn put_draft(&mut self, of: u8, in_a_row: u64)
        ensures { self.new ≡ LockCall.Draft of in_a_row }
    {
        if let LockCall::Draft { copy, times } = self {
            *copy = of;
            *times = in_a_row;
            return;
        }
        self.make_draft(of, in_a_row);
    }

    /// Makes it the commit of this draft, which it executes. Where it was a commit before, the tick
    /// is executed in the place of the one before.
    pub fn put_ready(&mut self, draft: &Draft<G>)
        ensures { self.new ≡ LockCall.Commit (ready_of G.rules draft.now) }
    {
        if let LockCall::Commit(ready) = self {
            draft.run_into(ready);
            return;
        }
        *self = LockCall::Commit(draft.ran());
    }
}

/// What it answers, to a call of the same kind.
#[derive(Drop)]
pub enum LockReply<G: Game> {
    /// To an event.
    Event(Reply),
    /// Where a draft is asked for.
    Draft(Drafted<G>),
    /// Where a tick is committed.
    Commit(Committed),
}

impl<G: Game> LockReply<G> {
    // Makes it the answer to an event, in the place of the one before.
    pub(crate) fn put_event(&mut self, reply: Reply)
        ensures { self.new ≡ LockReply.Event reply }
    {
        if let LockReply::Event(place) = self {
            *place = reply;
            return;
        }
        *self = LockReply::Event(reply);
    }

    // Makes it what the mirror answers where a draft of this copy, which is there, is asked for, in
    // the place of the answer before.
    pub(crate) fn put_draft(&mut self, mirror: &mut Mirror<G>, copy: u8)
        requires { copy < length mirror.old.runs }
        ensures draft { self.new ≡ LockReply.Draft (drafted G.rules mirror.old copy) }
        ensures same { mirror.new ≡ mirror.old }
    {
        if let LockReply::Draft(place) = self {
            mirror.draft_into(copy, place);
            return;
        }
        *self = LockReply::Draft(mirror.draft(copy));
    }

    // Makes it the answer to a commit, in the place of the one before.
    pub(crate) fn put_commit(&mut self, committed: Committed)
        ensures { self.new ≡ LockReply.Commit committed }
    {
        if let LockReply::Commit(place) = self {
            *place = committed;
            return;
        }
        *self = LockReply::Commit(committed);
    }
}

/// A slip on which a call of a mirror's lock is written, and what that answers (this project's own).
/// Whoever makes many calls keeps one for each kind: a call of the kind that stands on it is written
/// over it, so that nothing as large as a world is made or moved.
#[derive(Drop)]
pub struct Slip<G: Game> {
    /// The call.
    pub call: LockCall<G>,
    /// The answer.
    pub reply: LockReply<G>,
}

impl<G: Game> Slip<G> {
    /// A slip for a first call, of any kind. What stands on it was never asked or answered.
    pub fn new() -> Slip<G> {
        Slip {
            call: LockCall::Draft { copy: 0, times: 0 },
            reply: LockReply::Draft(Drafted::Idle),
        }
    }
}
