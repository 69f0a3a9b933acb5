//! A mirror of a match.

ghost use Rattle.std.specs.Prelude.{◌≡◌, ◌<◌, ◌≤◌, ◌^◌, ◌⊎◌, IfSome, IfNone, [], length, slice_index_or};
ghost use Rattle.game_trait.specs.Run.{world_of};
ghost use Rattle.sync_model.specs.State.{copy_clock as clock_of};
ghost use Rattle.sync_model.specs.Change.{next, said};
ghost use Rattle.sync_model.specs.History.{repairs as repairs_of};
ghost use Rattle.sync_model.specs.Turns.{drain};
ghost use Rattle.sync_model.specs.Drafts.{epoch as epoch_of, ready_of, FitsReady};
ghost use Rattle.mirror_core.specs.Drained.{AreInOrder};
ghost use Rattle.mirror_core.specs.Drafts.{drafted as drafted_by, committed_to, committed, IfDraft};

use crate::drafts::{Committed, Drafted, Ready};
use crate::mirror_with::MirrorWith;
use crate::policy::Eager;
use game_trait::{Arrived, Command, Event, Game, Reply, Tick};
use sync_model::Turned;

/// A mirror of a match, with 1 to 8 copies of the world: the mirror of the paper of 2002. Each of its
/// copies' worlds is always made. Contracts see it as a state of the model, which says what each
/// event changes and what is answered. Only `new` takes memory.
pub type Mirror<G> = MirrorWith<G, Eager>;

impl<G: Game> Mirror<G> {
    /// What `arrive` does, for a command that may be due at any tick: `None`, and nothing changes,
    /// where it isn't due within the match or no room is left for an arrival (this project's own).
    pub fn try_arrive(&mut self, x: &Command) -> Option<Arrived>
        ensures may { IfSome result (λ _. (x.now.time < self.old.length) × (0 < self.old.spare)) }
        ensures state { IfSome result (λ _. self.new ≡ next self.old (Event.Arrive x.now)) }
        ensures answer { IfSome result
            (λ arrived. said self.old (Event.Arrive x.now) ≡ Reply.Arrive arrived) }
        ensures none { IfNone result ((self.old.length ≤ x.now.time) ⊎ (self.old.spare ≡ 0)) }
        ensures same { IfNone result (self.new ≡ self.old) }
    {
        if x.time < self.length() && 0 < self.spare() {
            Some(self.arrive(x))
        } else {
            None
        }
    }

    /// The copy's epoch: how many events have renewed it. The copy is there.
    pub fn epoch(&self, copy: u8) -> u64
        requires { copy < length self.now.runs }
        ensures { result ≡ epoch_of self.now copy }
    {
        let _ = self.core.stack.spare();
        self.core.epochs.of(copy)
    }

    /// The copy's due tick, to be executed away from the mirror and then committed. The copy is
    /// there. Where it stands at its limit the answer is Idle; else, where more than 64 commands
    /// are due at its clock, Wide, with how many; else the draft, which fits, once it is run, what
    /// the mirror is now and whatever it becomes. Contracts see no change of the mirror: commands that
    /// came since the last step are put in key order.
    #[inline(always)]
    pub fn draft(&mut self, copy: u8) -> Drafted<G>
        requires { copy < length self.old.runs }
        ensures answer { result ≡ drafted_by G.rules self.old copy }
        ensures fits { IfDraft result (λ d. FitsReady G.rules self.old (ready_of G.rules d)) }
        ensures same { self.new ≡ self.old }
    {
        let mut drafted = Drafted::Idle;
        self.core.draft_into(copy, &mut drafted);
        drafted
    }

    /// Puts what `draft` answers in the place of what was answered before. Where both are drafts,
    /// the new one's world and commands are written over the old one's, and nothing is moved.
    #[inline(always)]
    pub fn draft_into(&mut self, copy: u8, drafted: &mut Drafted<G>)
        requires { copy < length self.old.runs }
        ensures answer { drafted.new ≡ drafted_by G.rules self.old copy }
        ensures fits { IfDraft drafted.new (λ d. FitsReady G.rules self.old (ready_of G.rules d)) }
        ensures same { self.new ≡ self.old }
    {
        self.core.draft_into(copy, drafted);
    }

    /// Makes the step that a ready tick stands for, which fits the mirror, without executing the
    /// tick again. Where the copy's epoch is no longer that of the tick nothing changes, and the
    /// answer is Stale, with both. Else the answer is Ran, with how many copies were repaired.
    pub fn commit(&mut self, r: &Ready<G>) -> Committed
        requires { FitsReady G.rules self.old r.now }
        ensures state { self.new ≡ committed_to self.old r.now }
        ensures answer { result ≡ committed self.old r.now }
    {
        let committed = self.core.commit(r);
        self.core.refresh();
        committed
    }

    /// Makes turns until every copy has run the whole match. Each copy's world is then the
    /// time-ordered execution of what was accepted.
    pub fn drain(&mut self)
        ensures state { self.new ≡ drain self.old }
        ensures worlds { AreInOrder G.rules self.new }
    {
        self.always();
        self.run_to_the_end();
    }

    /// The opening world, a twin of the one that `new` was given.
    pub fn opening(&self) -> &G
        ensures { result.now ≡ self.now.opening }
    {
        self.core.stack.opening()
    }

    /// The clock, in ticks.
    pub fn clock(&self) -> Tick
        ensures { result ≡ self.now.clock }
    {
        self.core.clock
    }

    /// The match's length, in ticks.
    pub fn length(&self) -> Tick
        ensures { result ≡ self.now.length }
    {
        self.core.stagger().length()
    }

    /// How many plans there are, 1 to 8.
    pub fn plans(&self) -> usize
        ensures { result ≡ length self.now.plans }
    {
        self.core.plans.len()
    }

    /// The number of the plan that is in force.
    pub fn plan(&self) -> u8
        ensures { result ≡ self.now.plan }
    {
        self.core.plan
    }

    /// How many copies there are, 1 to 8.
    pub fn copies(&self) -> u8
        ensures { result ≡ length self.now.runs }
    {
        self.core.stagger().copies()
    }

    /// The copy's clock, in ticks. The copy is there.
    pub fn copy_clock(&self, copy: u8) -> Tick
        requires { copy < length self.now.runs }
        ensures { result ≡ clock_of self.now.runs copy }
    {
        self.core.stack.clock(copy)
    }

    /// The copy's live world: the opening after all items of its run. The copy is there.
    pub fn world(&self, copy: u8) -> &G
        requires { copy < length self.now.runs }
        ensures { result.now
            ≡ world_of G.rules self.now.opening (slice_index_or self.now.runs copy []) }
    {
        self.core.stack.world(copy)
    }

    /// What `world` answers, of a copy that may not be there: `None` where it isn't (this project's
    /// own).
    pub fn try_world(&self, copy: u8) -> Option<&G>
        ensures there { IfSome result (λ _. copy < length self.now.runs) }
        ensures world { IfSome result (λ world. world.now
            ≡ world_of G.rules self.now.opening (slice_index_or self.now.runs copy [])) }
        ensures none { IfNone result (length self.now.runs ≤ copy) }
    {
        if copy < self.copies() {
            Some(self.world(copy))
        } else {
            None
        }
    }

    /// The commands that were accepted, in order of arrival.
    pub fn accepted(&self) -> &[Command]
        ensures { result.now ≡ self.now.accepted }
    {
        self.core.stack.accepted()
    }

    /// The arrivals that were turned away, in order.
    pub fn turned(&self) -> &[Turned]
        ensures { result.now ≡ self.now.turned }
    {
        &self.core.turned
    }

    /// The history: the events that changed the mirror, at most 4,194,304.
    pub fn events(&self) -> &[Event]
        ensures events { result.now ≡ self.now.history }
        ensures few { length result.now ≤ 2 ^ 22 }
    {
        &self.core.history
    }

    /// How many copies were repaired, in all.
    pub fn repairs(&self) -> u64
        ensures { result ≡ repairs_of self.now }
    {
        self.core.repairs
    }

    /// How many more changes of the plan there is room for.
    pub fn plan_spare(&self) -> u32
        ensures { result ≡ self.now.plan_spare }
    {
        self.core.plan_spare
    }
}
