//! Ticks that are executed away from their mirror.

ghost use Rattle.std.specs.Prelude.{◌≡◌, ◌<◌, ◌≤◌, length, map, slice_index_or, []};
ghost use Rattle.game_trait.specs.declared.command.Item.TheVariants.{Cmd};
ghost use Rattle.game_trait.specs.Ordered.{due_at};
ghost use Rattle.game_trait.specs.Run.{world_of};
ghost use Rattle.sync_model.specs.Drafts.{ready_of};
ghost use Rattle.sync_model.specs.State.{copy_clock};

use arrayvec::ArrayVec;
use game_trait::{Command, Game, Tick};
use std::marker::Model;
use trailing_copy::LazyStack;

/// How many commands a draft has at most. A tick with more is made by a step.
pub const MOST_DRAFTED: usize = 64;

/// The due tick of a copy, to be executed away from its mirror: the copy, its epoch, its clock and
/// its world, and the tick's commands in key order (this project's own). A mirror gives it.
#[derive(Drop)]
pub struct Draft<G> {
    copy: u8,
    epoch: u64,
    clock: Tick,
    world: G,
    commands: ArrayVec<Command, 64>,
}

impl<G> Model for Draft<G> {
    ghost use Rattle.sync_model.specs.Drafts.{DraftTick};

    ghost Value = { DraftTick G };

    ghost view = { λ d. record {
      copy = d.copy;
      epoch = d.epoch;
      clock = d.clock;
      world = d.world;
      commands = d.commands.items;
    } };
}

impl<G: Game> Draft<G> {
    // The due tick of a copy of these, which is there and has so many commands at most.
    fn of(copy: u8, epoch: u64, stack: &mut LazyStack<G>) -> Draft<G>
        requires there { copy < length stack.old.runs }
        requires fresh { stack.old.stale ≤ copy }
        requires few { length (due_at stack.old.accepted (copy_clock stack.old.runs copy)) ≤ 64 }
        ensures draft { result ≡ record {
          copy = copy;
          epoch = epoch;
          clock = copy_clock stack.old.runs copy;
          world = world_of G.rules stack.old.opening (slice_index_or stack.old.runs copy []);
          commands = due_at stack.old.accepted (copy_clock stack.old.runs copy);
        } }
        ensures same { stack.new ≡ stack.old }
    {
        let mut commands = ArrayVec::new();
        stack.due_into(copy, &mut commands);
        Draft {
            copy,
            epoch,
            clock: stack.clock(copy),
            world: stack.world(copy).twin(),
            commands,
        }
    }

    // Makes it such a tick, in its place.
    fn set(&mut self, copy: u8, epoch: u64, stack: &mut LazyStack<G>)
        requires there { copy < length stack.old.runs }
        requires fresh { stack.old.stale ≤ copy }
        requires few { length (due_at stack.old.accepted (copy_clock stack.old.runs copy)) ≤ 64 }
        ensures draft { self.new ≡ record {
          copy = copy;
          epoch = epoch;
          clock = copy_clock stack.old.runs copy;
          world = world_of G.rules stack.old.opening (slice_index_or stack.old.runs copy []);
          commands = due_at stack.old.accepted (copy_clock stack.old.runs copy);
        } }
        ensures same { stack.new ≡ stack.old }
    {
        self.copy = copy;
        self.epoch = epoch;
        self.clock = stack.clock(copy);
        self.world.set_from(stack.world(copy));
        stack.due_into(copy, &mut self.commands);
    }

    /// The copy's number.
    pub fn copy(&self) -> u8
        ensures { result ≡ self.now.copy }
    {
        self.copy
    }

    /// Executes the tick: the commands in key order, and one beat.
    pub fn run(self) -> Ready<G>
        ensures { result ≡ ready_of G.rules self }
    {
        let Draft {
            copy,
            epoch,
            clock,
            mut world,
            commands,
        } = self;
        execute(&mut world, &commands);
        world.beat();
        Ready {
            copy,
            epoch,
            clock,
            world,
        }
    }

    /// Executes the tick too, in the place of a tick that was executed before, whose world it
    /// writes over.
    pub fn run_into(&self, ready: &mut Ready<G>)
        ensures { ready.new ≡ ready_of G.rules self.now }
    {
        ready.copy = self.copy;
        ready.epoch = self.epoch;
        ready.clock = self.clock;
        ready.world.set_from(&self.world);
        execute(&mut ready.world, &self.commands);
        ready.world.beat();
    }

    /// Executes the tick too, and keeps the draft.
    pub fn ran(&self) -> Ready<G>
        ensures { result ≡ ready_of G.rules self.now }
    {
        let mut world = self.world.twin();
        execute(&mut world, &self.commands);
        world.beat();
        Ready {
            copy: self.copy,
            epoch: self.epoch,
            clock: self.clock,
            world,
        }
    }
}

// Executes commands one after the other.
#[tactic(auto, unfolding(game_trait::specs::Run::world_of))]
fn execute<G: Game>(world: &mut G, commands: &[Command])
    ensures { world.new ≡ world_of G.rules world.old (map Cmd commands.now) }
{
    for x in commands {
        world.apply(x);
    }
}

/// A draft that was executed: its copy, its epoch and its clock as they were, and the world after
/// the tick.
#[derive(Drop)]
pub struct Ready<G> {
    copy: u8,
    epoch: u64,
    clock: Tick,
    world: G,
}

impl<G> Model for Ready<G> {
    ghost use Rattle.sync_model.specs.Drafts.{ReadyTick};

    ghost Value = { ReadyTick G };

    ghost view = { λ r. record {
      copy = r.copy;
      epoch = r.epoch;
      clock = r.clock;
      world = r.world;
    } };
}

impl<G: Game> Ready<G> {
    /// The copy's number.
    pub fn copy(&self) -> u8
        ensures { result ≡ self.now.copy }
    {
        self.copy
    }

    /// The copy's epoch when the tick was drafted.
    pub fn epoch(&self) -> u64
        ensures { result ≡ self.now.epoch }
    {
        self.epoch
    }

    /// The copy's clock when the tick was drafted, in ticks.
    pub fn clock(&self) -> Tick
        ensures { result ≡ self.now.clock }
    {
        self.clock
    }

    /// The world after the tick.
    pub fn world(&self) -> &G
        ensures { result.now ≡ self.now.world }
    {
        &self.world
    }
}

/// What a mirror answers where a draft of a copy is asked for.
#[derive(Drop)]
pub enum Drafted<G> {
    /// The copy's due tick.
    Draft(Draft<G>),
    /// The copy stands at its limit.
    Idle,
    /// So many commands are due at the copy's clock, more than a draft has.
    Wide {
        /// How many.
        commands: u32,
    },
}

impl<G: Game> Drafted<G> {
    // Says that the copy stands at its limit. Where it said so before, nothing is written.
    pub(crate) fn put_idle(&mut self)
        ensures { self.new ≡ Drafted.Idle }
    {
        match self {
            Drafted::Idle => {}
            Drafted::Draft(_) => *self = Drafted::Idle,
            Drafted::Wide { commands: _ } => *self = Drafted::Idle,
        }
    }

    // Makes it the due tick of a copy of these, which is there and has so many commands at most.
    // Where it was a draft before, the new one takes its place.
    pub(crate) fn put(&mut self, copy: u8, epoch: u64, stack: &mut LazyStack<G>)
        requires there { copy < length stack.old.runs }
        requires fresh { stack.old.stale ≤ copy }
        requires few { length (due_at stack.old.accepted (copy_clock stack.old.runs copy)) ≤ 64 }
        ensures draft { self.new ≡ Drafted.Draft (record {
          copy = copy;
          epoch = epoch;
          clock = copy_clock stack.old.runs copy;
          world = world_of G.rules stack.old.opening (slice_index_or stack.old.runs copy []);
          commands = due_at stack.old.accepted (copy_clock stack.old.runs copy);
        }) }
        ensures same { stack.new ≡ stack.old }
    {
        if let Drafted::Draft(draft) = self {
            draft.set(copy, epoch, stack);
            return;
        }
        *self = Drafted::Draft(Draft::of(copy, epoch, stack));
    }
}

/// What a mirror answers where a ready tick is committed.
#[derive(Clone, Copy, Debug, PartialEq, Eq)]
pub enum Committed {
    /// The copy ran the tick, and so many copies were repaired.
    Ran {
        /// How many.
        repaired: u8,
    },
    /// The copy's epoch isn't that of the tick: nothing changed.
    Stale {
        /// The tick's epoch.
        held: u64,
        /// The copy's.
        now: u64,
    },
}
