//! The copies of a mirror over one list of runs, with worlds that may still be to be made.

ghost use Rattle.std.specs.Prelude.{◌≡◌, ℕ, ◌+◌, ◌-◌, ◌<◌, ◌≤◌, false, true, Some, IfOk, IfSome, [], ◌∷◌};
ghost use Rattle.std.specs.Prelude.{◌++◌, length, max, option_copied, slice_get, slice_index_or, replicate};
ghost use Rattle.std.specs.List.{AllByRecursion, list_any};
ghost use Rattle.game_trait.specs.declared.limits.TheConstants.{LONGEST_MATCH, MOST_COPIES};
ghost use Rattle.game_trait.specs.declared.limits.TheConstants.{MOST_ROOM};
ghost use Rattle.game_trait.specs.Run.{beats, world_of};
ghost use Rattle.game_trait.specs.Keys.{NamesDiffer, same_name};
ghost use Rattle.game_trait.specs.Ordered.{due_at};
ghost use Rattle.sync_model.specs.Settle.{begins_with, settle, repaired};
ghost use Rattle.sync_model.specs.Staggered.{IsTrailing};
ghost use Rattle.sync_model.specs.Change.{with_tick, proposed_by_arrival, proposed_by_step};
ghost use Rattle.sync_model.specs.State.{copy_clock, last_clock};
ghost use Rattle.sync_model.specs.Repairs.{is_late_at, IsLastLate};
ghost use Rattle.pending_list.specs.Buckets.{start_of};

use crate::clocks::{count_above, kept, kept_with};
use crate::due::due_into;
use crate::repairs::{bring_to_list_end, remake_runs_ahead, settled_by};
use crate::ticks::execute_or_put;
use crate::worlds::{apply_to_each, execute_items, make_worlds};
use arrayvec::ArrayVec;
use divergence_check::diverges;
use executed_list::Segments;
use game_trait::{Command, Game, Item, Tick};
use pending_list::Buckets;
use repair_copy::append_tick;
use std::alloc::Global;
use std::marker::Model;
use tss_base::NoMemory;

/// The copies of a mirror, between whose events the worlds of the first may still be to be made
/// (this project's own). All runs are kept as one list. The runs that an arrival or a step repairs
/// are made anew at once, and their worlds by `refresh`, once for all that came before it. Contracts
/// see the opening world, the match's length in ticks, the accepted commands in order of acceptance,
/// the runs from copy 0 on, for how many more commands there is room, and how many copies, from copy
/// 0 on, have worlds that are still to be made. Only `new` takes memory.
#[derive(Drop)]
pub struct LazyStack<G: Game> {
    pub(crate) opening: G,
    pub(crate) list: Buckets,
    pub(crate) run: Segments,
    pub(crate) worlds: Vec<G>,
    // how many copies, from copy 0 on, have worlds that are still to be made
    stale: u8,
    // a copy ahead of whose run all stands in time order
    settled: u8,
}

impl<G: Game> Model for LazyStack<G> {
    ghost use Rattle.executed_list.specs.Segments.{clocks_at, runs_at};
    ghost use Rattle.trailing_copy.specs.Stack.{LazyCopies, IsStack, IsSettled};

    ghost Value = { LazyCopies G };

    ghost view = { λ s. record {
      opening = s.opening;
      ticks = s.list.ticks;
      accepted = s.list.all;
      runs = runs_at s.run.items s.run.ends;
      spare = s.list.spare;
      stale = s.stale;
    } };

    ghost invariant = { λ s. IsStack G.rules s.opening s.list.ticks s.list.all s.list.spare s.run
        s.worlds.items (clocks_at s.run.items s.run.ends) s.stale
        × IsSettled s.list.all s.run (clocks_at s.run.items s.run.ends) s.settled };
}

impl<G: Game> LazyStack<G> {
    /// 1 to 8 copies that have run nothing, in a match of 1 to 8,192 ticks, with room for so many
    /// commands, at most 1,048,576. On `NoMemory` nothing is created.
    pub fn new(
        alloc: Global,
        opening: &G,
        copies: u8,
        length: Tick,
        room: u32,
    ) -> Result<LazyStack<G>, NoMemory>
        requires copies { (0 < copies) × (copies ≤ MOST_COPIES) }
        requires length { (0 < length) × (length ≤ LONGEST_MATCH) }
        requires room { room ≤ MOST_ROOM }
        ensures { IfOk result (λ s. s ≡ record {
          opening = opening.now;
          ticks = length;
          accepted = [];
          runs = replicate copies [];
          spare = room;
          stale = 0;
        }) }
    {
        let mut worlds = Vec::with_capacity(alloc, copies as usize)?;
        for made in 0..copies {
            let _ = made;
            worlds.push_reserved(opening.twin());
        }
        Ok(LazyStack {
            opening: opening.twin(),
            list: Buckets::new(alloc, length, room)?,
            run: Segments::new(alloc, copies, length + room)?,
            worlds,
            stale: 0,
            settled: 0,
        })
    }

    /// What always holds of the copies: their runs are staggered, no copy's clock is past the match's
    /// end, and the accepted commands have different names and are due within the match. It does
    /// nothing.
    pub fn always(&self)
        ensures trailing { IsTrailing self.now.accepted self.now.runs }
        ensures within_match { AllByRecursion (λ run. beats run ≤ self.now.ticks) self.now.runs }
        ensures names { NamesDiffer self.now.accepted }
        ensures due { AllByRecursion (λ x. x.time < self.now.ticks) self.now.accepted }
    {
        let _ = self.list.all();
    }

    // Where the commands of the copy's due tick begin in key order, which needs no search: its run has
    // all commands that are older than its clock, and as many beats as it tells.
    fn due_start(&self, copy: u8) -> u32
        requires { copy < length self.now.runs }
        ensures { result ≡ start_of self.now.accepted (copy_clock self.now.runs copy) }
    {
        self.run.always();
        self.run.end(copy) - self.run.beats(copy)
    }

    // A tick of copy 0, or of a copy whose new run the copy ahead doesn't begin with. The runs of the
    // copies ahead are made anew, and their worlds left to be made.
    fn step_apart(&mut self, copy: u8, given: Option<&G>)
        requires copy { copy < length self.old.runs }
        requires below { copy_clock self.old.runs copy < self.old.ticks }
        requires behind { 0 < copy
            → copy_clock self.old.runs copy < copy_clock self.old.runs (copy - 1) }
        requires apart { 0 < copy
            → begins_with (slice_index_or self.old.runs (copy - 1) [])
            (with_tick self.old.accepted (slice_index_or self.old.runs copy [])) ≡ false }
        requires given { IfSome (option_copied given) (λ world. world
            ≡ world_of G.rules self.old.opening
            (with_tick self.old.accepted (slice_index_or self.old.runs copy []))) }
        ensures runs { self.new
            ≡ record self.old {
              runs =
                  settle self.old.accepted (proposed_by_step self.old.accepted self.old.runs copy);
              stale = max self.old.stale copy;
            } }
        ensures repaired { copy
            ≡ repaired self.old.accepted (proposed_by_step self.old.accepted self.old.runs copy) }
    {
        self.run.always();
        let t = self.run.beats(copy);
        let start = self.due_start(copy);
        let clocks = kept_with(self.run.clocks(), copy, t + 1);
        self.list.settle();
        let list = self.list.in_order();
        self.run.cut(copy);
        let from = self.run.len();
        append_tick(&list, start, t, &mut self.run);
        self.run.always();
        execute_or_put(&mut self.worlds, self.stale, copy, &list, start, t, given);
        bring_to_list_end(&mut self.run, copy, from);
        remake_runs_ahead(&mut self.run, &list, &clocks, copy);
        let stale = self.stale.max(copy);
        let settled = settled_by(copy, self.settled);
        self.stale = stale;
        self.settled = settled;
    }

    // A tick of a copy whose new run the copy ahead begins with.
    fn step_front(&mut self, copy: u8, given: Option<&G>)
        requires copy { (0 < copy) × (copy < length self.old.runs) }
        requires below { copy_clock self.old.runs copy < self.old.ticks }
        requires behind { copy_clock self.old.runs copy < copy_clock self.old.runs (copy - 1) }
        requires front { begins_with (slice_index_or self.old.runs (copy - 1) [])
            (with_tick self.old.accepted (slice_index_or self.old.runs copy [])) ≡ true }
        requires given { IfSome (option_copied given) (λ world. world
            ≡ world_of G.rules self.old.opening
            (with_tick self.old.accepted (slice_index_or self.old.runs copy []))) }
        ensures runs { self.new
            ≡ record self.old {
              runs =
                  settle self.old.accepted (proposed_by_step self.old.accepted self.old.runs copy);
            } }
        ensures repaired { 0
            ≡ repaired self.old.accepted (proposed_by_step self.old.accepted self.old.runs copy) }
    {
        self.run.always();
        let t = self.run.beats(copy);
        let start = self.due_start(copy);
        self.list.settle();
        let list = self.list.in_order();
        let by = execute_or_put(&mut self.worlds, self.stale, copy, &list, start, t, given);
        self.run.pass(copy, by);
    }

    // Whether the run ahead begins with the copy's run and its due tick. Contracts see no change.
    fn is_front(&mut self, copy: u8) -> bool
        requires copy { (0 < copy) × (copy < length self.old.runs) }
        requires behind { copy_clock self.old.runs copy < copy_clock self.old.runs (copy - 1) }
        ensures front { result
            ≡ begins_with (slice_index_or self.old.runs (copy - 1) [])
            (with_tick self.old.accepted (slice_index_or self.old.runs copy [])) }
        ensures same { self.new ≡ self.old }
    {
        self.run.always();
        let t = self.run.beats(copy);
        let start = self.due_start(copy);
        let place = self.run.end(copy);
        self.list.settle();
        diverges(&self.run, place, &self.list.in_order(), start, t).is_none()
    }

    // The due tick of a copy, as `run_tick` says it, or where the copy's world after it is given, as
    // `commit_tick` does.
    fn step<'a>(&'a mut self, copy: u8, given: Option<&'a G>) -> u8
        requires there { copy < length self.old.runs }
        requires below { copy_clock self.old.runs copy < self.old.ticks }
        requires behind { 0 < copy
            → copy_clock self.old.runs copy < copy_clock self.old.runs (copy - 1) }
        requires given { IfSome (option_copied given) (λ world. world
            ≡ world_of G.rules self.old.opening
            (with_tick self.old.accepted (slice_index_or self.old.runs copy []))) }
        ensures state { self.new
            ≡ record self.old {
              runs =
                  settle self.old.accepted (proposed_by_step self.old.accepted self.old.runs copy);
              stale = max self.old.stale result;
            } }
        ensures repaired { result
            ≡ repaired self.old.accepted (proposed_by_step self.old.accepted self.old.runs copy) }
    {
        if copy == 0 {
            self.step_apart(copy, given);
            return 0;
        }
        if self.is_front(copy) {
            self.step_front(copy, given);
            return 0;
        }
        self.step_apart(copy, given);
        copy
    }

    /// Runs the due tick of a copy, which is there, below the match's end and behind the copy
    /// ahead, and compares it with the run ahead: where that doesn't begin with the new run, the
    /// copies ahead are repaired, their runs at once and their worlds by `refresh`. Answers how many
    /// were repaired. The copy's world executes the tick, but where it is still to be made. Where no
    /// copy is repaired, it costs the tick alone.
    pub fn run_tick(&mut self, copy: u8) -> u8
        requires there { copy < length self.old.runs }
        requires below { copy_clock self.old.runs copy < self.old.ticks }
        requires behind { 0 < copy
            → copy_clock self.old.runs copy < copy_clock self.old.runs (copy - 1) }
        ensures state { self.new
            ≡ record self.old {
              runs =
                  settle self.old.accepted (proposed_by_step self.old.accepted self.old.runs copy);
              stale = max self.old.stale result;
            } }
        ensures repaired { result
            ≡ repaired self.old.accepted (proposed_by_step self.old.accepted self.old.runs copy) }
    {
        self.step(copy, None)
    }

    /// Does what `run_tick` does, with the copy's world after its due tick given: the tick isn't
    /// executed again, and the copy's world is made equal to this one, but where it is still to be
    /// made.
    pub fn commit_tick(&mut self, copy: u8, world: &G) -> u8
        requires there { copy < length self.old.runs }
        requires below { copy_clock self.old.runs copy < self.old.ticks }
        requires behind { 0 < copy
            → copy_clock self.old.runs copy < copy_clock self.old.runs (copy - 1) }
        requires world { world.now
            ≡ world_of G.rules self.old.opening
            (with_tick self.old.accepted (slice_index_or self.old.runs copy [])) }
        ensures state { self.new
            ≡ record self.old {
              runs =
                  settle self.old.accepted (proposed_by_step self.old.accepted self.old.runs copy);
              stale = max self.old.stale result;
            } }
        ensures repaired { result
            ≡ repaired self.old.accepted (proposed_by_step self.old.accepted self.old.runs copy) }
    {
        self.step(copy, Some(world))
    }

    // The arrival of a command that is late at the copies up to `last`, of which those from `first`
    // on have one clock. The worlds ahead of these are left to be made.
    fn arrive_late(&mut self, x: &Command, first: u8, last: u8)
        requires room { 0 < self.old.spare }
        requires within { x.now.time < self.old.ticks }
        requires new_name { list_any (same_name x.now) self.old.accepted ≡ false }
        requires due { last_clock self.old.runs ≤ x.now.time }
        requires late { IsLastLate x.now self.old.runs last }
        requires order { first ≤ last }
        requires level { (i : ℕ) → first ≤ i → i ≤ last
            → copy_clock self.old.runs i ≡ copy_clock self.old.runs last }
        ensures { self.new ≡ record self.old {
          accepted = self.old.accepted ++ x.now ∷ [];
          runs = settle (self.old.accepted ++ x.now ∷ []) (proposed_by_arrival x.now self.old.runs);
          spare = self.old.spare - 1;
          stale = max self.old.stale first;
        } }
    {
        self.run.always();
        self.list.insert(x);
        let stale = self.stale.max(first);
        apply_to_each(&mut self.worlds, stale, last, x);
        self.stale = stale;
        let settled = self.settled;
        self.settled = last;
        if last <= settled {
            self.run.insert(last, &Item::Cmd(*x));
            return;
        }
        let clocks = kept(self.run.clocks());
        self.run.cut(last);
        let from = self.run.len();
        self.run.push(&Item::Cmd(*x));
        bring_to_list_end(&mut self.run, last, from);
        self.list.settle();
        remake_runs_ahead(&mut self.run, &self.list.in_order(), &clocks, first);
    }

    // The arrival of a command that is late at no copy.
    fn arrive_early(&mut self, x: &Command)
        requires room { 0 < self.old.spare }
        requires within { x.now.time < self.old.ticks }
        requires new_name { list_any (same_name x.now) self.old.accepted ≡ false }
        requires due { last_clock self.old.runs ≤ x.now.time }
        requires early { list_any (is_late_at x.now) self.old.runs ≡ false }
        ensures { self.new ≡ record self.old {
          accepted = self.old.accepted ++ x.now ∷ [];
          runs = settle (self.old.accepted ++ x.now ∷ []) (proposed_by_arrival x.now self.old.runs);
          spare = self.old.spare - 1;
        } }
    {
        self.run.always();
        self.list.insert(x);
    }

    /// Accepts a command of a new name that is due within the match and not before the last copy's
    /// clock, where there is room. Of the copies at which it is late, those with the last one's
    /// clock have it as their next item; their worlds execute it at once, but where they are still
    /// to be made. Those with a greater clock are repaired: their runs at once, and their worlds by
    /// `refresh`. Answers how many were repaired. Where none is late, it costs the command's place
    /// alone.
    pub fn accept(&mut self, x: &Command) -> u8
        requires room { 0 < self.old.spare }
        requires within { x.now.time < self.old.ticks }
        requires new_name { list_any (same_name x.now) self.old.accepted ≡ false }
        requires due { last_clock self.old.runs ≤ x.now.time }
        ensures state { self.new ≡ record self.old {
          accepted = self.old.accepted ++ x.now ∷ [];
          runs = settle (self.old.accepted ++ x.now ∷ []) (proposed_by_arrival x.now self.old.runs);
          spare = self.old.spare - 1;
          stale = max self.old.stale result;
        } }
        ensures repaired { result
            ≡ repaired (self.old.accepted ++ x.now ∷ []) (proposed_by_arrival x.now self.old.runs) }
    {
        self.run.always();
        let late = count_above(self.run.clocks(), x.time);
        if late == 0 {
            self.arrive_early(x);
            return 0;
        }
        let last = late - 1;
        let repaired = count_above(self.run.clocks(), self.run.beats(last));
        self.arrive_late(x, repaired, last);
        repaired
    }

    /// Makes the worlds that are still to be made, each from that of the copy behind it and from
    /// the items between their ends. However many arrivals left them so, each item is executed
    /// once.
    pub fn refresh(&mut self)
        ensures { self.new ≡ record self.old { stale = 0 } }
    {
        make_worlds(&mut self.worlds, &self.run, self.stale);
        self.stale = 0;
    }

    /// Leaves the worlds of all copies but the last to be made, so that their ticks execute nothing
    /// before `refresh`.
    pub fn defer(&mut self)
        ensures { self.new ≡ record self.old { stale = length self.old.runs - 1 } }
    {
        self.stale = self.run.copies() - 1;
    }

    /// The opening world, a twin of the one that `new` was given.
    pub fn opening(&self) -> &G
        ensures { result.now ≡ self.now.opening }
    {
        &self.opening
    }

    /// For how many more commands there is room.
    pub fn spare(&self) -> u32
        ensures { result ≡ self.now.spare }
    {
        self.list.spare()
    }

    /// The accepted commands, in order of acceptance.
    pub fn accepted(&self) -> &[Command]
        ensures { result.now ≡ self.now.accepted }
    {
        self.list.all()
    }

    /// How many of the accepted commands are due at the copy's clock. The copy is there, and hasn't
    /// run all ticks. Commands that came since the last tick are put in key order; contracts see no
    /// change.
    pub fn due_len(&mut self, copy: u8) -> u32
        requires there { copy < length self.old.runs }
        requires below { copy_clock self.old.runs copy < self.old.ticks }
        ensures len { result ≡ length (due_at self.old.accepted (copy_clock self.old.runs copy)) }
        ensures same { self.new ≡ self.old }
    {
        self.run.always();
        let start = self.due_start(copy);
        self.list.settle();
        self.list.in_order().end(start, self.run.beats(copy)) - start
    }

    /// Puts the accepted commands that are due at the copy's clock, in key order, in the place of
    /// others. The copy is there, and they are no more than the list holds. Commands that came since
    /// the last tick are put in key order; contracts see no change.
    pub fn due_into<const N: usize>(&mut self, copy: u8, commands: &mut ArrayVec<Command, N>)
        requires there { copy < length self.old.runs }
        requires few { length (due_at self.old.accepted (copy_clock self.old.runs copy)) ≤ N }
        ensures due { commands.new.items
            ≡ due_at self.old.accepted (copy_clock self.old.runs copy) }
        ensures same { self.new ≡ self.old }
    {
        let start = self.due_start(copy);
        self.list.settle();
        due_into(&self.list.in_order(), start, self.run.beats(copy), commands);
    }

    /// The copy's clock: how many ticks it has run. The copy is there.
    pub fn clock(&self, copy: u8) -> Tick
        requires { copy < length self.now.runs }
        ensures { result ≡ copy_clock self.now.runs copy }
    {
        self.run.always();
        self.run.beats(copy)
    }

    /// The copy's live world, which is the world of its run. The copy is there, and its world isn't
    /// still to be made.
    pub fn world(&self, copy: u8) -> &G
        requires there { copy < length self.now.runs }
        requires fresh { self.now.stale ≤ copy }
        ensures { result.now
            ≡ world_of G.rules self.now.opening (slice_index_or self.now.runs copy []) }
    {
        self.run.always();
        &self.worlds[copy as usize]
    }

    /// The copy's live world, also where it is still to be made: then from that of the first copy
    /// behind it whose world is made, and from the items between their ends. Nothing is changed, so
    /// who asks again executes them again. The copy is there.
    pub fn made_world(&self, copy: u8) -> G
        requires { copy < length self.now.runs }
        ensures { result
            ≡ world_of G.rules self.now.opening (slice_index_or self.now.runs copy []) }
    {
        self.run.always();
        let from = self.stale.max(copy);
        let mut world = self.worlds[from as usize].twin();
        let (start, stop) = (self.run.end(from), self.run.end(copy));
        execute_items(&mut world, &self.run, start, stop);
        world
    }

    /// How many items the copy has run. The copy is there.
    pub fn run_len(&self, copy: u8) -> u32
        requires { copy < length self.now.runs }
        ensures { result ≡ length (slice_index_or self.now.runs copy []) }
    {
        self.run.always();
        self.run.end(copy)
    }

    /// The item at a place of the copy's run. The copy and the place are there.
    pub fn run_item(&self, copy: u8, place: u32) -> Item
        requires copy { copy < length self.now.runs }
        requires place { place < length (slice_index_or self.now.runs copy []) }
        ensures { slice_get (slice_index_or self.now.runs copy []) place ≡ Some result }
    {
        self.run.always();
        self.run.item(place)
    }
}
