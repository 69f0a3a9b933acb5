//! Whom a worker asks.

ghost use Rattle.std.specs.Prelude.{◌≡◌, ℕ, ◌+◌, ◌<◌, [], ◌∷◌, ◌++◌, List, cond, IsTrue};
ghost use Rattle.game_trait.specs.declared.event.Event.{Event as AnEvent};

use game_trait::{Event, Reply};

/// One event that was asked, and what was answered.
#[derive(Clone, Copy, Debug, PartialEq, Eq)]
pub struct Asked {
    /// The event.
    pub event: Event,
    /// The answer.
    pub reply: Reply,
}

/// The outcome of a call of a post, for a trail of all its calls. `Asked` is an event that was
/// asked; the others are of a draft of that copy. A call that asks for a draft many times leaves as
/// many marks where no tick was due.
#[derive(Clone, Copy, Debug, PartialEq, Eq)]
pub enum TrailMark {
    /// An event was asked.
    Asked,
    /// The copy's due tick was drawn.
    Drawn { copy: u8 },
    /// No tick of the copy was due.
    Idle { copy: u8 },
    /// Too many commands were due for a draft.
    Wide { copy: u8 },
    /// The executed tick became the copy's.
    Ran { copy: u8 },
    /// The copy was renewed meanwhile, and the executed tick was let go.
    Stale { copy: u8 },
}

/// Answers events for a mirror: at most a share of them in all, and a share of arrivals among them.
pub trait Post {
    ghost use Rattle.game_trait.specs.Events.{is_arrival, IsOfKind};
    ghost use Rattle.copy_workers.specs.Asking.{pair_of};
    ghost use Rattle.copy_workers.specs.declared.post.Asked.{Asked};
    ghost use Rattle.copy_workers.specs.declared.post.TrailMark.{TrailMark};
    ghost use Rattle.copy_workers.specs.declared.post.TrailMark.TheVariants.{Asked as AskedMark};

    /// What was asked so far, with the answers.
    ghost asked: { Self → List Asked };
    /// The outcomes of all calls so far.
    ghost trail: { Self → List TrailMark };
    /// How many calls are left.
    ghost calls: { Self → ℕ };
    /// How many arrivals are left.
    ghost grows: { Self → ℕ };
    /// The events that may be asked, which no call takes back.
    ghost takes: { Self → AnEvent → Type 0 };
    /// Two values of one post: what tells it from other posts is the same. No call makes it another
    /// one.
    ghost same: { Self → Self → Type 0 };
    /// No draft of a tick is at the post: its last call answered none.
    ghost bare: { Self → Type 0 };

    /// Asks one event, and answers in its kind. It uses up a call, and an arrival one of the
    /// arrivals, and leaves no draft at the post. It may wait.
    fn ask(&mut self, event: &Event) -> Reply
        requires takes { takes self.old event.now }
        requires calls { 0 < calls self.old }
        requires grows { IsTrue (is_arrival event.now) → 0 < grows self.old }
        ensures asked { asked self.new ≡ asked self.old ++ pair_of event.now result ∷ [] }
        ensures trail { trail self.new ≡ trail self.old ++ AskedMark ∷ [] }
        ensures kind { IsOfKind event.now result }
        ensures calls { calls self.new + 1 ≡ calls self.old }
        ensures grows { grows self.new + cond (is_arrival event.now) 1 0 ≡ grows self.old }
        ensures takes { (e : AnEvent) → takes self.old e → takes self.new e }
        ensures same { (p : Self) → same p self.old → same p self.new }
        ensures bare { bare self.new };

    /// Sleeps for a moment, longer with each nap in a row (a backoff). Nothing is proved of it: it
    /// asks nothing, and uses up no call.
    fn nap(&self, taken: u32);

    /// How many naps in a row are worth while for a worker that finds nothing to do: for that of the
    /// copy of this number, or for the feeder, whose number is that of copies. It is a guess that
    /// nothing is proved of.
    fn patience(&self, worker: u8) -> u32;
}
