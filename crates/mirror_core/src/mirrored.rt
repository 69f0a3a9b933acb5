//! What is seen of a mirror at its end, whichever kind it is.

ghost use Rattle.std.specs.Prelude.{◌≡◌, ◌<◌, ◌≤◌, ◌^◌, length, slice_index_or, []};
ghost use Rattle.game_trait.specs.Run.{world_of};
ghost use Rattle.sync_model.specs.Consistent.{IsConsistent};
ghost use Rattle.sync_model.specs.History.{repairs as repairs_of};
ghost use Rattle.sync_model.specs.State.{copy_clock as clock_of, MirrorState};

use game_trait::{Command, Event, Game, Tick};
use sync_model::Turned;

/// A mirror of the game `G` that is looked at: one whose copies' worlds are always made, or one that
/// makes them when they are looked at (this project's own).
pub trait Mirrored<G: Game> {
    /// Its state.
    ghost state: { Self → MirrorState G };

    /// What always holds of a mirror: it is staggered, its plans are those of a match, and its state
    /// is the one that its history leads to. It does nothing.
    fn always(&self)
        ensures { IsConsistent (state self.now) };

    /// The opening world.
    fn opening(&self) -> &G
        ensures { result.now ≡ (state self.now).opening };

    /// The number of the plan that is in force.
    fn plan(&self) -> u8
        ensures { result ≡ (state self.now).plan };

    /// How many copies there are, 1 to 8.
    fn copies(&self) -> u8
        ensures { result ≡ length (state self.now).runs };

    /// The copy's clock, in ticks. The copy is there.
    fn copy_clock(&self, copy: u8) -> Tick
        requires { copy < length (state self.now).runs }
        ensures { result ≡ clock_of (state self.now).runs copy };

    /// A twin of the copy's live world. The copy is there.
    fn world_twin(&self, copy: u8) -> G
        requires { copy < length (state self.now).runs }
        ensures { result
            ≡ world_of G.rules (state self.now).opening
            (slice_index_or (state self.now).runs copy []) };

    /// The commands that were accepted, in order of arrival.
    fn accepted(&self) -> &[Command]
        ensures { result.now ≡ (state self.now).accepted };

    /// The arrivals that were turned away, in order.
    fn turned(&self) -> &[Turned]
        ensures { result.now ≡ (state self.now).turned };

    /// The history: the events that changed the mirror, at most 4,194,304.
    fn events(&self) -> &[Event]
        ensures events { result.now ≡ (state self.now).history }
        ensures few { length result.now ≤ 2 ^ 22 };

    /// How many copies were repaired, in all.
    fn repairs(&self) -> u64
        ensures { result ≡ repairs_of (state self.now) };
}
