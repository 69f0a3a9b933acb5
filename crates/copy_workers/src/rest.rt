//! How a worker that finds nothing to do leaves the processor to the others.

ghost use Rattle.std.specs.Prelude.{◌<◌, ◌≤◌};

use crate::draft_post::DraftPost;
use crate::post::Post;
use game_trait::Game;

// The most naps before a turn of a copy's worker, behind which it may take one more.
const MOST_WAITS: u32 = 64;

// How many naps a worker may take until it finds something to do.
const ALL_NAPS: u32 = 4_096;

// How many turns in a row are made without a nap by a worker that hurries.
const AT_ONCE: u64 = 64;

/// How a worker rests that finds nothing to do: by naps, in which it sleeps, so that others have
/// the processor and the lock. One that napped for so long in a row as its post finds worth while,
/// or all of its naps, hurries: it makes many turns one after the other as long as nothing comes, so
/// that it is soon done with them. A copy's worker makes them by one call. One that finds something
/// to do begins anew, with a new row and all of its naps: so a worker that waits once a tick naps as
/// long as the match lasts, and one that finds nothing any more comes to the end of its naps.
#[derive(Clone, Copy)]
pub struct Rest {
    // Who rests: a copy, or the feeder, whose number is that of copies.
    worker: u8,
    // How many naps it took in a row.
    taken: u32,
    // How many are left until it finds something to do.
    left: u32,
}

impl Rest {
    /// Before this worker found anything to do or nothing.
    pub fn new(worker: u8) -> Rest {
        Rest {
            worker,
            taken: 0,
            left: ALL_NAPS,
        }
    }

    // Whether no nap is left, until something is found or in a row.
    fn hurries<P: Post>(&self, post: &P) -> bool {
        self.left == 0 || self.taken >= post.patience(self.worker)
    }

    // Takes a nap.
    fn nap<P: Post>(&mut self, post: &P) {
        post.nap(self.taken);
        self.taken = self.taken.saturating_add(1);
        self.left = self.left.saturating_sub(1);
    }

    /// After a turn: it naps where nothing was found to do, unless it hurries. How many turns are then
    /// to be made as long as nothing comes: several where it hurries, and else none.
    pub fn after<P: Post>(&mut self, post: &P, idle: bool) -> u64 {
        if !idle {
            *self = Rest::new(self.worker);
            return 0;
        }
        if self.hurries(post) {
            return AT_ONCE;
        }
        self.nap(post);
        0
    }

    /// Before a turn of a copy's worker: it naps until a tick of its copy seems to be due, up to a
    /// bound and unless it hurries. How many turns are then to be made at once, where no tick is
    /// due: several where it hurries, and else one.
    pub fn until_due<G: Game, P: DraftPost<G>>(&mut self, post: &P) -> u64
        ensures some { 0 < result }
        ensures few { result ≤ 64 }
    {
        for _ in 0..MOST_WAITS {
            if post.seems_due(self.worker) {
                return 1;
            }
            if self.hurries(post) {
                return AT_ONCE;
            }
            self.nap(post);
        }
        1
    }
}
