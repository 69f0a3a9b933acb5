//! A feeder hears its links, one message of each a turn.

ghost use Rattle.std.specs.Prelude.{◌≡◌, ℕ, ◌+◌, ◌*◌, ◌-◌, ◌<◌, ◌≤◌, ◌^◌, true, [], ◌∷◌, ◌++◌, List, length};
ghost use Rattle.std.specs.List.{AllByRecursion};
ghost use Rattle.game_trait.specs.declared.event.Event.{Event};
ghost use Rattle.link_ring.specs.declared.receive.LinkReceive.{LinkReceive};
ghost use Rattle.link_ring.specs.Ends.{misses_of};
ghost use Rattle.copy_workers.specs.declared.post.Asked.{Asked};
ghost use Rattle.copy_workers.specs.Asking.{IsFeedingBelow};
ghost use Rattle.copy_workers.specs.Feed.{Task, Hearing, Feed, least_mark};
ghost use Rattle.copy_workers.specs.Refining.{HearsOnce, AllKept, HeardTo};

use crate::post::Post;
use game_trait::{Event, Tick};
use link_ring::{LinkReceive, Message};

/// Asks one link once. A mark is kept; a command that is due within the match is asked, as long as
/// fewer than `foreign` were. Whether nothing came.
pub fn hear_one<P: Post>(
    post: &mut P,
    receive: &mut LinkReceive,
    mark: &mut Tick,
    taken: &mut u32,
    limit: Tick,
    foreign: u32,
) -> bool
    requires takes { (e : Event) → IsFeedingBelow limit e → P.takes post.old e }
    requires calls { 0 < P.calls post.old }
    requires grows { taken.old < foreign → 0 < P.grows post.old }
    requires misses { misses_of receive.old + 1 < 2 ^ 64 }
    ensures heard { HearsOnce limit foreign receive.old receive.new mark.old mark.new
        taken.old taken.new (P.asked post.old) (P.asked post.new) }
    ensures quiet { result ≡ true → mark.new ≡ mark.old }
    ensures calls { P.calls post.old ≤ P.calls post.new + 1 }
    ensures grows { P.grows post.new + taken.new ≡ P.grows post.old + taken.old }
    ensures within { taken.old ≤ foreign → taken.new ≤ foreign }
    ensures takes { (e : Event) → P.takes post.old e → P.takes post.new e }
    ensures same { (p : P) → P.same p post.old → P.same p post.new }
{
    match receive.receive() {
        None => true,
        Some(Message::Mark(n)) => {
            *mark = n;
            false
        }
        Some(Message::Cmd(x)) => {
            if x.time < limit && *taken < foreign {
                post.ask(&Event::Arrive(x));
                *taken += 1;
            }
            false
        }
    }
}

/// Asks each link once, in their order, and counts the received commands that were asked. Whether
/// nothing came on any of them.
pub fn hear_all<P: Post>(
    post: &mut P,
    receives: &mut [LinkReceive],
    marks: &mut [Tick],
    taken: &mut u32,
    limit: Tick,
    foreign: u32,
) -> bool
    requires takes { (e : Event) → IsFeedingBelow limit e → P.takes post.old e }
    requires calls { length receives.old ≤ P.calls post.old }
    requires grows { foreign ≤ P.grows post.old + taken.old }
    requires misses { AllByRecursion (λ r. misses_of r + 1 < 2 ^ 64) receives.old }
    requires marks { length receives.old ≤ length marks.old }
    ensures heard { (job : Task) (first : List LinkReceive) (asked : List Asked) (s : Feed)
        → job.length ≡ limit → job.foreign ≡ foreign
        → HeardTo job first asked s receives.old marks.old taken.old (P.asked post.old) 0
        → HeardTo job first asked s receives.new marks.new taken.new (P.asked post.new)
        (length receives.new) }
    ensures calls { P.calls post.old ≤ P.calls post.new + length receives.old }
    ensures grows { P.grows post.new + taken.new ≡ P.grows post.old + taken.old }
    ensures within { taken.old ≤ foreign → taken.new ≤ foreign }
    ensures quiet { result ≡ true → marks.new ≡ marks.old }
    ensures takes { (e : Event) → P.takes post.old e → P.takes post.new e }
    ensures same { (p : P) → P.same p post.old → P.same p post.new }
{
    let mut quiet = true;
    for i in 0..receives.len() {
        let nothing = hear_one(post, &mut receives[i], &mut marks[i], taken, limit, foreign);
        if !nothing {
            quiet = false;
        }
    }
    quiet
}

/// The least of the first `count` marks; where there are none, the limit.
pub fn least(marks: &[Tick], count: usize, limit: Tick) -> Tick
    requires { count ≤ length marks.now }
    ensures { (hearings : List Hearing) → length hearings ≡ count → AllKept marks.now hearings
        → result ≡ least_mark limit hearings }
{
    let mut least = limit;
    for i in 0..count {
        if marks[i] < least {
            least = marks[i];
        }
    }
    least
}
