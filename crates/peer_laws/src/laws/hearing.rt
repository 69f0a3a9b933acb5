//! What is told of a packet that was heard.

ghost use Rattle.std.specs.Prelude.{◌≡◌, ◌+◌, ◌<◌, ◌↔◌, ℕ, true, map};
ghost use Rattle.std.specs.List.{AllByRecursion, list_any};
ghost use Rattle.peer_model.specs.Queue.{have_of};
ghost use Rattle.peer_packet.specs.Packet.{Packet};
ghost use Rattle.peer_calls.specs.declared.config.Config.{Config};
ghost use Rattle.peer_calls.specs.State.{State, window_of};
ghost use Rattle.peer_calls.specs.Wire.{part_from};
ghost use Rattle.peer_calls.specs.Hearing.{hears_packet, told_of};
ghost use Rattle.peer_laws.specs.Told.{total, stations, is_gap, stops_far, stops_full, answers_all, most_repaired, IsAnother};

use game_trait::Game;

/// Taken and late are the commands that were counted: of all slots together as many more are late as are
/// told late, those too that were given up before a gap, and as many more are had as are told.
pub fn what_is_told_was_counted<G: Game>()
    ensures { (c : Config) (p : Packet) (s : State G) → AllByRecursion (λ part. part.origin < c.terms.slots) p.parts
        → let told = told_of c p s in let after = hears_packet c p s in
        (total c.terms.slots (λ o. (after.queues o).late) ≡ total c.terms.slots (λ o. (s.queues o).late) + told.late)
        × (total c.terms.slots (λ o. have_of (after.queues o)) ≡ total c.terms.slots (λ o. have_of (s.queues o)) + (told.taken + told.late)) }
{}

/// A gap, far and full are told exactly where a part was left so: it is still behind what was counted of its slot;
/// the next of its commands is due where the window doesn't reach; the queue or the mirror has no room for
/// that.
pub fn what_stopped_is_told<G: Game>()
    ensures { (c : Config) (p : Packet) (s : State G)
        → let told = told_of c p s in let behind = stations c.room (map part_from p.parts) (window_of s) in
        (told.gap ≡ list_any is_gap behind)
        × (told.far ≡ list_any (stops_far c.room) behind)
        × (told.full ≡ list_any (stops_full c.room) behind) }
{}

/// What is told as repaired is the most that the mirror answered to one of the commands that were counted.
pub fn the_most_repaired_is_told<G: Game>()
    ensures { (c : Config) (p : Packet) (s : State G)
        → (told_of c p s).repaired ≡ most_repaired (answers_all c.room (map part_from p.parts) (window_of s)) }
{}

/// That marks differ is told exactly where the packet's has the tick of an own one, and another sum.
pub fn another_sum_is_told<G: Game>()
    ensures { (c : Config) (p : Packet) (s : State G)
        → ((told_of c p s).differs ≡ true) ↔ IsAnother p.mark s.marks.own }
{}
