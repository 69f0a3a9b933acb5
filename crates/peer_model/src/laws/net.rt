//! A session of peers over a net that loses, repeats and reorders.

ghost use Rattle.std.specs.Prelude.{◌≡◌, ℕ, ◌+◌, ◌≤◌, ◌<◌, ◌==◌, nat_lt, if◌then◌else◌, false, Bool, List, []};
ghost use Rattle.std.specs.List.{AllZip};
ghost use Rattle.game_trait.specs.declared.command.Command.{Command};
ghost use Rattle.game_trait.specs.Count.{times};
ghost use Rattle.game_trait.specs.Keys.{is_named};
ghost use Rattle.game_trait.specs.Ordered.{ordered};
ghost use Rattle.game_trait.specs.Run.{world_of};
ghost use Rattle.sync_model.specs.Lists.{last_of};
ghost use Rattle.sync_model.specs.State.{MirrorState, opening_state};
ghost use Rattle.peer_model.specs.Queue.{Sent, have_of};
ghost use Rattle.peer_model.specs.Peer.{Peer, Packet, of_slots, counted_of, is_refused, is_turned, IsAway, IsPeer};
ghost use Rattle.peer_model.specs.Net.{Net, Session, NetStep, new_net, run, IsUnused, IsMade, IsSession, HasAllBefore};

use game_trait::Game;

/// Whatever steps are made, in any order, a session stays one: times of a slot never fall, each peer has
/// of each slot a front of what its peer issued, and of its own all, and what is known of another is no
/// more than it has.
pub fn a_net_stays_a_session<G: Game>()
    ensures { (c : Session) (n : Net G) (es : List NetStep) → IsSession c.slots n → IsSession c.slots (run c n es) }
{}

/// No packet that was made is refused by the peer that it is for.
pub fn no_packet_is_refused<G: Game>()
    ensures { (slots : ℕ) (n : Net G) (p : Packet) → IsSession slots n → IsMade slots n p
        → is_refused p.to p (n.peers p.to) ≡ false }
{}

/// Before any step a net is a session, whatever the length, the plans and the room of each mirror.
pub fn a_new_net_is_a_session<G: Game>()
    ensures net { (slots : ℕ) (wholes : ℕ → MirrorState G) → ((i : ℕ) → IsUnused (wholes i)) → IsSession slots (new_net wholes) }
    ensures mirror { (opening : G) (length : ℕ) (plans : List (List ℕ)) (spare plan_spare : ℕ)
        → IsUnused (opening_state opening length plans spare plan_spare) }
{}

/// Each command that a peer counted was accepted or turned away by its mirror, once, and no other: so of
/// each slot the numbers below those that it has. What was turned away was due before the bound that the
/// mirror tells of it, its last copy's clock then; so many were as the slot's queue tells.
pub fn each_command_is_counted_once<G: Game>()
    ensures names { (slots : ℕ) (log : ℕ → List Sent) (m : Peer G) (o n : ℕ) → IsPeer slots log m → o < slots
        → times (is_named o n) m.whole.accepted + times (is_turned o n) m.whole.turned
        ≡ (if nat_lt n (have_of (m.queues o)) then 1 else 0) }
    ensures commands { (slots : ℕ) (log : ℕ → List Sent) (m : Peer G) → IsPeer slots log m
        → (away : List Command)
        × ((test : Command → Bool) → times test m.whole.accepted + times test away ≡ times test (of_slots slots (counted_of log m)))
        × AllZip IsAway away m.whole.turned
        × ((o : ℕ) → (m.queues o).late ≡ times (λ x. x.from == o) away) }
{}

/// A peer that has of each slot all that is issued and due before its last copy's clock, and turned none
/// of it away, has as its last copy's run the time-ordered execution of what is issued and due before.
pub fn a_peers_run_is_in_order<G: Game>()
    ensures { (slots t : ℕ) (log : ℕ → List Sent) (m : Peer G) → IsPeer slots log m → HasAllBefore t log m
        → last_of [] m.whole.runs ≡ ordered (of_slots slots log) 0 t }
{}

/// So two such peers at one tick have one world.
pub fn peers_with_the_same_have_one_run<G: Game>()
    ensures { (slots t : ℕ) (n : Net G) (i j : ℕ) (opening : G) → IsSession slots n
        → HasAllBefore t n.log (n.peers i) → HasAllBefore t n.log (n.peers j)
        → world_of G.rules opening (last_of [] (n.peers i).whole.runs)
        ≡ world_of G.rules opening (last_of [] (n.peers j).whole.runs) }
{}
