//! What a peer that joins stands on. Each law is the contract of a function without parameters that does
//! nothing.

ghost use Rattle.std.specs.Prelude.{◌≡◌, ◌≤◌, ◌<◌, ◌*◌, ◌^◌, ℕ, None, List, [], length, slice_index_or};
ghost use Rattle.std.specs.List.{AllByRecursion};
ghost use Rattle.game_trait.specs.declared.command.Command.{Command};
ghost use Rattle.game_trait.specs.Run.{world_of};
ghost use Rattle.sync_model.specs.Lists.{last_of};
ghost use Rattle.sync_model.specs.Schedule.{Schedule, delays_of_each, ticks_of_first, copies_of_first};
ghost use Rattle.rolling_mirror.specs.Rolling.{last_tick};
ghost use Rattle.rolling_mirror.specs.Snapshot.{IsOpenable};
ghost use Rattle.peer_model.specs.Queue.{Sent, new_queue, have_of, trimmed, TimesRise};
ghost use Rattle.peer_model.specs.Peer.{Peer, IsPeer};
ghost use Rattle.peer_model.specs.Net.{Net, with_peer, IsSession};
ghost use Rattle.peer_window.specs.Window.{IsWindow};
ghost use Rattle.peer_window.specs.Session.{RollNet, with_roll, IsBeside};
ghost use Rattle.peer_packet.specs.Snapshot.{IsSnapshot};
ghost use Rattle.peer_calls.specs.declared.config.Config.{Config};
ghost use Rattle.peer_calls.specs.State.{State, window_of};
ghost use Rattle.peer_calls.specs.Handing.{handed_by, opened_from, join_refused, joined_state};
ghost use Rattle.peer_join.specs.Join.{AreSame, accepted_by, joined_peer, Extends, IsFree, AreOfSession};

use game_trait::Game;

/// A peer that joins by what another one had is a peer of the session, whatever its plans: it has the
/// fronts that the other had, each command counted once, and each of its runs begins as the other's last
/// one, at that clock.
pub fn a_joiner_is_a_peer<G: Game>()
    ensures { (slots : ℕ) (log : ℕ → List Sent) (plans : List (List ℕ)) (accepted : List Command) (m : Peer G)
        → 0 < length (slice_index_or plans 0 []) → AreSame accepted m.whole.accepted
        → IsPeer slots log m → IsPeer slots log (joined_peer plans accepted m) }
{}

/// Where it joins in a slot that nobody had, the session stays one, however old the snapshot.
pub fn a_session_stays_one_with_a_joiner<G: Game>()
    ensures { (slots me : ℕ) (n : Net G) (plans : List (List ℕ)) (accepted : List Command) (m : Peer G)
        → 0 < length (slice_index_or plans 0 []) → AreSame accepted m.whole.accepted
        → IsSession slots n → IsPeer slots n.log m → IsFree me n
        → IsSession slots (with_peer me (joined_peer plans accepted m) n) }
{}

/// A snapshot stays that of a peer of the session while more is issued.
pub fn a_snapshot_keeps<G: Game>()
    ensures { (slots : ℕ) (log more : ℕ → List Sent) (m : Peer G) → Extends log more → IsPeer slots log m → IsPeer slots more m }
{}

/// Whoever joins by what a peer hands over has of each slot the queue that this peer has, but for what its
/// last copy has passed: the same numbers, times, bytes and count of late ones.
pub fn what_is_handed_over_is_taken<G: Game>()
    ensures { (c : Config) (s : State G) (world : G) (me : ℕ) (plans : List Schedule)
        → ((o : ℕ) → c.terms.slots ≤ o → have_of (s.queues o) ≡ 0)
        → ((o : ℕ) → have_of (s.queues o) ≡ 0 → s.queues o ≡ new_queue)
        → (o : ℕ) → (joined_state world c me plans (handed_by c s)).queues o ≡ trimmed (last_tick s.roll) (s.queues o) }
{}

/// What a joiner accepts by what a peer hands over is what this peer accepted: each command counted as
/// often, in another order.
pub fn what_a_joiner_accepts_is_what_the_maker_had<G: Game>()
    ensures { (slots : ℕ) (log : ℕ → List Sent) (m : Peer G) → ((o : ℕ) → TimesRise 0 (log o)) → IsPeer slots log m
        → AreSame (accepted_by slots m) m.whole.accepted }
{}

/// What a peer of a session hands over is a snapshot of the session, so whoever reads its bytes by the same
/// terms has it: of each slot all that was late is forgotten there, and the last command that is forgotten is
/// due before its base.
pub fn what_is_handed_over_is_a_snapshot<G: Game>()
    ensures { (c : Config) (log : ℕ → List Sent) (m : Peer G) (s : State G)
        → ((o : ℕ) → TimesRise 0 (log o)) → IsPeer c.terms.slots log m → IsWindow G.rules m (window_of s)
        → s.me < c.terms.slots → AreOfSession c.terms.payload s.queues
        → IsSnapshot c.terms (handed_by c s) }
{}

/// What a peer hands over opens the mirror of whoever joins by it and doesn't refuse it: the joiner's base
/// is a tick of the session, and each command is due from there on, where its window reaches, has a name of
/// its own and finds room. `c` is the joiner's: of the maker's own only the terms enter.
pub fn what_a_peer_hands_over_opens_a_mirror<G: Game>()
    ensures { (c : Config) (log : ℕ → List Sent) (m : Peer G) (s : State G) (world : G) (me : ℕ) (plans : List Schedule)
        → ((o : ℕ) → TimesRise 0 (log o)) → IsPeer c.terms.slots log m → IsWindow G.rules m (window_of s)
        → ((o : ℕ) → c.terms.slots ≤ o → have_of (s.queues o) ≡ 0)
        → ((o : ℕ) → have_of (s.queues o) ≡ 0 → s.queues o ≡ new_queue)
        → ((o : ℕ) → AllByRecursion (λ x. x.time < 2 ^ 32) (s.queues o).commands)
        → 0 < ticks_of_first plans
        → join_refused c me (ticks_of_first plans) (handed_by c s) ≡ None
        → IsOpenable (opened_from world c (handed_by c s)) plans (c.terms.slots * c.room) }
{}

/// Whoever joins by what a peer hands over is the window of a peer that joins, beside a mirror that
/// accepted what this peer did, in another order: by the laws above the session stays one with it.
pub fn a_joiner_by_a_snapshot_is_a_peers_window<G: Game>()
    ensures { (c : Config) (log : ℕ → List Sent) (m : Peer G) (s : State G) (me : ℕ) (plans : List Schedule)
        → ((o : ℕ) → TimesRise 0 (log o)) → IsPeer c.terms.slots log m → IsWindow G.rules m (window_of s)
        → ((o : ℕ) → c.terms.slots ≤ o → have_of (s.queues o) ≡ 0)
        → ((o : ℕ) → have_of (s.queues o) ≡ 0 → s.queues o ≡ new_queue)
        → 0 < copies_of_first plans
        → let world = world_of G.rules m.whole.opening (last_of [] m.whole.runs) in
        IsOpenable (opened_from world c (handed_by c s)) plans (c.terms.slots * c.room)
        → AreSame (accepted_by c.terms.slots m) m.whole.accepted
        × IsWindow G.rules (joined_peer (delays_of_each plans) (accepted_by c.terms.slots m) m)
        (window_of (joined_state world c me plans (handed_by c s))) }
{}

/// Peers with windows, one of which joined by what another one handed over, in a slot that nobody had and
/// however old that is, stand beside a session of peers that remember all: so the laws of `peer_window` and
/// `peer_model` hold of them, whatever calls they make.
pub fn a_session_with_a_joiner_stands_beside_one<G: Game>()
    ensures { (c : Config) (n : Net G) (v : RollNet G) (log : ℕ → List Sent) (m : Peer G) (s : State G) (me : ℕ) (plans : List Schedule)
        → IsBeside G.rules c.terms.slots n v → IsFree me n
        → Extends log n.log → IsPeer c.terms.slots log m → IsWindow G.rules m (window_of s)
        → ((o : ℕ) → c.terms.slots ≤ o → have_of (s.queues o) ≡ 0)
        → ((o : ℕ) → have_of (s.queues o) ≡ 0 → s.queues o ≡ new_queue)
        → 0 < copies_of_first plans
        → let world = world_of G.rules m.whole.opening (last_of [] m.whole.runs) in
        IsOpenable (opened_from world c (handed_by c s)) plans (c.terms.slots * c.room)
        → IsBeside G.rules c.terms.slots
        (with_peer me (joined_peer (delays_of_each plans) (accepted_by c.terms.slots m) m) n)
        (with_roll me (window_of (joined_state world c me plans (handed_by c s))) v) }
{}
