//! What joining brings to a session. Each law is the contract of a function without parameters that does
//! nothing.

ghost use Rattle.std.specs.Prelude.{◌≡◌, ◌≤◌, ◌<◌, ℕ, Ok, List, []};
ghost use Rattle.game_trait.specs.Run.{world_of};
ghost use Rattle.sync_model.specs.Lists.{last_of};
ghost use Rattle.sync_model.specs.Schedule.{Schedule, delays_of_each, ticks_of_first, copies_of_first};
ghost use Rattle.peer_model.specs.Queue.{Sent, new_queue, have_of};
ghost use Rattle.peer_model.specs.Peer.{Peer, IsPeer};
ghost use Rattle.peer_model.specs.Net.{Net, with_peer};
ghost use Rattle.peer_window.specs.Window.{IsWindow};
ghost use Rattle.peer_window.specs.Session.{RollNet, with_roll, IsBeside};
ghost use Rattle.peer_packet.specs.Snapshot.{Snapshot};
ghost use Rattle.peer_calls.specs.declared.config.Config.{Config};
ghost use Rattle.peer_calls.specs.State.{State, window_of};
ghost use Rattle.peer_calls.specs.Handing.{snapshot_text};
ghost use Rattle.peer_join.specs.Join.{accepted_by, joined_peer, Extends, IsFree, AreOfSession};
ghost use Rattle.peer_session.specs.Parts.{PeerParts, state_of};
ghost use Rattle.peer_session.specs.Joining.{AreBytesOf, IsJoining};

use game_trait::Game;

/// What `join` makes of the bytes that a peer of a session put, with the world of that one's last copy, is the
/// peer that joins of `peer_join`: where nobody had its slot, peers with windows, it among them, stand beside
/// a session of peers that remember all, however old the bytes are. That `p` is so made is said as `join` says
/// it (`joined`). Of the maker's config only the terms enter.
pub fn who_joins_by_bytes_joins_the_session<G: Game>()
    ensures { (c : Config) (n : Net G) (v : RollNet G) (log : ℕ → List Sent) (m : Peer G) (s : State G)
        (me : ℕ) (plans : List Schedule) (bytes : List ℕ) (p : PeerParts G)
        → IsBeside G.rules c.terms.slots n v → IsFree me n
        → Extends log n.log → IsPeer c.terms.slots log m → IsWindow G.rules m (window_of s)
        → s.me < c.terms.slots → AreOfSession c.terms.payload s.queues
        → ((o : ℕ) → c.terms.slots ≤ o → have_of (s.queues o) ≡ 0)
        → ((o : ℕ) → have_of (s.queues o) ≡ 0 → s.queues o ≡ new_queue)
        → 0 < copies_of_first plans → 0 < ticks_of_first plans
        → bytes ≡ snapshot_text c s
        → let world = world_of G.rules m.whole.opening (last_of [] m.whole.runs) in
        ((snap : Snapshot) → AreBytesOf c bytes snap → IsJoining world c me plans snap (Ok p))
        → IsBeside G.rules c.terms.slots
        (with_peer me (joined_peer (delays_of_each plans) (accepted_by c.terms.slots m) m) n)
        (with_roll me (window_of (state_of p)) v) }
{}
