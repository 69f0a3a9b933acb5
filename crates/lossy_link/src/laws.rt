//! What a net promises. Each law is the contract of a function without parameters that does
//! nothing.

ghost use Rattle.std.specs.Prelude.{◌≡◌, ◌⊎◌, ◌<◌, ◌≤◌, ◌+◌, ◌++◌, ◌∷◌, ℕ, List, [], Some, true, false, length, slice_get, take, drop, filter};
ghost use Rattle.std.specs.List.{AllByRecursion};
ghost use Rattle.game_trait.specs.declared.command.Command.{Command};
ghost use Rattle.game_trait.specs.Count.{times};
ghost use Rattle.game_trait.specs.CommandList.{command_named, has_command};
ghost use Rattle.game_trait.specs.Keys.{is_named, NamesDiffer};
ghost use Rattle.game_trait.specs.Run.{world_of};
ghost use Rattle.game_trait.specs.Ordered.{time_ordered};
ghost use Rattle.sync_model.specs.State.{MirrorState};
ghost use Rattle.match_data.specs.Data.{MatchData};
ghost use Rattle.match_hall.specs.Headline.{IsPlayed};
ghost use Rattle.lossy_text.specs.Data.{LossyData, IsLossy};
ghost use Rattle.lossy_text.specs.declared.net_line.NetLine.{NetLine};
ghost use Rattle.lossy_text.specs.declared.net_line.NetLine.TheVariants.{Issue, Carry};
ghost use Rattle.lossy_link.specs.declared.packet.Heard.TheVariants.{Moved, Old};
ghost use Rattle.lossy_link.specs.Ends.{OutState, heard, after_heard};
ghost use Rattle.lossy_link.specs.Link.{LinkState, IsLinked, has_flown, brought, after_carry, after_send, after_ack, after_hear};
ghost use Rattle.lossy_link.specs.Links.{NetLinks, row_at, link_at, is_from, next_links};
ghost use Rattle.lossy_link.specs.Net.{NetState, net_mirror, opening_net, after_net, made_net, HasEach, AreLinked};
ghost use Rattle.lossy_link.specs.Finish.{ended_net, is_turned, IsEndedNet};
ghost use Rattle.lossy_link.specs.Way.{IsNet, IsThere};

use game_trait::Game;

/// After every list of net lines each link is one: what was received is a prefix of what was sent,
/// no more is known to have been received, and no count that flies is wild.
pub fn a_net_stays_linked<G: Game>()
    ensures { (x : LossyData) (opening : G) → IsLossy x → (k : ℕ)
        → AreLinked x.game
        (after_net x.game.commands (opening_net opening x.game) (take k x.lines)).links }
{}

/// After every list of net lines there is a link from each mirror to each, over which its sender
/// sent what it issued, in that order; its own it has received at once. And each mirror has what its
/// links brought it, and nothing else: of each name as many commands as the link from that mirror
/// brought, accepted or turned away.
pub fn a_link_carries_what_its_mirror_issued<G: Game>()
    ensures way { (x : LossyData) (opening : G) → IsLossy x → (k : ℕ)
        → IsNet x.game opening
        (after_net x.game.commands (opening_net opening x.game) (take k x.lines)) }
    ensures count { (m : MatchData) (opening : G) (n : NetState G) → IsNet m opening n
        → HasEach m.mirrors n }
    ensures sent { (m : MatchData) (opening : G) (n : NetState G) (from to : ℕ) → IsNet m opening n
        → from < m.mirrors → to < m.mirrors
        → (link_at n.links.rows from to).sent ≡ filter (is_from from) n.links.issued }
    ensures own { (m : MatchData) (opening : G) (n : NetState G) (from : ℕ) → IsNet m opening n
        → from < m.mirrors
        → (link_at n.links.rows from from).received ≡ filter (is_from from) n.links.issued }
    ensures brought { (m : MatchData) (opening : G) (n : NetState G) (to from number : ℕ)
        (s : MirrorState G) → IsNet m opening n → to < m.mirrors
        → slice_get n.mirrors to ≡ Some s
        → times (is_named from number) s.accepted + times (is_turned from number) s.turned
        ≡ times (is_named from number) (link_at n.links.rows from to).received }
{}

/// A packet that has flown and is the next brings its own command, which is received. One that
/// isn't the next, or never flew, brings nothing and leaves the link as it is.
pub fn a_packet_brings_its_command_in_turn()
    ensures next { (k : ℕ) (l : LinkState) → has_flown l.packets k ≡ true
        → k ≡ length l.received
        → (brought k l ≡ take 1 (drop k l.sent))
        × ((after_carry k l).received ≡ l.received ++ take 1 (drop k l.sent)) }
    ensures other { (k : ℕ) (l : LinkState) → (k ≡ length l.received → ⊥)
        → (brought k l ≡ []) × (after_carry k l ≡ l) }
    ensures unflown { (k : ℕ) (l : LinkState) → has_flown l.packets k ≡ false
        → (brought k l ≡ []) × (after_carry k l ≡ l) }
{}

/// Between two mirrors nothing is received but by a packet that is carried from the one to the other:
/// every other line leaves what that link received as it was, also where the one issues a command.
pub fn only_a_carry_is_received<G: Game>()
    ensures { (m : MatchData) (opening : G) (n : NetState G) (line : NetLine) (from to : ℕ)
        → IsNet m opening n → IsThere m.mirrors line → from < m.mirrors → to < m.mirrors
        → (from ≡ to → ⊥) → ((packet : ℕ) → line ≡ Carry from to packet → ⊥)
        → (link_at (next_links m.commands n.links line).rows from to).received
        ≡ (link_at n.links.rows from to).received }
{}

/// How many are known to have been received never falls, whatever is heard, at a link and at the end
/// that sends. A count that was known before changes nothing, and what is known to have been
/// received isn't sent again.
pub fn what_is_known_stays_known()
    ensures link { (k : ℕ) (l : LinkState) → l.acked ≤ (after_hear k l).acked }
    ensures end { (k : ℕ) (e : OutState) → e.acked ≤ (after_heard e k).acked }
    ensures old { (k : ℕ) (e : OutState) → k ≤ e.acked → k ≤ length e.sent
        → (heard e k ≡ Old) × (after_heard e k ≡ e) }
    ensures sent { (k : ℕ) (l : LinkState) → k < l.acked → after_send k l ≡ l }
{}

/// No count that flies is wild to the end that sends: it was known before, or moves what is known.
pub fn no_count_is_wild()
    ensures { (m : MatchData) (n : NetLinks) (from to count : ℕ) → AreLinked m n
        → from < m.mirrors → to < m.mirrors → let l = link_at n.rows from to in
        has_flown l.counts count ≡ true
        → let e : OutState = record { room = l.room; sent = l.sent; acked = l.acked } in
        (heard e count ≡ Old) ⊎ (heard e count ≡ Moved) }
{}

/// What net lines do of which all else is said: `issue` issues a command of the match that wasn't
/// issued, and nothing where it was; no other line issues. Behind `ack` the count of what was
/// received has flown, and behind `hear` of a count that has, at least so many are known to have been
/// received.
pub fn lines_do_as_named()
    ensures issued { (commands : List Command) (n : NetLinks) (from number : ℕ) (x : Command)
        → has_command n.issued from number ≡ false
        → command_named commands from number ≡ Some x
        → (next_links commands n (Issue from number)).issued ≡ n.issued ++ x ∷ [] }
    ensures again { (commands : List Command) (n : NetLinks) (from number : ℕ)
        → has_command n.issued from number ≡ true
        → next_links commands n (Issue from number) ≡ n }
    ensures other { (commands : List Command) (n : NetLinks) (line : NetLine)
        → ((from number : ℕ) → line ≡ Issue from number → ⊥)
        → (next_links commands n line).issued ≡ n.issued }
    ensures ack { (l : LinkState) → IsLinked l
        → has_flown (after_ack l).counts (length l.received) ≡ true }
    ensures hear { (k : ℕ) (l : LinkState) → has_flown l.counts k ≡ true
        → k ≤ (after_hear k l).acked }
{}

/// What a net of so many mirrors has: each of them, and a link from each to each.
pub fn a_net_has_each_mirror_and_link<G: Game>()
    ensures { (mirrors from : ℕ) (n : NetState G) → HasEach mirrors n → from < mirrors
        → (length n.mirrors ≡ mirrors) × (length n.links.rows ≡ mirrors)
        × (length (row_at n.links.rows from) ≡ mirrors) }
{}

/// At its end a net has lost nothing: all that was sent was received, each command that was issued
/// stands exactly once in what each mirror accepted or turned away, the mirrors' histories are
/// legal and they were staggered all the way, and where a mirror turned none away each of its
/// copies' worlds is the time-ordered execution of all commands that were issued.
pub fn a_net_loses_nothing<G: Game>()
    ensures { (x : LossyData) (opening : G) → IsLossy x
        → IsEndedNet G.rules x opening
        (ended_net x.game.commands (made_net opening x)) }
{}

/// What links come to: on each between mirrors of the match what was received is the front of what
/// was sent, no more is known to have been received, and only what was sent or received flies.
pub fn a_link_receives_a_front()
    ensures received { (m : MatchData) (n : NetLinks) (from to : ℕ) → AreLinked m n
        → from < m.mirrors → to < m.mirrors → let l = link_at n.rows from to in
        ((rest : List Command) × (l.sent ≡ l.received ++ rest)) × (l.acked ≤ length l.received) }
    ensures packets { (m : MatchData) (n : NetLinks) (from to k : ℕ) → AreLinked m n
        → from < m.mirrors → to < m.mirrors → let l = link_at n.rows from to in
        has_flown l.packets k ≡ true → k < length l.sent }
    ensures counts { (m : MatchData) (n : NetLinks) (from to k : ℕ) → AreLinked m n
        → from < m.mirrors → to < m.mirrors → let l = link_at n.rows from to in
        has_flown l.counts k ≡ true → k ≤ length l.received }
{}

/// What the end of a net guarantees: on each link all that was sent was received, no command was
/// issued twice, and there is a mirror for each number. Each was played, has each issued command
/// once and no other, accepted or turned away, and where it turned none away all its copies are at
/// the time-ordered execution of what was issued.
pub fn an_ended_net_has_received_all<G: Game>()
    ensures links { (x : LossyData) (opening : G) (n : NetState G) (from to : ℕ)
        → IsEndedNet G.rules x opening n → from < x.game.mirrors → to < x.game.mirrors
        → (link_at n.links.rows from to).received ≡ (link_at n.links.rows from to).sent }
    ensures count { (x : LossyData) (opening : G) (n : NetState G) → IsEndedNet G.rules x opening n
        → (length n.mirrors ≡ x.game.mirrors) × NamesDiffer n.links.issued }
    ensures once { (x : LossyData) (opening : G) (n : NetState G) (mirror : ℕ) (s : MirrorState G)
        (from number : ℕ)
        → IsEndedNet G.rules x opening n → slice_get n.mirrors mirror ≡ Some s
        → times (is_named from number) s.accepted + times (is_turned from number) s.turned
        ≡ times (is_named from number) n.links.issued }
    ensures worlds { (x : LossyData) (opening : G) (n : NetState G) (mirror : ℕ)
        (s : MirrorState G)
        → IsEndedNet G.rules x opening n → slice_get n.mirrors mirror ≡ Some s → s.turned ≡ []
        → AllByRecursion (λ run. world_of G.rules opening run
        ≡ time_ordered G.rules opening n.links.issued x.game.length) s.runs }
    ensures played { (x : LossyData) (opening : G) (n : NetState G) (mirror : ℕ)
        (s : MirrorState G)
        → IsEndedNet G.rules x opening n → slice_get n.mirrors mirror ≡ Some s
        → IsPlayed G.rules x.game (net_mirror opening x.game) s s.history }
{}
