//! What always holds of a mirror of a session without an end that answers lines. Each is the contract of
//! a function without parameters that does nothing.

ghost use Rattle.std.specs.Prelude.{◌≡◌, ◌+◌, ◌*◌, ◌/◌, ◌<◌, ◌≤◌, ◌↔◌, ◌⊎◌, ℕ, true, false, List, [], ◌∷◌, length, is_some};
ghost use Rattle.game_trait.specs.declared.event.Event.{Event};
ghost use Rattle.std.specs.List.{AllByRecursion};
ghost use Rattle.game_trait.specs.Ordered.{ordered};
ghost use Rattle.game_trait.specs.Run.{world_of};
ghost use Rattle.game_trait.specs.declared.command.Act.{Act};
ghost use Rattle.game_trait.specs.declared.command.Command.{Command};
ghost use Rattle.game_trait.specs.declared.event.Arrived.TheVariants.{Late as ToLate};
ghost use Rattle.sync_model.specs.Change.{after, is_repeat};
ghost use Rattle.sync_model.specs.State.{MirrorState};
ghost use Rattle.sync_model.specs.TimeOrder.{KeysDiffer};
ghost use Rattle.report_text.specs.Replies.{arrival_text};
ghost use Rattle.report_text.specs.Worlds.{Showing, showing, block_text, copy_head};
ghost use Rattle.rolling_mirror.specs.declared.arrival.Arrival.{Arrival};
ghost use Rattle.rolling_mirror.specs.declared.arrival.Arrival.TheVariants.{Taken, Late, Far};
ghost use Rattle.rolling_mirror.specs.Rolling.{IsWindowOf, as_arrived, last_tick, window_end, said_to_arrival};
ghost use Rattle.live_text.specs.Requests.{FitsTerms};
ghost use Rattle.live_text.specs.declared.request.Request.{Request};
ghost use Rattle.live_text.specs.declared.request.Request.TheVariants as requests;
ghost use Rattle.endless_mirror.specs.Session.{SessionState, circle, last_of_session, is_past, terms_of, own_command, after_request, opening_session};
ghost use Rattle.endless_mirror.specs.Stands.{Stands, arrival_made, events_made, BringsKnown, arrived_from, whole_after};
ghost use Rattle.sync_model.specs.Forgetting.{IsRemembered, arrive_from};
ghost use Rattle.endless_mirror.specs.Told.{answer_text, far_line, copy_told, last_copy, remembered};
ghost use Rattle.endless_mirror.specs.Numbers.{number_moved, numbers_moved};
ghost use Rattle.endless_mirror.specs.Talk.{after_requests, FitAlong, whole_along, opening_whole, IsWholeOf, told_of_whole};
ghost use Rattle.match_data.specs.Data.{MatchData, IsMatch};
ghost use Rattle.game_trait.specs.declared.limits.TheConstants.{GREATEST_NUMBER};

use game_trait::Game;

/// A mirror's own command that isn't refused is never turned away: it is taken and repairs nothing.
pub fn own_commands_are_taken<G: Game>()
    ensures { (s : SessionState G) (player : ℕ) (act : Act) → Stands s.mirror
        → FitsTerms (terms_of s) (requests.Own player act)
        → said_to_arrival s.mirror (own_command s player act) ≡ Taken 0 }
{}

/// A `cmd` is answered `late` exactly where its name isn't remembered and it is older than the last
/// copy's clock, which is its bound.
pub fn late_exactly<G: Game>()
    ensures answer { (s : SessionState G) (x : Command) (bound : ℕ)
        → (said_to_arrival s.mirror x ≡ Late bound)
        ↔ ((is_repeat s.mirror.left x ≡ false) × (x.time < last_tick s.mirror)
        × (bound ≡ last_tick s.mirror)) }
    ensures told { (show : Showing G) (s : SessionState G) (x : Command) (bound : ℕ)
        → said_to_arrival s.mirror x ≡ Late bound
        → answer_text show s (requests.Cmd x)
        ≡ arrival_text s.number x.from x.number (ToLate bound) }
{}

/// A `cmd` is answered `far` exactly where its name isn't remembered, it isn't late, and it is due at the
/// window's end or later, told in ticks of the session. Then the mirror is as before.
pub fn far_exactly<G: Game>()
    ensures answer { (s : SessionState G) (x : Command) (end : ℕ)
        → (said_to_arrival s.mirror x ≡ Far end)
        ↔ ((is_repeat s.mirror.left x ≡ false) × (last_tick s.mirror ≤ x.time)
        × (window_end s.mirror ≤ x.time) × (end ≡ window_end s.mirror)) }
    ensures told { (show : Showing G) (s : SessionState G) (x : Command) (end : ℕ)
        → said_to_arrival s.mirror x ≡ Far end
        → answer_text show s (requests.Cmd x) ≡ far_line s.number x end }
    ensures same { (s : SessionState G) (x : Command) (end : ℕ)
        → said_to_arrival s.mirror x ≡ Far end
        → (after_request G.rules s (requests.Cmd x)).mirror ≡ s.mirror }
{}

/// What `end` tells fits together: the world of the last copy is what comes of the world at the base
/// where the commands that are told are executed in time order, from the base to that copy's clock. None
/// of them is due before the base.
pub fn the_end_tells_what_is_remembered<G: Game>()
    ensures world { (lines : G → List (List ℕ) → List ℕ) (names : List (List ℕ))
        (s : SessionState G) → Stands s.mirror
        → copy_told (showing G.rules lines names) s.number s.mirror (last_copy s.mirror)
        ≡ block_text lines names (copy_head s.number (last_copy s.mirror) (last_tick s.mirror))
        (world_of G.rules s.mirror.left.opening
        (ordered (remembered s.mirror) s.mirror.base (last_tick s.mirror))) }
    ensures due { (s : SessionState G)
        → AllByRecursion (λ x. s.mirror.base ≤ x.time) (remembered s.mirror) }
{}

/// Where a mirror remembers the whole session, and this is its window, a request leads to the window of
/// that mirror after the events that the request is: so whatever is told of copies, worlds and clocks is
/// what that mirror has. Commands that come again after their names were forgotten are late there too;
/// one of a forgotten name that isn't late is left out.
pub fn requests_are_those_of_a_whole<G: Game>()
    ensures { (whole : MirrorState G) (s : SessionState G) (r : Request)
        → Stands s.mirror → IsWindowOf G.rules whole s.mirror
        → whole.clock + 1 < whole.length
        → FitsTerms (terms_of s) r → BringsKnown whole s r
        → IsWindowOf G.rules (after whole (events_made (length whole.runs) s r))
        (after_request G.rules s r).mirror }
{}

/// All that comes but commands is known, and so is a command of which no forgotten one has the name, or that
/// the last copy has run past.
pub fn what_comes_is_known<G: Game>()
    ensures tick { (whole : MirrorState G) (s : SessionState G) → BringsKnown whole s requests.Tick }
    ensures turn { (whole : MirrorState G) (s : SessionState G) → BringsKnown whole s requests.Turn }
    ensures step { (whole : MirrorState G) (s : SessionState G) (copy : ℕ)
        → BringsKnown whole s (requests.Step copy) }
    ensures restagger { (whole : MirrorState G) (s : SessionState G) (plan : ℕ)
        → BringsKnown whole s (requests.Restagger plan) }
    ensures plans { (b : ℕ) (whole : MirrorState G) (plan : ℕ)
        → IsRemembered b whole (Event.Restagger plan) }
    ensures command { (whole : MirrorState G) (s : SessionState G) (x : Command)
        → (IsRemembered s.mirror.base whole (Event.Arrive x)) ⊎ (x.time < last_tick s.mirror)
        → BringsKnown whole s (requests.Cmd x) }
{}

/// A command that is answered as one that is taken, a repeat or late has come to the mirror that remembers
/// all, and one that may come again hasn't.
pub fn what_is_answered_has_come<G: Game>()
    ensures came { (b : ℕ) (whole : MirrorState G) (x : Command) (a : Arrival)
        → is_some (as_arrived a) ≡ true
        → (arrival_made x a ≡ Event.Arrive x ∷ [])
        × (arrived_from b whole x a ≡ arrive_from b whole x) }
    ensures waits { (b : ℕ) (whole : MirrorState G) (x : Command) (a : Arrival)
        → is_some (as_arrived a) ≡ false
        → (arrival_made x a ≡ []) × (arrived_from b whole x a ≡ whole) }
{}

/// What a session begins with: the match's ticks for its window, of which it keeps a quarter, and room for as
/// many commands at once as a match of its version may have. It lasts to the last tick of 32 bits.
pub fn what_a_session_begins_with<G: Game>()
    ensures window { (opening : G) (m : MatchData) (number : ℕ)
        → (opening_session opening m number).mirror.left.length ≡ m.length }
    ensures keeps { (opening : G) (m : MatchData) (number : ℕ)
        → (opening_session opening m number).mirror.keep ≡ m.length / 4 }
    ensures room { (opening : G) (m : MatchData) (number : ℕ) → m.version ≡ 1
        → (opening_session opening m number).mirror.spare ≡ 16384 }
    ensures room_2 { (opening : G) (m : MatchData) (number : ℕ) → m.version ≡ 2
        → (opening_session opening m number).mirror.spare ≡ 32768 }
    ensures last { last_of_session ≡ 4294967295 }
{}

/// The same of every request, whatever names its commands have: the mirror that remembers all asks of names only
/// what is due from the base on.
pub fn every_request_is_one_of_a_whole<G: Game>()
    ensures { (whole : MirrorState G) (s : SessionState G) (r : Request)
        → Stands s.mirror → IsWindowOf G.rules whole s.mirror
        → whole.clock + 1 < whole.length → FitsTerms (terms_of s) r
        → IsWindowOf G.rules (whole_after whole s r) (after_request G.rules s r).mirror }
{}

/// A mirror's own numbers go round: whatever requests come, the number of its next command is the one that
/// it had, moved on so far as they move it, and rounds apart. An own command moves it by one, and any
/// request by half a circle at most: so between two own commands of one number it went round, and a number
/// that comes again from behind takes it nowhere.
pub fn own_numbers_go_round<G: Game>()
    ensures round { (s : SessionState G) (rs : List Request)
        → s.next ≤ GREATEST_NUMBER → FitAlong G.rules s rs
        → (rounds : ℕ)
        × (s.next + numbers_moved G.rules s rs
        ≡ (after_requests G.rules s rs).next + rounds * circle) }
    ensures own { (s : SessionState G) (player : ℕ) (act : Act) → is_past s ≡ false
        → number_moved s (requests.Own player act) ≡ 1 }
    ensures half { (s : SessionState G) (r : Request) → number_moved s r ≤ circle / 2 }
    ensures apart { (s : SessionState G) (player : ℕ) (act : Act) (rs : List Request)
        → s.next ≤ GREATEST_NUMBER → FitAlong G.rules s (requests.Own player act ∷ rs)
        → is_past s ≡ false
        → (after_requests G.rules s (requests.Own player act ∷ rs)).next ≡ s.next
        → circle ≤ numbers_moved G.rules s (requests.Own player act ∷ rs) }
{}

/// A whole talk: from the opening on, whatever requests come that can be made, a mirror is the window of the
/// one that remembers all and asks of names only what is due from the base on, and no two commands there
/// have one key. This one has a match of any length that is longer than the talk.
pub fn a_session_is_that_of_a_whole<G: Game>()
    ensures { (opening : G) (m : MatchData) (number n : ℕ) (rs : List Request)
        → IsMatch m → length rs + 1 < n → FitAlong G.rules (opening_session opening m number) rs
        → IsWholeOf G.rules
        (whole_along G.rules (opening_whole opening m n) (opening_session opening m number) rs)
        (after_requests G.rules (opening_session opening m number) rs) }
{}

/// What that means: the mirror is the window of the one that remembers all, which isn't at its end, and no
/// two of whose commands have one key. Requests can be made along a talk where each can be made where it
/// comes.
pub fn what_a_whole_talk_means<G: Game>()
    ensures window { (whole : MirrorState G) (s : SessionState G)
        → IsWholeOf G.rules whole s → IsWindowOf G.rules whole s.mirror }
    ensures before_end { (whole : MirrorState G) (s : SessionState G)
        → IsWholeOf G.rules whole s → whole.clock + 1 < whole.length }
    ensures keys { (whole : MirrorState G) (s : SessionState G)
        → IsWholeOf G.rules whole s → KeysDiffer whole.accepted }
    ensures none { (s : SessionState G) → FitAlong G.rules s [] }
    ensures more { (s : SessionState G) (r : Request) (rs : List Request)
        → FitsTerms (terms_of s) r → FitAlong G.rules (after_request G.rules s r) rs
        → FitAlong G.rules s (r ∷ rs) }
{}

/// So in a whole talk what is told is told of the mirror that remembers all: its clock, its answers, its
/// copies' worlds and clocks, the world in time order at the base, and its commands from there on. Of the
/// mirror at hand is only the base, and whether its window and its room let it tick and take a command.
pub fn what_is_told_is_told_of_the_whole<G: Game>()
    ensures { (lines : G → List (List ℕ) → List ℕ) (names : List (List ℕ)) (whole : MirrorState G)
        (s : SessionState G) (r : Request)
        → IsWholeOf G.rules whole s → FitsTerms (terms_of s) r
        → answer_text (showing G.rules lines names) s r
        ≡ told_of_whole (showing G.rules lines names) whole s r }
{}
