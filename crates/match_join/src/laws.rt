//! What is told of a mirror that joins late, so that it can't be read more weakly. Each is the
//! contract of a function without parameters that does nothing.

ghost use Rattle.std.specs.Prelude.{◌≡◌, ◌<◌, ◌++◌, ℕ, Bool, true, false, List};
ghost use Rattle.game_trait.specs.Ordered.{time_ordered};
ghost use Rattle.sync_model.specs.State.{last_clock};
ghost use Rattle.sync_model.specs.Turns.{IsDrained};
ghost use Rattle.match_data.specs.Data.{MatchData, IsMatch};
ghost use Rattle.report_text.specs.Worlds.{Showing};
ghost use Rattle.late_joiner.specs.Snapshot.{snapshot_of};
ghost use Rattle.late_joiner.specs.Joiner.{all_accepted, IsFrom};
ghost use Rattle.match_join.specs.declared.answer.JoinAnswer.TheVariants.{Told, TooLate};
ghost use Rattle.match_join.specs.Join.{IsTold, mirror_before, mirror_end, joiner_end, mirror_world, joiner_world, join_text, ends_text};

use game_trait::Game;

/// Where both are told of some tick was left, and the text says `same yes` only where the last
/// worlds of the mirror and of the joiner are one, and `same no` only where they aren't. Where it is
/// too late none was left.
pub fn what_is_told_of_both_is_so<G: Game>()
    ensures left { (show : Showing G) (opening : G) (m : MatchData) (number k : ℕ) (text : List ℕ)
        → IsTold show opening m number k (Told text)
        → last_clock (mirror_before opening m number k).runs < m.length }
    ensures yes { (show : Showing G) (opening : G) (m : MatchData) (number k : ℕ) (text : List ℕ)
        → IsTold show opening m number k (Told text)
        → text ≡ join_text show opening m number k true
        → mirror_world show.rules (mirror_end opening m number k)
        ≡ joiner_world show.rules (joiner_end show.rules opening m number k) }
    ensures no { (show : Showing G) (opening : G) (m : MatchData) (number k : ℕ) (text : List ℕ)
        → IsTold show opening m number k (Told text)
        → text ≡ join_text show opening m number k false
        → mirror_world show.rules (mirror_end opening m number k)
        ≡ joiner_world show.rules (joiner_end show.rules opening m number k) → ⊥ }
    ensures late { (show : Showing G) (opening : G) (m : MatchData) (number k : ℕ) (text : List ℕ)
        → IsTold show opening m number k (TooLate text)
        → last_clock (mirror_before opening m number k).runs ≡ m.length }
{}

/// Where both are told of, the text ends with what is told of the mirror and of the joiner at their
/// ends. There both are drained: every copy of each has run the whole match. The joiner went on from
/// the mirror's snapshot. The world shown of the mirror is the time-ordered execution, over the whole
/// match, of what it accepted, and that of the joiner the one of what had passed when it joined and
/// of what it accepted, the snapshot's rest in front.
pub fn both_are_drained<G: Game>()
    ensures told { (show : Showing G) (opening : G) (m : MatchData) (number k : ℕ) (text : List ℕ)
        → IsTold show opening m number k (Told text)
        → (front : List ℕ) × (same : Bool)
        × (text ≡ front ++ ends_text show number m.length (mirror_end opening m number k)
        (joiner_end show.rules opening m number k) same) }
    ensures mirror { (show : Showing G) (opening : G) (m : MatchData) (number k : ℕ)
        (text : List ℕ)
        → IsMatch m → IsTold show opening m number k (Told text)
        → let t = mirror_end opening m number k in
        IsDrained t × (t.length ≡ m.length)
        × (mirror_world show.rules t ≡ time_ordered show.rules opening t.accepted m.length) }
    ensures joiner { (show : Showing G) (opening : G) (m : MatchData) (number k : ℕ)
        (text : List ℕ)
        → IsMatch m → IsTold show opening m number k (Told text)
        → let s = joiner_end show.rules opening m number k in
        IsDrained s.inner
        × IsFrom (snapshot_of show.rules (mirror_before opening m number k)) m.length s
        × (joiner_world show.rules s
        ≡ time_ordered show.rules opening (all_accepted s) m.length) }
{}
