//! Pieces of what a slot issued, and the fronts that peers have of it.

ghost use Rattle.std.specs.Prelude.{◌≡◌, ℕ, ◌+◌, ◌-◌, ◌≤◌, ◌<◌, false, List};
ghost use Rattle.peer_model.specs.Queue.{Queue, Sent, Part, have_of, due_before, piece, conflicts, heard_part, TimesRise, IsFront, IsPiece};

/// A part that is a piece of what its slot issued never conflicts with a front of it.
pub fn a_piece_never_conflicts()
    ensures { (issued : List Sent) (p : Part) (q : Queue) → TimesRise 0 issued → IsFront issued q → IsPiece issued p
        → conflicts p q ≡ false }
{}

/// A part that is a piece of what its slot issued leaves a front of it, wherever hearing stops: what is
/// counted goes on by the next commands, of which those are late that are due before the last copy's
/// clock. What is forgotten is due before that clock.
pub fn a_part_leaves_a_front()
    ensures front { (bound most : ℕ) (issued : List Sent) (p : Part) (q : Queue) → TimesRise 0 issued → IsFront issued q → IsPiece issued p
        → IsFront issued (heard_part bound most p q) × (have_of q ≤ have_of (heard_part bound most p q)) }
    ensures late { (bound most : ℕ) (issued : List Sent) (p : Part) (q : Queue) → TimesRise 0 issued → IsFront issued q → IsPiece issued p
        → let r = heard_part bound most p q in
        r.late ≡ q.late + due_before bound (piece (have_of q) (have_of r - have_of q) issued) }
    ensures passed { (bound most : ℕ) (issued : List Sent) (p : Part) (q : Queue) → TimesRise 0 issued → IsFront issued q → IsPiece issued p
        → let r = heard_part bound most p q in
        (0 < q.kept → q.gone < bound) → 0 < r.kept → r.gone < bound }
{}
