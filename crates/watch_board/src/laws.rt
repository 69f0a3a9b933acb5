//! What telling watchers guarantees. Each law is the contract of a function without parameters that
//! does nothing.

ghost use Rattle.std.specs.Prelude.{◌≡◌, ◌++◌, ◌∷◌, [], ℕ, true, false, List};
ghost use Rattle.std.specs.List.{AllByRecursion};
ghost use Rattle.game_trait.specs.declared.event.Note.{Note};
ghost use Rattle.tss_io.specs.Lines.{as_line};
ghost use Rattle.watch_board.specs.Behaviour.{Behaviour, leaves, told};
ghost use Rattle.watch_board.specs.Board.{IsClosedShort, IsCutShort, board, last_lines, leaving_lines, still_there};
ghost use Rattle.watch_board.specs.Told.{AreTold, after_notes, left_lines};

/// Notes that watchers are told, and then others, are all of them, told one after another.
pub fn notes_add_up()
    ensures { (notes others : List Note) (old now new : List Behaviour)
        (before between after : List ℕ)
        → AreTold notes old now before between → AreTold others now new between after
        → AreTold (notes ++ others) old new before after }
{}

/// Where watchers were told notes, and those that were left had their say at the end, the lines are
/// the board of these notes.
pub fn told_and_closed_is_the_board()
    ensures { (notes : List Note) (old now : List Behaviour) (before between after : List ℕ)
        → AreTold notes old now before between → after ≡ between ++ last_lines now
        → after ≡ before ++ board old notes }
{}

/// Telling a note is cut short at a watcher that leaves: those in front of it have taken the note,
/// those behind haven't, and it is gone without its line. Where none leaves nothing is cut short.
pub fn a_note_is_cut_short_where_one_leaves()
    ensures there { (note : Note) (old new : List Behaviour) (before after : List ℕ)
        → IsCutShort note old new before after
        → (front : List Behaviour) × (behind : List Behaviour) × (gone : Behaviour)
        × (old ≡ front ++ gone ∷ behind) × (leaves note gone ≡ true)
        × (new ≡ still_there note front ++ behind)
        × (after ≡ before ++ leaving_lines note front) }
    ensures nobody { (note : Note) (old new : List Behaviour) (before after : List ℕ)
        → IsCutShort note old new before after
        → AllByRecursion (λ w. leaves note w ≡ false) old → ⊥ }
{}

/// The last lines are cut short at the line of one watcher: the lines of those in front of it were
/// appended. Where there is no watcher nothing is cut short.
pub fn last_lines_are_cut_short_at_one()
    ensures there { (old : List Behaviour) (before after : List ℕ)
        → IsClosedShort old before after
        → (front : List Behaviour) × (behind : List Behaviour) × (gone : Behaviour)
        × (old ≡ front ++ gone ∷ behind) × (after ≡ before ++ last_lines front) }
    ensures nobody { (before after : List ℕ) → IsClosedShort [] before after → ⊥ }
{}

/// A note goes to one watcher after another: who stays has taken it and has no line yet, and who
/// leaves is gone and has its line, as of all that it was told.
pub fn a_watcher_stays_or_leaves()
    ensures nobody { (note : Note) → (still_there note [] ≡ []) × (leaving_lines note [] ≡ []) }
    ensures stays { (note : Note) (one : Behaviour) (others : List Behaviour)
        → leaves note one ≡ false
        → (still_there note (one ∷ others) ≡ told note one ∷ still_there note others)
        × (leaving_lines note (one ∷ others) ≡ leaving_lines note others) }
    ensures leaves { (note : Note) (one : Behaviour) (others : List Behaviour)
        → leaves note one ≡ true
        → (still_there note (one ∷ others) ≡ still_there note others)
        × (leaving_lines note (one ∷ others)
        ≡ as_line (one.line (note ∷ [])) ++ leaving_lines note others) }
{}
