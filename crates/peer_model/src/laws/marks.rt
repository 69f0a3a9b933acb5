//! Marks, by which peers see that their worlds differ.

ghost use Rattle.std.specs.Prelude.{ℕ};
ghost use Rattle.peer_model.specs.declared.mark.Mark.{Mark};
ghost use Rattle.peer_model.specs.Marks.{Marks, no_marks, marked, hears_mark, IsOf, AreOf};

/// Where the worlds of all peers have one sum at each tick, no mark is ever seen to differ, whatever is
/// marked and heard, at any time and in any order.
pub fn equal_worlds_never_differ()
    ensures start { (sums : ℕ → ℕ) → AreOf sums no_marks }
    ensures marked { (sums : ℕ → ℕ) (x : Mark) (m : Marks) → IsOf sums x → AreOf sums m → AreOf sums (marked x m) }
    ensures heard { (sums : ℕ → ℕ) (j : ℕ) (x : Mark) (m : Marks) → IsOf sums x → AreOf sums m → AreOf sums (hears_mark j x m) }
{}
