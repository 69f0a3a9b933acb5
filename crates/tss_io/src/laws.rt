//! What the words of sources, sinks and refusals mean, so that none can be read more weakly.
//! Each is the contract of a function without parameters that does nothing.

ghost use Rattle.std.specs.Prelude.{◌≡◌, ◌<◌, ◌+◌, ◌-◌, ◌^◌, ℕ, List, Option, Some, None, ◌++◌, length};
ghost use Rattle.tss_io.specs.declared.fault.Refused.{Refused};
ghost use Rattle.tss_io.specs.Kinds.{fault_of, first_failing};
ghost use Rattle.tss_io.specs.Lines.{Lines};
ghost use Rattle.tss_io.specs.Machines.{Machine};
ghost use Rattle.tss_io.specs.Runs.{FirstFault, Follows, ahead, line_checks};
ghost use Rattle.tss_io.specs.Streams.{Rose, Yields, Gains, next_count};

/// A count that rose is greater than before, unless it stands at the last value of a counter of 64
/// bits. One more is a count that rose, also there.
pub fn counts_that_rose_are_greater()
    ensures greater { (old new : ℕ) → Rose old new → new < 2 ^ 64 - 1 → old < new }
    ensures next { (old : ℕ) → Rose old (next_count old) }
{}

/// What is yielded stood in front of what was left, and all else is left. It is told after as it
/// was before.
pub fn what_is_yielded_stood_in_front()
    ensures told { (old piece : List ℕ) (new : Option (List ℕ)) → Yields (Some old) piece new
        → (rest : List ℕ) × (new ≡ Some rest) × (old ≡ piece ++ rest) }
    ensures untold { (piece : List ℕ) (new : Option (List ℕ)) → Yields None piece new
        → new ≡ None }
{}

/// What is gained stands behind what was taken before, and nothing else was taken. It is told after
/// as it was before.
pub fn what_is_gained_stands_behind()
    ensures told { (old piece : List ℕ) (new : Option (List ℕ)) → Gains (Some old) piece new
        → new ≡ Some (old ++ piece) }
    ensures untold { (piece : List ℕ) (new : Option (List ℕ)) → Gains None piece new
        → new ≡ None }
{}

/// No lines have two first faults, where a line is taken exactly if none of its checks fails, and
/// else is refused by the first of them that does.
pub fn one_first_fault<S>()
    ensures { (m : Machine S) (n : ℕ) (s : S) (lines : Lines) (a b : Refused)
        → ((t : S) (l : List ℕ) → fault_of (m.take t l) ≡ first_failing (m.checks t l))
        → FirstFault m.take m.checks m.is_last n s lines a
        → FirstFault m.take m.checks m.is_last n s lines b → a ≡ b }
{}

/// A first fault stands behind good lines alone: these lead to a state, its number is that of the
/// line that comes then, and its cause is that line's first check that fails there.
pub fn a_first_fault_is_behind_good_lines<S>()
    ensures { (m : Machine S) (n : ℕ) (s : S) (lines : Lines) (refused : Refused)
        → FirstFault m.take m.checks m.is_last n s lines refused
        → (front : List (List ℕ)) × (met : S) × (rest : Lines) × (lines ≡ ahead front rest)
        × Follows m.take m.is_last s front met × (refused.line ≡ n + length front)
        × (first_failing (line_checks m.checks m.is_last met rest) ≡ Some refused.cause) }
{}
