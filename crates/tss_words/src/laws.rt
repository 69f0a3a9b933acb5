//! What is asked for, taken apart. Each law is the contract of a function without parameters that
//! does nothing.

ghost use Rattle.std.specs.Prelude.{◌<◌, ◌≤◌, ℕ, List, length};
ghost use Rattle.std.specs.List.{AllByRecursion};
ghost use Rattle.tss_words.specs.declared.subcommand.MatchTask.TheVariants.{Join, Rewind};
ghost use Rattle.tss_words.specs.declared.subcommand.Subcommand.TheVariants.{OfMatch};
ghost use Rattle.tss_words.specs.Subcommands.{IsAsked};

/// Whoever asks for looks at a match asks for 1 to 16 ticks, each at most 8,192, and has a world kept
/// at every 1 to 8,192 ticks, and 1 to 64 of those that were looked up.
pub fn looks_are_kept_in_ranges()
    ensures { (every room : ℕ) (ticks : List ℕ) → IsAsked (OfMatch (Rewind every room ticks))
        → (0 < every) × (every ≤ 8192) × (0 < room) × (room ≤ 64)
        × (0 < length ticks) × (length ticks ≤ 16) × AllByRecursion (λ t. t ≤ 8192) ticks }
{}

/// Whoever asks for a mirror to join late names one of the 8 that a match may have, and as many
/// lines as a script may have.
pub fn joins_are_asked_in_ranges()
    ensures { (mirror lines : ℕ) → IsAsked (OfMatch (Join mirror lines))
        → (mirror ≤ 7) × (lines ≤ 262144) }
{}
