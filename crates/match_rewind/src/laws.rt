//! What is printed of looks at the ticks of a match. Each is the contract of a function without
//! parameters that does nothing.

ghost use Rattle.std.specs.Prelude.{◌≡◌, ◌∷◌, ◌++◌, ℕ, List, []};
ghost use Rattle.game_trait.specs.declared.command.Command.{Command};
ghost use Rattle.game_trait.specs.Ordered.{time_ordered};
ghost use Rattle.match_data.specs.Data.{MatchData};
ghost use Rattle.report_text.specs.Ends.{done_line};
ghost use Rattle.report_text.specs.Hits.{hits_line};
ghost use Rattle.report_text.specs.Worlds.{Showing, block_text, at_head};
ghost use Rattle.rewind_store.specs.Rewound.{hits_of};
ghost use Rattle.match_rewind.specs.Rewind.{looks_text, rewind_text};

use game_trait::Game;

/// The first look at a tick prints the world after the time-ordered execution up to it, and hits
/// nothing; looks one after another print their blocks one after another. Behind the blocks of all
/// looks stands how many of them hit.
pub fn a_look_prints_the_world_at_its_tick<G: Game>()
    ensures one { (show : Showing G) (opening : G) (m : MatchData) (room tick : ℕ)
        → rewind_text show opening m room (tick ∷ [])
        ≡ block_text show.lines show.names (at_head tick)
        (time_ordered show.rules opening m.commands tick) ++ (hits_line 0 ++ done_line) }
    ensures all { (show : Showing G) (opening : G) (m : MatchData) (room : ℕ) (ticks : List ℕ)
        → rewind_text show opening m room ticks
        ≡ looks_text show opening m.commands ticks
        ++ (hits_line (hits_of room [] ticks) ++ done_line) }
    ensures more { (show : Showing G) (opening : G) (commands : List Command) (ts us : List ℕ)
        → looks_text show opening commands (ts ++ us)
        ≡ looks_text show opening commands ts ++ looks_text show opening commands us }
{}
