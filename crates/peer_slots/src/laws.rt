//! What changes here of a peer's state is what its calls change of it. Each law is the contract of a
//! function without parameters that does nothing.

ghost use Rattle.std.specs.Prelude.{◌≡◌, ℕ};
ghost use Rattle.rolling_mirror.specs.Rolling.{last_tick};
ghost use Rattle.peer_packet.specs.Packet.{Packet};
ghost use Rattle.peer_calls.specs.State.{State, clock_now};
ghost use Rattle.peer_calls.specs.Hearing.{hears_head};
ghost use Rattle.peer_calls.specs.Moving.{after_mark};
ghost use Rattle.peer_slots.specs.Links.{links_in, with_links, links_heard, links_marked};

use game_trait::Game;

/// Hearing the head of a packet.
pub fn a_head_is_heard_by_links<G: Game>()
    ensures { (p : Packet) (slots : ℕ) (s : State G)
        → with_links (links_heard p (clock_now s) (links_in slots s)) s ≡ hears_head p s }
{}

/// Marking the own world.
pub fn a_mark_is_kept_by_links<G: Game>()
    ensures { (slots sum : ℕ) (s : State G)
        → with_links (links_marked (record { tick = last_tick s.roll; sum = sum }) (links_in slots s)) s ≡ after_mark sum s }
{}
