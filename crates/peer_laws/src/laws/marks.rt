//! Which marks packets carry, and what becomes of them.

ghost use Rattle.std.specs.Prelude.{◌≡◌, ◌≢◌, ℕ, Some, false};
ghost use Rattle.rolling_mirror.specs.Rolling.{last_tick};
ghost use Rattle.peer_model.specs.Marks.{is_marked, if_differs};
ghost use Rattle.peer_packet.specs.Packet.{Packet};
ghost use Rattle.peer_calls.specs.declared.config.Config.{Config};
ghost use Rattle.peer_calls.specs.State.{State};
ghost use Rattle.peer_calls.specs.Sending.{packet_for, newest_mark};
ghost use Rattle.peer_calls.specs.Hearing.{hears_packet, told_of};
ghost use Rattle.peer_calls.specs.Moving.{after_mark};
ghost use Rattle.peer_laws.specs.Marked.{TicksRise, IsNewest, KeepsNewer, SeesFirst};

use game_trait::Game;

/// A packet carries the newest of its maker's marks, whose ticks rise.
pub fn a_packet_carries_the_newest_mark<G: Game>()
    ensures { (c : Config) (to room : ℕ) (s : State G) → TicksRise s.marks.own → IsNewest (packet_for c to room s).mark s.marks.own }
{}

/// They rise with each mark, and where this isn't refused it is what packets carry from then on.
pub fn a_mark_is_carried<G: Game>()
    ensures { (c : Config) (sum to room : ℕ) (s : State G) → TicksRise s.marks.own
        → TicksRise (after_mark sum s).marks.own
        × (is_marked (last_tick s.roll) s.marks ≡ false → (packet_for c to room (after_mark sum s)).mark ≡ Some (last_tick s.roll, sum)) }
{}

/// Whoever hears a packet keeps its mark where its tick is later than that of the newest of this sender, and
/// else that one. What is known of the others, and the own marks, stay.
pub fn a_newer_mark_is_kept<G: Game>()
    ensures { (c : Config) (p : Packet) (s : State G)
        → let after = hears_packet c p s in
        KeepsNewer p.mark (s.marks.newest p.from) (after.marks.newest p.from)
        × ((j : ℕ) → j ≢ p.from → after.marks.newest j ≡ s.marks.newest j)
        × (after.marks.own ≡ s.marks.own) }
{}

/// The first tick at which another's mark is seen to differ stays told of it, whether its packet tells the
/// mark or the own one is made.
pub fn the_first_difference_stays<G: Game>()
    ensures heard { (c : Config) (p : Packet) (s : State G) (x : ℕ × ℕ) → p.mark ≡ Some x
        → SeesFirst (told_of c p s).differs x.0 (s.marks.differs p.from) ((hears_packet c p s).marks.differs p.from) }
    ensures made { (sum j : ℕ) (s : State G) → is_marked (last_tick s.roll) s.marks ≡ false
        → SeesFirst (if_differs (record { tick = last_tick s.roll; sum = sum }) (s.marks.newest j)) (last_tick s.roll)
        (s.marks.differs j) ((after_mark sum s).marks.differs j) }
{}
