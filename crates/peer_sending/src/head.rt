//! A packet's head: all that stands before its parts.

ghost use Rattle.std.specs.Prelude.{◌≡◌, ℕ, ◌+◌, ◌*◌, ◌^◌, ◌≤◌, ◌<◌, IfSome, length, []};
ghost use Rattle.peer_packet.specs.Packet.{count_bytes, counts_bytes, mark_bytes, bytes_of};
ghost use Rattle.peer_packet.specs.Putting.{Puts};

use arrayvec::ArrayVec;
use peer_packet::{Front, put_front, put_mark, put_vector};
use std::marker::Model;

/// A packet's head, which contracts see as the packet without parts.
#[derive(Debug, Drop)]
pub struct Head {
    front: Front,
    have: ArrayVec<u32, 64>,
    mark: Option<(u32, u32)>,
}

impl Model for Head {
    ghost use Rattle.std.specs.Prelude.{[], length, ◌≡◌, ◌≤◌};
    ghost use Rattle.peer_packet.specs.Packet.{Packet, flag_of};

    ghost Value = { Packet };

    ghost view = { λ h. record {
      from = h.front.from;
      to = h.front.to;
      clock = h.front.clock;
      echo = h.front.echo;
      have = h.have.items;
      mark = h.mark;
      parts = [];
    } };

    ghost invariant = { λ h. (h.front.flag ≡ flag_of h.mark) × (length h.have.items ≤ 64) };
}

// Bytes of a slot's count.
fn count_size(count: u32) -> usize
    ensures { result ≡ length (count_bytes count) }
{
    if 0 < count { 4 } else { 0 }
}

// Bytes of these counts.
fn counts_size(have: &[u32]) -> usize
    requires { length have.now ≤ 64 }
    ensures size { result ≡ length (counts_bytes have.now) }
    ensures most { result ≤ 4 * length have.now }
{
    let mut size = 0;
    for count in have {
        size += count_size(*count);
    }
    size
}

// Bytes of a mark.
fn mark_size(mark: Option<(u32, u32)>) -> usize
    ensures { result ≡ length (mark_bytes mark) }
{
    match mark {
        None => 0,
        Some(_) => 8,
    }
}

impl Head {
    /// The head of a packet from one slot to another at a clock: the newest clock that was heard of the other
    /// one, how many commands of each slot the sender has, and its newest mark.
    pub fn of(
        ends: (u8, u8),
        clock: u32,
        echo: u32,
        have: ArrayVec<u32, 64>,
        mark: Option<(u32, u32)>,
    ) -> Head
        ensures head { result ≡ record {
          from = ends.0;
          to = ends.1;
          clock = clock;
          echo = echo;
          have = have.items;
          mark = mark;
          parts = [];
        } }
        ensures numbers { (clock < 2 ^ 32) × (echo < 2 ^ 32) × IfSome mark (λ m. (m.0 < 2 ^ 32) × (m.1 < 2 ^ 32)) }
    {
        let front = Front {
            from: ends.0,
            to: ends.1,
            flag: u8::from(mark.is_some()),
            clock,
            echo,
        };
        Head { front, have, mark }
    }

    /// How many bytes it has: 28, 4 for each slot that issued, and 8 with a mark.
    pub fn size(&self) -> usize
        ensures { (session : ℕ) → result ≡ length (bytes_of session self.now) }
    {
        28 + counts_size(self.have.as_slice()) + mark_size(self.mark)
    }

    /// Puts it at the front of a buffer, and answers how many bytes it has.
    pub fn put(&self, session: u64, out: &mut [u8]) -> usize
        requires { length (bytes_of session self.now) ≤ length out.old }
        ensures { Puts out.old out.new 0 result (bytes_of session self.now) }
    {
        let at = put_front(out, 0, session, &self.front);
        let at = put_vector(out, at, self.have.as_slice());
        put_mark(out, at, self.mark)
    }
}
