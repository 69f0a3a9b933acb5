//! A packet, read in place.

ghost use Rattle.std.specs.Prelude.{◌≡◌, ◌≤◌, Ok, Err, IfOk, IfErr, length, take};
ghost use Rattle.tss_io.specs.Reading.{Answers};
ghost use Rattle.peer_packet.specs.Packet.{AreTerms, Packet, IsPacket, bytes_of};
ghost use Rattle.peer_packet.specs.Reading.{packet_at};

use crate::fault::Fault;
use crate::front::{Front, front_of, mark_of};
use crate::part::pass_parts;
use crate::put::{put, put_front, put_mark, put_vector};
use crate::terms::Terms;
use crate::vector::{Counts, vector_of};
use crate::views::PartsView;
use std::marker::Model;

/// A packet over its bytes. It takes no memory.
#[derive(Debug, Drop)]
pub struct PacketView<'a> {
    front: Front,
    have: Counts,
    mark: Option<(u32, u32)>,
    parts: &'a [u8],
}

impl<'a> Model for PacketView<'a> {
    ghost use Rattle.peer_packet.specs.Packet.{Packet};
    ghost use Rattle.peer_packet.specs.Reading.{IsShown, parts_in};

    ghost Value = { Packet };

    ghost view = { λ p. record {
      from = p.front.from;
      to = p.front.to;
      clock = p.front.clock;
      echo = p.front.echo;
      have = p.have.items;
      mark = p.mark;
      parts = parts_in p.parts.now;
    } };

    ghost invariant = { λ p. IsShown p.front.flag p.mark p.have.items p.parts.now };
}

// The packet of these bytes.
#[tactic(auto, unfolding(crate::specs::Reading::packet_at))]
fn packet_of<'a>(terms: &Terms, bytes: &'a [u8]) -> Result<PacketView<'a>, Fault>
    requires { AreTerms terms.now }
    ensures { Answers (λ p. p) result (packet_at terms.now bytes.now) }
{
    let (front, rest) = front_of(terms, bytes)?;
    let (have, rest) = vector_of(terms.slots, rest)?;
    let (mark, parts) = mark_of(front.flag, rest)?;
    pass_parts(terms, front.to, &have, parts)?;
    Ok(PacketView {
        front,
        have,
        mark,
        parts,
    })
}

impl<'a> PacketView<'a> {
    /// Reads a packet of the session from bytes, whatever they are.
    pub fn read(terms: &Terms, bytes: &'a [u8]) -> Result<PacketView<'a>, Fault>
        requires { AreTerms terms.now }
        // What is read is a packet of the session, and the bytes are its bytes.
        ensures found { IfOk result (λ p. IsPacket terms.now p × (bytes.now ≡ bytes_of terms.now.session p)) }
        // The bytes of a packet of the session are read as that packet.
        ensures only { (p : Packet) → IsPacket terms.now p → bytes.now ≡ bytes_of terms.now.session p
            → result ≡ Ok p }
        // A refusal is the first fault from left to right.
        ensures refused { IfErr result (λ fault. packet_at terms.now bytes.now ≡ Err fault) }
    {
        packet_of(terms, bytes)
    }

    /// The sender's slot.
    pub fn from(&self) -> u8
        ensures { result ≡ self.now.from }
    {
        self.front.from
    }

    /// The slot of whom it is for.
    pub fn to(&self) -> u8
        ensures { result ≡ self.now.to }
    {
        self.front.to
    }

    /// The sender's clock.
    pub fn clock(&self) -> u32
        ensures { result ≡ self.now.clock }
    {
        self.front.clock
    }

    /// The newest clock of whom it is for that the sender heard.
    pub fn echo(&self) -> u32
        ensures { result ≡ self.now.echo }
    {
        self.front.echo
    }

    /// How many commands of each slot the sender has.
    pub fn have(&self) -> &[u32]
        ensures { result.now ≡ self.now.have }
    {
        self.have.as_slice()
    }

    /// The sender's newest mark: its tick and its sum.
    pub fn mark(&self) -> Option<(u32, u32)>
        ensures { result ≡ self.now.mark }
    {
        self.mark
    }

    /// Its parts in order.
    pub fn parts(&self) -> PartsView<'a>
        ensures { result ≡ self.now.parts }
    {
        PartsView::of(self.parts)
    }

    /// Puts its bytes at the front of a buffer, and answers how many they are.
    pub fn put(&self, session: u64, out: &mut [u8]) -> usize
        requires { length (bytes_of session self.now) ≤ length out.old }
        ensures bytes { take result out.new ≡ bytes_of session self.now }
        ensures length { result ≡ length (bytes_of session self.now) }
    {
        let at = put_front(out, 0, session, &self.front);
        let at = put_vector(out, at, self.have.as_slice());
        let at = put_mark(out, at, self.mark);
        put(out, at, self.parts)
    }
}
