//! The front of a packet: who says it to whom, and when.

ghost use Rattle.std.specs.Prelude.{◌≡◌};
ghost use Rattle.tss_io.specs.Reading.{Answers};
ghost use Rattle.peer_packet.specs.Packet.{are_ends};
ghost use Rattle.peer_packet.specs.Reading.{front_at, mark_at};

use crate::fault::Fault;
use crate::fields::{byte_of, check, u32_of, u64_of};
use crate::terms::Terms;

/// Who says it to whom, and when.
#[derive(Clone, Copy, Debug, PartialEq, Eq)]
pub struct Front {
    /// The sender's slot.
    pub from: u8,
    /// The slot of whom it is for.
    pub to: u8,
    /// 1 where a mark follows.
    pub flag: u8,
    /// The sender's clock.
    pub clock: u32,
    /// The newest clock of `to` that the sender heard.
    pub echo: u32,
}

fn are_ends(slots: u8, from: u8, to: u8) -> bool
    ensures { result ≡ are_ends slots from to }
{
    from < slots && to < slots && from != to
}

#[tactic(auto, unfolding(crate::specs::Reading::front_at))]
pub fn front_of<'a>(terms: &Terms, bytes: &'a [u8]) -> Result<(Front, &'a [u8]), Fault>
    ensures { Answers (λ x. (x.0, x.1.now)) result (front_at terms.now bytes.now) }
{
    let (kind, rest) = byte_of(Fault::Kind, bytes)?;
    check(kind == 1, Fault::Kind)?;
    let (session, rest) = u64_of(Fault::Session, rest)?;
    check(session == terms.session, Fault::OtherSession)?;
    let (from, rest) = byte_of(Fault::Ends, rest)?;
    let (to, rest) = byte_of(Fault::Ends, rest)?;
    check(are_ends(terms.slots, from, to), Fault::Ends)?;
    let (flag, rest) = byte_of(Fault::Head, rest)?;
    let (clock, rest) = u32_of(Fault::Head, rest)?;
    let (echo, rest) = u32_of(Fault::Head, rest)?;
    check(flag <= 1, Fault::Head)?;
    let front = Front {
        from,
        to,
        flag,
        clock,
        echo,
    };
    Ok((front, rest))
}

#[tactic(auto, unfolding(crate::specs::Reading::mark_at))]
pub fn mark_of(flag: u8, bytes: &[u8]) -> Result<(Option<(u32, u32)>, &[u8]), Fault>
    ensures { Answers (λ x. (x.0, x.1.now)) result (mark_at flag bytes.now) }
{
    if flag == 0 {
        return Ok((None, bytes));
    }
    let (tick, rest) = u32_of(Fault::Mark, bytes)?;
    let (sum, rest) = u32_of(Fault::Mark, rest)?;
    Ok((Some((tick, sum)), rest))
}
