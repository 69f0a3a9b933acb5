//! Fields: a value at the front of bytes, and the bytes behind it.

ghost use Rattle.std.specs.Prelude.{◌≡◌, true, false, IfOk, IfErr};
ghost use Rattle.std.specs.Int.{w16, w32, w64};
ghost use Rattle.tss_io.specs.Reading.{Answers};
ghost use Rattle.peer_packet.specs.Reading.{byte_at, number_at, piece_at};

use crate::fault::Fault;

pub fn byte_of(fault: Fault, bytes: &[u8]) -> Result<(u8, &[u8]), Fault>
    ensures { Answers (λ x. (x.0, x.1.now)) result (byte_at fault bytes.now) }
{
    match bytes {
        [] => Err(fault),
        [byte, rest @ ..] => Ok((*byte, rest)),
    }
}

#[tactic(auto, unfolding(crate::specs::Reading::number_at))]
pub fn u16_of(fault: Fault, bytes: &[u8]) -> Result<(u16, &[u8]), Fault>
    ensures { Answers (λ x. (x.0, x.1.now)) result (number_at w16 fault bytes.now) }
{
    if bytes.len() < 2 {
        return Err(fault);
    }
    let (front, rest) = bytes.split_at(2);
    Ok((u16::from_le_bytes([front[0], front[1]]), rest))
}

#[tactic(auto, unfolding(crate::specs::Reading::number_at))]
pub fn u32_of(fault: Fault, bytes: &[u8]) -> Result<(u32, &[u8]), Fault>
    ensures { Answers (λ x. (x.0, x.1.now)) result (number_at w32 fault bytes.now) }
{
    if bytes.len() < 4 {
        return Err(fault);
    }
    let (front, rest) = bytes.split_at(4);
    let number = u32::from_le_bytes([front[0], front[1], front[2], front[3]]);
    Ok((number, rest))
}

#[tactic(auto, unfolding(crate::specs::Reading::number_at))]
pub fn u64_of(fault: Fault, bytes: &[u8]) -> Result<(u64, &[u8]), Fault>
    ensures { Answers (λ x. (x.0, x.1.now)) result (number_at w64 fault bytes.now) }
{
    if bytes.len() < 8 {
        return Err(fault);
    }
    let (front, rest) = bytes.split_at(8);
    let number = u64::from_le_bytes([
        front[0], front[1], front[2], front[3], front[4], front[5], front[6], front[7],
    ]);
    Ok((number, rest))
}

#[tactic(auto, unfolding(crate::specs::Reading::piece_at))]
pub fn piece_of(len: u8, fault: Fault, bytes: &[u8]) -> Result<(&[u8], &[u8]), Fault>
    ensures { Answers (λ x. (x.0.now, x.1.now)) result (piece_at len fault bytes.now) }
{
    let len = usize::from(len);
    if bytes.len() < len {
        return Err(fault);
    }
    Ok(bytes.split_at(len))
}

pub fn check(holds: bool, fault: Fault) -> Result<(), Fault>
    ensures ok { IfOk result (λ _. holds ≡ true) }
    ensures err { IfErr result (λ e. (e ≡ fault) × (holds ≡ false)) }
{
    if holds { Ok(()) } else { Err(fault) }
}
