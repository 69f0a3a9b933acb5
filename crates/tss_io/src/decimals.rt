//! Numbers as decimal text.

ghost use Rattle.std.specs.Prelude.{◌≡◌, ◌≤◌, ◌++◌, ◌^◌, ◌<◌, ◌↔◌, ℕ, length, slice_index, IsTrue, decimal, IfSome, IfNone, OnOk, OnErr};
ghost use Rattle.std.specs.Fmt.{signed_decimal};
ghost use Rattle.std.specs.Str.Parse.{IsNumeral, digits_value};
ghost use Rattle.tss_io.specs.Decimals.{number_of};

use itoa::Buffer;
use tss_base::NoMemory;

/// The number whose canonical decimal is `word`, if it is at most `most`: digits alone, with no
/// sign and no zero in front of another digit. It takes no memory.
pub fn decimal(word: &[u8], most: u64) -> Option<u64>
    ensures exact { result ≡ number_of word.now most }
    ensures some { IfSome result (λ n. (word.now ≡ decimal n) × (n ≤ most)) }
    ensures none { IfNone result ((n : ℕ) → n ≤ most → word.now ≡ decimal n → ⊥) }
{
    if has_leading_zero(word) {
        return None;
    }
    let Some(number) = digits(word) else {
        return None;
    };
    if number <= most { Some(number) } else { None }
}

fn has_leading_zero(word: &[u8]) -> bool
    ensures { IsTrue result ↔ ((1 < length word.now) × (slice_index word.now 0 ≡ 48)) }
{
    word.len() > 1 && word[0] == b'0'
}

// The number that the digits write, with or without zeros in front, if it is below 2 ^ 64.
fn digits(word: &[u8]) -> Option<u64>
    ensures some { IfSome result (λ n. IsNumeral 10 word.now × (n ≡ digits_value 10 word.now)) }
    ensures none { IfNone result (IsNumeral 10 word.now → 2 ^ 64 ≤ digits_value 10 word.now) }
{
    if word.is_empty() {
        return None;
    }
    let mut number: u64 = 0;
    for &digit in word {
        if !digit.is_ascii_digit() {
            return None;
        }
        let Some(tenfold) = number.checked_mul(10) else {
            return None;
        };
        let Some(next) = tenfold.checked_add(u64::from(digit - b'0')) else {
            return None;
        };
        number = next;
    }
    Some(number)
}

/// Appends the canonical decimal of `n`, with `-` before a negative number. On `NoMemory`
/// out is unchanged.
pub fn push_decimal(out: &mut Vec<u8>, n: i128) -> Result<(), NoMemory>
    ensures ok { OnOk result (out.new.items ≡ out.old.items ++ signed_decimal n) }
    ensures err { OnErr result (out.new.items ≡ out.old.items) }
{
    let mut buffer = Buffer::new();
    out.extend_from_slice(buffer.format(n).as_bytes())?;
    Ok(())
}

/// Appends the canonical decimal of a count; one of a single digit, the most frequent, is one byte.
/// On `NoMemory` out is unchanged.
pub fn push_count(out: &mut Vec<u8>, n: u64) -> Result<(), NoMemory>
    ensures ok { OnOk result (out.new.items ≡ out.old.items ++ decimal n) }
    ensures err { OnErr result (out.new.items ≡ out.old.items) }
{
    if n < 10 {
        Ok(out.push(b'0' + n as u8)?)
    } else {
        let mut buffer = Buffer::new();
        Ok(out.extend_from_slice(buffer.format(n).as_bytes())?)
    }
}
