// Signed numbers read.
ghost use Rattle.std.specs.Prelude.{◌≡◌, ◌≤◌, ◌<◌, ◌+◌, ◌-◌, ◌^◌, ◌↔◌, ◌∷◌, ℕ, Option, [], length, take, drop, IfOk, IfSome, IsErrOf, MatchOption, FitsSigned};
ghost use Rattle.std.specs.Int.{w64};
ghost use Rattle.leb_codec.specs.Leb.{SpellsSigned, IsShort, IsWideSigned, signed_of, signed_weighed};
ghost use Rattle.leb_codec.specs.inside.Digits.{IsSum};

use crate::read::{LebFault, add_digit};

/// A signed number, and the place after its last byte.
#[derive(Clone, Copy, Debug, PartialEq, Eq)]
pub struct ReadS {
    pub value: i64,
    pub end: usize,
}

const HALF: u64 = 1 << 63;

// The number of a sign, from the sum of the digits and that of what they lack to 127. Below 0 the second sum is
// -1 - number, so each side is told by the sum that is small there.
fn signed(negative: bool, sum: Option<u64>, other: Option<u64>) -> Option<i64>
    ensures fits { IfSome result (λ v. FitsSigned w64 v) }
    ensures value { (weight rest : ℕ) → IsSum sum weight → IsSum other rest → MatchOption result (¬ FitsSigned w64 (signed_of negative weight (weight + rest + 1))) (λ v. v ≡ signed_of negative weight (weight + rest + 1)) }
{
    let chosen = if negative { other? } else { sum? };
    if chosen >= HALF {
        return None;
    }
    let value = chosen as i64;
    Some(if negative { -1 - value } else { value })
}

// The number of one byte, whose bit 6 is the sign.
fn signed_byte(byte: u8) -> i64
    requires { byte < 128 }
    ensures { result ≡ signed_weighed (byte ∷ []) }
{
    if byte < 64 {
        i64::from(byte)
    } else {
        i64::from(byte) - 128
    }
}

// Reads the signed number at the front.
#[inline(never)]
fn read_signed_front(rest: &[u8]) -> Result<ReadS, LebFault>
    ensures within { IfOk result (λ r. r.end ≤ length rest.now) }
    ensures read { IfOk result (λ r. SpellsSigned (take r.end rest.now) r.value) }
    ensures fits { IfOk result (λ r. FitsSigned w64 r.value) }
    ensures short { IsErrOf result LebFault.Short ↔ IsShort rest.now }
    ensures wide { IsErrOf result LebFault.Wide ↔ IsWideSigned rest.now }
{
    let mut sum = Some(0);
    let mut other = Some(0);
    for (place, byte) in rest.iter().enumerate() {
        let digit = *byte % 128;
        sum = add_digit(sum, place, digit);
        other = add_digit(other, place, 127 - digit);
        if *byte < 128 {
            return match signed(digit >= 64, sum, other) {
                Some(value) => Ok(ReadS {
                    value,
                    end: place + 1,
                }),
                None => Err(LebFault::Wide),
            };
        }
    }
    Err(LebFault::Short)
}

// The same, with a short way for one byte, which most numbers have.
fn read_signed(rest: &[u8]) -> Result<ReadS, LebFault>
    ensures within { IfOk result (λ r. r.end ≤ length rest.now) }
    ensures read { IfOk result (λ r. SpellsSigned (take r.end rest.now) r.value) }
    ensures fits { IfOk result (λ r. FitsSigned w64 r.value) }
    ensures short { IsErrOf result LebFault.Short ↔ IsShort rest.now }
    ensures wide { IsErrOf result LebFault.Wide ↔ IsWideSigned rest.now }
{
    if !rest.is_empty() && rest[0] < 128 {
        return Ok(ReadS {
            value: signed_byte(rest[0]),
            end: 1,
        });
    }
    read_signed_front(rest)
}

/// Reads the signed LEB128 number that begins at `at`, counted from 0 (DWARF 5 section 7.6). Its sign is bit 6 of its
/// last byte. Padding of any length is read.
///
/// Short exactly where the bytes end inside the number, Wide exactly where it ends and is below -2^63, or 2^63 or more.
pub fn read_s(bytes: &[u8], at: usize) -> Result<ReadS, LebFault>
    requires { at ≤ length bytes.now }
    ensures within { IfOk result (λ r. (at ≤ r.end) × (r.end ≤ length bytes.now)) }
    ensures read { IfOk result (λ r. SpellsSigned (take (r.end - at) (drop at bytes.now)) r.value) }
    ensures fits { IfOk result (λ r. FitsSigned w64 r.value) }
    ensures short { IsErrOf result LebFault.Short ↔ IsShort (drop at bytes.now) }
    ensures wide { IsErrOf result LebFault.Wide ↔ IsWideSigned (drop at bytes.now) }
{
    match read_signed(&bytes[at..]) {
        Ok(read) => Ok(ReadS {
            value: read.value,
            end: at + read.end,
        }),
        Err(fault) => Err(fault),
    }
}
