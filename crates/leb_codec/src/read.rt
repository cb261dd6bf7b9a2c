// Numbers read.
ghost use Rattle.std.specs.Prelude.{◌≡◌, ◌≤◌, ◌<◌, ◌+◌, ◌-◌, ◌*◌, ◌^◌, ◌↔◌, ℕ, Option, length, take, drop, IfOk, IfSome, IsErrOf};
ghost use Rattle.leb_codec.specs.Leb.{SpellsUnsigned, IsShort, IsWideUnsigned};
ghost use Rattle.leb_codec.specs.inside.Digits.{IsSum};

/// Why a number isn't read.
#[derive(Clone, Copy, Debug, PartialEq, Eq)]
pub enum LebFault {
    /// The bytes end before the number does.
    Short,
    /// The number ends, and doesn't fit 64 bits.
    Wide,
}

/// A number, and the place after its last byte.
#[derive(Clone, Copy, Debug, PartialEq, Eq)]
pub struct ReadU {
    pub value: u64,
    pub end: usize,
}

// A sum with one digit more, where it fits.
pub(crate) fn add_digit(sum: Option<u64>, place: usize, digit: u8) -> Option<u64>
    requires { digit < 128 }
    ensures fits { IfSome result (λ s. s < 2 ^ 64) }
    ensures sum { (total : ℕ) → IsSum sum total → IsSum result (total + digit * 128 ^ place) }
{
    let sum = sum?;
    if digit == 0 {
        return Some(sum);
    }
    if place > 9 {
        return None;
    }
    if place == 9 && digit > 1 {
        return None;
    }
    sum.checked_add(u64::from(digit) << (7 * place as u32))
}

// Reads the number at the front.
#[inline(never)]
fn read_front(rest: &[u8]) -> Result<ReadU, LebFault>
    ensures within { IfOk result (λ r. r.end ≤ length rest.now) }
    ensures read { IfOk result (λ r. SpellsUnsigned (take r.end rest.now) r.value) }
    ensures fits { IfOk result (λ r. r.value < 2 ^ 64) }
    ensures short { IsErrOf result LebFault.Short ↔ IsShort rest.now }
    ensures wide { IsErrOf result LebFault.Wide ↔ IsWideUnsigned rest.now }
{
    let mut sum = Some(0);
    for (place, byte) in rest.iter().enumerate() {
        sum = add_digit(sum, place, *byte % 128);
        if *byte < 128 {
            return match sum {
                Some(value) => Ok(ReadU {
                    value,
                    end: place + 1,
                }),
                None => Err(LebFault::Wide),
            };
        }
    }
    Err(LebFault::Short)
}

/// Reads the unsigned LEB128 number that begins at `at`, counted from 0 (DWARF 5 section 7.6). Padding of any length is
/// read.
///
/// Short exactly where the bytes end inside the number, Wide exactly where it ends and is 2^64 or more.
pub fn read_u(bytes: &[u8], at: usize) -> Result<ReadU, LebFault>
    requires { at ≤ length bytes.now }
    ensures within { IfOk result (λ r. (at ≤ r.end) × (r.end ≤ length bytes.now)) }
    ensures read { IfOk result (λ r. SpellsUnsigned (take (r.end - at) (drop at bytes.now)) r.value) }
    ensures fits { IfOk result (λ r. r.value < 2 ^ 64) }
    ensures short { IsErrOf result LebFault.Short ↔ IsShort (drop at bytes.now) }
    ensures wide { IsErrOf result LebFault.Wide ↔ IsWideUnsigned (drop at bytes.now) }
{
    let rest = &bytes[at..];
    // Most numbers have one byte.
    if !rest.is_empty() && rest[0] < 128 {
        return Ok(ReadU {
            value: u64::from(rest[0]),
            end: at + 1,
        });
    }
    match read_front(rest) {
        Ok(read) => Ok(ReadU {
            value: read.value,
            end: at + read.end,
        }),
        Err(fault) => Err(fault),
    }
}
