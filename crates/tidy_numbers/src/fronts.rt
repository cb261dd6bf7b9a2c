// Whether bytes begin with a number that has a byte too many.
ghost use Rattle.std.specs.Prelude.{◌≡◌, ◌≤◌, ◌+◌, ◌⊎◌, ◌++◌, ◌↔◌, ℕ, ℤ, List, length, drop, IsTrue, Some};
ghost use Rattle.leb_codec.specs.Leb.{Uleb, Sleb};
ghost use Rattle.tidy_places.specs.Firsts.{IsLeastFound};
ghost use Rattle.tidy_numbers.specs.Fronts.{BeginsLong, BeginsLongSigned};

use leb_codec::{len_s, len_u, read_s, read_u};

/// A number in LEB128: where its bytes end, and whether it has one too many.
#[derive(Clone, Copy)]
pub(crate) struct Front {
    pub(crate) end: usize,
    pub(crate) long: bool,
}

/// The number in ULEB128 at a place. There is one.
pub(crate) fn unsigned_front(bytes: &[u8], at: usize) -> Front
    requires within { at ≤ length bytes.now }
    requires number { (n : ℕ) × (first : List ℕ) × (rest : List ℕ) × Uleb n first × (drop at bytes.now ≡ first ++ rest) }
    ensures end { (n : ℕ) (first rest : List ℕ) → Uleb n first → drop at bytes.now ≡ first ++ rest → result.end ≡ at + length first }
    ensures long { IsTrue result.long ↔ BeginsLong (drop at bytes.now) }
{
    match read_u(bytes, at) {
        Ok(number) => Front {
            end: number.end,
            long: number.end - at > len_u(number.value) as usize,
        },
        // A number that stands there ends and fits.
        Err(_) => unreachable!(),
    }
}

/// The number in SLEB128 at a place. There is one.
pub(crate) fn signed_front(bytes: &[u8], at: usize) -> Front
    requires within { at ≤ length bytes.now }
    requires number { (v : ℤ) × (first : List ℕ) × (rest : List ℕ) × Sleb v first × (drop at bytes.now ≡ first ++ rest) }
    ensures end { (v : ℤ) (first rest : List ℕ) → Sleb v first → drop at bytes.now ≡ first ++ rest → result.end ≡ at + length first }
    ensures long { IsTrue result.long ↔ BeginsLongSigned (drop at bytes.now) }
{
    match read_s(bytes, at) {
        Ok(number) => Front {
            end: number.end,
            long: number.end - at > len_s(number.value) as usize,
        },
        // A number that stands there ends and fits.
        Err(_) => unreachable!(),
    }
}

/// Whether a number in ULEB128 at a place has a byte too many. There is one.
pub(crate) fn is_long(bytes: &[u8], at: usize) -> bool
    requires within { at ≤ length bytes.now }
    requires number { (n : ℕ) × (first : List ℕ) × (rest : List ℕ) × Uleb n first × (drop at bytes.now ≡ first ++ rest) }
    ensures { IsTrue result ↔ BeginsLong (drop at bytes.now) }
{
    unsigned_front(bytes, at).long
}

/// Whether a number in SLEB128 at a place has a byte too many. There is one.
pub(crate) fn is_long_signed(bytes: &[u8], at: usize) -> bool
    requires within { at ≤ length bytes.now }
    requires number { (v : ℤ) × (first : List ℕ) × (rest : List ℕ) × Sleb v first × (drop at bytes.now ≡ first ++ rest) }
    ensures { IsTrue result ↔ BeginsLongSigned (drop at bytes.now) }
{
    signed_front(bytes, at).long
}

/// The lesser of two places, of which either may be missing.
pub fn earlier(one: Option<u64>, other: Option<u64>) -> Option<u64>
    ensures { IsLeastFound (λ p. (one ≡ Some p) ⊎ (other ≡ Some p)) result }
{
    match (one, other) {
        (Some(one), Some(other)) => Some(one.min(other)),
        (None, other) => other,
        (one, None) => one,
    }
}
