// Numbers that are looked at one after the other.
ghost use Rattle.std.specs.Prelude.{◌≡◌, ◌⊎◌, ℕ, ℤ, IsTrue, Some};
ghost use Rattle.leb_codec.specs.Leb.{Uleb, Sleb};
ghost use Rattle.tidy_places.specs.Firsts.{IsLeastFound};
ghost use Rattle.tidy_numbers.specs.Fronts.{IsLong, IsLongSigned};
ghost use Rattle.tidy_numbers.specs.inside.NumberWalks.{StandsFrom, EndsFrom, IsFoundFrom};

use crate::fronts::{Front, earlier, signed_front, unsigned_front};

/// The place that is reached, and the first place of a number with a byte too many, if there was one.
#[derive(Clone, Copy)]
pub(crate) struct Walk {
    pub(crate) at: usize,
    pub(crate) long: Option<u64>,
}

impl Walk {
    // Goes on behind the number that stands next.
    fn past(self, front: Front) -> Walk
        ensures ends { result.at ≡ front.end }
        ensures long { IsLeastFound (λ p. (self.long ≡ Some p) ⊎ (IsTrue front.long × (p ≡ self.at))) result.long }
    {
        let here = if front.long {
            Some(self.at as u64)
        } else {
            None
        };
        Walk {
            at: front.end,
            long: earlier(self.long, here),
        }
    }

    /// Looks at the number in ULEB128 that stands next.
    pub(crate) fn past_unsigned(self, bytes: &[u8]) -> Walk
        requires { (n : ℕ) × StandsFrom (Uleb n) bytes.now self.at }
        ensures ends { (n : ℕ) → EndsFrom (Uleb n) bytes.now self.at result.at }
        ensures long { IsFoundFrom self.long IsLong bytes.now self.at result.long }
    {
        self.past(unsigned_front(bytes, self.at))
    }

    /// Looks at the number in SLEB128 that stands next.
    pub(crate) fn past_signed(self, bytes: &[u8]) -> Walk
        requires { (n : ℤ) × StandsFrom (Sleb n) bytes.now self.at }
        ensures ends { (n : ℤ) → EndsFrom (Sleb n) bytes.now self.at result.at }
        ensures long { IsFoundFrom self.long IsLongSigned bytes.now self.at result.long }
    {
        self.past(signed_front(bytes, self.at))
    }
}
