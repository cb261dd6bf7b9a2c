// Whole numbers in words.
ghost use Rattle.std.specs.Prelude.{◌≡◌, ◌≤◌, ◌<◌, ℤ, pos};

use std::marker::Model;

/// A whole number that fits 64 bits, with a sign or without one. Its words are aligned to 8 bytes, so that a value takes
/// 24 of them: an i128 would be aligned to 16, and a value take 32.
#[derive(Clone, Copy, Debug, PartialEq, Eq)]
pub struct Whole {
    negative: bool,
    bits: u64,
}

impl Model for Whole {
    ghost use Rattle.std.specs.Prelude.{ℤ};

    ghost Value = { ℤ };

    ghost use Rattle.form_codec.specs.Wholes.{whole_of, parts_of, parts_back};

    ghost view = { λ w. whole_of w.negative w.bits };

    ghost inverse = { parts_of };

    ghost inverse_ok = { λ w h. parts_back w.negative w.bits };
}

impl Whole {
    /// The whole number that a number without a sign is.
    #[inline(always)]
    pub fn unsigned(number: u64) -> Self
        ensures { result ≡ pos number }
    {
        Whole {
            negative: false,
            bits: number,
        }
    }

    /// The whole number that a number with a sign is.
    #[inline(always)]
    pub fn signed(number: i64) -> Self
        ensures { result ≡ number }
    {
        match u64::try_from(number) {
            Ok(bits) => Whole {
                negative: false,
                bits,
            },
            Err(_) => Whole {
                negative: true,
                bits: (-1 - number) as u64,
            },
        }
    }

    /// The number.
    #[inline(always)]
    pub fn get(self) -> i128
        ensures { result ≡ self }
    {
        if self.negative {
            -1 - i128::from(self.bits)
        } else {
            i128::from(self.bits)
        }
    }
}
