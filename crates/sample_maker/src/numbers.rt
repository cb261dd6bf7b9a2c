// Numbers written.
ghost use Rattle.std.specs.Prelude.{◌≡◌, ◌<◌, ◌++◌, ◌^◌, OnOk};
ghost use Rattle.sample_maker.specs.inside.Bytes.{half, word, long, uleb};

use dw_base::NoMemory;
use form_codec::{Width, put_low};
use leb_codec::put_u;

/// Appends two bytes, the lowest of a number first.
#[tactic(auto, unfolding(crate::specs::inside::Bytes::half))]
pub(crate) fn put_half(out: &mut Vec<u8>, number: u64) -> Result<(), NoMemory>
    ensures { OnOk result (out.new.items ≡ out.old.items ++ half number) }
{
    put_low(out, Width::Two, number)
}

/// Appends four bytes, the lowest of a number first.
#[tactic(auto, unfolding(crate::specs::inside::Bytes::word))]
pub(crate) fn put_word(out: &mut Vec<u8>, number: u64) -> Result<(), NoMemory>
    ensures { OnOk result (out.new.items ≡ out.old.items ++ word number) }
{
    put_low(out, Width::Four, number)
}

/// Appends eight bytes, the lowest of a number first.
#[tactic(auto, unfolding(crate::specs::inside::Bytes::long))]
pub(crate) fn put_long(out: &mut Vec<u8>, number: u64) -> Result<(), NoMemory>
    ensures { OnOk result (out.new.items ≡ out.old.items ++ long number) }
{
    put_low(out, Width::Eight, number)
}

/// Appends the shortest ULEB128 of a number, which is small.
pub(crate) fn put_small(out: &mut Vec<u8>, number: u64) -> Result<(), NoMemory>
    requires { number < 2097152 }
    ensures { OnOk result (out.new.items ≡ out.old.items ++ uleb number) }
{
    put_u(out, number)
}
