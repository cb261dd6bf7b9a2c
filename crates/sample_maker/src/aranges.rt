// Sets of address ranges (DWARF 5 section 6.1.2).
ghost use Rattle.std.specs.Prelude.{◌≡◌, ◌++◌, OnOk};
ghost use Rattle.sample_maker.specs.inside.Bytes.{set_bytes};

use crate::numbers::{put_half, put_word};
use dw_base::NoMemory;

// How many bytes of a set its length counts.
const LENGTH: u64 = 28;

const VERSION: u64 = 2;

// Addresses of 8 bytes and no segments; then four bytes up to the first pair, and the pair of zeros that ends the set.
const REST: [u8; 22] = [
    8, 0, 0, 0, 0, 0, 0, 0, 0, 0, 0, 0, 0, 0, 0, 0, 0, 0, 0, 0, 0, 0,
];

/// Appends the set of the unit that begins at a place of .debug_info. It has no address range.
#[tactic(auto, unfolding(crate::specs::inside::Bytes::set_bytes))]
pub(crate) fn put_set(out: &mut Vec<u8>, unit: u64) -> Result<(), NoMemory>
    ensures { OnOk result (out.new.items ≡ out.old.items ++ set_bytes unit) }
{
    put_word(out, LENGTH)?;
    put_half(out, VERSION)?;
    put_word(out, unit)?;
    out.extend_from_slice(&REST)?;
    Ok(())
}
