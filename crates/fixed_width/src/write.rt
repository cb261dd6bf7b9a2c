// Numbers written over those that stand.
ghost use Rattle.std.specs.Prelude.{◌≡◌, ◌≤◌, ◌<◌, ◌+◌, ◌⊎◌, ℕ, length, slice_index};
ghost use Rattle.fixed_width.specs.Numbers.{number_at};

use byteorder::{ByteOrder, LittleEndian};

/// Writes a number over the four bytes from a place on, which counts from 0. They are to stand in `bytes`, and no other byte
/// changes.
#[inline]
pub fn put_u32(bytes: &mut [u8], at: usize, value: u32)
    requires { at + 4 ≤ length bytes.old }
    ensures written { number_at 4 at bytes.new ≡ value }
    ensures others { (k : ℕ) → (k < at) ⊎ (at + 4 ≤ k) → slice_index bytes.new k ≡ slice_index bytes.old k }
    ensures size { length bytes.new ≡ length bytes.old }
{
    LittleEndian::write_u32(&mut bytes[at..at + 4], value);
}

/// Writes a number over the eight bytes from a place on, which counts from 0. They are to stand in `bytes`, and no other byte
/// changes.
#[inline]
pub fn put_u64(bytes: &mut [u8], at: usize, value: u64)
    requires { at + 8 ≤ length bytes.old }
    ensures written { number_at 8 at bytes.new ≡ value }
    ensures others { (k : ℕ) → (k < at) ⊎ (at + 8 ≤ k) → slice_index bytes.new k ≡ slice_index bytes.old k }
    ensures size { length bytes.new ≡ length bytes.old }
{
    LittleEndian::write_u64(&mut bytes[at..at + 8], value);
}
