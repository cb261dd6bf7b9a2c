// Numbers written over those of a file, the lowest byte first.
ghost use Rattle.std.specs.Prelude.{◌≡◌, ◌≤◌, ◌<◌, ◌+◌, ◌⊎◌, ℕ, length, slice_index};
ghost use Rattle.elf_sections.specs.Numbers.{number_at};

use byteorder::{ByteOrder, LittleEndian};

/// Writes a number over the eight bytes from a place on.
pub fn put_u64(file: &mut [u8], at: usize, value: u64)
    requires { at + 8 ≤ length file.old }
    ensures written { number_at 8 at file.new ≡ value }
    ensures others { (k : ℕ) → (k < at) ⊎ (at + 8 ≤ k) → slice_index file.new k ≡ slice_index file.old k }
    ensures size { length file.new ≡ length file.old }
{
    LittleEndian::write_u64(&mut file[at..at + 8], value);
}
