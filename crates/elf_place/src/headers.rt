// Section headers, and what they say of where the sections stand.
ghost use Rattle.std.specs.Prelude.{◌≡◌, ◌≢◌, ◌≤◌, ◌<◌, ◌+◌, ◌*◌, ◌++◌, ◌⊎◌, ℕ, length, slice_index, OnOk};
ghost use Rattle.std.specs.List.{All, AllPairs};
ghost use Rattle.elf_sections.specs.Numbers.{number_at};
ghost use Rattle.elf_sections.specs.Elf.{section_count};
ghost use Rattle.elf_place.specs.inside.Spots.{headers_of, IsApart, IsPatched};

use crate::numbers::put_u64;
use crate::spots::Spot;
use dw_base::NoMemory;
use elf_sections::Image;

/// Adds the section headers as they are.
pub fn push_headers(out: &mut Vec<u8>, image: &Image<'_>) -> Result<(), NoMemory>
    ensures { OnOk result (out.new.items ≡ out.old.items ++ headers_of image.now (section_count image.now)) }
{
    for i in 0..image.count() {
        out.extend_from_slice(image.header(i))?;
    }
    Ok(())
}

// Writes where these spots are into the headers of their sections.
fn put_spots(file: &mut [u8], table: usize, spots: &[Spot])
    requires inside { All (λ spot. table + 64 * spot.section + 64 ≤ length file.old) spots.now }
    requires apart { AllPairs (λ one other. one.section ≢ other.section) spots.now }
    ensures offsets { All (λ spot. number_at 8 (table + 64 * spot.section + 24) file.new ≡ spot.at) spots.now }
    ensures sizes { All (λ spot. number_at 8 (table + 64 * spot.section + 32) file.new ≡ spot.len) spots.now }
    ensures others { (k : ℕ) → IsApart table spots.now k → slice_index file.new k ≡ slice_index file.old k }
    ensures size { length file.new ≡ length file.old }
{
    for spot in spots {
        let header = table + 64 * spot.section as usize;
        put_u64(file, header + 24, spot.at);
        put_u64(file, header + 32, spot.len);
    }
}

/// Writes where the header table and these spots are.
pub fn put_places(file: &mut [u8], table: usize, spots: &[Spot])
    requires low { 48 ≤ table }
    requires header { 64 ≤ length file.old }
    requires inside { All (λ spot. table + 64 * spot.section + 64 ≤ length file.old) spots.now }
    requires apart { AllPairs (λ one other. one.section ≢ other.section) spots.now }
    ensures { IsPatched table spots.now file.old file.new }
{
    put_u64(file, 40, table as u64);
    put_spots(file, table, spots);
}
