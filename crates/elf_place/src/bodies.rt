// New bodies for sections, found by the section's number.
ghost use Rattle.std.specs.Prelude.{◌≡◌, ◌<◌, length, IfOk};
ghost use Rattle.std.specs.List.{All};
ghost use Rattle.elf_sections.specs.Elf.{section_count};
ghost use Rattle.elf_place.specs.Bodies.{AreApart, body_after};
ghost use Rattle.elf_place.specs.inside.Bodies.{IsTable};

use elf_sections::Image;
use std::alloc::{AllocError, Global};

/// New bytes for the section of this number, in place of those that it has.
#[derive(Debug, Drop)]
pub struct NewBody {
    /// The section's number, counted from 0.
    pub section: u32,
    /// All bytes of its new body.
    pub bytes: Vec<u8>,
}

/// For each section below a count, which of the bodies is for it.
pub fn table_of(
    alloc: Global,
    count: u32,
    bodies: &[NewBody],
) -> Result<Vec<Option<usize>>, AllocError>
    requires inside { All (λ new. new.section < count) bodies.now }
    ensures table { IfOk result (λ table. IsTable bodies.now table.items) }
    ensures count { IfOk result (λ table. length table.items ≡ count) }
{
    let mut table = vec![in alloc; None; count as usize]?;
    for (place, body) in bodies.iter().enumerate() {
        table[body.section as usize] = Some(place);
    }
    Ok(table)
}

/// The body of a section after the new ones.
pub fn body_of<'a>(
    image: &'a Image<'_>,
    bodies: &'a [NewBody],
    table: &[Option<usize>],
    i: u32,
) -> &'a [u8]
    requires apart { AreApart bodies.now }
    requires table { IsTable bodies.now table.now }
    requires count { length table.now ≡ section_count image.now }
    requires inside { i < section_count image.now }
    ensures { result.now ≡ body_after image.entry.now bodies.entry.now i }
{
    match table[i as usize] {
        Some(place) => &bodies[place].bytes,
        None => image.body(i),
    }
}
