// The order in which movable sections are placed.
ghost use Rattle.std.specs.Prelude.{◌≡◌, ◌<◌, ◌≤◌, length, map, IfOk, ℕ};
ghost use Rattle.elf_sections.specs.Elf.{section_count};
ghost use Rattle.elf_place.specs.Layout.{IsMovingOrder};
ghost use Rattle.elf_place.specs.inside.Spots.{movable_among};

use elf_sections::Image;
use std::alloc::{AllocError, Global};

// The offsets and numbers of the movable sections, by number.
fn movable_sections(alloc: Global, image: &Image<'_>) -> Result<Vec<(u64, u32)>, AllocError>
    ensures { IfOk result (λ all. all.items ≡ movable_among image.now (section_count image.now)) }
{
    let mut all = Vec::new(alloc);
    for i in 0..image.count() {
        if image.is_movable(i) {
            all.push((image.offset(i), i))?;
        }
    }
    Ok(all)
}

/// The offsets and numbers of the movable sections of an image, in the order in which they are placed: by offset and, where offsets are
/// equal, by number (System V ABI, "Sections"). The only error is want of memory.
pub fn moving_order(alloc: Global, image: &Image<'_>) -> Result<Vec<(u64, u32)>, AllocError>
    ensures order { IfOk result (λ order. IsMovingOrder image.now (map (λ place. place.1) order.items)) }
    ensures few { IfOk result (λ order. length order.items ≤ section_count image.now) }
{
    let mut order = movable_sections(alloc, image)?;
    order.sort_unstable();
    Ok(order)
}
