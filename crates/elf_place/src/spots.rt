// Where each movable section will stand.
ghost use Rattle.std.specs.Prelude.{◌≡◌, ◌≤◌, ◌<◌, ◌+◌, ◌^◌, ◌*◌, ℕ, length, map, IfOk};
ghost use Rattle.std.specs.List.{All};
ghost use Rattle.elf_sections.specs.Elf.{section_count, align_of, fixed_end_of, is_movable};
ghost use Rattle.elf_place.specs.Bodies.{AreApart, body_after};
ghost use Rattle.elf_place.specs.inside.Bodies.{IsTable};
ghost use Rattle.elf_place.specs.Layout.{IsNextMultiple};
ghost use Rattle.elf_place.specs.inside.Spots.{IsChain, IsRoomy};

use crate::bodies::{NewBody, body_of};
use elf_sections::Image;
use std::alloc::{AllocError, Global};

// The place of a section in the new file.
#[derive(Clone, Copy)]
pub struct Spot {
    pub section: u32,
    pub at: u64,
    pub len: u64,
}

// The places of the movable sections in order, and where the last one ends.
#[derive(Drop)]
pub struct Plan {
    pub spots: Vec<Spot>,
    pub end: u64,
}

/// The next multiple of an alignment from a place on, where an alignment of 0 counts as 1 (System V ABI, "Section Header", sh_addralign).
pub fn next_multiple(start: u64, align: u64) -> u64
    requires low { start ≤ 2 ^ 62 }
    requires small { align ≤ 4096 }
    ensures next { IsNextMultiple start align result }
    ensures near { result ≤ start + 4096 }
{
    start.next_multiple_of(align.max(1))
}

/// Places the sections of an order one after the other, from the fixed end on.
pub fn plan_spots(
    alloc: Global,
    image: &Image<'_>,
    bodies: &[NewBody],
    table: &[Option<usize>],
    order: &[(u64, u32)],
) -> Result<Plan, AllocError>
    requires apart { AreApart bodies.now }
    requires table { IsTable bodies.now table.now }
    requires count { length table.now ≡ section_count image.now }
    requires inside { All (λ place. IsRoomy image.now (body_after image.now bodies.now) place.1) order.now }
    requires few { length order.now ≤ 2 ^ 16 }
    requires low { fixed_end_of image.now ≤ 2 ^ 35 }
    ensures chain { IfOk result (λ plan. IsChain image.now (body_after image.now bodies.now) (fixed_end_of image.now) plan.spots.items plan.end) }
    ensures sections { IfOk result (λ plan. map (λ spot. spot.section) plan.spots.items ≡ map (λ place. place.1) order.now) }
    ensures end { IfOk result (λ plan. plan.end ≤ 2 ^ 60) }
{
    let mut spots = Vec::with_capacity(alloc, order.len())?;
    let mut end = image.fixed_end();
    for (_, section) in order {
        let at = next_multiple(end, image.section(*section).align);
        let len = body_of(&*image, &*bodies, &*table, *section).len() as u64;
        spots.push(Spot {
            section: *section,
            at,
            len,
        })?;
        end = at + len;
    }
    Ok(Plan { spots, end })
}
