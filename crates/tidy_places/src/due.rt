// Where the movable sections of a written file are due.
ghost use Rattle.std.specs.Prelude.{◌≤◌, ◌<◌, ◌^◌, ℕ, length, IfOk};
ghost use Rattle.elf_sections.specs.Elf.{section_count, fixed_end_of};
ghost use Rattle.elf_place.specs.Layout.{IsMovingOrder};
ghost use Rattle.elf_place.specs.Same.{KeepsHeaders};
ghost use Rattle.tidy_places.specs.inside.Chains.{AreDue, due_at, numbers_of};

use dw_base::NoMemory;
use elf_place::{moving_order, next_multiple};
use elf_sections::Image;
use std::alloc::Global;

/// A movable section by its number, the place where it is due, and how many bytes it has.
#[derive(Clone, Copy, Debug, PartialEq, Eq)]
pub struct Due {
    pub section: u32,
    pub at: u64,
    pub len: u64,
}

/// The movable sections in the order in which they are due, and the place where the last one is to end.
#[derive(Drop)]
pub struct DueSections {
    pub sections: Vec<Due>,
    pub end: u64,
}

/// Where each section of a written file is due that is movable in the file for which it was written.
pub(crate) fn due_sections(
    alloc: Global,
    before: &Image<'_>,
    after: &Image<'_>,
) -> Result<DueSections, NoMemory>
    requires { KeepsHeaders before.now after.now }
    ensures due { IfOk result (λ due. AreDue after.now (fixed_end_of before.now) due.sections.items due.end) }
    ensures order { IfOk result (λ due. IsMovingOrder before.now (numbers_of due.sections.items)) }
    ensures inside { IfOk result (λ due. (k : ℕ) → k < length due.sections.items → (due_at due.sections.items k).section < section_count after.now) }
    ensures low { IfOk result (λ due. due.end ≤ 2 ^ 62) }
{
    // What was read is in order.
    let (_before, _after) = (before.whole(), after.whole());
    let order = moving_order(alloc, before)?;
    let mut sections = Vec::with_capacity(alloc, order.len())?;
    let mut end = before.fixed_end();
    for (_, section) in &order {
        let at = next_multiple(end, before.section(*section).align);
        let len = after.section(*section).body.len;
        sections.push(Due {
            section: *section,
            at,
            len,
        })?;
        end = at + len;
    }
    Ok(DueSections { sections, end })
}
