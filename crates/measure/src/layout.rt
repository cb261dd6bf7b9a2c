// The layout of a unit's slots.
ghost use Rattle.std.specs.Prelude.{◌≡◌, ◌≤◌, ◌<◌, ◌^◌, length, IfOk};
ghost use Rattle.slot_layout.specs.Rows.{rows_of, HasRangesInside, HasSmallFixed};

use crate::draws::Draws;
use dw_base::NoMemory;
use slot_layout::{Slot, SlotKind, solve};
use std::alloc::Global;

/// The most slots of a drawn unit.
pub const SLOT_LIMIT: u32 = 1 << 27;

/// What is told of a layout.
#[derive(Clone, Copy)]
pub struct Totals {
    /// The sum of the sizes.
    pub size: u64,
    /// The greatest rank of a step, which is that of the last round that raised a slot; 0 where there is no step.
    pub last_rank: u64,
}

// A reference to a drawn place of a unit that has 11 other bytes beside each slot; one slot in sixteen is a call.
fn drawn_slot(draws: &mut Draws, index: u32, count: u32) -> Slot
    requires { count ≤ 2 ^ 27 }
    ensures up { result.from ≤ result.to }
    ensures inside { result.to ≤ count }
    ensures small { result.fixed < 2 ^ 31 }
{
    let to = draws.below(count + 1);
    let kind = if index % 16 == 15 {
        SlotKind::Call
    } else {
        SlotKind::Uleb
    };
    Slot {
        kind,
        fixed: 12 + 11 * u64::from(to),
        from: 0,
        to,
    }
}

// The slots of a drawn unit.
fn drawn_slots(alloc: Global, count: u32) -> Result<Vec<Slot>, NoMemory>
    requires { count ≤ 2 ^ 27 }
    ensures count { IfOk result (λ slots. length slots.items ≡ count) }
    ensures inside { IfOk result (λ slots. HasRangesInside (rows_of slots.items)) }
    ensures small { IfOk result (λ slots. HasSmallFixed (rows_of slots.items)) }
{
    let mut draws = Draws::default();
    let mut slots = Vec::new(alloc);
    for index in 0..count {
        slots.push(drawn_slot(&mut draws, index, count))?;
    }
    Ok(slots)
}

/// The totals of the least layout of a drawn unit with so many slots.
pub fn totals_of_layout(alloc: Global, count: u32) -> Result<Totals, NoMemory>
    requires { count ≤ 2 ^ 27 }
{
    let slots = drawn_slots(alloc, count)?;
    let layout = solve(alloc, &slots)?;
    let mut size = 0u64;
    for bytes in &layout.sizes {
        size = size.wrapping_add(u64::from(*bytes));
    }
    let mut last_rank = 0;
    for rank in &layout.ranks {
        last_rank = last_rank.max(*rank);
    }
    Ok(Totals { size, last_rank })
}
