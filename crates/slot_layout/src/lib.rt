//! The least sizes of a unit's slots: the local references, lengths and call operands whose numbers count bytes of the
//! unit, and so depend on the sizes of other slots (DWARF 5 sections 2.5.1.5 and 7.6).
#![tactic(auto)]

ghost use Rattle.std.specs.Prelude.{◌≡◌, ◌<◌, ◌≤◌, ◌^◌, length, IfOk};
ghost use Rattle.leb_codec.specs.Layout.{IsLayout, IsLowestLayout, IsLeastLayout, HasNarrowNumbers, AcceptsLayout, HasFirstRanks};
ghost use Rattle.slot_layout.specs.Rows.{rows_of, HasRangesInside, HasSmallFixed, IsTight, most_slots};

mod ranking;
mod rounds;
mod slots;

use dw_base::NoMemory;
use ranking::{StepRanks, in_slot_order};
use rounds::{grow_fully, smallest_sizes};
pub use slots::{Slot, SlotKind};
use std::alloc::Global;

/// The most slots that are laid out together. With five bytes for each, and fixed parts below 2^31, each number is below 2^32.
pub const MOST_SLOTS: usize = 17 << 24;

/// The least sizes of a unit's slots, and a record that shows why no slot can be smaller.
#[derive(Debug, Drop)]
pub struct Layout {
    /// The bytes of each slot, in slot order.
    pub sizes: Vec<u8>,
    /// The ranks of all steps, in slot order: a ULEB of n bytes has n - 1 steps, a call of 4 bytes has one. A step of
    /// rank t to a size is needed once each slot has its smallest size plus its steps of rank below t, and not before.
    pub ranks: Vec<u64>,
}

/// Finds the least sizes under which each slot holds its own number, slot by slot, and the rank of each step to them.
///
/// Each slot starts at its smallest size. In round t, which counts from 0, every slot whose number under the sizes at
/// the round's start needs more is raised to that need; these steps have rank t.
///
/// So each slot has just the bytes that its number needs, and no LEB128 number in the layout is padded.
///
/// There are at most 17 * 2^24 slots, each range of slots lies in the list, and each fixed part is below 2^31. Then every
/// number in the answered layout is below 2^32. The only error is want of memory.
pub fn solve(alloc: Global, slots: &Vec<Slot>) -> Result<Layout, NoMemory>
    requires few { length slots.now.items ≤ most_slots }
    requires inside { HasRangesInside (rows_of slots.now.items) }
    requires small { HasSmallFixed (rows_of slots.now.items) }
    ensures member { IfOk result (λ layout. IsLayout (rows_of slots.now.items) layout.sizes.items) }
    ensures lowest { IfOk result (λ layout. IsLowestLayout (rows_of slots.now.items) layout.sizes.items) }
    ensures least { IfOk result (λ layout. IsLeastLayout (rows_of slots.now.items) layout.sizes.items) }
    ensures tight { IfOk result (λ layout. IsTight (rows_of slots.now.items) layout.sizes.items) }
    ensures narrow { IfOk result (λ layout. HasNarrowNumbers (rows_of slots.now.items) layout.sizes.items) }
    ensures accepted { IfOk result (λ layout. AcceptsLayout (rows_of slots.now.items) layout.sizes.items layout.ranks.items) }
    ensures first_ranks { IfOk result (λ layout. HasFirstRanks (rows_of slots.now.items) layout.sizes.items layout.ranks.items) }
{
    let mut sizes = smallest_sizes(alloc, slots)?;
    let mut starts = vec![in alloc; 0u32; slots.len() + 1]?;
    let mut ranks: Vec<StepRanks> = vec![in alloc; [0; 4]; slots.len()]?;
    grow_fully(slots, &mut starts, &mut sizes, &mut ranks);
    let ranks = in_slot_order(alloc, slots, &sizes, &ranks)?;
    Ok(Layout { sizes, ranks })
}
