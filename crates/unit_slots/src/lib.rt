//! The slots of a unit as they stand in a file.
#![tactic(auto)]

ghost use Rattle.std.specs.Prelude.{◌≤◌, ◌<◌, length, IfOk};
ghost use Rattle.dw_base.specs.declared.fault.Reach.{Reach};
ghost use Rattle.slot_layout.specs.Rows.{rows_of, most_slots, HasRangesInside, HasFittingFixed, CanBeSizes};
ghost use Rattle.written_files.specs.Layouts.{AreOwnedLists};
ghost use Rattle.value_links.specs.Reading.{Reading};
ghost use Rattle.value_links.specs.Whole.{IsReading};
ghost use Rattle.value_links.specs.World.{IsWorldOf};
ghost use Rattle.unit_slots.specs.Standing.{HasStandingSlots};

mod expressions;
mod laws;
mod list_operands;
mod lists;
mod operands;
mod own;
mod rows;
mod spots;
mod values;

pub use crate::laws::written_slots;
pub use crate::list_operands::operands_end;
use crate::lists::push_lists;
use crate::own::{OwnSizes, own_sizes};
use crate::rows::own_slots;
use crate::spots::Spots;
use dw_base::NoMemory;
use slot_layout::Slot;
use std::alloc::Global;
use value_links::World;

/// The slots of a unit as they stand in a file, numbered from 0 in their order: first those of the unit's values, in the order of their
/// places in .debug_info, and then those of the expressions of the location lists that the unit owns, in the order of their places in
/// .debug_loclists. Of an expression the slot of its length comes before those of its operations.
#[derive(Drop)]
pub struct StandingSlots {
    /// What the number of each slot counts: so many bytes that are no slot's, and those of the slots in a range of these numbers.
    pub slots: Vec<Slot>,
    /// How many bytes each slot has. A number in LEB128 may have more than it needs (DWARF 5 section 7.6).
    pub sizes: Vec<u32>,
}

/// The slots of the unit with a number, counted from 0, as they stand in the file, with the bytes that each has. A slot is a number that
/// counts bytes of the unit of which some may be those of other slots: a reference within the unit, the length of an expression, and in an
/// expression a call or a reference to a base type (DWARF 5 sections 2.5.1.1 to 2.5.1.7, 2.6.2, 7.5.5 and 7.6).
///
/// All numbers and sizes are of bytes. The number of a slot that tells a place counts from the unit's first byte up to this place, and a
/// length counts the bytes of the expression, which stands behind it.
///
/// `lists` are the numbers of the location lists that the unit owns, rising, counted from 0 among those that the world holds.
///
/// The only error is want of memory. It also answers more than 17 * 2^24 slots: no file that means the same as one within the narrow limits
/// has so many.
pub fn slots_that_stand(
    alloc: Global,
    world: &World<'_>,
    unit: u32,
    lists: &[usize],
) -> Result<StandingSlots, NoMemory>
    requires world { (reach : Reach) × IsWorldOf world.now.image reach world.now }
    requires unit { unit < length world.now.units }
    requires lists { (s : Reading) → IsReading world.now.image s → AreOwnedLists s unit lists.now }
    ensures stand { IfOk result (λ made. (s : Reading) → IsReading world.now.image s → HasStandingSlots s unit (rows_of made.slots.items) made.sizes.items) }
    ensures few { IfOk result (λ made. length made.slots.items ≤ most_slots) }
    ensures inside { IfOk result (λ made. HasRangesInside (rows_of made.slots.items)) }
    ensures fitting { IfOk result (λ made. HasFittingFixed (rows_of made.slots.items)) }
    ensures sized { IfOk result (λ made. CanBeSizes (rows_of made.slots.items) made.sizes.items) }
{
    let own = &world.units()[unit as usize];
    let operations = &world.operations()[unit as usize];
    let OwnSizes { sizes, starts } = own_sizes(alloc, own, world.table(unit), operations)?;
    let spots = Spots::of(alloc, starts, &sizes)?;
    let slots = own_slots(alloc, own, operations, &spots)?;
    let mut made = StandingSlots { slots, sizes };
    push_lists(alloc, &mut made, world, own, &spots, lists)?;
    Ok(made)
}
