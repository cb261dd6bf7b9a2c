// The slots of the values of a unit: how many bytes each has, and how many stand before each entry.
ghost use Rattle.std.specs.Prelude.{◌<◌, ◌^◌, length, IfOk};
ghost use Rattle.dw_base.specs.declared.fault.Reach.TheVariants.{Wide};
ghost use Rattle.entry_read.specs.Expressions.{HasOperations};
ghost use Rattle.entry_read.specs.Units.{declarations_of, IsTable, IsUnitHeld};
ghost use Rattle.unit_slots.specs.inside.Own.{unit_by, AreOwn};

use crate::values::push_entry_sizes;
use abbrev_tables::Table;
use dw_base::NoMemory;
use entry_arena::Operations;
use entry_read::Unit;
use std::alloc::Global;

/// The slots of the values of a unit.
#[derive(Drop)]
pub(crate) struct OwnSizes {
    /// How many bytes each slot has, in the order of the slots.
    pub(crate) sizes: Vec<u32>,
    /// How many slots stand before each entry, and last how many there are.
    pub(crate) starts: Vec<u32>,
}

/// The sizes of the slots of a unit's values, each of which is read again in its place. `table` is the abbreviation table by which the
/// unit was read. The only error is want of memory, which also answers more slots than the most.
pub(crate) fn own_sizes(
    alloc: Global,
    unit: &Unit<'_>,
    table: &Table,
    operations: &Operations,
) -> Result<OwnSizes, NoMemory>
    requires table { IsTable table.now }
    requires unit { IsUnitHeld unit.now.forest.section unit.now.head (declarations_of table.now) unit.now.forest }
    requires operations { HasOperations Wide unit.now.forest operations.now }
    requires short { length unit.now.forest.section < 2 ^ 32 }
    ensures { IfOk result (λ own. AreOwn (unit_by unit.now table.now) operations.now own.sizes.items own.starts.items) }
{
    let count = unit.forest().len();
    let mut sizes: Vec<u32> = Vec::new(alloc);
    let mut starts: Vec<u32> = Vec::with_capacity(alloc, count as usize + 1)?;
    for id in 0..count {
        starts.push(sizes.len() as u32)?;
        push_entry_sizes(&mut sizes, unit, table, operations, id)?;
    }
    starts.push(sizes.len() as u32)?;
    Ok(OwnSizes { sizes, starts })
}
