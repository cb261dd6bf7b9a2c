//! The first number of a file in LEB128 that has a byte too many.
#![tactic(auto)]

ghost use Rattle.std.specs.Prelude.{IfOk};
ghost use Rattle.dw_base.specs.declared.fault.Reach.{Reach};
ghost use Rattle.value_links.specs.World.{IsWorldOf};
ghost use Rattle.tidy_places.specs.Firsts.{IsLeastFound};
ghost use Rattle.tidy_numbers.specs.LongNumbers.{IsLongNumber};

mod entry_values;
mod fronts;
mod laws;
mod list_operands;
mod lists;
mod number_walk;
mod operands;
mod operations;
mod sections;
mod tables;
mod units;
mod views;

pub use crate::fronts::earlier;
pub use crate::laws::written_numbers;
use crate::sections::{first_in_abbrev, first_in_info, first_in_section};
use dw_base::{Classes, NoMemory};
use list_model::ListKind;
use std::alloc::Global;
use value_links::{World, one_reading};

/// The least place of a number in ULEB128 or SLEB128 that has a byte too many (DWARF 5 section 7.6), as an offset in the file, or None where
/// there is none.
///
/// Such numbers stand in abbreviation tables, in entries with their values, in expressions, in lists that are kept and in view pairs, and before
/// the expressions of location lists that no entry names. Left out is what has a size of its own: references within a unit, the lengths of
/// expressions of units and of the location lists that these own, references to base types and the lengths of what entry_values hold in
/// such expressions, and the operands of lists that aren't kept. The only error is want of memory.
pub fn first_long_number(
    alloc: Global,
    classes: Classes,
    world: &World<'_>,
) -> Result<Option<u64>, NoMemory>
    requires { (reach : Reach) × IsWorldOf world.now.image reach world.now }
    ensures { IfOk result (IsLeastFound (IsLongNumber classes world.now.image)) }
{
    // A file is read in one way.
    one_reading();
    let ranges = first_in_section(alloc, classes, world, ListKind::Ranges)?;
    let locations = first_in_section(alloc, classes, world, ListKind::Locations)?;
    let lists = earlier(ranges, locations);
    let entries = earlier(first_in_info(world), lists);
    Ok(earlier(first_in_abbrev(world), entries))
}
