// The numbers of entries: codes, values, and the codes 0 that end chains of siblings.
ghost use Rattle.std.specs.Prelude.{◌<◌, ℕ, length};
ghost use Rattle.dw_base.specs.declared.fault.Reach.{Reach};
ghost use Rattle.leb_codec.specs.Leb.{Uleb};
ghost use Rattle.entry_arena.specs.Arena.{chain_end_at};
ghost use Rattle.entry_arena.specs.Trees.{SpellsBetween};
ghost use Rattle.entry_read.specs.Units.{declarations_of, IsTable, IsUnitHeld};
ghost use Rattle.value_links.specs.World.{IsWorldOf};
ghost use Rattle.tidy_places.specs.Firsts.{IsLeastFound};
ghost use Rattle.tidy_numbers.specs.LongNumbers.{IsLongInEntries};
ghost use Rattle.tidy_numbers.specs.LongUnits.{IsLongInUnit};
ghost use Rattle.tidy_numbers.specs.inside.Held.{OfReading};
ghost use Rattle.tidy_numbers.specs.inside.LongEntries.{IsLongInEntryOf, IsLongEndAt, unit_by};

use crate::entry_values::first_in_entry;
use crate::fronts::{earlier, is_long};
use abbrev_tables::Table;
use entry_arena::ChainEnd;
use entry_read::{Unit, columns_of};
use value_links::World;

// The first code or value of a unit's entries with a byte too many. `table` is the abbreviation table by which the unit was read.
fn first_of_entries(unit: &Unit<'_>, table: &Table) -> Option<u64>
    requires table { IsTable table.now }
    requires unit { IsUnitHeld unit.now.forest.section unit.now.head (declarations_of table.now) unit.now.forest }
    ensures { IsLeastFound (λ p. (id : ℕ) × (id < length unit.now.forest.entries) × IsLongInEntryOf (unit_by unit.now table.now) id p) result }
{
    let forest = unit.forest();
    let info = forest.section();
    let mut first = None;
    for id in 0..forest.len() {
        let entry = forest.entry(id);
        let columns = columns_of(table, entry.decl);
        first = earlier(first, first_in_entry(info, entry.at as usize, columns));
    }
    first
}

// The first code 0 with a byte too many.
fn first_of_ends(info: &[u8], ends: &[ChainEnd]) -> Option<u64>
    requires { (k : ℕ) → k < length ends.now → (to : ℕ) × SpellsBetween (Uleb 0) info.now (chain_end_at ends.now k).at to }
    ensures { IsLeastFound (λ p. (k : ℕ) × (k < length ends.now) × IsLongEndAt info.now ends.now k p) result }
{
    let mut first = None;
    for end in ends {
        let here = is_long(info, end.at as usize).then_some(u64::from(end.at));
        first = earlier(first, here);
    }
    first
}

// The first number of a unit's entries with a byte too many. `table` is the abbreviation table by which the unit was read.
fn first_in_unit(unit: &Unit<'_>, table: &Table) -> Option<u64>
    requires table { IsTable table.now }
    requires unit { IsUnitHeld unit.now.forest.section unit.now.head (declarations_of table.now) unit.now.forest }
    ensures { IsLeastFound (IsLongInUnit (unit_by unit.now table.now)) result }
{
    let forest = unit.forest();
    earlier(
        first_of_entries(unit, table),
        first_of_ends(forest.section(), forest.chain_ends()),
    )
}

/// The first number of the entries of units with a byte too many, by its place in .debug_info.
pub(crate) fn first_in_entries(world: &World<'_>) -> Option<u64>
    requires { (reach : Reach) × IsWorldOf world.now.image reach world.now }
    ensures { OfReading world.now (λ s. IsLeastFound (IsLongInEntries s) result) }
{
    let units = world.units();
    let mut first = None;
    for number in 0..units.len() {
        let table = world.table(number as u32);
        first = earlier(first, first_in_unit(&units[number], table));
    }
    first
}
