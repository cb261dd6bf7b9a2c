// Places of values.
ghost use Rattle.std.specs.Prelude.{◌≡◌, ◌<◌, ℕ, List, length};
ghost use Rattle.leb_codec.specs.Leb.{Uleb};
ghost use Rattle.form_codec.specs.declared.value.Value.{Value};
ghost use Rattle.form_codec.specs.Forms.{Meaning, SpellsValue};
ghost use Rattle.entry_arena.specs.Arena.{entry_at};
ghost use Rattle.entry_arena.specs.Trees.{SpellsBetween, ValuesBetween};
ghost use Rattle.entry_read.specs.Units.{declarations_of, IsTable, IsUnitHeld};
ghost use Rattle.entry_read.specs.Places.{StandsAtColumn};

use crate::entries::columns_of;
use crate::unit::Unit;
use abbrev_tables::{Spec, Table};
use form_codec::read_value;
use leb_codec::read_u;

// Where the code at a place ends.
fn code_end(info: &[u8], at: usize) -> usize
    requires { (code : ℕ) × (to : ℕ) × SpellsBetween (Uleb code) info.now at to }
    ensures { (code to : ℕ) → SpellsBetween (Uleb code) info.now at to → result ≡ to }
{
    match read_u(info, at) {
        Ok(code) => code.end,
        // A code that stands there ends and fits.
        Err(_) => unreachable!(),
    }
}

// Where the value of a column at a place ends.
fn value_end(info: &[u8], at: usize, column: Spec) -> usize
    requires { (meaning : Meaning) × (to : ℕ) × SpellsBetween (SpellsValue column.name column.form column.constant meaning) info.now at to }
    ensures { (meaning : Meaning) (to : ℕ) → SpellsBetween (SpellsValue column.name column.form column.constant meaning) info.now at to → result ≡ to }
{
    match read_value(
        info,
        at,
        info.len(),
        column.name,
        column.form,
        column.constant,
        0,
    ) {
        Ok(read) => read.end,
        // A value that stands there has no fault.
        Err(_) => unreachable!(),
    }
}

// Where the values of columns from a place on end.
fn values_end(info: &[u8], from: usize, columns: &[Spec]) -> usize
    requires { (values : List Value) × (to : ℕ) × ValuesBetween info.now columns.now values from to }
    ensures { (values : List Value) (to : ℕ) → ValuesBetween info.now columns.now values from to → result ≡ to }
{
    let mut at = from;
    for column in columns {
        at = value_end(info, at, *column);
    }
    at
}

/// The place of the first byte, counted from the section's first byte, of the value with number `column` of the entry with
/// number `id`, both counted from 0 (DWARF 5 section 7.5.2). `table` is the abbreviation table by which the unit was read. For
/// a value without bytes it is the place where it would be.
///
/// No place of a value is kept. So the entry's code and the values before are read anew, in the time of these, which serves a
/// message on a fault. There is no error.
pub fn place_of_value(unit: &Unit<'_>, table: &Table, id: u32, column: u32) -> u64
    requires table { IsTable table.now }
    requires unit { IsUnitHeld unit.now.forest.section unit.now.head (declarations_of table.now) unit.now.forest }
    requires id { id < length unit.now.forest.entries }
    requires column { column < (entry_at unit.now.forest.entries id).count }
    ensures { StandsAtColumn unit.now.forest.section (declarations_of table.now) unit.now.forest.values (entry_at unit.now.forest.entries id) column result }
{
    let forest = unit.forest();
    let entry = forest.entry(id);
    let info = forest.section();
    let columns = columns_of(table, entry.decl);
    let values_at = code_end(info, entry.at as usize);
    values_end(info, values_at, &columns[..column as usize]) as u64
}
