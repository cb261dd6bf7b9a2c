// Declarations: their codes rise, and their columns are in least forms.
ghost use Rattle.std.specs.Prelude.{◌<◌, ◌↔◌, ◌⊎◌, ℕ, List, length, IsTrue, IsFalse, IsNone, IfOk};
ghost use Rattle.dw_base.specs.declared.fault.Reach.{Reach};
ghost use Rattle.entry_read.specs.Units.{HeadAndForest, declarations_of, IsTable};
ghost use Rattle.value_links.specs.World.{IsWorldOf};
ghost use Rattle.tidy_places.specs.Firsts.{IsLeastFound};
ghost use Rattle.tidy_tables.specs.Untidy.{HasUnused, IsFallen, IsUntidyDeclaration};
ghost use Rattle.tidy_tables.specs.inside.Compared.{OfBoth};
ghost use Rattle.tidy_tables.specs.inside.UntidyDeclarations.{AreAllNamers, AreAllShort, AreShort, HasLongColumnIn, HaveShortColumns, HoldsColumns, IsUntidyIn};

use crate::column_values::ColumnValues;
use crate::table_namers::units_by_table;
use crate::table_places::lesser;
use abbrev_tables::Table;
use dw_base::{Classes, NoMemory};
use entry_read::Unit;
use std::alloc::Global;
use value_links::{NamedTable, World};

// Whether a declaration has a code that isn't above the one before it.
fn is_fallen(table: &Table, number: u32) -> bool
    requires { number < length table.now.decls }
    ensures { IsTrue result ↔ IsFallen (declarations_of table.now) number }
{
    number > 0 && table.decl(number).code <= table.decl(number - 1).code
}

// Whether a declaration has a column that isn't in a least form. `values` are those of all columns of its table.
fn has_long_column(values: &ColumnValues, classes: Classes, table: &NamedTable, number: u32) -> bool
    requires known { number < length table.now.table.decls }
    requires stands { IsTable table.now.table }
    requires values { (units : List HeadAndForest) × HoldsColumns units table.now values.now }
    ensures long { (units : List HeadAndForest) → HoldsColumns units table.now values.now → IsTrue result ↔ HasLongColumnIn classes units table.now number }
    ensures short { (units : List HeadAndForest) → HoldsColumns units table.now values.now → IsFalse result → AreShort classes units table.now number }
{
    let first = table.table.decl(number).first as usize;
    let columns = table.table.columns(number);
    for j in 0..columns.len() {
        if !values.is_least(first + j, classes, columns[j]) {
            return true;
        }
    }
    false
}

// Whether a declaration has such a code or such a column.
fn is_untidy(values: &ColumnValues, classes: Classes, table: &NamedTable, number: u32) -> bool
    requires known { number < length table.now.table.decls }
    requires stands { IsTable table.now.table }
    requires values { (units : List HeadAndForest) × HoldsColumns units table.now values.now }
    ensures untidy { (units : List HeadAndForest) → HoldsColumns units table.now values.now → IsTrue result ↔ (IsFallen (declarations_of table.now.table) number ⊎ HasLongColumnIn classes units table.now number) }
    ensures short { (units : List HeadAndForest) → HoldsColumns units table.now values.now → IsFalse result → AreShort classes units table.now number }
{
    is_fallen(&table.table, number) || has_long_column(values, classes, table, number)
}

// The place of the first declaration of a table that has.
fn first_of_values(values: &ColumnValues, classes: Classes, table: &NamedTable) -> Option<u64>
    requires stands { IsTable table.now.table }
    requires values { (units : List HeadAndForest) × HoldsColumns units table.now values.now }
    ensures least { (units : List HeadAndForest) → HoldsColumns units table.now values.now → IsLeastFound (IsUntidyIn classes units table.now) result }
    ensures short { (units : List HeadAndForest) → HoldsColumns units table.now values.now → IsNone result → AreAllShort classes units table.now }
{
    for number in 0..table.table.len() {
        if is_untidy(values, classes, table, number) {
            return Some(table.table.decl(number).at);
        }
    }
    None
}

// The same from the units, of which these name the table.
fn first_of_table(
    alloc: Global,
    classes: Classes,
    units: &Vec<Unit<'_>>,
    named: &Vec<u32>,
    table: &NamedTable,
) -> Result<Option<u64>, NoMemory>
    requires { AreAllNamers units.now.items table.now named.now.items }
    ensures least { IfOk result (λ place. IsLeastFound (IsUntidyIn classes units.now.items table.now) place) }
    ensures short { IfOk result (λ place. IsNone place → AreAllShort classes units.now.items table.now) }
{
    let values = ColumnValues::gather(alloc, units, named, &table.table)?;
    Ok(first_of_values(&values, classes, table))
}

/// The first declaration of a written file that has a column which isn't in a least form of the classes, or a code that isn't above the one
/// before it, by its place in .debug_abbrev. Where there is none, all columns are in least forms. Each declaration has uses.
pub(crate) fn first_declaration(
    alloc: Global,
    classes: Classes,
    after: &World<'_>,
) -> Result<Option<u64>, NoMemory>
    requires after { (reach : Reach) × IsWorldOf after.now.image reach after.now }
    requires used { OfBoth after.now after.now (λ r s. (q : ℕ) → HasUnused s.links q → ⊥) }
    ensures least { IfOk result (λ place. OfBoth after.now after.now (λ r s. IsLeastFound (IsUntidyDeclaration classes s.links) place)) }
    ensures short { IfOk result (λ place. IsNone place → OfBoth after.now after.now (λ r s. HaveShortColumns classes s.links)) }
{
    let tables = after.tables();
    let named = units_by_table(alloc, after.table_numbers(), tables.len())?;
    let mut first = None;
    for i in 0..tables.len() {
        // Places rise within a table, but tables may stand in one another.
        let place = first_of_table(alloc, classes, after.units(), &named[i].units, &tables[i])?;
        first = lesser(first, place);
    }
    Ok(first)
}
