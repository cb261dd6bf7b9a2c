// The columns of abbreviation tables in their least forms.
ghost use Rattle.std.specs.Prelude.{◌≡◌, ◌<◌, ◌^◌, ℕ, List, [], length, OnOk, IfOk};
ghost use Rattle.std.specs.List.{All};
ghost use Rattle.column_forms.specs.TableColumns.{AreBestFor};
ghost use Rattle.entry_read.specs.Units.{declarations_of, IsTable, IsUnitHeld};
ghost use Rattle.rewriter.specs.inside.Columns.{AreNamers, names_of, values_of_units, HaveRoomFor, AddsEntries, AreUnitsOf, AreBestInside};

use crate::inside_columns::{has_section_refs, see_columns, take_inside};
use abbrev_tables::{Spec, Table};
use column_forms::Tallies;
use dw_base::{Classes, NoMemory};
use entry_read::Unit;
use std::alloc::Global;
use unit_write::bytes_are_small;

/// The units that have one table.
#[derive(Drop)]
pub struct Namers {
    /// Their numbers, rising.
    pub units: Vec<u32>,
}

// For each table no units yet.
fn no_namers(alloc: Global, tables: usize) -> Result<Vec<Namers>, NoMemory>
    ensures { IfOk result (λ all. AreNamers [] tables 0 all.items) }
{
    let mut all = Vec::new(alloc);
    for _ in 0..tables {
        all.push(Namers {
            units: Vec::new(alloc),
        })?;
    }
    Ok(all)
}

/// For each of so many tables the numbers of the units that have it. `table_of` has for each unit the number of its table. The
/// only error is want of memory.
pub fn units_by_table(
    alloc: Global,
    table_of: &Vec<u32>,
    tables: usize,
) -> Result<Vec<Namers>, NoMemory>
    requires inside { All (λ number. number < tables) table_of.now.items }
    requires few { length table_of.now.items < 2 ^ 32 }
    ensures { IfOk result (λ all. AreNamers table_of.now.items tables (length table_of.now.items) all.items) }
{
    let mut all = no_namers(alloc, tables)?;
    for u in 0..table_of.len() {
        let namers = &mut all[table_of[u] as usize];
        namers.units.push(u as u32)?;
    }
    Ok(all)
}

// Counts the values of all entries of a unit.
fn add_unit(
    alloc: Global,
    tallies: &mut Tallies,
    table: &Table,
    unit: &Unit<'_>,
) -> Result<(), NoMemory>
    requires table { IsTable table.now }
    requires unit { IsUnitHeld unit.now.forest.section unit.now.head (declarations_of table.now) unit.now.forest }
    requires wide { length tallies.old ≡ length table.now.specs }
    requires room { HaveRoomFor (names_of table.now.specs) unit.now.forest.section tallies.old (length unit.now.forest.entries) }
    ensures added { OnOk result (AddsEntries (names_of table.now.specs) table.now.decls unit.now unit.now.forest.entries tallies.old tallies.new) }
{
    // What was read stands in bytes of memory.
    bytes_are_small(unit.forest().section());
    let mut row = Vec::new(alloc);
    for entry in unit.forest().entries().iter() {
        let decl = table.decl(entry.decl);
        unit.forest()
            .read_values(entry.first, entry.count, &mut row)?;
        let columns = table.columns(entry.decl);
        tallies.add_row(alloc, decl.first as usize, columns, &row)?;
    }
    Ok(())
}

// The columns of a table, each in the form of the classes in which its values take the fewest bytes as they were read, over all entries
// of these units, which have the table. `units` are all units, and `named` are the numbers of those.
fn best_columns(
    alloc: Global,
    classes: Classes,
    units: &Vec<Unit<'_>>,
    named: &Vec<u32>,
    table: &Table,
) -> Result<Vec<Spec>, NoMemory>
    requires table { IsTable table.now }
    requires named { (section : List ℕ) × AreUnitsOf units.now.items table.now named.now.items section }
    ensures { IfOk result (λ best. (section : List ℕ) → AreUnitsOf units.now.items table.now named.now.items section → AreBestFor classes section (values_of_units units.now.items table.now.decls named.now.items) table.now.specs best.items) }
{
    let specs = table.specs();
    let mut tallies = Tallies::new(alloc, specs.len())?;
    for number in named.iter() {
        add_unit(alloc, &mut tallies, table, &units[*number as usize])?;
    }
    Ok(tallies.best(alloc, classes, specs)?)
}

/// The columns of a table, each in the form of the classes in which its values take the fewest bytes, over all entries of these units, which
/// have the table. Where a column of DW_FORM_ref_addr has values, and all name places in their own units, it gets DW_FORM_ref_udata.
/// `units` are all units, and `named` are the numbers of those. The only error is want of memory.
pub fn choose_columns(
    alloc: Global,
    classes: Classes,
    units: &Vec<Unit<'_>>,
    named: &Vec<u32>,
    table: &Table,
) -> Result<Vec<Spec>, NoMemory>
    requires table { IsTable table.now }
    requires named { (section : List ℕ) × AreUnitsOf units.now.items table.now named.now.items section }
    ensures { IfOk result (λ columns. (section : List ℕ) → AreUnitsOf units.now.items table.now named.now.items section → AreBestInside classes section units.now.items table.now.decls named.now.items table.now.specs columns.items) }
{
    let mut columns = best_columns(alloc, classes, units, named, table)?;
    if has_section_refs(&columns) {
        let seen = see_columns(alloc, units, named, table)?;
        take_inside(&mut columns, &seen);
    }
    Ok(columns)
}
