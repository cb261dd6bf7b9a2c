// Abbreviation tables written anew.
ghost use Rattle.std.specs.Prelude.{◌≡◌, ◌<◌, ◌-◌, ◌^◌, length, IfOk};
ghost use Rattle.std.specs.List.{All};
ghost use Rattle.dw_base.specs.declared.fault.Reach.{Reach};
ghost use Rattle.abbrev_tables.specs.Written.{IsWritableColumn};
ghost use Rattle.entry_read.specs.Units.{IsTable};
ghost use Rattle.value_links.specs.World.{table_at, IsWorldOf};
ghost use Rattle.written_files.specs.Uses.{AreUses};
ghost use Rattle.rewriter.specs.inside.Tables.{AreColumnsChosen, AreTablesWritten, table_anew};
ghost use Rattle.rewriter.specs.inside.Counting.{AreCounted};
ghost use Rattle.rewriter.specs.inside.Columns.{units_with, AreNamers};
ghost use Rattle.rewriter.specs.inside.Appended.{IsAppended, AreAppended};

use crate::columns::{Namers, choose_columns, units_by_table};
use crate::uses::{Uses, count_uses};
use abbrev_numbering::number;
use abbrev_tables::{Spec, Table, listings, tables_written, write_table};
use dw_base::{Classes, NoMemory};
use entry_arena::trees_are_walks;
use std::alloc::Global;
use value_links::World;

/// How an abbreviation table is written anew.
#[derive(Drop)]
pub struct NewTable {
    /// Its place in the new .debug_abbrev.
    pub at: u64,
    /// A new column for each of its columns, in their order.
    pub columns: Vec<Spec>,
    /// The new code of each declaration, or 0 where no entry has it.
    pub numbers: Vec<u32>,
}

/// The new .debug_abbrev, and its tables in the order of the old ones.
#[derive(Drop)]
pub struct Tables {
    pub bytes: Vec<u8>,
    pub tables: Vec<NewTable>,
}

// Appends a table with these uses of its declarations and these new columns, and says how it is written.
fn append_table(
    alloc: Global,
    bytes: &mut Vec<u8>,
    table: &Table,
    uses: &Vec<u64>,
    columns: Vec<Spec>,
) -> Result<NewTable, NoMemory>
    requires known { IsTable table.now }
    requires count { length uses.now.items ≡ length table.now.decls }
    requires few { length uses.now.items < 2 ^ 32 }
    requires renewed { length columns.items ≡ length table.now.specs }
    requires writable { All IsWritableColumn columns.items }
    ensures appended { IfOk result (λ new. IsAppended table.now uses.now.items bytes.old.items bytes.new.items (table_anew new)) }
    ensures columns { IfOk result (λ new. new.columns.items ≡ columns.items) }
{
    // Laws, which cost nothing: a table that is written is one that is read, and can be held.
    tables_written();
    listings();
    let numbers = number(alloc, uses)?;
    let written = write_table(alloc, table, &numbers, &columns)?;
    let at = bytes.len() as u64;
    bytes.extend_from_slice(&written)?;
    Ok(NewTable {
        at,
        columns,
        numbers,
    })
}

// Appends the table with a number, each column in its least form of the classes. `named` are the units that have the table, and `uses`
// says how many entries have each of its declarations.
fn append_numbered(
    alloc: Global,
    classes: Classes,
    bytes: &mut Vec<u8>,
    world: &World<'_>,
    named: &Vec<u32>,
    uses: &Vec<u64>,
    number: usize,
) -> Result<NewTable, NoMemory>
    requires world { (reach : Reach) × IsWorldOf world.now.image reach world.now }
    requires known { number < length world.now.tables }
    requires named { named.now.items ≡ units_with world.now.table_of number (length world.now.units) }
    requires uses { AreUses world.now.units (table_at world.now.tables number) uses.now.items }
    requires few { length uses.now.items < 2 ^ 32 }
    ensures appended { IfOk result (λ new. IsAppended (table_at world.now.tables number).table uses.now.items bytes.old.items bytes.new.items (table_anew new)) }
    ensures chosen { IfOk result (λ new. AreColumnsChosen classes world.now.units (table_at world.now.tables number) new.columns.items) }
{
    let old = &world.tables()[number].table;
    let columns = choose_columns(alloc, classes, world.units(), named, old)?;
    append_table(alloc, bytes, old, uses, columns)
}

// Writes the tables of a file one after the other. `named` has for each the units that have it, and `all` the uses of its
// declarations. A used declaration has an entry, and a column of it a value of that entry, so that the bytes are few.
fn write_all(
    alloc: Global,
    classes: Classes,
    world: &World<'_>,
    named: &Vec<Namers>,
    all: &Vec<Uses>,
) -> Result<Tables, NoMemory>
    requires world { (reach : Reach) × IsWorldOf world.now.image reach world.now }
    requires named { AreNamers world.now.table_of (length world.now.tables) (length world.now.units) named.now.items }
    requires uses { AreCounted world.now.units world.now.tables all.now.items }
    ensures appended { IfOk result (λ new. AreAppended classes world.now.units world.now.tables all.now.items (length world.now.tables) new.bytes.items new.tables.items) }
    ensures fits { IfOk result (λ new. length new.bytes.items < 2 ^ 32 - 1) }
{
    let mut bytes = Vec::new(alloc);
    let mut written = Vec::new(alloc);
    for i in 0..world.tables().len() {
        let new = append_numbered(
            alloc,
            classes,
            &mut bytes,
            world,
            &named[i].units,
            &all[i].counts,
            i,
        )?;
        written.push(new)?;
    }
    Ok(Tables {
        bytes,
        tables: written,
    })
}

/// Writes the abbreviation tables of a file anew (DWARF 5 section 7.5.3), each of those that units name once, in the order of
/// their places. A table has its used declarations, with codes that take the fewest bytes in the table and in the entries of
/// all units that name it, and each column in the form of the classes that takes the fewest bytes in the same entries and the declaration.
/// The section has fewer than 2^32 - 1 bytes, so that 4 bytes hold each place in it (DWARF 5
/// section 7.4). The only error is want of memory.
pub fn write_tables(alloc: Global, classes: Classes, world: &World<'_>) -> Result<Tables, NoMemory>
    requires world { (reach : Reach) × IsWorldOf world.now.image reach world.now }
    ensures written { IfOk result (λ tables. AreTablesWritten classes world.now tables.bytes.items tables.tables.items) }
    ensures fits { IfOk result (λ tables. length tables.bytes.items < 2 ^ 32 - 1) }
{
    // A law, which costs nothing: the entries of a unit are those of a walk, by the declarations of its table.
    trees_are_walks();
    let tables = world.tables();
    let uses = count_uses(alloc, world.units(), tables, world.table_numbers())?;
    let named = units_by_table(alloc, world.table_numbers(), tables.len())?;
    write_all(alloc, classes, world, &named, &uses)
}
