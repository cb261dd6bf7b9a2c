// Units as they are written: a reference of DW_FORM_ref_addr is taken as one within its unit where its column gets DW_FORM_ref_udata.
ghost use Rattle.std.specs.Prelude.{◌≡◌, ◌<◌, ◌++◌, ℕ, List, Option, false, length, take, drop, IfOk, OnOk, MatchOption};
ghost use Rattle.dw_base.specs.declared.fault.Reach.TheVariants.{Narrow};
ghost use Rattle.abbrev_tables.specs.Listings.{spec_at};
ghost use Rattle.entry_read.specs.Units.{HeadAndForest, declarations_of, IsTable, IsUnitHeld};
ghost use Rattle.value_links.specs.World.{IsWorldOf};
ghost use Rattle.rewriter.specs.inside.Taken.{taken_row, taken_values};
ghost use Rattle.rewriter.specs.inside.Taken as model;
ghost use Rattle.rewriter.specs.inside.Placed.{unit_in, written_in, AreWritable};

use crate::tables::NewTable;
use abbrev_tables::{Spec, Table};
use dw_base::NoMemory;
use dw_base::constants::{DW_FORM_REF_ADDR, DW_FORM_REF_UDATA};
use entry_read::Unit;
use form_codec::Value;
use std::alloc::Global;
use value_links::World;

// Whether a column had DW_FORM_ref_addr and gets DW_FORM_ref_udata.
fn is_taken(old: &Spec, new: &Spec) -> bool
    ensures { result ≡ model.is_taken old.now new.now }
{
    old.form == DW_FORM_REF_ADDR && new.form == DW_FORM_REF_UDATA
}

// Whether some column did.
fn some_taken(olds: &[Spec], news: &[Spec]) -> bool
    requires { length news.now ≡ length olds.now }
    ensures { result ≡ false → (k : ℕ) → k < length olds.now → model.is_taken (spec_at olds.now k) (spec_at news.now k) ≡ false }
{
    for k in 0..olds.len() {
        if is_taken(&olds[k], &news[k]) {
            return true;
        }
    }
    false
}

// What is written for a value of such a column, or of another, in a unit that begins at a place.
fn taken_value(at: u64, taken: bool, value: Value) -> Value
    ensures { result ≡ model.taken_value at taken value }
{
    match value {
        Value::SectionRef(place) if taken => Value::LocalRef(place.saturating_sub(at)),
        other => other,
    }
}

// Appends what is written for the values of an entry, by its old columns and the new ones.
fn push_row(
    values: &mut Vec<Value>,
    at: u64,
    olds: &[Spec],
    news: &[Spec],
    row: &[Value],
) -> Result<(), NoMemory>
    requires columns { (length olds.now ≡ length row.now) × (length news.now ≡ length row.now) }
    ensures { OnOk result (values.new.items ≡ values.old.items ++ taken_row at olds.now news.now row.now) }
{
    for ((old, new), value) in olds.iter().zip(news).zip(row) {
        values.push(taken_value(at, is_taken(old, new), *value))?;
    }
    Ok(())
}

// What is written for the values of a unit, by its table and new columns in place of the table's.
fn values_of(
    alloc: Global,
    unit: &Unit<'_>,
    table: &Table,
    news: &[Spec],
) -> Result<Vec<Value>, NoMemory>
    requires table { IsTable table.now }
    requires unit { IsUnitHeld unit.now.forest.section unit.now.head (declarations_of table.now) unit.now.forest }
    requires renewed { length news.now ≡ length table.now.specs }
    ensures { IfOk result (λ values. values.items ≡ taken_values table.now news.now unit.now) }
{
    let at = unit.head().at;
    let mut values = Vec::with_capacity(alloc, unit.forest().value_count() as usize)?;
    let mut row = Vec::new(alloc);
    for entry in unit.forest().entries().iter() {
        let decl = table.decl(entry.decl);
        let first = decl.first as usize;
        let columns = &news[first..first + decl.count as usize];
        unit.forest()
            .read_values(entry.first, entry.count, &mut row)?;
        push_row(&mut values, at, table.columns(entry.decl), columns, &row)?;
    }
    Ok(values)
}

/// The unit with a number as it is written, if it may differ from how it was read: by new columns of its table a reference of
/// DW_FORM_ref_addr gets DW_FORM_ref_udata, and then counts from the first byte of the unit (DWARF 5 section 7.5.5). The only error is
/// want of memory.
pub fn taken_unit<'a>(
    alloc: Global,
    world: &World<'a>,
    tables: &Vec<NewTable>,
    number: usize,
) -> Result<Option<Unit<'a>>, NoMemory>
    requires world { IsWorldOf world.now.image Narrow world.now }
    requires known { number < length world.now.units }
    requires writable { AreWritable world.now tables.now.items }
    ensures { IfOk result (λ taken. MatchOption taken (unit_in world.now.units number ≡ written_in world.now tables.now.items number) (λ unit. unit ≡ written_in world.now tables.now.items number)) }
{
    let unit = &world.units()[number];
    let table = world.table_numbers()[number] as usize;
    let old = &world.tables()[table].table;
    let new = &tables[table].columns;
    if !some_taken(old.specs(), new) {
        return Ok(None);
    }
    let values = values_of(alloc, unit, old, new)?;
    Ok(Some(unit.with_values(alloc, &values)?))
}

/// The unit with a number as it is written: `taken`, if it may differ from how it was read.
pub fn written_unit<'w, 'a>(
    world: &'w World<'a>,
    tables: &Vec<NewTable>,
    taken: &'w Option<Unit<'a>>,
    number: usize,
) -> &'w Unit<'a>
    requires known { number < length world.now.units }
    requires taken { MatchOption taken.now (unit_in world.now.units number ≡ written_in world.now tables.now.items number) (λ unit. unit ≡ written_in world.now tables.now.items number) }
    ensures { result.now ≡ written_in world.now tables.now.items number }
{
    // It is named in the contract alone.
    let _tables = tables;
    match taken {
        Some(unit) => unit,
        None => &world.units()[number],
    }
}
