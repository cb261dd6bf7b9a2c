// The values of the columns of an abbreviation table: what they take in each form, and which references among them name places in
// their own units.
ghost use Rattle.std.specs.Prelude.{◌≡◌, ◌≢◌, ◌≤◌, ◌<◌, ◌+◌, ◌^◌, ◌↔◌, ℕ, List, [], length, IsTrue, OnOk, IfOk};
ghost use Rattle.spelled.specs.Spelled.{AreBytes};
ghost use Rattle.form_codec.specs.Columns.{AreSpelled, IsLeastForm};
ghost use Rattle.form_codec.specs.Values.{meant_in};
ghost use Rattle.column_forms.specs.Rows.{AreHere};
ghost use Rattle.column_forms.specs.Tallies.{meanings_in};
ghost use Rattle.column_forms.specs.TableColumns.{HaveAtMost, HaveNames, HaveRoomForRow};
ghost use Rattle.entry_read.specs.Units.{declarations_of, IsTable, IsUnitHeld};
ghost use Rattle.written_files.specs.Uses.{names_inside, taken_meanings};
ghost use Rattle.tidy_tables.specs.inside.TableNamers.{AreUnitsOf};
ghost use Rattle.tidy_tables.specs.inside.ColumnValues.{Headed, meant_with_heads, without_heads, HasSeen, HoldsValues, AddsHeaded, HasWidth, HasRoomFor, AddsEntries, AreGathered};

use abbrev_tables::{Spec, Table};
use column_forms::Tallies;
use dw_base::{Classes, NoMemory};
use entry_read::{Unit, UnitHead};
use form_codec::Value;
use std::alloc::Global;

// A law, which costs nothing: what stands in memory are bytes, fewer than 2^63 of them.
fn bytes_are_small(section: &[u8])
    ensures few { length section.now < 2 ^ 63 }
    ensures small { AreBytes section.now }
{
    let _section = section;
}

// Whether a value of a unit with this header counts from the first byte of .debug_info and names a place in the unit.
fn is_inside(head: &UnitHead, value: &Value) -> bool
    ensures { (section : List ℕ) → result ≡ names_inside head.now (meant_in section value.now) }
{
    match value {
        Value::SectionRef(place) => head.at <= *place && *place - head.at < head.len,
        _ => false,
    }
}

// Sees the values of an entry of a unit with this header, whose declaration has the columns from one on.
fn see_row(inside: &mut Vec<bool>, first: usize, head: &UnitHead, row: &[Value])
    requires { first + length row.now ≤ length inside.old.items }
    ensures { HasSeen first head.now row.now (length row.now) inside.old.items inside.new.items }
{
    for j in 0..row.len() {
        let here = is_inside(head, &row[j]);
        let column = &mut inside[first + j];
        *column = *column && here;
    }
}

/// The values of all columns of a table. Columns are numbered from 0 over all declarations of the table.
#[derive(Drop)]
pub(crate) struct ColumnValues {
    // What they take in each form.
    tallies: Tallies,
    // Of each column whether all its values count from the first byte of .debug_info and name places in their own units.
    inside: Vec<bool>,
}

impl ColumnValues {
    // No values of so many columns.
    fn new(alloc: Global, count: usize) -> Result<ColumnValues, NoMemory>
        ensures wide { IfOk result (λ held. HasWidth held count) }
        ensures few { IfOk result (λ held. HaveAtMost 0 held.tallies) }
        ensures none { IfOk result (λ held. (section : List ℕ) (names : ℕ → ℕ) → HoldsValues section names (λ (k : ℕ). []) held) }
    {
        Ok(ColumnValues {
            tallies: Tallies::new(alloc, count)?,
            inside: vec![in alloc; true; count]?,
        })
    }

    // Adds the values of an entry of a unit with this header, whose declaration has these columns, numbered from one on.
    fn add_row(
        &mut self,
        alloc: Global,
        first: usize,
        head: &UnitHead,
        columns: &[Spec],
        row: &[Value],
    ) -> Result<(), NoMemory>
        requires tallies { first + length row.now ≤ length self.old.tallies }
        requires inside { first + length row.now ≤ length self.old.inside.items }
        requires width { length columns.now ≡ length row.now }
        requires room { HaveRoomForRow self.old.tallies }
        ensures tallies { length self.new.tallies ≡ length self.old.tallies }
        ensures inside { length self.new.inside.items ≡ length self.old.inside.items }
        ensures few { OnOk result ((n : ℕ) → HaveAtMost n self.old.tallies → HaveAtMost (n + 1) self.new.tallies) }
        ensures added { OnOk result ((section : List ℕ) (names : ℕ → ℕ) (before after : ℕ → List Headed) → AreHere section row.now → HaveNames names first columns.now → AddsHeaded first head.now row.now before after → HoldsValues section names before self.old → HoldsValues section names after self.new) }
    {
        see_row(&mut self.inside, first, head, row);
        self.tallies.add_row(alloc, first, columns, row)
    }

    // Adds the values of all entries of a unit.
    fn add_unit(&mut self, alloc: Global, table: &Table, unit: &Unit<'_>) -> Result<(), NoMemory>
        requires table { IsTable table.now }
        requires unit { IsUnitHeld unit.now.forest.section unit.now.head (declarations_of table.now) unit.now.forest }
        requires wide { HasWidth self.old (length table.now.specs) }
        requires room { HasRoomFor self.old (length unit.now.forest.entries) }
        ensures { OnOk result (AddsEntries table.now unit.now unit.now.forest.entries self.old self.new) }
    {
        // What was read stands in bytes of memory.
        bytes_are_small(unit.forest().section());
        let head = unit.head();
        let mut row = Vec::new(alloc);
        for entry in unit.forest().entries().iter() {
            let decl = table.decl(entry.decl);
            unit.forest()
                .read_values(entry.first, entry.count, &mut row)?;
            let columns = table.columns(entry.decl);
            self.add_row(alloc, decl.first as usize, &head, columns, &row)?;
        }
        Ok(())
    }

    /// The values of all columns of a table, over all entries of these units, which name it. `units` are all units, and `named` are the
    /// numbers of those. The only error is want of memory.
    pub(crate) fn gather(
        alloc: Global,
        units: &Vec<Unit<'_>>,
        named: &Vec<u32>,
        table: &Table,
    ) -> Result<ColumnValues, NoMemory>
        requires table { IsTable table.now }
        requires named { (section : List ℕ) × AreUnitsOf units.now.items table.now named.now.items section }
        ensures { IfOk result (AreGathered units.now.items table.now named.now.items named.now.items) }
    {
        let mut held = ColumnValues::new(alloc, table.specs().len())?;
        for number in named.iter() {
            held.add_unit(alloc, table, &units[*number as usize])?;
        }
        Ok(held)
    }

    /// Whether the column with a number is in a least form of the classes (DWARF 5 sections 7.5.3 and 7.5.6), where references to places in
    /// their own units count from these units if all values of the column are such. The column has values, and its form spells them.
    pub(crate) fn is_least(&self, k: usize, classes: Classes, column: Spec) -> bool
        requires tallies { k < length self.now.tallies }
        requires inside { k < length self.now.inside.items }
        ensures { (section : List ℕ) (names : ℕ → ℕ) (values : ℕ → List Headed) → names k ≡ column.name → HoldsValues section names values self.now → values k ≢ [] → AreSpelled column.name column.form column.constant (meanings_in section (without_heads (values k))) → IsTrue result ↔ IsLeastForm classes column.name (taken_meanings (meant_with_heads section (values k))) column.form column.constant }
    {
        if self.inside[k] {
            // No form spells both these references and those that count from their units.
            return false;
        }
        self.tallies.is_least(k, classes, column)
    }
}
