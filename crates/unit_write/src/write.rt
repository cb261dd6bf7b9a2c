// A unit written anew.
ghost use Rattle.std.specs.Prelude.{◌≡◌, ◌≢◌, ◌≤◌, ◌<◌, ◌+◌, ◌-◌, ◌^◌, ◌++◌, ℕ, List, length, slice_index, OnOk, OnErr};
ghost use Rattle.std.specs.List.{All};
ghost use Rattle.spelled.specs.Spelled.{Appends};
ghost use Rattle.leb_codec.specs.Digits.{Extends};
ghost use Rattle.form_codec.specs.Values.{LiesIn};
ghost use Rattle.abbrev_tables.specs.Tables.{Declared};
ghost use Rattle.entry_arena.specs.Arena.{with_values};
ghost use Rattle.entry_arena.specs.Trees.{listed_to};
ghost use Rattle.entry_arena.specs.Walks.{IsWhole};
ghost use Rattle.fixed_width.specs.InitialLengths.{least_reserved};
ghost use Rattle.entry_read.specs.Heads.{type_unit};
ghost use Rattle.unit_write.specs.Values.{HaveSize};
ghost use Rattle.unit_write.specs.Placing.{IsRenumbered};
ghost use Rattle.unit_write.specs.NewExpressions.{AreEndsFor};
ghost use Rattle.unit_write.specs.Moved.{IsWritable, IsPlacedAt, IsWrittenAnew, new_values, lens_anew};
ghost use Rattle.unit_write.specs.inside.Readings.{HasItem};
ghost use Rattle.unit_write.specs.inside.Puts.{AreNew, PutsValues, PutsEntry, PutsItems, PutsNext, own_bytes, header_bytes};

use crate::expressions::NewExpressions;
use crate::items::{Items, Next};
use crate::parts::{made_for, new_columns, read_row};
use crate::values::put_value;
use abbrev_tables::{Spec, Table};
use dw_base::NoMemory;
use dw_base::constants::{DW_UT_SKELETON, DW_UT_TYPE};
use entry_read::{Unit, UnitHead};
use form_codec::{Value, Width, put_low};
use leb_codec::put_u;
use std::alloc::Global;

const VERSION: u64 = 5;

const ADDRESS_SIZE: u8 = 8;

/// The new numbers of a unit.
#[derive(Drop)]
pub struct NewNumbers {
    /// The place after its last byte, counted from the section's first byte.
    pub end: u64,
    /// debug_abbrev_offset
    pub table: u64,
    /// type_offset, which is 0 where the unit isn't a type unit.
    pub type_offset: u64,
    /// For each value, in the order of the values, the number that stands in it where it is a reference or a section offset;
    /// for another value any number.
    pub held: Vec<u64>,
    /// The new bytes of all expressions.
    pub expressions: NewExpressions,
}

// Appends the fields that only the headers of type units and of skeleton units have, or a front of them.
fn put_own(out: &mut Vec<u8>, kind: u8, extra: u64, type_offset: u64) -> Result<(), NoMemory>
    ensures ok { OnOk result (out.new.items ≡ out.old.items ++ own_bytes kind extra type_offset) }
    ensures err { OnErr result (Extends out.old.items out.new.items) }
{
    match kind {
        DW_UT_TYPE => {
            put_low(out, Width::Eight, extra)?;
            put_low(out, Width::Four, type_offset)
        }
        DW_UT_SKELETON => put_low(out, Width::Eight, extra),
        _ => Ok(()),
    }
}

/// Appends a header with a unit_length and the new numbers, or a front of it (DWARF 5 section 7.5.1).
pub(crate) fn put_head(
    out: &mut Vec<u8>,
    head: UnitHead,
    len: u64,
    new: &NewNumbers,
) -> Result<(), NoMemory>
    ensures ok { OnOk result (out.new.items ≡ out.old.items ++ header_bytes len head.kind new.now.table head.extra new.now.type_offset) }
    ensures err { OnErr result (Extends out.old.items out.new.items) }
{
    put_low(out, Width::Four, len)?;
    put_low(out, Width::Two, VERSION)?;
    out.push(head.kind)?;
    out.push(ADDRESS_SIZE)?;
    put_low(out, Width::Four, new.table)?;
    put_own(out, head.kind, head.extra, new.type_offset)
}

// Appends the values of columns, or a front of them. `first` is the number of the first one among all values.
fn put_values(
    out: &mut Vec<u8>,
    columns: &[Spec],
    values: &[Value],
    section: &[u8],
    first: u32,
    new: &NewNumbers,
) -> Result<(), NoMemory>
    requires sized { (lens : List ℕ) × (size : ℕ) × HaveSize section.now columns.now values.now lens size }
    requires inside { All (LiesIn (length section.now)) values.now }
    requires new { (count : ℕ) × AreNew (new_values new.now) count × (first + length values.now ≤ count) }
    ensures ok { OnOk result (Appends (PutsValues section.now (new_values new.now) first columns.now) values.now out.old.items out.new.items) }
    ensures err { OnErr result (Extends out.old.items out.new.items) }
{
    for (place, column) in columns.iter().enumerate() {
        let number = first as usize + place;
        let made = made_for(&new.expressions.ends, &new.expressions.bytes, number);
        put_value(
            out,
            *column,
            &values[place],
            new.held[number],
            made,
            section,
        )?;
    }
    Ok(())
}

// Appends the entry with a number, or a front of it: the new code of its declaration, and its values, which `row` is for.
fn put_entry(
    out: &mut Vec<u8>,
    unit: &Unit<'_>,
    decls: &Table,
    specs: &[Spec],
    numbers: &[u32],
    new: &NewNumbers,
    row: &mut Vec<Value>,
    id: u32,
) -> Result<(), NoMemory>
    requires writable { IsWritable unit.now decls.now specs.now numbers.now (lens_anew unit.now.forest (new_values new.now)) }
    requires new { AreNew (new_values new.now) (length unit.now.forest.values) }
    requires inside { id < length unit.now.forest.entries }
    ensures ok { OnOk result (Appends (PutsEntry decls.now specs.now numbers.now (new_values new.now) unit.now.forest) id out.old.items out.new.items) }
    ensures err { OnErr result (Extends out.old.items out.new.items) }
{
    let forest = unit.forest();
    let entry = forest.entry(id);
    read_row(forest, id, row)?;
    put_u(out, u64::from(numbers[entry.decl as usize]))?;
    put_values(
        out,
        new_columns(decls, specs, entry.decl),
        row,
        forest.section(),
        entry.first,
        new,
    )
}

// Appends what stands next, or a front of it: an entry, or a code 0, which ends a chain.
fn put_next(
    out: &mut Vec<u8>,
    unit: &Unit<'_>,
    decls: &Table,
    specs: &[Spec],
    numbers: &[u32],
    new: &NewNumbers,
    row: &mut Vec<Value>,
    next: Next,
) -> Result<(), NoMemory>
    requires writable { IsWritable unit.now decls.now specs.now numbers.now (lens_anew unit.now.forest (new_values new.now)) }
    requires new { AreNew (new_values new.now) (length unit.now.forest.values) }
    requires inside { HasItem unit.now.forest next }
    ensures ok { OnOk result (Appends (PutsNext (PutsEntry decls.now specs.now numbers.now (new_values new.now) unit.now.forest)) next out.old.items out.new.items) }
    ensures err { OnErr result (Extends out.old.items out.new.items) }
{
    match next {
        Next::Entry(id) => put_entry(out, unit, decls, specs, numbers, new, row, id),
        Next::End => {
            out.push(0)?;
            Ok(())
        }
    }
}

// Appends the entries of a unit and the codes 0 that end chains, in the order of their places, or a front of them.
fn put_items(
    alloc: Global,
    out: &mut Vec<u8>,
    unit: &Unit<'_>,
    decls: &Table,
    specs: &[Spec],
    numbers: &[u32],
    new: &NewNumbers,
) -> Result<(), NoMemory>
    requires writable { IsWritable unit.now decls.now specs.now numbers.now (lens_anew unit.now.forest (new_values new.now)) }
    requires new { AreNew (new_values new.now) (length unit.now.forest.values) }
    ensures ok { (values : List Value) (ds : List Declared) (start place : ℕ) (whole : IsWhole unit.now.forest.section ds start (listed_to (with_values unit.now.forest values) place)) → OnOk result (Appends (PutsItems (PutsEntry decls.now specs.now numbers.now (new_values new.now) unit.now.forest) 0) whole.items out.old.items out.new.items) }
    ensures grows { Extends out.old.items out.new.items }
{
    let mut items = Items::new();
    let mut row = Vec::new(alloc);
    while let Some(next) = items.next(unit.forest()) {
        put_next(out, unit, decls, specs, numbers, new, &mut row, next)?;
    }
    Ok(())
}

// Appends a unit written anew, or a front of it.
fn put_unit(
    alloc: Global,
    out: &mut Vec<u8>,
    unit: &Unit<'_>,
    decls: &Table,
    specs: &[Spec],
    numbers: &[u32],
    new: &NewNumbers,
) -> Result<(), NoMemory>
    requires writable { IsWritable unit.now decls.now specs.now numbers.now (lens_anew unit.now.forest (new_values new.now)) }
    requires ends { (entries : List ℕ) × (ends : List ℕ) × IsPlacedAt unit.now decls.now specs.now numbers.now (lens_anew unit.now.forest (new_values new.now)) (length out.old.items) entries ends new.now.end }
    requires fits { new.now.end < least_reserved }
    requires new { AreNew (new_values new.now) (length unit.now.forest.values) }
    requires narrow { (new.now.table < 2 ^ 32) × (new.now.type_offset < 2 ^ 32) }
    requires type_offset { unit.now.head.kind ≢ type_unit → new.now.type_offset ≡ 0 }
    ensures ok { (ds : List Declared) → IsRenumbered decls.now specs.now numbers.now ds → OnOk result (IsWrittenAnew unit.now decls.now specs.now numbers.now ds new.now.table new.now.type_offset (new_values new.now) (length out.old.items) out.new.items) }
    ensures grows { Extends out.old.items out.new.items }
{
    let len = new.end - out.len() as u64 - 4;
    put_head(out, unit.head(), len, new)?;
    put_items(alloc, out, unit, decls, specs, numbers, new)
}

/// Appends a unit written anew (DWARF 5 section 7.5) to `out`, the front of a new .debug_info, with the unit's table `decls`, a
/// new column in place of each of the table's, the new code of each declaration, and new numbers, each below 2^32.
///
/// The entries keep their order and their values, but that references and section offsets have their new numbers. Every
/// LEB128 number has its fewest bytes. An expression has its new bytes. No byte follows the tree. The unit ends at `new.end`, as
/// `place_unit` says where each reference within the unit and each length of an expression is as long as its number needs. The only
/// error is want of memory; it leaves `out` as it was.
pub fn write_unit(
    alloc: Global,
    out: &mut Vec<u8>,
    unit: &Unit<'_>,
    decls: &Table,
    specs: &Vec<Spec>,
    numbers: &Vec<u32>,
    new: &NewNumbers,
) -> Result<(), NoMemory>
    requires writable { IsWritable unit.now decls.now specs.now.items numbers.now.items (lens_anew unit.now.forest (new_values new.now)) }
    requires ends { (entries : List ℕ) × (ends : List ℕ) × IsPlacedAt unit.now decls.now specs.now.items numbers.now.items (lens_anew unit.now.forest (new_values new.now)) (length out.old.items) entries ends new.now.end }
    requires fits { new.now.end < least_reserved }
    requires held { (length new.now.held.items ≡ length unit.now.forest.values) × All (λ number. number < 2 ^ 32) new.now.held.items }
    requires expressions { AreEndsFor unit.now.forest new.now.expressions.ends.items × ((k : ℕ) → k < length unit.now.forest.values → slice_index new.now.expressions.ends.items k ≤ length new.now.expressions.bytes.items) }
    requires narrow { (new.now.table < 2 ^ 32) × (new.now.type_offset < 2 ^ 32) }
    requires type_offset { unit.now.head.kind ≢ type_unit → new.now.type_offset ≡ 0 }
    ensures written { OnOk result ((ds : List Declared) → IsRenumbered decls.now specs.now.items numbers.now.items ds → IsWrittenAnew unit.now decls.now specs.now.items numbers.now.items ds new.now.table new.now.type_offset (new_values new.now) (length out.old.items) out.new.items) }
    ensures behind { OnOk result (Extends out.old.items out.new.items) }
    ensures unchanged { OnErr result (out.new.items ≡ out.old.items) }
{
    let start = out.len();
    match put_unit(alloc, out, unit, decls, specs, numbers, new) {
        Ok(()) => Ok(()),
        Err(error) => {
            out.truncate(start);
            Err(error)
        }
    }
}
