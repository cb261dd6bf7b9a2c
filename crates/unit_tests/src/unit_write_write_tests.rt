// Bytes of units, written by hand from DWARF 5 sections 7.5 and 7.6.
ghost use Rattle.std.specs.Prelude.{◌≡◌, ◌≢◌, ◌<◌, ◌-◌, ◌^◌, ℕ, List, length, IfOk, IfSome, IsTrue, OnOk};
ghost use Rattle.std.specs.List.{All};
ghost use Rattle.form_codec.specs.Values.{meant_in, IsValueIn};
ghost use Rattle.entry_arena.specs.Arena.{entry_at};
ghost use Rattle.dw_base.specs.declared.fault.Reach.TheVariants.{Narrow};
ghost use Rattle.entry_read.specs.Expressions.{HasOperations};
ghost use Rattle.entry_read.specs.Heads.{IsHead};
ghost use Rattle.entry_read.specs.Units.{declarations_of, IsTable, IsUnitHeld};
ghost use Rattle.unit_write.specs.Values.{HasSize, HaveSize};
ghost use Rattle.unit_write.specs.Placing.{columns_of, values_in};
ghost use Rattle.unit_write.specs.Lens.{AreLensFor};
ghost use Rattle.unit_write.specs.NewExpressions.{lens_of, new_len, new_lens};
ghost use Rattle.unit_write.specs.Moved.{IsWritable};

use crate::unit_write_place_tests::{BARE_TABLE, has_room};
use abbrev_tables::{Spec, Table};
use dw_base::constants::DW_UT_TYPE;
use dw_base::{NoMemory, Reach};
use entry_arena::{Forest, Operations};
use entry_read::{Counts, Unit, UnitHead, heads, read_expressions, read_unit};
use form_codec::{Value, admits, spelled_size};
use leb_codec::len_u;
use std::alloc::Global;
use std::process::Abort;
use std::test::Fail;
use unit_write::{NewNumbers, bytes_are_small, place_unit, write_expressions, write_unit};

// Whether something can be written for a value in a column, other than a constant of the declaration.
fn is_sized(column: Spec, value: &Value) -> bool
    ensures { IsTrue result → (section : List ℕ) (len : ℕ) → length section < 2 ^ 63 → IsValueIn section value.now → (size : ℕ) × HasSize column (meant_in section value.now) len size }
{
    match *value {
        Value::Expr(_) => column.form == 0x18,
        Value::LocalRef(_) => column.form == 0x15,
        Value::SectionRef(_) => column.form == 0x10,
        Value::Offset(_) => column.form == 0x17,
        _ => {
            let _size = spelled_size(column.name, column.form, value);
            column.form != 0x21 && admits(column.name, column.form, value)
        }
    }
}

// Whether it can for the values of an entry.
fn are_sized(columns: &[Spec], values: &[Value]) -> bool
    ensures { IsTrue result → (section lens : List ℕ) → length section < 2 ^ 63 → All (IsValueIn section) values.now → length lens ≡ length values.now → (size : ℕ) × HaveSize section columns.now values.now lens size }
{
    if columns.len() != values.len() {
        return false;
    }
    for (place, column) in columns.iter().enumerate() {
        if !is_sized(*column, &values[place]) {
            return false;
        }
    }
    true
}

// The new columns of the declaration with a number.
fn new_columns<'a>(table: &Table, specs: &'a [Spec], number: u32) -> &'a [Spec]
    requires { number < length table.now.decls }
    ensures { result.now ≡ columns_of table.now specs.entry.now number }
{
    let declared = table.decl(number);
    let rest = &specs[specs.len().min(declared.first as usize)..];
    &rest[..rest.len().min(declared.count as usize)]
}

// Reads the values of the entry with a number into `row`.
fn read_row(forest: &Forest<'_>, id: u32, row: &mut Vec<Value>) -> Result<(), NoMemory>
    requires { id < length forest.now.entries }
    ensures values { OnOk result (row.new.items ≡ values_in forest.now id) }
{
    // In order the values of an entry are among those of the forest.
    let _entries = forest.entries();
    let entry = forest.entry(id);
    forest.read_values(entry.first, entry.count, row)
}

// Whether it can for all entries of a unit.
fn entries_are_sized(
    alloc: Global,
    unit: &Unit<'_>,
    table: &Table,
    specs: &[Spec],
) -> Result<bool, NoMemory>
    ensures { IfOk result (λ sized. IsTrue sized → (id : ℕ) → id < length unit.now.forest.entries → ((entry_at unit.now.forest.entries id).decl < length table.now.decls) × ((section lens : List ℕ) → length section < 2 ^ 63 → All (IsValueIn section) (values_in unit.now.forest id) → length lens ≡ length (values_in unit.now.forest id) → (size : ℕ) × HaveSize section (columns_of table.now specs.now (entry_at unit.now.forest.entries id).decl) (values_in unit.now.forest id) lens size)) }
{
    let forest = unit.forest();
    let mut row = Vec::new(alloc);
    for id in 0..forest.len() {
        let number = forest.entry(id).decl;
        if number >= table.len() {
            return Ok(false);
        }
        read_row(forest, id, &mut row)?;
        if !are_sized(new_columns(table, specs, number), &row) {
            return Ok(false);
        }
    }
    Ok(true)
}

fn are_used(numbers: &[u32]) -> bool
    ensures { IsTrue result → All (λ number. number ≢ 0) numbers.now }
{
    numbers.iter().all(|number| *number != 0)
}

// Whether a unit can be written with these columns and codes.
fn is_writable(
    alloc: Global,
    unit: &Unit<'_>,
    table: &Table,
    specs: &Vec<Spec>,
    numbers: &Vec<u32>,
    lens: &Vec<u32>,
) -> Result<bool, NoMemory>
    requires head { IsHead unit.now.forest.section unit.now.head }
    requires held { IsUnitHeld unit.now.forest.section unit.now.head (declarations_of table.now) unit.now.forest }
    requires lens { AreLensFor unit.now.forest lens.now.items }
    ensures { IfOk result (λ writable. IsTrue writable → IsWritable unit.now table.now specs.now.items numbers.now.items lens.now.items) }
{
    bytes_are_small(unit.forest().section());
    if specs.len() != table.specs().len() || numbers.len() != table.len() as usize {
        return Ok(false);
    }
    if !are_used(numbers) {
        return Ok(false);
    }
    entries_are_sized(alloc, unit, table, specs)
}

// Whether these are so many numbers of 32 bits.
fn are_narrow(numbers: &Vec<u64>, count: usize) -> bool
    ensures count { IsTrue result → length numbers.now.items ≡ count }
    ensures narrow { IsTrue result → All (λ number. number < 2 ^ 32) numbers.now.items }
{
    numbers.len() == count && numbers.iter().all(|number| *number < 1 << 32)
}

// How many bytes a value takes that its column doesn't tell, where it gets a number, and its expression, if it is one, stands between
// two places; None where they are more than 32 bits count.
fn len_for(value: &Value, number: u64, begin: u32, end: u32) -> Option<u32>
    ensures { IfSome result (λ len. (section : List ℕ) → len ≡ new_len (meant_in section value.now) number (end - begin)) }
{
    let made = end.saturating_sub(begin);
    match *value {
        Value::LocalRef(_) => Some(len_u(number)),
        Value::Expr(_) => len_u(u64::from(made)).checked_add(made),
        _ => Some(0),
    }
}

// How many bytes each value of a unit takes that its column doesn't tell, where these are the new numbers of the values and the ends
// of their expressions.
fn lens_for(
    alloc: Global,
    unit: &Unit<'_>,
    held: &Vec<u64>,
    ends: &Vec<u32>,
) -> Result<Vec<u32>, Fail>
    ensures { IfOk result (λ lens. lens.items ≡ new_lens unit.now.forest.section unit.now.forest.values held.now.items (lens_of ends.now.items)) }
{
    let forest = unit.forest();
    let mut values: Vec<Value> = Vec::new(alloc);
    forest.read_values(0, forest.value_count(), &mut values)?;
    let mut lens: Vec<u32> = Vec::new(alloc);
    let mut begin = 0u32;
    for ((value, number), end) in values.iter().zip(held).zip(ends) {
        let len = len_for(value, *number, begin, *end).ok_or("too long")?;
        lens.push(len)?;
        begin = *end;
    }
    Ok(lens)
}

// What stands in a unit that is written: the places of its table and of its type, the numbers of its values, and those of its
// operations.
#[derive(Clone, Copy)]
struct Named<'a> {
    table: u64,
    type_offset: u64,
    held: &'a [u64],
    references: &'a [u64],
}

// A unit written behind two bytes.
fn write_sized(
    alloc: Global,
    unit: &Unit<'_>,
    operations: &Operations,
    table: &Table,
    specs: &[Spec],
    numbers: &[u32],
    named: Named<'_>,
) -> Result<Vec<u8>, Fail>
    requires head { IsHead unit.now.forest.section unit.now.head }
    requires held { IsUnitHeld unit.now.forest.section unit.now.head (declarations_of table.now) unit.now.forest }
    requires operations { HasOperations Narrow unit.now.forest operations.now }
{
    let specs = specs.to_vec(alloc)?;
    let numbers = numbers.to_vec(alloc)?;
    let held = named.held.to_vec(alloc)?;
    let references = named.references.to_vec(alloc)?;
    if !are_narrow(&held, unit.forest().value_count() as usize) {
        return Err("no numbers")?;
    }
    if !are_narrow(&references, operations.ops().len()) {
        return Err("no references")?;
    }
    if named.table >= 1 << 32 || named.type_offset >= 1 << 32 {
        return Err("no places")?;
    }
    if unit.head().kind != DW_UT_TYPE && named.type_offset != 0 {
        return Err("no type")?;
    }
    if unit.forest().section().len() >= 1 << 30 {
        return Err("too long")?;
    }
    let expressions = write_expressions(alloc, unit, operations, &references)?;
    let lens = lens_for(alloc, unit, &held, &expressions.ends)?;
    if !is_writable(alloc, unit, table, &specs, &numbers, &lens)? {
        return Err("not writable")?;
    }
    if !has_room(unit, 2) {
        return Err("no room")?;
    }
    let places = place_unit(alloc, unit, table, &specs, &numbers, &lens, 2)?;
    let new = NewNumbers {
        end: places.end,
        table: named.table,
        type_offset: named.type_offset,
        held,
        expressions,
    };
    let mut out = [0xaa, 0xbb].to_vec(alloc)?;
    write_unit(alloc, &mut out, unit, table, &specs, &numbers, &new)?;
    Ok(out)
}

// The same of a unit of a section.
fn write_at(
    alloc: Global,
    info: &[u8],
    head: &UnitHead,
    table: &Table,
    specs: &[Spec],
    numbers: &[u32],
    named: Named<'_>,
) -> Result<Vec<u8>, Fail>
    requires head { IsHead info.now head.now }
    requires table { IsTable table.now }
{
    let before = Counts {
        entries: 0,
        values: 0,
    };
    match read_unit(alloc, info, head, table, before, 0) {
        Ok(unit) => match read_expressions(alloc, &unit, 0, Reach::Narrow) {
            Ok(held) => write_sized(alloc, &unit, &held, table, specs, numbers, named),
            Err(_) => Err("expressions")?,
        },
        Err(_) => Err("refused")?,
    }
}

// The same of the first unit of a section.
fn written(
    alloc: Global,
    info: &[u8],
    table: &[u8],
    specs: &[Spec],
    numbers: &[u32],
    named: Named<'_>,
) -> Result<Vec<u8>, Fail> {
    if table.is_empty() {
        return Err("no table")?;
    }
    let table = Table::read(alloc, table, 0, 0).ok().ok_or("no table")?;
    let heads = heads(alloc, info, 0).ok().ok_or("no heads")?;
    for head in heads.iter() {
        return write_at(alloc, info, head, &table, specs, numbers, named);
    }
    Err("no unit")?
}

// A unit of 37 bytes of a kind, with these numbers of its kind in its header: its bytes behind the first two, where its table is at
// 0x1234 and its type, if it has one, at 0x1d.
fn unit_of(alloc: Global, kind: u8, own: &[u8]) -> Result<Vec<u8>, Fail> {
    let mut info = [0x21, 0, 0, 0, 5, 0, kind, 8, 0, 0, 0, 0].to_vec(alloc)?;
    info.extend_from_slice(own)?;
    info.push(1)?;
    info.resize(36, 2)?;
    info.push(0)?;
    let named = Named {
        table: 0x1234,
        type_offset: if kind == DW_UT_TYPE { 0x1d } else { 0 },
        held: &[],
        references: &[],
    };
    written(alloc, &info, &BARE_TABLE, &[], &[1, 2], named)
}

#[test]
fn headers_have_the_fields_of_their_kinds(rt: HostRuntime) -> Result<(), Fail> {
    let type_unit: [u8; 24] = [
        0x21, 0, 0, 0, 5, 0, 2, 8, 0x34, 0x12, 0, 0, 0x88, 0x77, 0x66, 0x55, 0x44, 0x33, 0x22,
        0x11, 0x1d, 0, 0, 0,
    ];
    let skeleton_unit: [u8; 20] = [
        0x21, 0, 0, 0, 5, 0, 4, 8, 0x34, 0x12, 0, 0, 0x88, 0x77, 0x66, 0x55, 0x44, 0x33, 0x22, 0x11,
    ];
    let partial_unit: [u8; 12] = [0x21, 0, 0, 0, 5, 0, 3, 8, 0x34, 0x12, 0, 0];
    let signature = [
        0x88, 0x77, 0x66, 0x55, 0x44, 0x33, 0x22, 0x11, 0x1d, 0, 0, 0,
    ];
    let rows: [(u8, &[u8], &[u8]); 3] = [
        (2, &signature, &type_unit),
        (4, &signature[..8], &skeleton_unit),
        (3, &[], &partial_unit),
    ];
    for (kind, own, want) in rows {
        let out = unit_of(rt.alloc(), kind, own)?;
        assert_eq!(rt; out.get(2..2 + want.len()), Some(want), "kind {kind}");
    }
    Ok(())
}

fn column(name: u64, form: u64) -> Spec {
    Spec {
        name,
        form,
        constant: 0,
    }
}

// A root with a line table and a number, whose child refers to itself twice in its unit and to the root in the section. The
// root's number, the child's code and the code 0 after it are padded.
const UNIT: [u8; 36] = [
    0x20, 0, 0, 0, 5, 0, 1, 8, 0, 0, 0, 0, 1, 0x11, 0, 0, 0, 0x85, 0x80, 0, 0x82, 0, 0x14, 0, 0, 0,
    0x14, 0, 0, 0, 0x0c, 0, 0, 0, 0x80, 0,
];

// DW_FORM_sec_offset and DW_FORM_udata; DW_FORM_ref4 twice and DW_FORM_ref_addr
const TABLE: [u8; 21] = [
    1, 0x11, 1, 0x10, 0x17, 0x13, 0x0f, 0, 0, 2, 0x34, 0, 0x49, 0x13, 0x01, 0x13, 0x18, 0x10, 0, 0,
    0,
];

#[test]
fn units_are_written_anew(rt: HostRuntime) -> Result<(), Fail> {
    // the references within the unit are written in DW_FORM_ref_udata: 300 in two bytes, and 0x13 in one
    let specs = [
        column(0x10, 0x17),
        column(0x13, 0x0f),
        column(0x49, 0x15),
        column(0x01, 0x15),
        column(0x18, 0x10),
    ];
    let bytes: [u8; 29] = [
        0xaa, 0xbb, 0x17, 0, 0, 0, 5, 0, 1, 8, 0x30, 0, 0, 0, 2, 0x40, 0, 0, 0, 5, 1, 0xac, 0x02,
        0x13, 0xef, 0xff, 0xff, 0xff, 0,
    ];
    let named = Named {
        table: 0x30,
        type_offset: 0,
        held: &[0x40, 99, 300, 0x13, 0xffff_ffef],
        references: &[],
    };
    let out = written(rt.alloc(), &UNIT, &TABLE, &specs, &[2, 1], named)?;
    assert_eq!(rt; out.as_slice(), bytes.as_slice());
    Ok(())
}

// A root with a base type and two variables. The expression of the first is DW_OP_lit0, DW_OP_convert to the base type and
// DW_OP_stack_value, and that of the second is DW_OP_fbreg with a padded 8.
const LOCATED: [u8; 26] = [
    0x16, 0, 0, 0, 5, 0, 1, 8, 0, 0, 0, 0, 1, 2, 3, 4, 0x30, 0xa8, 0x0d, 0x9f, 3, 3, 0x91, 0x88, 0,
    0,
];

// Only the third declaration has a column: DW_AT_location in DW_FORM_exprloc.
const LOCATED_TABLE: [u8; 18] = [
    1, 0x11, 1, 0, 0, 2, 0x24, 0, 0, 0, 3, 0x34, 0, 0x02, 0x18, 0, 0, 0,
];

#[test]
fn expressions_are_written_anew(rt: HostRuntime) -> Result<(), Fail> {
    // the reference has the two bytes that 300 needs, and the 8 of DW_OP_fbreg has one
    let bytes: [u8; 28] = [
        0xaa, 0xbb, 0x16, 0, 0, 0, 5, 0, 1, 8, 0x30, 0, 0, 0, 1, 2, 3, 5, 0x30, 0xa8, 0xac, 0x02,
        0x9f, 3, 2, 0x91, 0x08, 0,
    ];
    let named = Named {
        table: 0x30,
        type_offset: 0,
        held: &[99, 99],
        references: &[99, 300, 99, 99],
    };
    let specs = [column(0x02, 0x18)];
    let out = written(
        rt.alloc(),
        &LOCATED,
        &LOCATED_TABLE,
        &specs,
        &[1, 2, 3],
        named,
    )?;
    assert_eq!(rt; out.as_slice(), bytes.as_slice());
    Ok(())
}
