// Tables written.
ghost use Rattle.std.specs.Prelude.{◌≡◌, ◌≢◌, ◌≤◌, ◌<◌, ◌+◌, ◌^◌, ◌++◌, ◌∷◌, [], ℕ, length, map, OnOk, IfOk};
ghost use Rattle.spelled.specs.Spelled.{Appends, Joined};
ghost use Rattle.abbrev_tables.specs.Written.{ShortestConstant, ShortestColumn, ShortestColumns, ShortestDeclared, used_among, renumbered, numbered_as, IsInOrder, IsWritten, IsWrittenOf};
ghost use Rattle.abbrev_tables.specs.inside.Written.{AreUsed};
ghost use Rattle.abbrev_tables.specs.Listings.{AreAdjacent};

use crate::decl::{Decl, Spec, columns_of};
use crate::table::Table;
use dw_base::NoMemory;
use dw_base::constants::DW_FORM_IMPLICIT_CONST;
use leb_codec::{put_s, put_u};
use std::alloc::Global;

// Appends the constant of a column: nothing but for implicit_const.
fn put_constant(out: &mut Vec<u8>, form: u64, constant: i64) -> Result<(), NoMemory>
    ensures { OnOk result (Appends (ShortestConstant form) constant out.old.items out.new.items) }
{
    if form != DW_FORM_IMPLICIT_CONST {
        return Ok(());
    }
    put_s(out, constant)?;
    Ok(())
}

// A column's constant, with its range.
fn constant_of(column: Spec) -> i64
    ensures { result ≡ column.constant }
{
    column.constant
}

fn put_column(out: &mut Vec<u8>, column: Spec) -> Result<(), NoMemory>
    ensures { OnOk result (Appends ShortestColumn column out.old.items out.new.items) }
{
    put_u(out, column.name)?;
    put_u(out, column.form)?;
    put_constant(out, column.form, constant_of(column))?;
    Ok(())
}

// Appends columns and their end.
fn put_columns(out: &mut Vec<u8>, columns: &[Spec]) -> Result<(), NoMemory>
    ensures { OnOk result (Appends ShortestColumns columns.now out.old.items out.new.items) }
{
    for column in columns.iter() {
        put_column(out, *column)?;
    }
    out.extend_from_slice(&[0u8, 0])?;
    Ok(())
}

// Appends a declaration with a new number and new columns.
fn put_declared(
    out: &mut Vec<u8>,
    number: u32,
    decl: Decl,
    columns: &[Spec],
) -> Result<(), NoMemory>
    ensures { OnOk result (Appends ShortestDeclared (numbered_as number decl columns.now) out.old.items out.new.items) }
{
    put_u(out, u64::from(number))?;
    put_u(out, decl.tag)?;
    out.push(u8::from(decl.children))?;
    put_columns(out, columns)?;
    Ok(())
}

// The used declarations in the order of the table: the new number and the place of each.
fn used(alloc: Global, numbers: &[u32]) -> Result<Vec<(u32, u32)>, NoMemory>
    requires { length numbers.now < 2 ^ 32 }
    ensures { IfOk result (λ order. order.items ≡ used_among numbers.now (length numbers.now)) }
{
    let mut order = Vec::new(alloc);
    for (place, number) in numbers.iter().enumerate() {
        if *number > 0 {
            order.push((*number, place as u32))?;
        }
    }
    Ok(order)
}

// The used declarations by rising new number.
fn in_order(alloc: Global, numbers: &[u32]) -> Result<Vec<(u32, u32)>, NoMemory>
    requires { length numbers.now < 2 ^ 32 }
    ensures { IfOk result (λ order. IsInOrder numbers.now order.items) }
{
    let mut order = used(alloc, numbers)?;
    order.sort_unstable();
    Ok(order)
}

// Appends declarations in this order.
fn put_order(
    out: &mut Vec<u8>,
    decls: &[Decl],
    columns: &[Spec],
    order: &[(u32, u32)],
) -> Result<(), NoMemory>
    requires adjacent { AreAdjacent 0 decls.now (length columns.now) }
    requires used { AreUsed (length decls.now) order.now }
    ensures { OnOk result (Appends (Joined ShortestDeclared) (map (renumbered decls.now columns.now) order.now) out.old.items out.new.items) }
{
    for entry in order.iter() {
        let (number, place) = *entry;
        let decl = decls[place as usize];
        put_declared(out, number, decl, columns_of(columns, decl))?;
    }
    Ok(())
}

// The bytes of a table.
fn write_parts(
    alloc: Global,
    decls: &[Decl],
    numbers: &[u32],
    columns: &[Spec],
) -> Result<Vec<u8>, NoMemory>
    requires few { length decls.now < 2 ^ 32 }
    requires numbers { length numbers.now ≡ length decls.now }
    requires adjacent { AreAdjacent 0 decls.now (length columns.now) }
    ensures { IfOk result (λ bytes. IsWrittenOf decls.now numbers.now columns.now bytes.items) }
{
    let order = in_order(alloc, numbers)?;
    let mut out = Vec::new(alloc);
    put_order(&mut out, decls, columns, &order)?;
    out.push(0)?;
    Ok(out)
}

/// Writes a table anew (DWARF 5 section 7.5.3): its used declarations, by rising new number.
///
/// `numbers` has the new number of each declaration, in the order of the table: 0 for one that isn't used, which is left
/// out, and distinct numbers for the others. `columns` has a new column for each of the table's, in the same order. Each
/// LEB128 number is shortest. A column's constant is written where its form is DW_FORM_implicit_const. The only error is
/// want of memory.
pub fn write_table(
    alloc: Global,
    table: &Table,
    numbers: &Vec<u32>,
    columns: &Vec<Spec>,
) -> Result<Vec<u8>, NoMemory>
    requires numbers { length numbers.now.items ≡ length table.now.decls }
    requires columns { length columns.now.items ≡ length table.now.specs }
    ensures { IfOk result (λ bytes. IsWritten table.now numbers.now.items columns.now.items bytes.items) }
{
    write_parts(alloc, &table.decls, numbers, columns)
}
