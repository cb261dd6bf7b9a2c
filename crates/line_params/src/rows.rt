// Rows written.
ghost use Rattle.std.specs.Prelude.{◌≡◌, ◌≤◌, ◌<◌, ◌+◌, ◌*◌, ◌^◌, ℕ, length, IfOk, OnOk};
ghost use Rattle.line_machine.specs.Rows.{HasLine};
ghost use Rattle.line_machine.specs.Class.{IsEncoding, IsRow, AreRows};
ghost use Rattle.line_sums.specs.Steps.{StepsWithin, steps_of, fixed_bytes, left_by};
ghost use Rattle.line_params.specs.Order.{OpcodesIf, AreInOrder};
ghost use Rattle.line_params.specs.inside.Appended.{AppendsSome, RowFits};

use crate::opcodes::{address_distance, put_end, put_row};
use dw_base::NoMemory;
use line_machine::{Head, Registers, Row};
use std::alloc::Global;

// The registers that a row leaves.
fn left_by(stmt: bool, row: Row) -> Registers
    ensures registers { result ≡ left_by stmt row }
    ensures fits { RowFits row }
{
    if row.end {
        return Registers::start(stmt);
    }
    Registers {
        address: row.address,
        line: i128::from(row.line),
        file: row.file,
        column: row.column,
        isa: row.isa,
        discriminator: 0,
        stmt: row.stmt,
        block: false,
        prologue: false,
        epilogue: false,
    }
}

// Appends the opcodes of a row.
fn put_any(
    out: &mut Vec<u8>,
    base: i8,
    range: u8,
    min: u8,
    from: &Registers,
    row: &Row,
) -> Result<(), NoMemory>
    requires range { 0 < range }
    requires scale { 0 < min }
    requires from { HasLine from.now }
    requires row { IsRow row.now }
    ensures { OnOk result (AppendsSome (OpcodesIf row.now.end base range min from.now row.now) out.old.items out.new.items) }
{
    if row.end {
        let distance = address_distance(from.address, row.address);
        put_end(out, range, min, distance, row.address)
    } else {
        put_row(out, base, range, min, from, row)
    }
}

/// The shortest program that gives `rows` under a pair of line_base and line_range, with the opcode_base 13 and the other
/// fields of `head` (DWARF 5 section 6.2.5); the line_base, line_range and opcode_base of `head` are not looked at. A row
/// has at most 68 bytes.
///
/// Before a row stand the opcodes of what it changes, in the order set_file, set_column, set_isa, negate_stmt,
/// set_basic_block, set_prologue_end, set_epilogue_begin and set_discriminator, then those of the address, then
/// advance_line, then the opcode that appends the row; before the end of a sequence stands the address alone.
///
/// The rows are such as a program gives: the last ends a sequence, or there is none; a row that ends one has an address
/// alone; and the line of another is below 2^32. Neither minimum_instruction_length nor line_range is 0. `NoMemory` may
/// come wherever memory is wanting.
pub fn write_rows(
    alloc: Global,
    head: &Head,
    base: i8,
    range: u8,
    rows: &[Row],
) -> Result<Vec<u8>, NoMemory>
    requires rows { AreRows rows.now }
    requires range { 0 < range }
    requires scale { 0 < head.now.min }
    ensures gives { IfOk result (λ bytes. IsEncoding head.now rows.now (record { base = base; range = range; bytes = bytes.items })) }
    ensures least { IfOk result (λ bytes. (k : ℕ) → StepsWithin base range head.now.min (steps_of rows.now) k → length bytes.items ≤ fixed_bytes head.now.stmt rows.now + k) }
    ensures few { IfOk result (λ bytes. length bytes.items ≤ 68 * length rows.now) }
    ensures order { IfOk result (λ bytes. AreInOrder head.now.stmt base range head.now.min rows.now bytes.items) }
{
    let mut out = Vec::new(alloc);
    let mut from = Registers::start(head.stmt);
    for row in rows {
        put_any(&mut out, base, range, head.min, &from, row)?;
        from = left_by(head.stmt, *row);
    }
    Ok(out)
}
