// The opcodes of a row, appended in their shortest bytes.
ghost use Rattle.std.specs.Prelude.{◌≡◌, ◌≤◌, ◌<◌, ◌-◌, ◌*◌, ◌^◌, ℕ, pos, neg_ℤ, ◌≤ℤ◌, ◌<ℤ◌, ◌-ℤ◌, List, ◌∷◌, [], replicate, OnOk};
ghost use Rattle.leb_codec.specs.LineCosts.{address_distance, fixed_advance_limit};
ghost use Rattle.line_machine.specs.Rows.{HasLine};
ghost use Rattle.line_params.specs.Shortest.{HasCode};
ghost use Rattle.line_params.specs.Order.{opcode_if, stmt_opcodes, number_opcodes, mark_opcodes, fixed_opcodes, advance_opcodes, address_opcodes, address_before, line_opcodes, row_opcode, StepOpcodes, RowOpcodes, EndOpcodes};
ghost use Rattle.line_params.specs.inside.Appended.{AppendsOpcodes, AppendsSome, IsFull, IsFullAdvance};

use crate::write::put_opcode;
use dw_base::NoMemory;
use line_machine::{Opcode, Registers, Row};
use line_step::{AddressOpcodes, Advance, RowOpcode, advance_way, step_way};

// Under it every standard opcode has its code.
const OPCODE_BASE: u8 = 13;

// Appends an opcode, where it is wanted.
fn put_if(out: &mut Vec<u8>, wanted: bool, opcode: Opcode) -> Result<(), NoMemory>
    requires { HasCode 13 opcode }
    ensures { OnOk result (AppendsOpcodes (opcode_if wanted opcode) out.old.items out.new.items) }
{
    if wanted {
        put_opcode(out, opcode, OPCODE_BASE)
    } else {
        Ok(())
    }
}

// Appends an opcode so many times.
fn put_times(out: &mut Vec<u8>, count: u32, opcode: Opcode) -> Result<(), NoMemory>
    requires { HasCode 13 opcode }
    ensures { OnOk result (AppendsOpcodes (replicate count opcode) out.old.items out.new.items) }
{
    for _done in 0..count {
        put_opcode(out, opcode, OPCODE_BASE)?;
    }
    Ok(())
}

// Appends the opcodes of the file, the column and the instruction set that a row changes.
fn put_numbers(out: &mut Vec<u8>, from: &Registers, row: &Row) -> Result<(), NoMemory>
    ensures { OnOk result (AppendsOpcodes (number_opcodes from.now row.now) out.old.items out.new.items) }
{
    put_if(out, from.file != row.file, Opcode::SetFile(row.file))?;
    put_if(
        out,
        from.column != row.column,
        Opcode::SetColumn(row.column),
    )?;
    put_if(out, from.isa != row.isa, Opcode::SetIsa(row.isa))
}

// Appends the opcodes of is_stmt where a row changes it, and of the flags and the discriminator that it has.
fn put_marks(out: &mut Vec<u8>, from: &Registers, row: &Row) -> Result<(), NoMemory>
    ensures { OnOk result (AppendsOpcodes (mark_opcodes from.now row.now) out.old.items out.new.items) }
{
    put_if(out, from.stmt != row.stmt, Opcode::NegateStmt)?;
    put_if(out, row.block, Opcode::SetBasicBlock)?;
    put_if(out, row.prologue, Opcode::SetPrologueEnd)?;
    put_if(out, row.epilogue, Opcode::SetEpilogueBegin)?;
    put_if(
        out,
        row.discriminator != 0,
        Opcode::SetDiscriminator(row.discriminator),
    )
}

// Appends some fixed_advance_pc whose operands have a sum, each but the last the greatest one.
fn put_fixed(out: &mut Vec<u8>, count: u32, total: u32) -> Result<(), NoMemory>
    requires room { total ≤ fixed_advance_limit * count }
    requires needed { fixed_advance_limit * (count - 1) ≤ total }
    ensures { OnOk result (AppendsOpcodes (fixed_opcodes count total) out.old.items out.new.items) }
{
    if count == 0 {
        return Ok(());
    }
    let others = count - 1;
    put_times(out, others, Opcode::FixedAdvancePc(u16::MAX))?;
    let last = total - u32::from(u16::MAX) * others;
    put_opcode(out, Opcode::FixedAdvancePc(last as u16), OPCODE_BASE)
}

// Appends opcodes that add to the address.
fn put_advance(out: &mut Vec<u8>, advance: Advance) -> Result<(), NoMemory>
    requires { IsFull advance }
    ensures { OnOk result (AppendsOpcodes (advance_opcodes advance) out.old.items out.new.items) }
{
    put_if(
        out,
        advance.operand != 0,
        Opcode::AdvancePc(advance.operand),
    )?;
    put_times(out, advance.const_adds, Opcode::ConstAddPc)?;
    put_fixed(out, advance.fixed_adds, advance.fixed_sum)
}

// Appends the opcodes that take the address register to an address.
fn put_address(out: &mut Vec<u8>, to: u64, opcodes: AddressOpcodes) -> Result<(), NoMemory>
    requires { IsFullAdvance opcodes }
    ensures { OnOk result (AppendsOpcodes (address_opcodes to opcodes) out.old.items out.new.items) }
{
    match opcodes {
        AddressOpcodes::SetAddress => put_if(out, true, Opcode::SetAddress(to)),
        AddressOpcodes::AdvanceBy(advance) => put_advance(out, advance),
    }
}

// Appends advance_line, where its operand isn't 0.
fn put_line(out: &mut Vec<u8>, line: i64) -> Result<(), NoMemory>
    ensures { OnOk result (AppendsOpcodes (line_opcodes line) out.old.items out.new.items) }
{
    put_if(out, line != 0, Opcode::AdvanceLine(line))
}

// The address from which the opcode of a row comes to the row's address.
fn address_before(range: u8, min: u8, address: u64, opcode: RowOpcode) -> u64
    requires { 0 < range }
    ensures { result ≡ address_before range min address opcode }
{
    match opcode {
        RowOpcode::Copy => address,
        RowOpcode::Special(s) => address.wrapping_sub(u64::from(s / range) * u64::from(min)),
    }
}

// The opcode that appends a row.
fn row_opcode(opcode: RowOpcode) -> Opcode
    ensures { result ≡ row_opcode opcode }
{
    match opcode {
        RowOpcode::Copy => Opcode::Copy,
        RowOpcode::Special(s) => Opcode::Special(s),
    }
}

// Appends the opcodes of a step to a row at an address.
fn put_step(
    out: &mut Vec<u8>,
    base: i8,
    range: u8,
    min: u8,
    line: i64,
    distance: u64,
    address: u64,
) -> Result<(), NoMemory>
    requires range { 0 < range }
    requires scale { 0 < min }
    requires low { neg_ℤ (pos (2 ^ 32)) ≤ℤ line }
    requires high { line ≤ℤ pos (2 ^ 32) }
    ensures { OnOk result (AppendsSome (StepOpcodes base range min line distance address) out.old.items out.new.items) }
{
    let way = step_way(base, range, min, line, distance);
    let before = address_before(range, min, address, way.opcode);
    put_address(out, before, way.address.opcodes)?;
    put_line(out, way.line)?;
    put_opcode(out, row_opcode(way.opcode), OPCODE_BASE)
}

/// How far an address is from another, modulo 2^64.
pub fn address_distance(from: u64, to: u64) -> u64
    ensures { result ≡ address_distance from to }
{
    to.wrapping_sub(from)
}

/// Appends the opcodes of a row that doesn't end a sequence.
pub fn put_row(
    out: &mut Vec<u8>,
    base: i8,
    range: u8,
    min: u8,
    from: &Registers,
    row: &Row,
) -> Result<(), NoMemory>
    requires range { 0 < range }
    requires scale { 0 < min }
    requires from { HasLine from.now }
    requires line { row.now.line < 2 ^ 32 }
    ensures { OnOk result (AppendsSome (RowOpcodes base range min from.now row.now) out.old.items out.new.items) }
{
    put_numbers(out, from, row)?;
    put_marks(out, from, row)?;
    let line = (i128::from(row.line) - from.line) as i64;
    let distance = address_distance(from.address, row.address);
    put_step(out, base, range, min, line, distance, row.address)
}

/// Appends the opcodes of the end of a sequence at an address, over an address distance.
pub fn put_end(
    out: &mut Vec<u8>,
    range: u8,
    min: u8,
    distance: u64,
    address: u64,
) -> Result<(), NoMemory>
    requires range { 0 < range }
    requires scale { 0 < min }
    ensures { OnOk result (AppendsSome (EndOpcodes range min distance address) out.old.items out.new.items) }
{
    let way = advance_way(range, min, distance);
    put_address(out, address, way.opcodes)?;
    put_opcode(out, Opcode::EndSequence, OPCODE_BASE)
}
