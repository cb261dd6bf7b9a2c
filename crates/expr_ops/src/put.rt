// One operation, written.
ghost use Rattle.std.specs.Prelude.{◌≡◌, ◌≤◌, ◌++◌, ◌∷◌, ◌⊎◌, ℕ, List, OnOk, OnErr, Some, length, Option, ℤ};
ghost use Rattle.std.specs.Int.{w64, cast_unsigned};
ghost use Rattle.leb_codec.specs.Leb.{least_unsigned_len};
ghost use Rattle.leb_codec.specs.Digits.{Extends};
ghost use Rattle.expr_ops.specs.Table.{operands_of as known_operands};
ghost use Rattle.expr_ops.specs.declared.table.Operands.{Operands as AnyOperands};
ghost use Rattle.expr_ops.specs.declared.table.Shape.TheVariants as shape;
ghost use Rattle.expr_ops.specs.Heads.{size_of};
ghost use Rattle.expr_ops.specs.Reads.{bytes_in};
ghost use Rattle.expr_ops.specs.Ops.{meant};
ghost use Rattle.expr_ops.specs.Puts.{low_bytes, IsCall, PutsNumber, PutsPart, PutsFirst, PutsSecond, PutsOperands, PutsCall, PutsOwn, Holds, Adds};

use crate::op::{CALL2, CALL4, ENTRY_VALUE, Op};
use crate::table::{Operands, Shape, Width, operands_of};
use dw_base::{NoMemory, Span};
use leb_codec::{put_padded, put_s, put_u};

// The bytes of a span, as far as they are there.
pub(crate) fn block_of(bytes: &[u8], span: Span) -> &[u8]
    ensures { result.now ≡ bytes_in bytes.now span }
{
    let from = span.at.min(bytes.len() as u64) as usize;
    let count = span.len.min((bytes.len() - from) as u64) as usize;
    &bytes[from..from + count]
}

fn put_fixed(out: &mut Vec<u8>, width: Width, number: u64) -> Result<(), NoMemory>
    ensures ok { OnOk result (out.new.items ≡ out.old.items ++ low_bytes (size_of width) number) }
    ensures err { OnErr result (out.new.items ≡ out.old.items) }
{
    let bytes = number.to_le_bytes();
    out.extend_from_slice(&bytes[..width.size()])?;
    Ok(())
}

fn put_block(out: &mut Vec<u8>, block: &[u8]) -> Result<(), NoMemory>
    ensures ok { OnOk result (out.new.items ≡ out.old.items ++ block.now) }
    ensures err { OnErr result (out.new.items ≡ out.old.items) }
{
    out.extend_from_slice(block)?;
    Ok(())
}

// A number in its shortest form, or in so many bytes.
fn put_number(out: &mut Vec<u8>, number: u64, slot: Option<u32>) -> Result<(), NoMemory>
    requires { (size : ℕ) → slot ≡ Some size → least_unsigned_len number ≤ size }
    ensures ok { OnOk result (Adds (PutsNumber slot number) out.old.items out.new.items) }
    ensures err { OnErr result (out.new.items ≡ out.old.items) }
{
    match slot {
        Some(size) => put_padded(out, number, size),
        None => put_u(out, number),
    }
}

fn put_counted(out: &mut Vec<u8>, block: &[u8]) -> Result<(), NoMemory>
    ensures ok { (slot : Option ℕ) (n : ℕ) (s : ℤ) → OnOk result (Adds (PutsPart shape.Counted slot n s block.now) out.old.items out.new.items) }
    ensures err { OnErr result (Extends out.old.items out.new.items) }
{
    put_u(out, block.len() as u64)?;
    put_block(out, block)
}

fn put_byte_counted(out: &mut Vec<u8>, block: &[u8]) -> Result<(), NoMemory>
    ensures ok { (slot : Option ℕ) (n : ℕ) (s : ℤ) → OnOk result (Adds (PutsPart shape.ByteCounted slot n s block.now) out.old.items out.new.items) }
    ensures err { OnErr result (Extends out.old.items out.new.items) }
{
    put_fixed(out, Width::One, block.len() as u64)?;
    put_block(out, block)
}

// Writes an operand: a number without a sign, one with a sign, or a block.
fn put_part(
    out: &mut Vec<u8>,
    shape: Shape,
    slot: Option<u32>,
    number: u64,
    signed: i64,
    block: &[u8],
) -> Result<(), NoMemory>
    requires { (size : ℕ) → slot ≡ Some size → least_unsigned_len number ≤ size }
    ensures ok { OnOk result (Adds (PutsPart shape slot number signed block.now) out.old.items out.new.items) }
    ensures err { OnErr result (Extends out.old.items out.new.items) }
{
    match shape {
        Shape::Unsigned(width) => put_fixed(out, width, number),
        Shape::Signed(width) => put_fixed(out, width, signed.cast_unsigned()),
        Shape::Uleb => put_number(out, number, slot),
        Shape::Sleb => put_s(out, signed),
        Shape::Counted => put_counted(out, block),
        Shape::ByteCounted => put_byte_counted(out, block),
    }
}

fn signed_of(op: &Op) -> i64
    ensures { result ≡ op.now.s }
{
    op.s
}

// Writes the operand that stands in `a`, or alone.
fn put_first(
    out: &mut Vec<u8>,
    shape: Shape,
    slot: Option<u32>,
    op: &Op,
    bytes: &[u8],
) -> Result<(), NoMemory>
    requires { (size : ℕ) → slot ≡ Some size → least_unsigned_len op.now.a ≤ size }
    ensures ok { OnOk result (Adds (PutsFirst shape slot (meant bytes.now op.now)) out.old.items out.new.items) }
    ensures err { OnErr result (Extends out.old.items out.new.items) }
{
    let signed = signed_of(op);
    put_part(out, shape, slot, op.a, signed, block_of(bytes, op.bytes))
}

// Writes the other operand.
fn put_second(out: &mut Vec<u8>, shape: Shape, op: &Op, bytes: &[u8]) -> Result<(), NoMemory>
    ensures ok { OnOk result (Adds (PutsSecond shape (meant bytes.now op.now)) out.old.items out.new.items) }
    ensures err { OnErr result (Extends out.old.items out.new.items) }
{
    let signed = signed_of(op);
    let number = signed.cast_unsigned();
    put_part(out, shape, None, number, signed, block_of(bytes, op.bytes))
}

// Writes what follows an opcode.
fn put_operands(
    out: &mut Vec<u8>,
    operands: Operands,
    slot: Option<u32>,
    op: &Op,
    bytes: &[u8],
) -> Result<(), NoMemory>
    requires { (size : ℕ) → slot ≡ Some size → least_unsigned_len op.now.a ≤ size }
    ensures ok { OnOk result (Adds (PutsOperands operands slot (meant bytes.now op.now)) out.old.items out.new.items) }
    ensures err { OnErr result (Extends out.old.items out.new.items) }
{
    match operands {
        Operands::Nothing => Ok(()),
        Operands::One(shape) => put_first(out, shape, slot, op, bytes),
        Operands::Two(shape, other) => {
            put_first(out, shape, slot, op, bytes)?;
            put_second(out, other, op, bytes)
        }
        Operands::Typed(shape) => {
            put_second(out, shape, op, bytes)?;
            put_first(out, Shape::Uleb, slot, op, bytes)
        }
    }
}

fn put_coded(out: &mut Vec<u8>, code: u8, width: Width, number: u64) -> Result<(), NoMemory>
    ensures ok { OnOk result (out.new.items ≡ out.old.items ++ code ∷ low_bytes (size_of width) number) }
    ensures err { OnErr result (Extends out.old.items out.new.items) }
{
    out.push(code)?;
    put_fixed(out, width, number)
}

fn put_call(out: &mut Vec<u8>, number: u64, slot: Option<u32>) -> Result<(), NoMemory>
    ensures ok { OnOk result (Adds (PutsCall slot number) out.old.items out.new.items) }
    ensures err { OnErr result (Extends out.old.items out.new.items) }
{
    match slot {
        Some(2) => put_coded(out, CALL2, Width::Two, number),
        _ => put_coded(out, CALL4, Width::Four, number),
    }
}

// Writes an operation by itself. The `a` of an entry_value is the length of the expression that it holds, which isn't
// written here; the `s` of a branch is its distance.
pub(crate) fn put_op(
    out: &mut Vec<u8>,
    op: &Op,
    slot: Option<u32>,
    bytes: &[u8],
) -> Result<(), NoMemory>
    requires known { (operands : AnyOperands) × (known_operands op.now.code ≡ Some operands) }
    requires holds { Holds slot op.now.code op.now.a }
    ensures ok { OnOk result (Adds (PutsOwn slot (meant bytes.now op.now)) out.old.items out.new.items) }
    ensures err { OnErr result (Extends out.old.items out.new.items) }
{
    if op.code == CALL4 {
        return put_call(out, op.a, slot);
    }
    out.push(op.code)?;
    if op.code == ENTRY_VALUE {
        return put_number(out, op.a, slot);
    }
    match operands_of(op.code) {
        None => Ok(()),
        Some(operands) => put_operands(out, operands, slot, op, bytes),
    }
}
