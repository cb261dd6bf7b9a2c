// How many bytes an operation has when it is written.
ghost use Rattle.std.specs.Prelude.{◌≡◌, ◌≤◌, ◌<◌, ◌+◌, ◌^◌, ℕ, List, length, Some, true};
ghost use Rattle.expr_ops.specs.Reads.{bytes_in};
ghost use Rattle.expr_ops.specs.Ops.{meant};
ghost use Rattle.expr_ops.specs.Puts.{call_size};
ghost use Rattle.expr_ops.specs.inside.Leads.{is_number, is_led};
ghost use Rattle.expr_ops.specs.Sizes.{number_size, part_size, first_size, second_size, operands_size, known_size, own_size as size_of_own};

use crate::op::{CALL4, ENTRY_VALUE, Op};
use crate::put::block_of;
use crate::table::{Operands, Shape, operands_of};
use leb_codec::{len_s, len_u};

fn number_size(number: u64, slot: Option<u32>) -> u64
    ensures size { result ≡ number_size slot number }
    ensures few { result < 2 ^ 32 }
{
    match slot {
        Some(size) => u64::from(size),
        None => u64::from(len_u(number)),
    }
}

// The bytes of an operand.
fn part_size(shape: Shape, slot: Option<u32>, number: u64, signed: i64, block: &[u8]) -> u64
    ensures size { result ≡ part_size shape slot number signed block.now }
    ensures few { result < 2 ^ 63 + 2 ^ 32 }
    ensures lead { is_number shape ≡ true → result < 2 ^ 32 }
{
    match shape {
        Shape::Unsigned(width) => width.size() as u64,
        Shape::Signed(width) => width.size() as u64,
        Shape::Uleb => number_size(number, slot),
        Shape::Sleb => u64::from(len_s(signed)),
        Shape::Counted => u64::from(len_u(block.len() as u64)) + block.len() as u64,
        Shape::ByteCounted => 1 + block.len() as u64,
    }
}

// The bytes of what follows an opcode.
fn operands_size(operands: Operands, slot: Option<u32>, op: &Op, block: &[u8]) -> u64
    requires { is_led (Some operands) ≡ true }
    ensures size { (bytes : List ℕ) → bytes_in bytes op.now.bytes ≡ block.now → result ≡ operands_size operands slot (meant bytes op.now) }
    ensures few { result < 2 ^ 63 + 2 ^ 34 }
{
    let second = op.s.cast_unsigned();
    match operands {
        Operands::Nothing => 0,
        Operands::One(shape) => part_size(shape, slot, op.a, op.s, block),
        Operands::Two(shape, other) => {
            part_size(shape, slot, op.a, op.s, block) + part_size(other, None, second, op.s, block)
        }
        Operands::Typed(shape) => {
            part_size(shape, None, second, op.s, block) + number_size(op.a, slot)
        }
    }
}

fn call_size(slot: Option<u32>) -> u64
    ensures { result ≡ call_size slot }
{
    match slot {
        Some(2) => 2,
        _ => 4,
    }
}

// The bytes of an operation, without those of the operations that it holds.
pub(crate) fn own_size(op: &Op, slot: Option<u32>, bytes: &[u8]) -> u64
    ensures { result ≡ size_of_own slot (meant bytes.now op.now) }
{
    if op.code == CALL4 {
        return 1 + call_size(slot);
    }
    if op.code == ENTRY_VALUE {
        return 1 + number_size(op.a, slot);
    }
    match operands_of(op.code) {
        None => 1,
        Some(operands) => 1 + operands_size(operands, slot, op, block_of(bytes, op.bytes)),
    }
}
