// The slots of operations: how many bytes each has.
ghost use Rattle.std.specs.Prelude.{◌≡◌, ◌≤◌, ◌<◌, ◌+◌, ◌^◌, ◌++◌, ◌∷◌, [], ℕ, length, drop, true, OnOk};
ghost use Rattle.leb_codec.specs.Leb.{Uleb};
ghost use Rattle.slot_layout.specs.Rows.{most_slots, CanHaveSize};
ghost use Rattle.expr_ops.specs.Drafts.{is_slot};
ghost use Rattle.expr_ops.specs.Heads.{SpellsPart};
ghost use Rattle.expr_ops.specs.Ops.{IsLead};
ghost use Rattle.expr_ops.specs.Slots.{slot_form};
ghost use Rattle.unit_slots.specs.Standing.{BeginsWith, IsSizeOf};
ghost use Rattle.unit_slots.specs.inside.Added.{Begins, IsEndOf, IsNumber, AreOperationsOf, AreOpSizes, AddsSizes};

use dw_base::NoMemory;
use expr_ops::{CALL4, Op, Operands, Shape, has_slot, operands_of};
use leb_codec::read_u;

// The most slots of a unit. No file that means the same as one within the narrow limits has more.
const MOST_SLOTS: usize = 17 << 24;

// DW_OP_call2, whose operand has two bytes (DWARF 5 section 2.5.1.5).
const CALL2: u8 = 0x98;

/// How many bytes the number in ULEB128 at a place has. There is one.
pub(crate) fn number_len(bytes: &[u8], at: usize) -> u32
    requires within { at ≤ length bytes.now }
    requires number { Begins Uleb (drop at bytes.now) }
    requires short { length bytes.now < 2 ^ 32 }
    ensures size { BeginsWith result (drop at bytes.now) }
    ensures some { 1 ≤ result }
    ensures inside { at + result ≤ length bytes.now }
{
    match read_u(bytes, at) {
        Ok(number) => (number.end - at) as u32,
        // A number that stands there ends and fits.
        Err(_) => unreachable!(),
    }
}

// The place behind the operand at a place, which is a number without a sign.
fn operand_end(bytes: &[u8], at: usize, shape: Shape) -> usize
    requires within { at ≤ length bytes.now }
    requires number { IsNumber shape }
    requires there { Begins (SpellsPart shape) (drop at bytes.now) }
    ensures { IsEndOf (SpellsPart shape) bytes.now at result }
{
    match shape {
        Shape::Unsigned(width) => at + width.size(),
        Shape::Uleb => match read_u(bytes, at) {
            Ok(number) => number.end,
            // A number that stands there ends and fits.
            Err(_) => unreachable!(),
        },
        // The others are no numbers without a sign.
        _ => unreachable!(),
    }
}

// How many bytes the slot of an operation has. The operation stands in the expression of these bytes.
fn slot_len(bytes: &[u8], op: &Op) -> u32
    requires slot { is_slot op.now.code op.now.a ≡ true }
    requires stands { (size : ℕ) × IsLead bytes.now op.now.at size op.now }
    requires short { length bytes.now < 2 ^ 32 }
    ensures size { IsSizeOf bytes.now op.now result }
    ensures can { CanHaveSize (slot_form op.now.code) result }
    ensures room { (size : ℕ) → IsLead bytes.now op.now.at size op.now → result + 1 ≤ size }
{
    let at = op.at as usize;
    if op.code == CALL4 {
        return if bytes[at] == CALL2 { 2 } else { 4 };
    }
    match operands_of(op.code) {
        Some(Operands::One(_)) => number_len(bytes, at + 1),
        Some(Operands::Two(_, _)) => number_len(bytes, at + 1),
        Some(Operands::Typed(first)) => number_len(bytes, operand_end(bytes, at + 1, first)),
        // Each operation with a slot has an operand.
        Some(Operands::Nothing) => unreachable!(),
        None => unreachable!(),
    }
}

/// Appends the size of a slot. More than the most slots are answered as want of memory: no file that means the same as one within the narrow limits has so many.
pub(crate) fn push_size(sizes: &mut Vec<u32>, size: u32) -> Result<(), NoMemory>
    ensures pushed { OnOk result (sizes.new.items ≡ sizes.old.items ++ size ∷ []) }
    ensures few { OnOk result (length sizes.new.items ≤ most_slots) }
{
    if sizes.len() >= MOST_SLOTS {
        return Err(NoMemory);
    }
    sizes.push(size)?;
    Ok(())
}

/// Appends the sizes of the slots of the operations of an expression.
pub(crate) fn push_op_sizes(sizes: &mut Vec<u32>, bytes: &[u8], ops: &[Op]) -> Result<(), NoMemory>
    requires ops { AreOperationsOf bytes.now ops.now }
    requires short { length bytes.now < 2 ^ 32 }
    requires few { length sizes.old.items ≤ most_slots }
    ensures added { OnOk result (AddsSizes (AreOpSizes bytes.now ops.now) sizes.old.items sizes.new.items) }
    ensures few { OnOk result (length sizes.new.items ≤ most_slots) }
{
    for op in ops {
        if has_slot(op) {
            push_size(sizes, slot_len(bytes, op))?;
        }
    }
    Ok(())
}
