// The slots of expressions.
ghost use Rattle.std.specs.Prelude.{◌≡◌, ◌<◌, ◌^◌, ℕ, List};
ghost use Rattle.expr_ops.specs.Ops.{all_meant};
ghost use Rattle.expr_ops.specs.Shortest.{fixed_length};
ghost use Rattle.expr_ops.specs.Slots.{slots_among, NeededAreShortest, SlotsHaveOpcodes, SlotsAreFew};

use crate::op::Op;
use crate::shortest::fixed_own;
use crate::write::has_slot;

/// How many of some operations have a slot: a number that counts bytes of which some may be those of other slots (DWARF 5 sections 2.5.1.1
/// to 2.5.1.3, 2.5.1.5 to 2.5.1.7 and 7.7.1). It is the length of an entry_value's expression, the operand of a call, or a reference to a
/// base type.
pub fn slot_count(ops: &[Op]) -> usize
    ensures { (bytes : List ℕ) → result ≡ slots_among (all_meant bytes ops.now) }
{
    ops.iter().filter(|op| has_slot(op)).count()
}

/// How many bytes of operations are no slot's. `bytes` are those of the expression from which the operations were read.
pub fn fixed_len(ops: &[Op], bytes: &[u8]) -> u64
    requires fits { fixed_length (all_meant bytes.now ops.now) < 2 ^ 64 }
    ensures { result ≡ fixed_length (all_meant bytes.now ops.now) }
{
    let mut sum = 0;
    for op in ops {
        sum += fixed_own(op, bytes);
    }
    sum
}

/// A law: where the size of each slot is what its number needs, the sizes of the slots of operations are those that `write_shortest`
/// gives them.
pub fn needed_are_shortest()
    ensures { NeededAreShortest }
{}

/// Laws: an operation with a slot has its opcode beside it; and with five bytes for each slot an expression has at most three times the
/// bytes from which it was read.
pub fn slots_are_few()
    ensures opcodes { SlotsHaveOpcodes }
    ensures few { SlotsAreFew }
{}
