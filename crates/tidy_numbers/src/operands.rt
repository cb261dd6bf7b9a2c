// The numbers of one operation.
ghost use Rattle.std.specs.Prelude.{◌≡◌, ◌≤◌, ◌&&◌, ◌↔◌, ℕ, length, drop, IsTrue};
ghost use Rattle.tidy_places.specs.Firsts.{IsLeastFound};
ghost use Rattle.leb_codec.specs.Leb.{Uleb};
ghost use Rattle.expr_ops.specs.Drafts.{is_slot};
ghost use Rattle.expr_ops.specs.Heads.{SpellsPart};
ghost use Rattle.expr_ops.specs.Ops.{IsLead};
ghost use Rattle.tidy_numbers.specs.LongOperations.{IsLongOperand};
ghost use Rattle.tidy_numbers.specs.inside.Operands.{Begins, IsEndOf, HasNumber, IsNumber, AreTwo, IsLongOne, IsLongOfTwo, HoldsFrom};

use crate::fronts::{is_long, is_long_signed};
use expr_ops::{Op, Operands, Shape, has_slot, operands_of};
use leb_codec::read_u;

/// The place behind a number in ULEB128 at a place. There is one.
pub(crate) fn end_of_number(bytes: &[u8], at: usize) -> usize
    requires within { at ≤ length bytes.now }
    requires number { Begins Uleb (drop at bytes.now) }
    ensures { IsEndOf Uleb bytes.now at result }
{
    match read_u(bytes, at) {
        Ok(number) => number.end,
        Err(_) => unreachable!(),
    }
}

// An operand: how it is written, and whether it is a slot.
#[derive(Clone, Copy)]
struct Operand {
    shape: Shape,
    is_slot: bool,
}

impl Operand {
    // Whether it is no slot and begins with a number that has a byte too many.
    fn is_long(self, bytes: &[u8], at: usize) -> bool
        requires within { at ≤ length bytes.now }
        requires number { HasNumber self.shape (drop at bytes.now) }
        ensures { IsTrue result ↔ IsLongOne self.is_slot self.shape 0 (drop at bytes.now) }
    {
        if self.is_slot {
            return false;
        }
        match self.shape {
            Shape::Uleb | Shape::Counted => is_long(bytes, at),
            Shape::Sleb => is_long_signed(bytes, at),
            Shape::Unsigned(_) | Shape::Signed(_) | Shape::ByteCounted => false,
        }
    }

    // The place behind it. It is a number without a sign.
    fn end(self, bytes: &[u8], at: usize) -> usize
        requires within { at ≤ length bytes.now }
        requires number { IsNumber self.shape }
        requires there { Begins (SpellsPart self.shape) (drop at bytes.now) }
        ensures { IsEndOf (SpellsPart self.shape) bytes.now at result }
    {
        match self.shape {
            Shape::Unsigned(width) => at + width.size(),
            Shape::Uleb => end_of_number(bytes, at),
            // The others are no numbers without a sign.
            _ => unreachable!(),
        }
    }
}

// The first number of an operand at a place.
fn first_of_one(bytes: &[u8], at: usize, operand: Operand) -> Option<u64>
    requires within { at ≤ length bytes.now }
    requires number { HasNumber operand.shape (drop at bytes.now) }
    ensures { IsLeastFound (HoldsFrom (IsLongOne operand.is_slot operand.shape) at bytes.now) result }
{
    operand.is_long(bytes, at).then_some(at as u64)
}

// The first number of two operands at a place, one behind the other.
fn first_of_two(bytes: &[u8], at: usize, first: Operand, second: Operand) -> Option<u64>
    requires within { at ≤ length bytes.now }
    requires two { AreTwo first.shape second.shape (drop at bytes.now) }
    ensures { IsLeastFound (HoldsFrom (IsLongOfTwo first.is_slot first.shape second.is_slot second.shape) at bytes.now) result }
{
    if first.is_long(bytes, at) {
        return Some(at as u64);
    }
    let next = first.end(bytes, at);
    first_of_one(bytes, next, second)
}

// Whether an operation has a slot. `owned` says whether its expression is one of a unit: others have none.
fn has_slot_in(op: &Op, owned: bool) -> bool
    ensures { result ≡ (owned && is_slot op.now.code op.now.a) }
{
    owned && has_slot(op)
}

/// The first number of an operation with a byte too many, by its place in the expression of these bytes. `owned` says whether the
/// expression is one of a unit.
pub(crate) fn first_in_operation(bytes: &[u8], op: &Op, owned: bool) -> Option<u64>
    requires { (size : ℕ) × IsLead bytes.now op.now.at size op.now }
    ensures { IsLeastFound (IsLongOperand owned bytes.now op.now) result }
{
    let is_slot = has_slot_in(op, owned);
    let at = op.at as usize + 1;
    match operands_of(op.code)? {
        Operands::Nothing => None,
        Operands::One(shape) => first_of_one(bytes, at, Operand { shape, is_slot }),
        Operands::Two(first, second) => first_of_two(
            bytes,
            at,
            Operand {
                shape: first,
                is_slot,
            },
            Operand {
                shape: second,
                is_slot: false,
            },
        ),
        // The number of a base type stands last.
        Operands::Typed(first) => first_of_two(
            bytes,
            at,
            Operand {
                shape: first,
                is_slot: false,
            },
            Operand {
                shape: Shape::Uleb,
                is_slot,
            },
        ),
    }
}
