// What operations name.
ghost use Rattle.std.specs.Prelude.{◌≡◌, ◌⊎◌, ◌↔◌, ℕ, IsTrue};
ghost use Rattle.expr_ops.specs.Names.{named_by as names, IsReferencePlace};
ghost use Rattle.expr_ops.specs.Ops.{IsLead};

use crate::op::{DEREF_TYPE, Op, REGVAL_TYPE, XDEREF_TYPE};
use leb_codec::read_u;

/// What the reference of an operation names (DWARF 5 sections 2.5.1.1 to 2.5.1.6 and 2.6.1.1).
#[derive(Clone, Copy, Debug, PartialEq, Eq)]
pub enum Named {
    /// The operation has no reference.
    Nothing,
    /// A base type of the unit, by its place in the unit; 0 in convert and reinterpret is the generic type.
    BaseType,
    /// An entry of the unit, by its place in the unit.
    UnitEntry,
    /// An entry of any unit, by its place in .debug_info.
    SectionEntry,
}

/// What the reference of an operation with this opcode names. Its number is the `a` of the operation.
pub fn named_by(code: u8) -> Named
    ensures { result ≡ names code }
{
    match code {
        0x99 | 0xfa => Named::UnitEntry,
        0x9a | 0xa0 | 0xfd => Named::SectionEntry,
        0xa4..=0xa9 => Named::BaseType,
        _ => Named::Nothing,
    }
}

// Whether a byte stands before the reference: in deref_type and xderef_type.
fn has_size(code: u8) -> bool
    ensures { IsTrue result ↔ ((code ≡ 166) ⊎ (code ≡ 167)) }
{
    code == DEREF_TYPE || code == XDEREF_TYPE
}

/// The place where the reference of an operation begins, counted from the first of the bytes of the expression that it was
/// read from: behind the opcode, and also behind the register of regval_type and the size of deref_type and xderef_type
/// (DWARF 5 sections 2.5.1.2 and 2.5.1.3). It is the place behind the opcode where the operation has no reference.
pub fn reference_place(op: &Op, bytes: &[u8]) -> u64
    requires lead { (size : ℕ) × IsLead bytes.now op.now.at size op.now }
    ensures { IsReferencePlace bytes.now op.now.code op.now.at result }
{
    let behind = op.at + 1;
    if op.code == REGVAL_TYPE {
        match read_u(bytes, behind as usize) {
            Ok(register) => register.end as u64,
            Err(_) => behind,
        }
    } else if has_size(op.code) {
        behind + 1
    } else {
        behind
    }
}
