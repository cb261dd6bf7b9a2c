// Operations, as they are held.
use dw_base::Span;

/// An operation of an expression (DWARF 5 sections 2.5 and 2.6.1). Places count from the first byte of the expression that
/// was read, also those of operations inside an entry_value. Fields that an opcode lacks are 0.
#[derive(Clone, Copy, Debug, PartialEq, Eq)]
pub struct Op {
    /// The place of the opcode.
    pub at: u64,
    /// The opcode; that of call4 for call2 too.
    pub code: u8,
    /// The reference; else the number without a sign, of two the first.
    pub a: u64,
    /// The number with a sign; a second number without one by its 64 bits. 0 for a branch.
    pub s: i64,
    /// The number of the operation to which a branch goes, counted from the first one of the expression that the branch
    /// stands in, or the count of these where it goes to the end. Operations inside entry_values count.
    pub jump: u32,
    /// The bytes of implicit_value and const_type.
    pub bytes: Span,
    /// How many operations that follow belong to the expression of an entry_value.
    pub inner: u32,
}

pub(crate) const BRA: u8 = 0x28;

pub(crate) const SKIP: u8 = 0x2f;

pub(crate) const CALL2: u8 = 0x98;

/// DW_OP_call4; a call with an operand of two bytes is held as one too (DWARF 5 section 2.5.1.5).
pub const CALL4: u8 = 0x99;

pub(crate) const IMPLICIT_VALUE: u8 = 0x9e;

/// DW_OP_entry_value (DWARF 5 section 2.5.1.7).
pub const ENTRY_VALUE: u8 = 0xa3;

pub(crate) const CONST_TYPE: u8 = 0xa4;

pub(crate) const REGVAL_TYPE: u8 = 0xa5;

pub(crate) const DEREF_TYPE: u8 = 0xa6;

pub(crate) const XDEREF_TYPE: u8 = 0xa7;
