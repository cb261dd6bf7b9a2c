// Ways to advance an address, and to step to a row.

/// Opcodes that advance the address by a distance without naming an address (DWARF 5 section 6.2.5), in this order:
/// one advance_pc, some const_add_pc, and some fixed_advance_pc.
#[derive(Clone, Copy, Debug, PartialEq, Eq)]
pub struct Advance {
    /// The operand of advance_pc, in instructions. There is no advance_pc where it is 0.
    pub operand: u64,
    /// How many const_add_pc there are.
    pub const_adds: u32,
    /// How many fixed_advance_pc there are.
    pub fixed_adds: u32,
    /// The sum of the operands of fixed_advance_pc, in bytes.
    pub fixed_sum: u32,
}

/// The opcodes that advance the address.
#[derive(Clone, Copy, Debug, PartialEq, Eq)]
pub enum AddressOpcodes {
    /// The extended opcode set_address, which names the address.
    SetAddress,
    /// Opcodes that add to the address, or none.
    AdvanceBy(Advance),
}

/// The way that is taken to advance the address.
#[derive(Clone, Copy, Debug, PartialEq, Eq)]
pub struct AddressWay {
    /// The opcodes.
    pub opcodes: AddressOpcodes,
    /// How many bytes they have.
    pub bytes: u32,
}

/// The opcode that appends a row, where opcode_base is 13.
#[derive(Clone, Copy, Debug, PartialEq, Eq)]
pub enum RowOpcode {
    /// Opcode 1.
    Copy,
    /// A special opcode by its adjusted opcode, from 0, which is opcode 13, to 242, which is opcode 255.
    Special(u8),
}

/// The way that is taken to step to a row: the address, then the line, then the opcode that appends the row.
#[derive(Clone, Copy, Debug, PartialEq, Eq)]
pub struct RowWay {
    /// How the address is advanced before the row's opcode.
    pub address: AddressWay,
    /// The operand of advance_line before the row's opcode. There is no advance_line where it is 0.
    pub line: i64,
    /// The opcode that appends the row.
    pub opcode: RowOpcode,
    /// How many bytes all of this has.
    pub bytes: u32,
}
