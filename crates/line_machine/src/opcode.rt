// One opcode of a line number program, and its reader.
ghost use Rattle.std.specs.Prelude.{◌≡◌, ◌≤◌, ◌<◌, ◌+◌, ◌-◌, ◌⊎◌, ◌∷◌, [], ℕ, List, length, take, drop, slice_index, IfOk, IfErr};
ghost use Rattle.dw_base.specs.declared.constants.TheConstants as constants;
ghost use Rattle.leb_codec.specs.Leb.{Uleb, Sleb, IsWideUnsigned, IsWideSigned};
ghost use Rattle.line_machine.specs.Opcodes.{SpellsOpcode, SpellsOperation, WithUleb, IsBase};
ghost use Rattle.line_machine.specs.Faults.{FaultOpcode};
ghost use Rattle.line_machine.specs.inside.Readings.{FaultLeb, FaultOperation};

use dw_base::{Fault, Kind, constants};
use fixed_width::{u16_at, u64_at};
use leb_codec::{LebFault, ReadS, ReadU, read_s, read_u};

/// One opcode with its operand (DWARF 5 sections 6.2.5.1 to 6.2.5.3).
#[derive(Clone, Copy, Debug, PartialEq, Eq)]
pub enum Opcode {
    /// Appends a row.
    Copy,
    /// Advances the address by the operand times the minimum instruction length.
    AdvancePc(u64),
    /// Advances the line.
    AdvanceLine(i64),
    SetFile(u64),
    SetColumn(u64),
    /// Turns `stmt` over.
    NegateStmt,
    SetBasicBlock,
    /// Advances the address as the special opcode 255 does, without a row.
    ConstAddPc,
    /// Advances the address by the operand itself.
    FixedAdvancePc(u16),
    SetPrologueEnd,
    SetEpilogueBegin,
    SetIsa(u64),
    /// Appends a row that ends the sequence, and sets the registers to their start.
    EndSequence,
    SetAddress(u64),
    SetDiscriminator(u64),
    /// The special opcode of this number, counted from the opcode base on: advances address and line, and appends a row.
    Special(u8),
}

/// An opcode, and how many bytes spell it.
#[derive(Clone, Copy, Debug, PartialEq, Eq)]
pub struct ReadOpcode {
    pub opcode: Opcode,
    pub end: usize,
}

// A fault at a place.
fn fault_at(kind: Kind, at: usize) -> Fault
    ensures kind { result.kind ≡ kind }
    ensures place { result.place ≡ at }
{
    Fault {
        kind,
        place: at as u64,
    }
}

// The ULEB128 at a place.
fn unsigned_at(bytes: &[u8], at: usize) -> Result<ReadU, Fault>
    requires { at ≤ length bytes.now }
    ensures within { IfOk result (λ r. (at < r.end) × (r.end ≤ length bytes.now)) }
    ensures read { IfOk result (λ r. Uleb r.value (take (r.end - at) (drop at bytes.now))) }
    ensures place { IfErr result (λ f. f.place ≡ at) }
    ensures fault { IfErr result (λ f. FaultLeb IsWideUnsigned f.kind (drop at bytes.now)) }
{
    match read_u(bytes, at) {
        Ok(read) => Ok(read),
        Err(LebFault::Short) => Err(fault_at(Kind::Short, at)),
        Err(LebFault::Wide) => Err(fault_at(Kind::LebWide, at)),
    }
}

// The SLEB128 at a place.
fn signed_at(bytes: &[u8], at: usize) -> Result<ReadS, Fault>
    requires { at ≤ length bytes.now }
    ensures within { IfOk result (λ r. (at < r.end) × (r.end ≤ length bytes.now)) }
    ensures read { IfOk result (λ r. Sleb r.value (take (r.end - at) (drop at bytes.now))) }
    ensures place { IfErr result (λ f. f.place ≡ at) }
    ensures fault { IfErr result (λ f. FaultLeb IsWideSigned f.kind (drop at bytes.now)) }
{
    match read_s(bytes, at) {
        Ok(read) => Ok(read),
        Err(LebFault::Short) => Err(fault_at(Kind::Short, at)),
        Err(LebFault::Wide) => Err(fault_at(Kind::LebWide, at)),
    }
}

// The standard opcode of a code that has no operand.
fn without_operand(code: u8) -> Opcode
    requires { (code ≡ constants.DW_LNS_COPY) ⊎ (code ≡ constants.DW_LNS_NEGATE_STMT) ⊎ (code ≡ constants.DW_LNS_SET_BASIC_BLOCK) ⊎ (code ≡ constants.DW_LNS_CONST_ADD_PC) ⊎ (code ≡ constants.DW_LNS_SET_PROLOGUE_END) ⊎ (code ≡ constants.DW_LNS_SET_EPILOGUE_BEGIN) }
    ensures { (base : ℕ) → code < base → SpellsOpcode base result (code ∷ []) }
{
    match code {
        constants::DW_LNS_COPY => Opcode::Copy,
        constants::DW_LNS_NEGATE_STMT => Opcode::NegateStmt,
        constants::DW_LNS_SET_BASIC_BLOCK => Opcode::SetBasicBlock,
        constants::DW_LNS_CONST_ADD_PC => Opcode::ConstAddPc,
        constants::DW_LNS_SET_PROLOGUE_END => Opcode::SetPrologueEnd,
        _ => Opcode::SetEpilogueBegin,
    }
}

// The standard opcode of a code that has a ULEB128.
fn with_unsigned(code: u8, value: u64) -> Opcode
    requires { (code ≡ constants.DW_LNS_ADVANCE_PC) ⊎ (code ≡ constants.DW_LNS_SET_FILE) ⊎ (code ≡ constants.DW_LNS_SET_COLUMN) ⊎ (code ≡ constants.DW_LNS_SET_ISA) }
    ensures { (base : ℕ) (bytes : List ℕ) → code < base → WithUleb code value bytes → SpellsOpcode base result bytes }
{
    match code {
        constants::DW_LNS_ADVANCE_PC => Opcode::AdvancePc(value),
        constants::DW_LNS_SET_FILE => Opcode::SetFile(value),
        constants::DW_LNS_SET_COLUMN => Opcode::SetColumn(value),
        _ => Opcode::SetIsa(value),
    }
}

// The standard opcode at the front.
fn read_standard(rest: &[u8], opcode_base: u8) -> Result<ReadOpcode, Fault>
    requires filled { 0 < length rest.now }
    requires low { opcode_base < 14 }
    requires standard { 0 < slice_index rest.now 0 }
    requires below { slice_index rest.now 0 < opcode_base }
    ensures within { IfOk result (λ r. (0 < r.end) × (r.end ≤ length rest.now)) }
    ensures read { IfOk result (λ r. SpellsOpcode opcode_base r.opcode (take r.end rest.now)) }
    ensures fault { IfErr result (λ f. FaultOpcode opcode_base f.kind f.place rest.now) }
    ensures bound { IfErr result (λ f. f.place ≤ length rest.now) }
{
    match rest[0] {
        code @ (constants::DW_LNS_ADVANCE_PC
        | constants::DW_LNS_SET_FILE
        | constants::DW_LNS_SET_COLUMN
        | constants::DW_LNS_SET_ISA) => {
            let operand = unsigned_at(rest, 1)?;
            Ok(ReadOpcode {
                opcode: with_unsigned(code, operand.value),
                end: operand.end,
            })
        }
        constants::DW_LNS_ADVANCE_LINE => {
            let operand = signed_at(rest, 1)?;
            Ok(ReadOpcode {
                opcode: Opcode::AdvanceLine(operand.value),
                end: operand.end,
            })
        }
        constants::DW_LNS_FIXED_ADVANCE_PC => {
            if rest.len() < 3 {
                return Err(fault_at(Kind::Short, 1));
            }
            Ok(ReadOpcode {
                opcode: Opcode::FixedAdvancePc(u16_at(rest, 1)),
                end: 3,
            })
        }
        code => Ok(ReadOpcode {
            opcode: without_operand(code),
            end: 1,
        }),
    }
}

// The extended opcode of a length, whose code stands at a place.
fn read_operation(bytes: &[u8], at: usize, count: usize) -> Result<Opcode, Fault>
    requires some { 0 < count }
    requires within { at + count ≤ length bytes.now }
    ensures read { IfOk result (λ op. SpellsOperation op (take count (drop at bytes.now))) }
    ensures fault { IfErr result (λ f. FaultOperation at count f.kind f.place bytes.now) }
    ensures bound { IfErr result (λ f. f.place ≤ length bytes.now) }
{
    match bytes[at] {
        constants::DW_LNE_END_SEQUENCE if count == 1 => Ok(Opcode::EndSequence),
        constants::DW_LNE_SET_ADDRESS if count == 9 => Ok(Opcode::SetAddress(u64_at(
            bytes,
            at + 1,
        ))),
        constants::DW_LNE_SET_DISCRIMINATOR => {
            let operand = unsigned_at(bytes, at + 1)?;
            if operand.end == at + count {
                Ok(Opcode::SetDiscriminator(operand.value))
            } else {
                Err(fault_at(Kind::LineOp, 0))
            }
        }
        _ => Err(fault_at(Kind::LineOp, 0)),
    }
}

// The extended opcode at the front, whose first byte is 0.
fn read_extended(rest: &[u8]) -> Result<ReadOpcode, Fault>
    requires filled { 0 < length rest.now }
    requires extended { slice_index rest.now 0 ≡ 0 }
    ensures within { IfOk result (λ r. (0 < r.end) × (r.end ≤ length rest.now)) }
    ensures read { (base : ℕ) → IfOk result (λ r. SpellsOpcode base r.opcode (take r.end rest.now)) }
    ensures fault { (base : ℕ) → IfErr result (λ f. FaultOpcode base f.kind f.place rest.now) }
    ensures bound { IfErr result (λ f. f.place ≤ length rest.now) }
{
    let size = unsigned_at(rest, 1)?;
    if size.value == 0 {
        return Err(fault_at(Kind::LineOp, 0));
    }
    if size.value > (rest.len() - size.end) as u64 {
        return Err(fault_at(Kind::Short, 0));
    }
    let count = size.value as usize;
    match read_operation(rest, size.end, count) {
        Ok(opcode) => Ok(ReadOpcode {
            opcode,
            end: size.end + count,
        }),
        Err(fault) => Err(fault),
    }
}

/// Reads the opcode at the front of `rest`, which goes on to the program's end (DWARF 5 section 6.2.5).
///
/// LEB128 numbers may be padded, the length of an extended opcode too. A fault's place counts from the
/// first byte of `rest`: `Short` where a number or operand ends past the program, or an extended opcode
/// does, `LebWide` where a number doesn't fit 64 bits, `LineOp` where an extended opcode has a code
/// other than 1, 2 and 4 or a length that isn't that of its operand plus 1. No memory.
pub fn read_opcode(rest: &[u8], opcode_base: u8) -> Result<ReadOpcode, Fault>
    requires filled { 0 < length rest.now }
    requires base { IsBase opcode_base }
    ensures within { IfOk result (λ r. (0 < r.end) × (r.end ≤ length rest.now)) }
    ensures read { IfOk result (λ r. SpellsOpcode opcode_base r.opcode (take r.end rest.now)) }
    ensures fault { IfErr result (λ f. FaultOpcode opcode_base f.kind f.place rest.now) }
    ensures bound { IfErr result (λ f. f.place ≤ length rest.now) }
{
    let code = rest[0];
    if code >= opcode_base {
        return Ok(ReadOpcode {
            opcode: Opcode::Special(code - opcode_base),
            end: 1,
        });
    }
    if code == 0 {
        read_extended(rest)
    } else {
        read_standard(rest, opcode_base)
    }
}
