// Opcodes written.
ghost use Rattle.std.specs.Prelude.{◌≡◌, ◌<◌, ◌++◌, ◌∷◌, [], ℕ, List, OnOk, OnErr};
ghost use Rattle.spelled.specs.Spelled.{Appends};
ghost use Rattle.leb_codec.specs.Digits.{Extends};
ghost use Rattle.line_machine.specs.Opcodes.{WithFixed};
ghost use Rattle.line_machine.specs.declared.opcode.Opcode.{Opcode as AnOpcode};
ghost use Rattle.line_params.specs.Shortest.{ShortestUleb, WithShortestUleb, WithShortestSleb, ShortestExtended, ShortestOpcode, HasCode};

use byteorder::{ByteOrder, LittleEndian};
use dw_base::{NoMemory, constants};
use leb_codec::{len_u, put_s, put_u};
use line_machine::Opcode;

// Appends a code.
fn put_code(out: &mut Vec<u8>, code: u8) -> Result<(), NoMemory>
    ensures ok { OnOk result (out.new.items ≡ out.old.items ++ code ∷ []) }
    ensures err { OnErr result (out.new.items ≡ out.old.items) }
{
    out.push(code)?;
    Ok(())
}

// Appends a code and a ULEB128.
fn put_with_unsigned(out: &mut Vec<u8>, code: u8, value: u64) -> Result<(), NoMemory>
    ensures ok { OnOk result (Appends (WithShortestUleb code) value out.old.items out.new.items) }
    ensures err { OnErr result (Extends out.old.items out.new.items) }
{
    put_code(out, code)?;
    put_u(out, value)
}

// Appends a code and an SLEB128.
fn put_with_signed(out: &mut Vec<u8>, code: u8, value: i64) -> Result<(), NoMemory>
    ensures ok { OnOk result (Appends (WithShortestSleb code) value out.old.items out.new.items) }
    ensures err { OnErr result (Extends out.old.items out.new.items) }
{
    put_code(out, code)?;
    put_s(out, value)
}

// Appends a code and a number of two bytes.
fn put_with_u16(out: &mut Vec<u8>, code: u8, value: u16) -> Result<(), NoMemory>
    ensures ok { OnOk result (Appends (WithFixed code 2) value out.old.items out.new.items) }
    ensures err { OnErr result (Extends out.old.items out.new.items) }
{
    let mut operand = [0; 2];
    LittleEndian::write_u16(&mut operand, value);
    put_code(out, code)?;
    out.extend_from_slice(&operand)?;
    Ok(())
}

// Appends a code and a number of eight bytes.
fn put_with_u64(out: &mut Vec<u8>, code: u8, value: u64) -> Result<(), NoMemory>
    ensures ok { OnOk result (Appends (WithFixed code 8) value out.old.items out.new.items) }
    ensures err { OnErr result (Extends out.old.items out.new.items) }
{
    let mut operand = [0; 8];
    LittleEndian::write_u64(&mut operand, value);
    put_code(out, code)?;
    out.extend_from_slice(&operand)?;
    Ok(())
}

// Appends the byte 0 and the length with which an extended opcode begins.
fn put_extended(out: &mut Vec<u8>, count: u64) -> Result<(), NoMemory>
    ensures ok { OnOk result ((size : List ℕ) × ShortestUleb count size × (out.new.items ≡ out.old.items ++ 0 ∷ size)) }
    ensures err { OnErr result (Extends out.old.items out.new.items) }
{
    put_code(out, 0)?;
    put_u(out, count)
}

// Appends the end of a sequence.
fn put_end_sequence(out: &mut Vec<u8>) -> Result<(), NoMemory>
    ensures ok { OnOk result (Appends ShortestExtended AnOpcode.EndSequence out.old.items out.new.items) }
    ensures err { OnErr result (Extends out.old.items out.new.items) }
{
    put_extended(out, 1)?;
    put_code(out, constants::DW_LNE_END_SEQUENCE)
}

// Appends a set_address.
fn put_set_address(out: &mut Vec<u8>, address: u64) -> Result<(), NoMemory>
    ensures ok { OnOk result (Appends ShortestExtended (AnOpcode.SetAddress address) out.old.items out.new.items) }
    ensures err { OnErr result (Extends out.old.items out.new.items) }
{
    put_extended(out, 9)?;
    put_with_u64(out, constants::DW_LNE_SET_ADDRESS, address)
}

// Appends a set_discriminator.
fn put_set_discriminator(out: &mut Vec<u8>, value: u64) -> Result<(), NoMemory>
    ensures ok { OnOk result (Appends ShortestExtended (AnOpcode.SetDiscriminator value) out.old.items out.new.items) }
    ensures err { OnErr result (Extends out.old.items out.new.items) }
{
    put_extended(out, 1 + u64::from(len_u(value)))?;
    put_with_unsigned(out, constants::DW_LNE_SET_DISCRIMINATOR, value)
}

// Appends the shortest bytes of an opcode, or a front of them.
fn push_opcode(out: &mut Vec<u8>, opcode: Opcode, opcode_base: u8) -> Result<(), NoMemory>
    requires { HasCode opcode_base opcode }
    ensures ok { OnOk result (Appends (ShortestOpcode opcode_base) opcode out.old.items out.new.items) }
    ensures err { OnErr result (Extends out.old.items out.new.items) }
{
    match opcode {
        Opcode::Copy => put_code(out, constants::DW_LNS_COPY),
        Opcode::AdvancePc(value) => put_with_unsigned(out, constants::DW_LNS_ADVANCE_PC, value),
        Opcode::AdvanceLine(value) => put_with_signed(out, constants::DW_LNS_ADVANCE_LINE, value),
        Opcode::SetFile(value) => put_with_unsigned(out, constants::DW_LNS_SET_FILE, value),
        Opcode::SetColumn(value) => put_with_unsigned(out, constants::DW_LNS_SET_COLUMN, value),
        Opcode::NegateStmt => put_code(out, constants::DW_LNS_NEGATE_STMT),
        Opcode::SetBasicBlock => put_code(out, constants::DW_LNS_SET_BASIC_BLOCK),
        Opcode::ConstAddPc => put_code(out, constants::DW_LNS_CONST_ADD_PC),
        Opcode::FixedAdvancePc(value) => put_with_u16(
            out,
            constants::DW_LNS_FIXED_ADVANCE_PC,
            value,
        ),
        Opcode::SetPrologueEnd => put_code(out, constants::DW_LNS_SET_PROLOGUE_END),
        Opcode::SetEpilogueBegin => put_code(out, constants::DW_LNS_SET_EPILOGUE_BEGIN),
        Opcode::SetIsa(value) => put_with_unsigned(out, constants::DW_LNS_SET_ISA, value),
        Opcode::EndSequence => put_end_sequence(out),
        Opcode::SetAddress(address) => put_set_address(out, address),
        Opcode::SetDiscriminator(value) => put_set_discriminator(out, value),
        Opcode::Special(s) => put_code(out, opcode_base + s),
    }
}

/// Appends the shortest bytes of an opcode under a header's opcode_base (DWARF 5 section 6.2.5): each LEB128 number in
/// its shortest form, the length of an extended opcode too. The opcode has a code under that base: a set_prologue_end,
/// set_epilogue_begin or set_isa is below it, and a special opcode is at most 255. An Err leaves `out` as it was.
pub fn put_opcode(out: &mut Vec<u8>, opcode: Opcode, opcode_base: u8) -> Result<(), NoMemory>
    requires { HasCode opcode_base opcode }
    ensures ok { OnOk result (Appends (ShortestOpcode opcode_base) opcode out.old.items out.new.items) }
    ensures err { OnErr result (out.new.items ≡ out.old.items) }
{
    let start = out.len();
    match push_opcode(out, opcode, opcode_base) {
        Ok(()) => Ok(()),
        Err(error) => {
            out.truncate(start);
            Err(error)
        }
    }
}
