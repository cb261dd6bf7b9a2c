// One unit written anew.
ghost use Rattle.std.specs.Prelude.{◌≡◌, ◌≤◌, ◌<◌, ◌^◌, ◌++◌, length, OnOk};
ghost use Rattle.byteorder.specs.Endian.{little_bytes};
ghost use Rattle.line_machine.specs.Heads.{IsHead};
ghost use Rattle.line_machine.specs.Class.{IsPair};
ghost use Rattle.line_write.specs.Programs.{counted, body_of};

use byteorder::{ByteOrder, LittleEndian};
use dw_base::NoMemory;
use line_machine::{Head, OPERAND_COUNTS};
use line_params::Program;

// The opcode base under which every standard opcode has its code.
const OPCODE_BASE: u8 = 13;

// The bytes that header_length counts before the tables.
const FIXED_HEADER: usize = 18;

// The bytes that unit_length counts before those that header_length counts.
const BEFORE_HEADER: usize = 8;

// Appends bytes.
fn put_bytes(out: &mut Vec<u8>, bytes: &[u8]) -> Result<(), NoMemory>
    ensures { OnOk result (out.new.items ≡ out.old.items ++ bytes.now) }
{
    out.extend_from_slice(bytes)?;
    Ok(())
}

// Appends a number of four bytes, the lowest first.
fn put_u32(out: &mut Vec<u8>, value: u32) -> Result<(), NoMemory>
    ensures { OnOk result (out.new.items ≡ out.old.items ++ little_bytes 4 value) }
{
    let mut bytes = [0; 4];
    LittleEndian::write_u32(&mut bytes, value);
    put_bytes(out, &bytes)
}

/// Appends the unit of a head: its tables and the fields of its header that are kept, and a program with its pair.
pub fn put_unit(
    out: &mut Vec<u8>,
    section: &[u8],
    head: &Head,
    program: &Program,
) -> Result<(), NoMemory>
    requires head { IsHead section.now head.now }
    requires small { length section.now ≤ 2 ^ 30 }
    requires pair { IsPair program.now.base program.now.range }
    requires few { length program.now.bytes.items < 2 ^ 31 }
    ensures { OnOk result (out.new.items ≡ out.old.items ++ counted (body_of section.now head.now (record { base = program.now.base; range = program.now.range; bytes = program.now.bytes.items }))) }
{
    let at = head.at as usize;
    let tables_at = head.tables.at as usize;
    let tables = &section[tables_at..tables_at + head.tables.len as usize];
    let header_length = FIXED_HEADER + tables.len();
    let unit_length = BEFORE_HEADER + header_length + program.bytes.len();
    put_u32(out, unit_length as u32)?;
    put_bytes(out, &section[at + 4..at + 8])?;
    put_u32(out, header_length as u32)?;
    put_bytes(out, &section[at + 12..at + 15])?;
    put_bytes(
        out,
        &[program.base.cast_unsigned(), program.range, OPCODE_BASE],
    )?;
    put_bytes(out, &OPERAND_COUNTS)?;
    put_bytes(out, tables)?;
    put_bytes(out, &program.bytes)
}
