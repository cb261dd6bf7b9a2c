// Line number programs (DWARF 5 section 6.2).
ghost use Rattle.std.specs.Prelude.{◌≡◌, ◌≤◌, ◌<◌, ◌+◌, ◌++◌, length, map, IfOk, OnOk};
ghost use Rattle.std.specs.List.{All, concat};
ghost use Rattle.spelled.specs.Spelled.{Appends};
ghost use Rattle.line_params.specs.Shortest.{HasCode, ShortestOpcode};
ghost use Rattle.sample_maker.specs.Drawn.{function_of, unit_of};
ghost use Rattle.sample_maker.specs.Places.{function_address};
ghost use Rattle.sample_maker.specs.inside.Bytes.{step_bytes, first_row_bytes, sequence_bytes, opcodes_bytes, program_bytes};
ghost use Rattle.sample_maker.specs.inside.Small.{IsStepSmall, IsFunctionSmall, IsUnitSmall};

use crate::drawn::{Function, Step, Unit};
use crate::numbers::put_word;
use crate::units::{function_offset, unit_base};
use dw_base::NoMemory;
use line_machine::Opcode;
use line_params::put_opcode;
use std::alloc::Global;

const OPCODE_BASE: u8 = 13;

// A header behind its length: version 5, addresses of 8 bytes, a header of 42 bytes behind that number, line_base -5 and line_range
// 14, and the lengths of the standard opcodes. Then one directory, and two files that are in it.
const HEADER: [u8; 50] = [
    5,
    0,
    8,
    0,
    42,
    0,
    0,
    0,
    1,
    1,
    1,
    0xfb,
    14,
    OPCODE_BASE,
    0,
    1,
    1,
    1,
    1,
    0,
    0,
    0,
    1,
    0,
    0,
    1,
    1,
    1,
    0x1f,
    1,
    4,
    0,
    0,
    0,
    2,
    1,
    0x1f,
    2,
    0x0f,
    2,
    0,
    0,
    0,
    0,
    0,
    0,
    0,
    0,
    0,
    0,
];

// Functions begin so many lines apart.
const LINES_APART: i64 = 100;

// From line 1 to the line of the first function.
const FIRST_LINE: i64 = 99;

// The bytes behind the last row of a function but one.
const LAST_ADVANCE: u64 = 4;

fn put(out: &mut Vec<u8>, opcode: Opcode) -> Result<(), NoMemory>
    requires { HasCode 13 opcode }
    ensures { OnOk result (Appends (ShortestOpcode 13) opcode out.old.items out.new.items) }
{
    put_opcode(out, opcode, OPCODE_BASE)
}

fn put_step(out: &mut Vec<u8>, step: Step) -> Result<(), NoMemory>
    requires { IsStepSmall step }
    ensures { OnOk result (out.new.items ≡ out.old.items ++ step_bytes step) }
{
    put(out, Opcode::AdvancePc(u64::from(step.advance)))?;
    put(out, Opcode::AdvanceLine(i64::from(step.line)))?;
    put(out, Opcode::Copy)
}

// Appends what begins the sequence of a function, with its first row. The function has a number in its unit.
fn put_first_row(
    out: &mut Vec<u8>,
    unit: u32,
    number: u32,
    function: &Function,
) -> Result<(), NoMemory>
    requires unit { unit < 4096 }
    requires number { number < 8 }
    requires small { IsFunctionSmall (function_of function.now) }
    ensures { OnOk result (out.new.items ≡ out.old.items ++ first_row_bytes unit number (function_of function.now)) }
{
    let address = unit_base(unit) + u64::from(function_offset(number));
    put(out, Opcode::SetColumn(u64::from(function.column)))?;
    put(out, Opcode::SetAddress(address))?;
    put(
        out,
        Opcode::AdvanceLine(LINES_APART * i64::from(number) + FIRST_LINE),
    )?;
    put(out, Opcode::Copy)
}

fn put_steps(out: &mut Vec<u8>, steps: &Vec<Step>) -> Result<(), NoMemory>
    requires { All IsStepSmall steps.now.items }
    ensures { OnOk result (out.new.items ≡ out.old.items ++ concat (map step_bytes steps.now.items)) }
{
    for step in steps {
        put_step(out, *step)?;
    }
    Ok(())
}

// Appends the sequence of a function.
#[tactic(auto, unfolding(crate::specs::inside::Bytes::sequence_bytes))]
fn put_sequence(
    out: &mut Vec<u8>,
    unit: u32,
    number: u32,
    function: &Function,
) -> Result<(), NoMemory>
    requires unit { unit < 4096 }
    requires number { number < 8 }
    requires small { IsFunctionSmall (function_of function.now) }
    ensures { OnOk result (out.new.items ≡ out.old.items ++ sequence_bytes unit number (function_of function.now)) }
{
    put_first_row(out, unit, number, function)?;
    put_steps(out, &function.steps)?;
    put(out, Opcode::AdvancePc(LAST_ADVANCE))?;
    put(out, Opcode::EndSequence)
}

// The opcodes of a unit, which has a number.
fn opcodes_of(alloc: Global, number: u32, unit: &Unit) -> Result<Vec<u8>, NoMemory>
    requires number { number < 4096 }
    requires small { IsUnitSmall (unit_of unit.now) }
    ensures { IfOk result (λ opcodes. opcodes.items ≡ opcodes_bytes number (unit_of unit.now)) }
{
    let mut opcodes = Vec::new(alloc);
    for (i, function) in unit.functions.iter().enumerate() {
        put_sequence(&mut opcodes, number, i as u32, function)?;
    }
    Ok(opcodes)
}

/// Appends the line number program of a unit, which has a number.
#[tactic(auto, unfolding(crate::specs::inside::Bytes::program_bytes))]
pub(crate) fn put_program(
    alloc: Global,
    out: &mut Vec<u8>,
    number: u32,
    unit: &Unit,
) -> Result<(), NoMemory>
    requires number { number < 4096 }
    requires small { IsUnitSmall (unit_of unit.now) }
    ensures { OnOk result (out.new.items ≡ out.old.items ++ program_bytes number (unit_of unit.now)) }
{
    let opcodes = opcodes_of(alloc, number, unit)?;
    put_word(out, (HEADER.len() + opcodes.len()) as u64)?;
    out.extend_from_slice(&HEADER)?;
    out.extend_from_slice(&opcodes)?;
    Ok(())
}
