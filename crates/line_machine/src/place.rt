// A place in a program, and how opcodes are passed.
ghost use Rattle.std.specs.Prelude.{◌≡◌, ◌≢◌, ◌≤◌, ◌<◌, ◌+◌, true, length, Option, None, ◌^◌, IsSome, IfOk, IfErr};
ghost use Rattle.line_machine.specs.declared.head.Head.{Head as AHead};
ghost use Rattle.line_machine.specs.Opcodes.{IsBase};
ghost use Rattle.line_machine.specs.Rows.{rows_in};
ghost use Rattle.line_machine.specs.Heads.{IsHead, program_of};
ghost use Rattle.dw_base.specs.Refusals.{IsFaultOf};
ghost use Rattle.line_machine.specs.Cursors.{PassesOn, FaultHere, FaultAhead, NextFault, IsNear, at_start};

use crate::head::Head;
use crate::opcode::read_opcode;
use crate::registers::{Registers, Row, act};
use dw_base::{Fault, Kind};

/// A place in a line number program between two opcodes.
#[derive(Clone, Copy, Debug, PartialEq, Eq)]
pub struct Place {
    /// The offset of the next opcode from the program's first byte.
    pub at: usize,
    /// The registers before it.
    pub registers: Registers,
    /// Whether there was no row yet, or the last one ended a sequence.
    pub ended: bool,
}

// The place after some opcodes, and the row that the last of them appended.
#[derive(Clone, Copy, Debug, PartialEq, Eq)]
pub struct Step {
    pub place: Place,
    pub row: Option<Row>,
}

impl Place {
    /// The place at the start of a program.
    pub fn start(stmt: bool) -> Self
        ensures { (head : AHead) → head.stmt ≡ stmt → result ≡ at_start head }
    {
        Place {
            at: 0,
            registers: Registers::start(stmt),
            ended: true,
        }
    }
}

// A fault counted from a place on.
fn shifted(fault: Fault, by: u64) -> Fault
    requires { by + fault.place < 2 ^ 64 }
    ensures kind { result.kind ≡ fault.kind }
    ensures place { result.place ≡ by + fault.place }
{
    Fault {
        kind: fault.kind,
        place: by + fault.place,
    }
}

// Passes one opcode. A fault's place counts from the program's first byte.
fn pass_one(head: &Head, program: &[u8], place: Place) -> Result<Step, Fault>
    requires range { head.now.range ≢ 0 }
    requires base { IsBase head.now.opcode_base }
    requires more { place.at < length program.now }
    requires near { IsNear place.at place.registers.line }
    ensures on { IfOk result (λ step. place.at < step.place.at) }
    ensures within { IfOk result (λ step. step.place.at ≤ length program.now) }
    ensures near { IfOk result (λ step. IsNear step.place.at step.place.registers.line) }
    ensures passed { IfOk result (λ step. PassesOn head.now program.now place step.place (rows_in step.row)) }
    ensures fault { IfErr result (λ f. FaultHere head.now program.now place f.kind f.place) }
    ensures bound { IfErr result (λ f. f.place ≤ length program.now) }
{
    let read = match read_opcode(&program[place.at..], head.opcode_base) {
        Ok(read) => read,
        Err(fault) => return Err(shifted(fault, place.at as u64)),
    };
    match act(head, place.registers, read.opcode) {
        Some(effect) => Ok(Step {
            place: Place {
                at: place.at + read.end,
                registers: effect.registers,
                ended: match effect.row {
                    Some(row) => row.end,
                    None => place.ended,
                },
            },
            row: effect.row,
        }),
        None => Err(Fault {
            kind: Kind::LineValue,
            place: place.at as u64,
        }),
    }
}

/// Passes opcodes up to one that appends a row, or to the program's end.
pub fn pass_to_row(head: &Head, program: &[u8], start: Place) -> Result<Step, Fault>
    requires range { head.now.range ≢ 0 }
    requires base { IsBase head.now.opcode_base }
    requires within { start.at ≤ length program.now }
    requires near { IsNear start.at start.registers.line }
    ensures within { IfOk result (λ step. (start.at ≤ step.place.at) × (step.place.at ≤ length program.now)) }
    ensures near { IfOk result (λ step. IsNear step.place.at step.place.registers.line) }
    ensures passed { IfOk result (λ step. PassesOn head.now program.now start step.place (rows_in step.row)) }
    ensures at_end { IfOk result (λ step. step.row ≡ None → step.place.at ≡ length program.now) }
    ensures on { IfOk result (λ step. IsSome step.row → start.at < step.place.at) }
    ensures fault { IfErr result (λ f. FaultAhead head.now program.now start f.kind f.place) }
    ensures bound { IfErr result (λ f. f.place ≤ length program.now) }
{
    let mut place = start;
    while place.at < program.len() {
        let step = pass_one(head, program, place)?;
        match step.row {
            Some(_) => return Ok(step),
            None => place = step.place,
        }
    }
    Ok(Step { place, row: None })
}

/// Passes opcodes of the program of a head in a section up to one that appends a row, or to the program's end.
/// A fault's place is one in the file.
pub fn next_row(section: &[u8], head: &Head, origin: u64, start: Place) -> Result<Step, Fault>
    requires head { IsHead section.now head.now }
    requires room { origin + length section.now < 2 ^ 64 }
    requires within { start.at ≤ length (program_of section.now head.now) }
    requires near { IsNear start.at start.registers.line }
    ensures within { IfOk result (λ step. (start.at ≤ step.place.at) × (step.place.at ≤ length (program_of section.now head.now))) }
    ensures near { IfOk result (λ step. IsNear step.place.at step.place.registers.line) }
    ensures passed { IfOk result (λ step. PassesOn head.now (program_of section.now head.now) start step.place (rows_in step.row)) }
    ensures at_end { IfOk result (λ step. step.row ≡ None → step.place.at ≡ length (program_of section.now head.now)) }
    ensures ended { IfOk result (λ step. step.row ≡ None → step.place.ended ≡ true) }
    ensures on { IfOk result (λ step. IsSome step.row → start.at < step.place.at) }
    ensures fault { IfErr result (IsFaultOf (NextFault section.now head.now start) origin) }
{
    let from = head.program.at as usize;
    let program = &section[from..from + head.program.len as usize];
    match pass_to_row(head, program, start) {
        Ok(step) => {
            if step.row.is_none() && !step.place.ended {
                return Err(Fault {
                    kind: Kind::OpenSequence,
                    place: origin + head.at,
                });
            }
            Ok(step)
        }
        Err(fault) => Err(shifted(fault, origin + head.program.at)),
    }
}
