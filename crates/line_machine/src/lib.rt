//! Line number programs (DWARF 5 section 6.2): their headers, their opcodes and the rows that they give.
#![tactic(auto)]

ghost use Rattle.line_machine.specs.Laws.{OpcodesEnd, OpcodesWhole, OneReading, ProgramsWhole};

mod cursor;
mod head;
mod opcode;
mod place;
mod registers;
mod table;

pub use cursor::Cursor;
pub use head::{Head, OPERAND_COUNTS};
pub use opcode::{Opcode, ReadOpcode, read_opcode};
pub use place::Place;
pub use registers::{Registers, Row};
pub use table::{count_rows, rows};

/// Laws of opcodes: their bytes end by themselves, and bytes that begin with one have none of the faults.
pub fn opcodes_end()
    ensures unique { OpcodesEnd }
    ensures whole { OpcodesWhole }
{}

/// Laws of programs: bytes give one list of rows, and a program that gives rows has none of the faults.
pub fn programs_end()
    ensures unique { OneReading }
    ensures whole { ProgramsWhole }
{}
