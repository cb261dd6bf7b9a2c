// A program in its shortest form.
ghost use Rattle.std.specs.Prelude.{◌≤◌, ◌<◌, ◌*◌, length, IfOk};
ghost use Rattle.line_machine.specs.Class.{IsTaken, AreRows};
ghost use Rattle.line_sums.specs.Accepted.{AreLeastRuns};
ghost use Rattle.line_params.specs.Order.{AreInOrder};

use crate::pair::{Pair, least_pair};
use crate::rows::write_rows;
use dw_base::{NoMemory, Run};
use line_machine::{Head, Row};
use std::alloc::Global;

/// A line number program (DWARF 5 section 6.2.4), with the opcode_base 13.
#[derive(Debug, Drop)]
pub struct Program {
    /// line_base
    pub base: i8,
    /// line_range
    pub range: u8,
    /// The opcodes.
    pub bytes: Vec<u8>,
    /// Why no program under any pair is shorter: for each pair the least number of different steps that shows it, as
    /// `least_pair` says.
    pub runs: Vec<Run>,
}

/// The shortest program that gives `rows` under any pair of line_base and line_range, with the other fields of `head` and
/// the opcode_base 13 (DWARF 5 section 6.2). Of several pairs it has that of `head`, or else the one with the least
/// line_range, and among those the one with the least line_base. A row has at most 68 bytes.
///
/// The rows are such as a program gives: the last ends a sequence, or there is none; a row that ends one has an address
/// alone; and the line of another is below 2^32. Neither minimum_instruction_length nor line_range is 0. `NoMemory` may
/// come wherever memory is wanting, and comes for more than 2^32 - 1 rows.
pub fn shrink_program(alloc: Global, head: &Head, rows: &Vec<Row>) -> Result<Program, NoMemory>
    requires rows { AreRows rows.now.items }
    requires scale { 0 < head.now.min }
    requires range { 0 < head.now.range }
    ensures taken { IfOk result (λ p. IsTaken head.now rows.now.items (record { base = p.base; range = p.range; bytes = p.bytes.items })) }
    ensures few { IfOk result (λ p. length p.bytes.items ≤ 68 * length rows.now.items) }
    ensures order { IfOk result (λ p. AreInOrder head.now.stmt p.base p.range head.now.min rows.now.items p.bytes.items) }
    ensures runs { IfOk result (λ p. AreLeastRuns head.now rows.now.items (length p.bytes.items) p.runs.items) }
{
    // Read here, so that the proof knows it for a byte.
    let _scale = head.min;
    let rows = rows.as_slice();
    let least = least_pair(alloc, head, rows)?;
    let Pair { base, range } = least.pair;
    let bytes = write_rows(alloc, head, base, range, rows)?;
    Ok(Program {
        base,
        range,
        bytes,
        runs: least.runs,
    })
}
