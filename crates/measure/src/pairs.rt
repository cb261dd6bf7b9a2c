// The least pairs of drawn programs.
ghost use Rattle.std.specs.Prelude.{◌≤◌, ◌<◌, ◌+◌, ◌^◌, IfOk};
ghost use Rattle.line_machine.specs.Class.{AreRows, IsRow};

use crate::draws::Draws;
use dw_base::{NoMemory, Span};
use line_machine::{Head, Row};
use line_params::least_pair;
use std::alloc::Global;

// A row that ends a sequence, from which rows are drawn too.
const END: Row = Row {
    address: 0,
    line: 0,
    file: 0,
    column: 0,
    isa: 0,
    discriminator: 0,
    stmt: false,
    block: false,
    prologue: false,
    epilogue: false,
    end: true,
};

const SPAN: Span = Span { at: 0, len: 0 };

// How many lines a file has.
const LINES: u32 = 1_000_000;

// A number below the first bound, or for one in eight below the second.
fn near_or_far(draws: &mut Draws, near: u32, far: u32) -> u32
    requires near { 0 < near }
    requires far { 0 < far }
    requires few { near + far ≤ 1000 }
    ensures { result < 1000 }
{
    let bound = if draws.below(8) == 0 { far } else { near };
    draws.below(bound)
}

// A row some instructions of `min` bytes after another, and some lines before or after it.
fn drawn_row(draws: &mut Draws, before: &Row, min: u8) -> Row
    requires { before.now.line < 2 ^ 32 }
    ensures row { IsRow result }
    ensures below { result.line < 2 ^ 32 }
{
    let instructions = 1 + near_or_far(draws, 24, 400);
    let lines = near_or_far(draws, 12, 200);
    let line = (before.line as u32 % LINES + LINES - 4 + lines) % LINES;
    Row {
        address: before
            .address
            .wrapping_add(u64::from(instructions) * u64::from(min)),
        line: u64::from(line),
        end: false,
        ..END
    }
}

// So many drawn rows and the end of their sequence.
fn drawn_rows(alloc: Global, draws: &mut Draws, count: u32, min: u8) -> Result<Vec<Row>, NoMemory>
    ensures { IfOk result (λ rows. AreRows rows.items) }
{
    let mut rows = Vec::new(alloc);
    let mut last = END;
    for _ in 0..count {
        last = drawn_row(draws, &last, min);
        rows.push(last)?;
    }
    rows.push(Row {
        address: last.address,
        ..END
    })?;
    Ok(rows)
}

/// The sum of line_base and line_range of the least pairs of so many drawn programs with 200 rows each, and of how many runs
/// their records have, where the pair of the head is -5 and 14 and an instruction has 1 or 4 bytes.
pub fn sum_of_pairs(alloc: Global, count: u32) -> Result<u64, NoMemory> {
    let mut draws = Draws::default();
    let mut sum = 0u64;
    for _ in 0..count {
        let min = if draws.below(2) == 0 { 1 } else { 4 };
        let rows = drawn_rows(alloc, &mut draws, 200, min)?;
        let head = Head {
            at: 0,
            len: 0,
            min,
            stmt: true,
            base: -5,
            range: 14,
            opcode_base: 13,
            tables: SPAN,
            program: SPAN,
        };
        let least = least_pair(alloc, &head, &rows)?;
        sum = sum
            .wrapping_mul(31)
            .wrapping_add(u64::from(least.pair.range))
            .wrapping_add((i64::from(least.pair.base) + 128) as u64)
            .wrapping_add(least.runs.len() as u64);
    }
    Ok(sum)
}
