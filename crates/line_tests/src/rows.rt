// Heads and rows that several tests use.
ghost use Rattle.std.specs.Prelude.{◌≡◌, IsTrue};
ghost use Rattle.line_machine.specs.Rows.{end_row};
ghost use Rattle.line_machine.specs.Class.{IsRow, AreRows};

use dw_base::Span;
use line_machine::{Head, Row};

/// A head with line_base -5, line_range 14 and the minimum_instruction_length 1.
pub const HEAD: Head = Head {
    at: 0,
    len: 0,
    min: 1,
    stmt: true,
    base: -5,
    range: 14,
    opcode_base: 13,
    tables: Span { at: 0, len: 0 },
    program: Span { at: 0, len: 0 },
};

/// A row in which every register but the line and the address is set.
pub const MARKED: Row = Row {
    address: 0,
    line: 1,
    file: 2,
    column: 3,
    isa: 4,
    discriminator: 5,
    stmt: false,
    block: true,
    prologue: true,
    epilogue: true,
    end: false,
};

/// A row of a line and a column at an address.
pub fn row(address: u64, line: u64, column: u64) -> Row {
    Row {
        address,
        line,
        file: 1,
        column,
        isa: 0,
        discriminator: 0,
        stmt: true,
        block: false,
        prologue: false,
        epilogue: false,
        end: false,
    }
}

/// The row that ends a sequence at an address.
pub fn end(address: u64) -> Row
    ensures { result ≡ end_row address }
{
    Row {
        address,
        line: 0,
        file: 0,
        column: 0,
        isa: 0,
        discriminator: 0,
        stmt: false,
        block: false,
        prologue: false,
        epilogue: false,
        end: true,
    }
}

// A row that ends a sequence has an address alone, and another has a line below 2^32.
fn is_row(row: &Row) -> bool
    ensures { IsTrue result → IsRow row.now }
{
    if row.end {
        *row == end(row.address)
    } else {
        row.line < 1 << 32
    }
}

/// These are rows that a program can have.
pub fn are_rows(rows: &[Row]) -> bool
    ensures { IsTrue result → AreRows rows.now }
{
    let mut ended = true;
    for row in rows {
        if !is_row(row) {
            return false;
        }
        ended = row.end;
    }
    ended
}
