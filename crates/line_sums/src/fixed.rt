// The bytes of rows that no pair changes.
ghost use Rattle.std.specs.Prelude.{◌≡◌, ◌≤◌, ◌<◌, ◌*◌, ◌^◌, length};
ghost use Rattle.leb_codec.specs.LineCosts.{register_bytes, stmt_bytes, flag_bytes, discriminator_bytes};
ghost use Rattle.line_sums.specs.Steps.{set_bytes, fixed_bytes, left_by};

use leb_codec::len_u;
use line_machine::{Registers, Row};

// A register that a row may change.
fn register(from: u64, to: u64) -> u64
    ensures is { result ≡ register_bytes from to }
    ensures few { result ≤ 11 }
{
    if from == to {
        0
    } else {
        1 + u64::from(len_u(to))
    }
}

// A flag that a row may have, or turn over.
fn stmt(from: bool, to: bool) -> u64
    ensures is { result ≡ stmt_bytes from to }
    ensures few { result ≤ 1 }
{
    if from == to { 0 } else { 1 }
}

fn discriminator(value: u64) -> u64
    ensures is { result ≡ discriminator_bytes value }
    ensures few { result ≤ 13 }
{
    if value == 0 {
        0
    } else {
        3 + u64::from(len_u(value))
    }
}

fn flag(flag: bool) -> u64
    ensures is { result ≡ flag_bytes flag }
    ensures few { result ≤ 1 }
{
    if flag { 1 } else { 0 }
}

// The bytes of what a row changes besides its line and its address.
fn set_by(from: &Registers, row: &Row) -> u64
    ensures is { result ≡ set_bytes from.now row.now }
    ensures few { result ≤ 64 }
{
    if row.end {
        return 0;
    }
    register(from.file, row.file)
        + register(from.column, row.column)
        + register(from.isa, row.isa)
        + stmt(from.stmt, row.stmt)
        + flag(row.block)
        + flag(row.prologue)
        + flag(row.epilogue)
        + discriminator(row.discriminator)
}

// The registers that a row leaves.
fn left(stmt: bool, row: Row) -> Registers
    ensures { result ≡ left_by stmt row }
{
    if row.end {
        return Registers::start(stmt);
    }
    Registers {
        address: row.address,
        line: i128::from(row.line),
        file: row.file,
        column: row.column,
        isa: row.isa,
        discriminator: 0,
        stmt: row.stmt,
        block: false,
        prologue: false,
        epilogue: false,
    }
}

/// The bytes of rows that no pair changes, where `stmt` is default_is_stmt.
pub fn fixed_size(stmt: bool, rows: &[Row]) -> u64
    requires few { length rows.now < 2 ^ 32 }
    ensures is { result ≡ fixed_bytes stmt rows.now }
    ensures few { result ≤ 64 * length rows.now }
{
    let mut bytes = 0;
    let mut from = Registers::start(stmt);
    for row in rows {
        bytes += set_by(&from, row);
        from = left(stmt, *row);
    }
    bytes
}
