// The registers of the line number machine, and what opcodes do to them.
ghost use Rattle.std.specs.Prelude.{◌≡◌, ◌≢◌, ◌≤◌, ◌<◌, ◌+◌, ◌*◌, ◌^◌, ◌-◌, ◌+ℤ◌, ℕ, Option, Some, None, IfSome, MatchOption};
ghost use Rattle.line_machine.specs.Opcodes.{IsBase};
ghost use Rattle.line_machine.specs.Rows.{start, cleared, advanced, special_advance, special_line, specially, after, row_at, end_row, row_of, HasLine, IsSound};
ghost use Rattle.line_machine.specs.Cursors.{IsNear};

use crate::head::Head;
use crate::opcode::Opcode;

/// The registers of the line number machine (DWARF 5 section 6.2.2). The line may pass through any whole number.
#[derive(Clone, Copy, Debug, PartialEq, Eq)]
pub struct Registers {
    pub address: u64,
    pub line: i128,
    pub file: u64,
    pub column: u64,
    pub isa: u64,
    pub discriminator: u64,
    pub stmt: bool,
    pub block: bool,
    pub prologue: bool,
    pub epilogue: bool,
}

/// A row of the line table (DWARF 5 section 6.2.2). A row that ends a sequence has an `address` and `end`
/// alone: every other field is 0 or false. Other rows have a `line` below 2^32.
#[derive(Clone, Copy, Debug, PartialEq, Eq)]
pub struct Row {
    pub address: u64,
    pub line: u64,
    pub file: u64,
    pub column: u64,
    pub isa: u64,
    pub discriminator: u64,
    pub stmt: bool,
    pub block: bool,
    pub prologue: bool,
    pub epilogue: bool,
    pub end: bool,
}

// What an opcode does: the registers after it, and the row that it appends.
#[derive(Clone, Copy, Debug, PartialEq, Eq)]
pub struct Effect {
    pub registers: Registers,
    pub row: Option<Row>,
}

impl Registers {
    /// The registers at the start of a sequence.
    pub fn start(stmt: bool) -> Self
        ensures { result ≡ start stmt }
    {
        Registers {
            address: 0,
            line: 1,
            file: 1,
            column: 0,
            isa: 0,
            discriminator: 0,
            stmt,
            block: false,
            prologue: false,
            epilogue: false,
        }
    }

    // After a row.
    fn cleared(self) -> Self
        ensures { result ≡ cleared self }
    {
        Registers {
            discriminator: 0,
            block: false,
            prologue: false,
            epilogue: false,
            ..self
        }
    }

    // With the address advanced.
    fn advanced(self, by: u64) -> Self
        ensures { result ≡ advanced by self }
    {
        Registers {
            address: self.address.wrapping_add(by),
            ..self
        }
    }

    // The row of the registers, where their line is one that a row can have.
    fn row(&self) -> Option<Row>
        ensures { MatchOption result (¬ HasLine self.now) (λ row. HasLine self.now × (row ≡ row_at self.now)) }
    {
        if self.line < 0 || self.line >= LINES {
            return None;
        }
        Some(Row {
            address: self.address,
            line: self.line as u64,
            file: self.file,
            column: self.column,
            isa: self.isa,
            discriminator: self.discriminator,
            stmt: self.stmt,
            block: self.block,
            prologue: self.prologue,
            epilogue: self.epilogue,
            end: false,
        })
    }
}

// One past the greatest line of a row.
const LINES: i128 = 1 << 32;

// The row that ends a sequence.
fn end_row(address: u64) -> Row
    ensures { result ≡ end_row address }
{
    Row {
        address,
        line: 0,
        file: 0,
        column: 0,
        isa: 0,
        discriminator: 0,
        stmt: false,
        block: false,
        prologue: false,
        epilogue: false,
        end: true,
    }
}

// How far a special opcode advances the address.
fn special_advance(head: &Head, s: u8) -> u64
    requires { head.now.range ≢ 0 }
    ensures { result ≡ special_advance head.now s }
{
    u64::from(s / head.range) * u64::from(head.min)
}

// How far a special opcode moves the line.
fn special_line(head: &Head, s: u8) -> i64
    requires { head.now.range ≢ 0 }
    ensures { result ≡ special_line head.now s }
{
    i64::from(head.base) + i64::from(s % head.range)
}

// The line moved.
fn moved(line: i128, by: i64) -> i128
    requires { IsNear (2 ^ 64 - 2) line }
    ensures sum { result ≡ line +ℤ by }
    ensures near { (count : ℕ) → IsNear count line → IsNear (1 + count) result }
{
    line + i128::from(by)
}

// What a special opcode does before its row.
fn specially(head: &Head, s: u8, registers: Registers) -> Registers
    requires range { head.now.range ≢ 0 }
    requires near { IsNear (2 ^ 64 - 2) registers.line }
    ensures effect { result ≡ specially head.now s registers }
    ensures near { (count : ℕ) → IsNear count registers.line → IsNear (1 + count) result.line }
{
    let line = moved(registers.line, special_line(head, s));
    let advanced = registers.advanced(special_advance(head, s));
    Registers { line, ..advanced }
}

// An opcode with a row of the registers, if they can have one.
fn with_row(registers: Registers) -> Option<Effect>
    ensures { MatchOption result (¬ HasLine registers) (λ e. HasLine registers × (e.registers ≡ cleared registers) × (e.row ≡ Some (row_at registers))) }
{
    let row = registers.row()?;
    Some(Effect {
        registers: registers.cleared(),
        row: Some(row),
    })
}

// An opcode that sets registers alone.
fn without_row(registers: Registers) -> Option<Effect>
    ensures { result ≡ Some (record { registers = registers; row = None }) }
{
    Some(Effect {
        registers,
        row: None,
    })
}

/// What an opcode does, or none where its row has no line or its product is too large.
pub fn act(head: &Head, registers: Registers, opcode: Opcode) -> Option<Effect>
    requires range { head.now.range ≢ 0 }
    requires base { IsBase head.now.opcode_base }
    requires near { IsNear (2 ^ 64 - 2) registers.line }
    ensures effect { MatchOption result (¬ IsSound head.now opcode registers) (λ e. IsSound head.now opcode registers × (e.registers ≡ after head.now opcode registers) × (e.row ≡ row_of head.now opcode registers)) }
    ensures near { (count : ℕ) → IsNear count registers.line → IfSome result (λ e. IsNear (1 + count) e.registers.line) }
{
    let r = registers;
    match opcode {
        Opcode::Copy => with_row(r),
        Opcode::Special(s) => with_row(specially(head, s, r)),
        Opcode::EndSequence => Some(Effect {
            registers: Registers::start(head.stmt),
            row: Some(end_row(r.address)),
        }),
        Opcode::AdvancePc(value) => {
            let by = value.checked_mul(u64::from(head.min))?;
            without_row(r.advanced(by))
        }
        Opcode::ConstAddPc => without_row(r.advanced(special_advance(
            head,
            255 - head.opcode_base,
        ))),
        Opcode::FixedAdvancePc(value) => without_row(r.advanced(u64::from(value))),
        Opcode::SetAddress(address) => without_row(Registers { address, ..r }),
        Opcode::AdvanceLine(value) => {
            let line = moved(r.line, value);
            without_row(Registers { line, ..r })
        }
        Opcode::SetFile(file) => without_row(Registers { file, ..r }),
        Opcode::SetColumn(column) => without_row(Registers { column, ..r }),
        Opcode::SetIsa(isa) => without_row(Registers { isa, ..r }),
        Opcode::SetDiscriminator(discriminator) => without_row(Registers { discriminator, ..r }),
        Opcode::NegateStmt => without_row(Registers { stmt: !r.stmt, ..r }),
        Opcode::SetBasicBlock => without_row(Registers { block: true, ..r }),
        Opcode::SetPrologueEnd => without_row(Registers {
            prologue: true,
            ..r
        }),
        Opcode::SetEpilogueBegin => without_row(Registers {
            epilogue: true,
            ..r
        }),
    }
}
