// One operation by its bytes alone, read.
ghost use Rattle.std.specs.Prelude.{◌≡◌, ◌≤◌, ◌<◌, ◌+◌, ℕ, List, length, drop, slice_index, IfOk, IfErr, Some};
ghost use Rattle.expr_ops.specs.Table.{operands_of as known_operands};
ghost use Rattle.expr_ops.specs.Heads.{bare as bare_head, holding as head_holding, holding_two as head_holding_two};
ghost use Rattle.expr_ops.specs.HeadFaults.{FaultPart};
ghost use Rattle.expr_ops.specs.inside.Reads.{head_in, part_in, LiesIn, IsBlockIn, IsBlockOfTwo, IsReadPart, IsReadTwo, IsReadHead, IsReadBody, HasHeadFault, HasBodyFault};
ghost use Rattle.expr_ops.specs.declared.table.Operands.TheVariants as operands;

use crate::part::{Part, ReadPart, read_part};
use crate::table::{Operands, Shape, operands_of};
use dw_base::{Fault, Kind, Span};

// An opcode and its operands, and the place after them.
#[derive(Clone, Copy)]
pub(crate) struct ReadHead {
    pub code: u8,
    pub a: u64,
    pub s: i64,
    pub block: Span,
    pub end: usize,
}

// A fault at a place.
pub(crate) fn fault_at(kind: Kind, at: usize) -> Fault
    ensures kind { result.kind ≡ kind }
    ensures place { result.place ≡ at }
{
    Fault {
        kind,
        place: at as u64,
    }
}

fn bare(code: u8, end: usize) -> ReadHead
    ensures head { (bytes : List ℕ) → head_in bytes result ≡ bare_head code }
    ensures lies { result.block.at + result.block.len ≡ 0 }
    ensures end { result.end ≡ end }
{
    ReadHead {
        code,
        a: 0,
        s: 0,
        block: Span { at: 0, len: 0 },
        end,
    }
}

// The operation of one operand.
fn holding(code: u8, part: Part, end: usize) -> ReadHead
    ensures head { (bytes : List ℕ) → head_in bytes result ≡ head_holding code (part_in bytes part) }
    ensures lies { (size : ℕ) → LiesIn size part → result.block.at + result.block.len ≤ size }
    ensures block { IsBlockIn part result.block }
    ensures end { result.end ≡ end }
{
    let mut head = bare(code, end);
    match part {
        Part::Unsigned(number) => head.a = number,
        Part::Signed(number) => head.s = number,
        Part::Data(span) => head.block = span,
    }
    head
}

// The operation of two operands, of which the first is a number without a sign.
fn holding_two(code: u8, first: Part, second: Part, end: usize) -> ReadHead
    ensures head { (bytes : List ℕ) → head_in bytes result ≡ head_holding_two code (part_in bytes first) (part_in bytes second) }
    ensures lies { (size : ℕ) → LiesIn size first → LiesIn size second → result.block.at + result.block.len ≤ size }
    ensures block { IsBlockOfTwo first second result.block }
    ensures end { result.end ≡ end }
{
    let mut head = holding(code, first, end);
    match (first, second) {
        (Part::Unsigned(_), Part::Unsigned(number)) => head.s = number.cast_signed(),
        (Part::Unsigned(_), Part::Signed(number)) => head.s = number,
        (Part::Unsigned(_), Part::Data(span)) => head.block = span,
        (Part::Signed(_), _) | (Part::Data(_), _) => {}
    }
    head
}

// Two operands, and the place after the second.
#[derive(Clone, Copy)]
struct ReadTwo {
    first: Part,
    second: Part,
    end: usize,
}

// Reads one operand.
fn read_operand(bytes: &[u8], at: usize, shape: Shape) -> Result<ReadPart, Fault>
    requires { at ≤ length bytes.now }
    ensures read { IfOk result (IsReadPart shape bytes.now at) }
    ensures place { IfErr result (λ f. f.place ≡ at) }
    ensures fault { IfErr result (λ f. FaultPart shape f.kind (drop at bytes.now)) }
{
    match read_part(bytes, at, shape) {
        Ok(read) => Ok(read),
        Err(kind) => Err(fault_at(kind, at)),
    }
}

// Reads two operands, one after the other.
fn read_two(bytes: &[u8], at: usize, shape: Shape, other: Shape) -> Result<ReadTwo, Fault>
    requires { at ≤ length bytes.now }
    ensures read { IfOk result (IsReadTwo shape other bytes.now at) }
    ensures bound { IfErr result (λ f. f.place ≤ length bytes.now) }
    ensures fault { IfErr result (λ f. HasBodyFault (operands.Two shape other) bytes.now at f) }
{
    let first = read_operand(bytes, at, shape)?;
    let second = read_operand(bytes, first.end, other)?;
    Ok(ReadTwo {
        first: first.part,
        second: second.part,
        end: second.end,
    })
}

// Reads what follows an opcode.
fn read_operands(bytes: &[u8], at: usize, code: u8, operands: Operands) -> Result<ReadHead, Fault>
    requires { at ≤ length bytes.now }
    ensures read { IfOk result (IsReadBody code operands bytes.now at) }
    ensures bound { IfErr result (λ f. f.place ≤ length bytes.now) }
    ensures fault { IfErr result (λ f. HasBodyFault operands bytes.now at f) }
{
    match operands {
        Operands::Nothing => Ok(bare(code, at)),
        Operands::One(shape) => {
            let read = read_operand(bytes, at, shape)?;
            Ok(holding(code, read.part, read.end))
        }
        Operands::Two(shape, other) => {
            let read = read_two(bytes, at, shape, other)?;
            Ok(holding_two(code, read.first, read.second, read.end))
        }
        Operands::Typed(shape) => {
            let read = read_two(bytes, at, shape, Shape::Uleb)?;
            Ok(holding_two(code, read.second, read.first, read.end))
        }
    }
}

// Reads the operation that begins at a place. The bytes go on to the end of the expression. A fault's place counts from
// their first.
pub(crate) fn read_head(bytes: &[u8], at: usize) -> Result<ReadHead, Fault>
    requires { at < length bytes.now }
    ensures read { IfOk result (IsReadHead bytes.now at) }
    ensures bound { IfErr result (λ f. f.place ≤ length bytes.now) }
    ensures fault { IfErr result (λ f. HasHeadFault bytes.now at f) }
{
    let code = bytes[at];
    match operands_of(code) {
        Some(operands) => read_operands(bytes, at + 1, code, operands),
        None => Err(fault_at(Kind::Op, at)),
    }
}
