// One operand, read.
ghost use Rattle.std.specs.Prelude.{◌≡◌, ◌≤◌, ◌<◌, ◌+◌, ◌-◌, ◌^◌, ℕ, length, take, drop, IfOk, IfErr, FitsSigned};
ghost use Rattle.std.specs.Int.{w64};
ghost use Rattle.expr_ops.specs.declared.table.Shape.TheVariants as shape;
ghost use Rattle.expr_ops.specs.Heads.{size_of, signed_of, SpellsPart};
ghost use Rattle.expr_ops.specs.HeadFaults.{FaultPart};
ghost use Rattle.expr_ops.specs.inside.Reads.{IsReadPart};
ghost use Rattle.fixed_width.specs.Numbers.{number, number_at};

use crate::table::{Shape, Width};
use dw_base::{Kind, Span};
use fixed_width::{u16_at, u32_at, u64_at};
use leb_codec::{LebFault, read_s, read_u};

// An operand. A span counts from the first byte of the bytes that were given.
#[derive(Clone, Copy)]
pub(crate) enum Part {
    Unsigned(u64),
    Signed(i64),
    Data(Span),
}

// An operand, and the place after its last byte.
#[derive(Clone, Copy)]
pub(crate) struct ReadPart {
    pub part: Part,
    pub end: usize,
}

impl Width {
    /// The number of bytes.
    pub fn size(self) -> usize
        ensures { result ≡ size_of self }
    {
        match self {
            Width::One => 1,
            Width::Two => 2,
            Width::Four => 4,
            Width::Eight => 8,
        }
    }
}

fn unsigned_at(bytes: &[u8], at: usize, width: Width) -> u64
    requires { at + size_of width ≤ length bytes.now }
    ensures number { result ≡ number (size_of width) (drop at bytes.now) }
    ensures small { result < 256 ^ size_of width }
{
    match width {
        Width::One => byte_at(bytes, at),
        Width::Two => u64::from(u16_at(bytes, at)),
        Width::Four => u64::from(u32_at(bytes, at)),
        Width::Eight => u64_at(bytes, at),
    }
}

#[tactic(auto, unfolding(fixed_width::specs::Numbers::number))]
fn byte_at(bytes: &[u8], at: usize) -> u64
    requires { at < length bytes.now }
    ensures number { result ≡ number 1 (drop at bytes.now) }
    ensures small { result < 256 }
{
    u64::from(bytes[at])
}

fn as_signed(number: u64, width: Width) -> i64
    requires { number < 256 ^ size_of width }
    ensures signed { result ≡ signed_of width number }
    ensures fits { FitsSigned w64 result }
{
    match width {
        Width::One => i64::from((number as u8).cast_signed()),
        Width::Two => i64::from((number as u16).cast_signed()),
        Width::Four => i64::from((number as u32).cast_signed()),
        Width::Eight => number.cast_signed(),
    }
}

fn read_unsigned(bytes: &[u8], at: usize, width: Width) -> Result<ReadPart, Kind>
    requires { at ≤ length bytes.now }
    ensures read { IfOk result (IsReadPart (shape.Unsigned width) bytes.now at) }
    ensures fault { IfErr result (λ kind. FaultPart (shape.Unsigned width) kind (drop at bytes.now)) }
{
    let size = width.size();
    if bytes.len() - at < size {
        return Err(Kind::Short);
    }
    Ok(ReadPart {
        part: Part::Unsigned(unsigned_at(bytes, at, width)),
        end: at + size,
    })
}

fn read_signed(bytes: &[u8], at: usize, width: Width) -> Result<ReadPart, Kind>
    requires { at ≤ length bytes.now }
    ensures read { IfOk result (IsReadPart (shape.Signed width) bytes.now at) }
    ensures fault { IfErr result (λ kind. FaultPart (shape.Signed width) kind (drop at bytes.now)) }
{
    let size = width.size();
    if bytes.len() - at < size {
        return Err(Kind::Short);
    }
    Ok(ReadPart {
        part: Part::Signed(as_signed(unsigned_at(bytes, at, width), width)),
        end: at + size,
    })
}

fn read_uleb(bytes: &[u8], at: usize) -> Result<ReadPart, Kind>
    requires { at ≤ length bytes.now }
    ensures read { IfOk result (IsReadPart shape.Uleb bytes.now at) }
    ensures fault { IfErr result (λ kind. FaultPart shape.Uleb kind (drop at bytes.now)) }
{
    match read_u(bytes, at) {
        Ok(read) => Ok(ReadPart {
            part: Part::Unsigned(read.value),
            end: read.end,
        }),
        Err(LebFault::Short) => Err(Kind::Short),
        Err(LebFault::Wide) => Err(Kind::LebWide),
    }
}

fn read_sleb(bytes: &[u8], at: usize) -> Result<ReadPart, Kind>
    requires { at ≤ length bytes.now }
    ensures read { IfOk result (IsReadPart shape.Sleb bytes.now at) }
    ensures fault { IfErr result (λ kind. FaultPart shape.Sleb kind (drop at bytes.now)) }
{
    match read_s(bytes, at) {
        Ok(read) => Ok(ReadPart {
            part: Part::Signed(read.value),
            end: read.end,
        }),
        Err(LebFault::Short) => Err(Kind::Short),
        Err(LebFault::Wide) => Err(Kind::LebWide),
    }
}

fn read_counted(bytes: &[u8], at: usize) -> Result<ReadPart, Kind>
    requires { at ≤ length bytes.now }
    ensures read { IfOk result (IsReadPart shape.Counted bytes.now at) }
    ensures fault { IfErr result (λ kind. FaultPart shape.Counted kind (drop at bytes.now)) }
{
    match read_u(bytes, at) {
        Ok(head) => {
            if head.value > (bytes.len() - head.end) as u64 {
                return Err(Kind::Short);
            }
            Ok(ReadPart {
                part: Part::Data(Span {
                    at: head.end as u64,
                    len: head.value,
                }),
                end: head.end + head.value as usize,
            })
        }
        Err(LebFault::Short) => Err(Kind::Short),
        Err(LebFault::Wide) => Err(Kind::LebWide),
    }
}

fn read_byte_counted(bytes: &[u8], at: usize) -> Result<ReadPart, Kind>
    requires { at ≤ length bytes.now }
    ensures read { IfOk result (IsReadPart shape.ByteCounted bytes.now at) }
    ensures fault { IfErr result (λ kind. FaultPart shape.ByteCounted kind (drop at bytes.now)) }
{
    if at == bytes.len() {
        return Err(Kind::Short);
    }
    let count = usize::from(bytes[at]);
    if count > bytes.len() - at - 1 {
        return Err(Kind::Short);
    }
    Ok(ReadPart {
        part: Part::Data(Span {
            at: at as u64 + 1,
            len: count as u64,
        }),
        end: at + 1 + count,
    })
}

// Reads an operand that begins at a place. The bytes go on to the end of the expression.
pub(crate) fn read_part(bytes: &[u8], at: usize, shape: Shape) -> Result<ReadPart, Kind>
    requires { at ≤ length bytes.now }
    ensures read { IfOk result (IsReadPart shape bytes.now at) }
    ensures fault { IfErr result (λ kind. FaultPart shape kind (drop at bytes.now)) }
{
    match shape {
        Shape::Unsigned(width) => read_unsigned(bytes, at, width),
        Shape::Signed(width) => read_signed(bytes, at, width),
        Shape::Uleb => read_uleb(bytes, at),
        Shape::Sleb => read_sleb(bytes, at),
        Shape::Counted => read_counted(bytes, at),
        Shape::ByteCounted => read_byte_counted(bytes, at),
    }
}
