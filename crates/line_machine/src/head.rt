// The header of a line number program.
ghost use Rattle.std.specs.Prelude.{◌≡◌, ◌≤◌, ◌<◌, ◌+◌, ◌^◌, ◌↔◌, length, IfOk, IfErr, MatchOption, IsTrue};
ghost use Rattle.fixed_width.specs.InitialLengths.{unit_end, IsWhole};
ghost use Rattle.line_machine.specs.Heads.{HasNumbers, HasLengths, HasHead, head_at, between};

use dw_base::{Fault, Kind, Span};
use fixed_width::{end_of_unit, u32_at, version_of_unit};

/// The header of a line number program (DWARF 5 section 6.2.4). Places count from the section's first byte.
#[derive(Clone, Copy, Debug, PartialEq, Eq)]
pub struct Head {
    /// The first byte of the program's unit.
    pub at: u64,
    /// All bytes of the unit, the field with its length among them.
    pub len: u64,
    /// minimum_instruction_length
    pub min: u8,
    /// Whether default_is_stmt isn't 0.
    pub stmt: bool,
    /// line_base
    pub base: i8,
    /// line_range
    pub range: u8,
    pub opcode_base: u8,
    /// The directory and file tables.
    pub tables: Span,
    /// The opcodes.
    pub program: Span,
}

/// standard_opcode_lengths under the opcode base 13: how many operands each standard opcode has, from opcode 1 to 12
/// (DWARF 5 sections 6.2.4 and 6.2.5.2). Lower opcode bases have the first of them.
pub const OPERAND_COUNTS: [u8; 12] = [0, 1, 1, 1, 1, 0, 0, 0, 1, 0, 0, 1];

// The fewest bytes of a header.
const LEAST_HEADER: usize = 27;

// The fixed fields of a header have the values that are read.
fn has_numbers(section: &[u8], at: usize) -> bool
    requires { at + 27 ≤ length section.now }
    ensures { IsTrue result ↔ HasNumbers section.now at }
{
    let opcode_base = section[at + 17];
    version_of_unit(section, at) == 5
        && section[at + 6] == 8
        && section[at + 7] == 0
        && section[at + 12] != 0
        && section[at + 13] == 1
        && section[at + 16] != 0
        && opcode_base > 9
        && opcode_base < 14
}

// The standard opcodes have the standard numbers of operands, and the program begins after them and inside the unit.
fn has_lengths(section: &[u8], at: usize, end: usize) -> bool
    requires fits { at + 27 ≤ end }
    requires inside { end ≤ length section.now }
    requires end { end ≡ unit_end section.now at }
    requires numbers { HasNumbers section.now at }
    ensures { IsTrue result ↔ HasLengths section.now at }
{
    let count = usize::from(section[at + 17]) - 1;
    let header_length = u32_at(section, at + 8) as usize;
    if header_length > end - at - 12 || header_length < count + 6 {
        return false;
    }
    section[at + 18..at + 18 + count] == OPERAND_COUNTS[..count]
}

// The header at a place, whose unit ends in the section.
fn parse(section: &[u8], at: usize, end: usize) -> Option<Head>
    requires whole { IsWhole section.now at }
    requires end { end ≡ unit_end section.now at }
    ensures { MatchOption result (¬ HasHead section.now at) (λ head. HasHead section.now at × (head ≡ head_at section.now at)) }
{
    if end - at < LEAST_HEADER || !has_numbers(section, at) || !has_lengths(section, at, end) {
        return None;
    }
    let opcode_base = section[at + 17];
    let tables = at + 17 + usize::from(opcode_base);
    let program = at + 12 + u32_at(section, at + 8) as usize;
    Some(Head {
        at: at as u64,
        len: (end - at) as u64,
        min: section[at + 12],
        stmt: section[at + 14] != 0,
        base: section[at + 15].cast_signed(),
        range: section[at + 16],
        opcode_base,
        tables: span(tables, program),
        program: span(program, end),
    })
}

// The bytes from a place up to another.
fn span(at: usize, end: usize) -> Span
    requires { at ≤ end }
    ensures { result ≡ between at end }
{
    Span {
        at: at as u64,
        len: (end - at) as u64,
    }
}

impl Head {
    ghost use Rattle.line_machine.specs.Heads.{IsHead};
    ghost use Rattle.line_machine.specs.Faults.{HeadFault};
    ghost use Rattle.dw_base.specs.Refusals.{IsFaultOf, IsFaulty};

    /// Reads the header of the program whose unit stands at `at` in `section`, the body of .debug_line
    /// (DWARF 5 section 6.2.4), where `origin` is the file offset of the section's first byte.
    ///
    /// Either fault is at the unit's first byte:
    /// - `Short`: the unit isn't in the section. Its length, or what that counts, ends past it, or the length is one
    ///   of the reserved ones (DWARF 5 section 7.4).
    /// - `LineHead`: the header isn't one of version 5 with 8-byte addresses, without segments, with a
    ///   minimum_instruction_length and a line_range other than 0, with one operation an instruction, an opcode base of
    ///   10 to 13 and the standard lengths of the standard opcodes, or its program doesn't begin after them and inside
    ///   the unit.
    ///
    /// No memory.
    pub fn read(section: &[u8], at: u64, origin: u64) -> Result<Head, Fault>
        requires inside { at ≤ length section.now }
        requires room { origin + length section.now < 2 ^ 64 }
        ensures place { IfOk result (λ head. head.at ≡ at) }
        ensures head { IfOk result (λ head. IsHead section.now head) }
        ensures whole { IfOk result (λ _. ¬ IsFaulty (HeadFault section.now at)) }
        ensures fault { IfErr result (IsFaultOf (HeadFault section.now at) origin) }
    {
        let start = at as usize;
        let place = origin + at;
        let Ok(end) = end_of_unit(section, start) else {
            return Err(Fault {
                kind: Kind::Short,
                place,
            });
        };
        parse(section, start, end).ok_or(Fault {
            kind: Kind::LineHead,
            place,
        })
    }
}
