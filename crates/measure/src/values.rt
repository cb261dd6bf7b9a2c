// The values of attributes.
ghost use Rattle.std.specs.Prelude.{◌≡◌, ◌<◌, length, IfOk};
ghost use Rattle.std.specs.List.{All};
ghost use Rattle.form_codec.specs.Forms.{IsKnown};

use crate::draws::Draws;
use dw_base::constants::DW_AT_DECL_LINE;
use dw_base::{Fault, NoMemory};
use form_codec::{Value, read_value};
use std::alloc::Global;

// How many attributes an entry has.
const ATTRIBUTES: u32 = 64;

// How often the values are read, so that to draw them takes little beside.
const TURNS: u64 = 64;

/// An attribute of a declaration.
#[derive(Clone, Copy)]
pub struct Attribute {
    /// Its name, which tells of a constant of fixed size whether it has a sign.
    pub name: u64,
    /// The code of its form.
    pub form: u64,
    /// Its constant, which implicit_const reads.
    pub constant: i64,
}

/// Values that follow one another, as in entries of one declaration.
#[derive(Drop)]
pub struct Entries {
    pub attributes: Vec<Attribute>,
    pub bytes: Vec<u8>,
    pub count: u64,
}

/// What is told of the values that were read, modulo 2^64.
#[derive(Clone, Copy, Default)]
pub struct Totals {
    pub values: u64,
    pub bytes: u64,
    /// The numbers, and the lengths of texts and expressions.
    pub sum: u64,
}

// The code of a form, as often as a compiler's entries have it.
fn drawn_form(draws: &mut Draws) -> u64
    ensures { IsKnown result }
{
    match draws.below(32) {
        0..=3 => 0x0e,
        4..=8 => 0x0b,
        9..=10 => 0x05,
        11 => 0x06,
        12 => 0x0f,
        13 => 0x0d,
        14..=19 => 0x13,
        20 => 0x01,
        21..=23 => 0x18,
        24 => 0x08,
        25..=27 => 0x19,
        28..=29 => 0x17,
        _ => 0x21,
    }
}

// The attributes of the declaration. All are called DW_AT_decl_line, since most constants of a compiler's entries have a name that fixes
// the sign.
fn drawn_attributes(alloc: Global, draws: &mut Draws) -> Result<Vec<Attribute>, NoMemory>
    ensures count { IfOk result (λ attributes. length attributes.items ≡ 64) }
    ensures known { IfOk result (λ attributes. All (λ a. IsKnown a.form) attributes.items) }
{
    let mut attributes = Vec::new(alloc);
    for _ in 0..ATTRIBUTES {
        let form = drawn_form(draws);
        let constant = i64::from(draws.below(256));
        attributes.push(Attribute {
            name: DW_AT_DECL_LINE,
            form,
            constant,
        })?;
    }
    Ok(attributes)
}

// Appends drawn bytes.
fn push_bytes(bytes: &mut Vec<u8>, draws: &mut Draws, count: u32) -> Result<(), NoMemory> {
    for _ in 0..count {
        bytes.push(draws.below(256) as u8)?;
    }
    Ok(())
}

// Appends a LEB128 number of one to three bytes.
fn push_leb(bytes: &mut Vec<u8>, draws: &mut Draws) -> Result<(), NoMemory> {
    for _ in 0..draws.below(3) {
        bytes.push(128 + draws.below(128) as u8)?;
    }
    bytes.push(draws.below(128) as u8)?;
    Ok(())
}

// Appends a text of one to twelve letters.
fn push_text(bytes: &mut Vec<u8>, draws: &mut Draws) -> Result<(), NoMemory> {
    for _ in 0..=draws.below(12) {
        bytes.push(b'a' + draws.below(26) as u8)?;
    }
    bytes.push(0)?;
    Ok(())
}

// Appends an expression of one to six bytes.
fn push_expression(bytes: &mut Vec<u8>, draws: &mut Draws) -> Result<(), NoMemory> {
    let count = 1 + draws.below(6);
    bytes.push(count as u8)?;
    push_bytes(bytes, draws, count)
}

// Appends a drawn value of a form.
fn push_value(bytes: &mut Vec<u8>, draws: &mut Draws, form: u64) -> Result<(), NoMemory> {
    match form {
        0x0b => push_bytes(bytes, draws, 1),
        0x05 => push_bytes(bytes, draws, 2),
        0x06 | 0x0e | 0x13 | 0x17 => push_bytes(bytes, draws, 4),
        0x01 => push_bytes(bytes, draws, 8),
        0x0d | 0x0f => push_leb(bytes, draws),
        0x08 => push_text(bytes, draws),
        0x18 => push_expression(bytes, draws),
        _ => Ok(()),
    }
}

/// Draws so many values.
pub fn drawn_entries(alloc: Global, count: u64) -> Result<Entries, NoMemory>
    ensures count { IfOk result (λ entries. length entries.attributes.items ≡ 64) }
    ensures known { IfOk result (λ entries. All (λ a. IsKnown a.form) entries.attributes.items) }
{
    let mut draws = Draws::default();
    let attributes = drawn_attributes(alloc, &mut draws)?;
    let mut bytes = Vec::new(alloc);
    for index in 0..count {
        push_value(
            &mut bytes,
            &mut draws,
            attributes[(index % 64) as usize].form,
        )?;
    }
    Ok(Entries {
        attributes,
        bytes,
        count,
    })
}

/// The number of a value, or the length of its bytes.
pub fn held(value: Value) -> u64 {
    match value {
        Value::Int(number) => (number.get().cast_unsigned() & 0xffff_ffff_ffff_ffff) as u64,
        Value::Flag(is_set) => u64::from(is_set),
        Value::Wide16(span) | Value::Block(span) | Value::Expr(span) | Value::Text(span) => {
            span.len
        }
        Value::Fixed(_, number) | Value::SupRef(_, number) => number,
        Value::Addr(number)
        | Value::AddrIndex(number)
        | Value::LocalRef(number)
        | Value::SectionRef(number)
        | Value::Signature(number)
        | Value::StrOffset(number)
        | Value::LineStrOffset(number)
        | Value::SupStr(number)
        | Value::StrIndex(number)
        | Value::Offset(number)
        | Value::LocIndex(number)
        | Value::RangeIndex(number) => number,
    }
}

// The totals with those of all values, read once.
fn with_turn(
    totals: Totals,
    attributes: &[Attribute],
    section: &[u8],
    count: u64,
) -> Result<Totals, Fault>
    requires count { length attributes.now ≡ 64 }
    requires known { All (λ a. IsKnown a.form) attributes.now }
{
    let mut sum = totals.sum;
    let mut at = 0;
    for index in 0..count {
        let attribute = attributes[(index % 64) as usize];
        let read = read_value(
            section,
            at,
            section.len(),
            attribute.name,
            attribute.form,
            attribute.constant,
            0,
        )?;
        sum = sum.wrapping_add(held(read.value));
        at = read.end;
    }
    Ok(Totals {
        values: totals.values.wrapping_add(count),
        bytes: totals.bytes.wrapping_add(at as u64),
        sum,
    })
}

/// The totals of the values, which are read 64 times.
pub fn totals_of_values(entries: &Entries) -> Result<Totals, Fault>
    requires count { length entries.now.attributes.items ≡ 64 }
    requires known { All (λ a. IsKnown a.form) entries.now.attributes.items }
{
    let mut totals = Totals::default();
    for _ in 0..TURNS {
        totals = with_turn(totals, &entries.attributes, &entries.bytes, entries.count)?;
    }
    Ok(totals)
}
