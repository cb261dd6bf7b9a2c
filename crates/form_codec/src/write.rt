// Values chosen for forms, and written.
ghost use Rattle.std.specs.Prelude.{◌≡◌, ◌≤◌, ◌<◌, ◌+◌, ◌^◌, ◌↔◌, ◌++◌, ℕ, ℤ, List, length, IsTrue, OnOk, OnErr, MatchOption, FitsSigned};
ghost use Rattle.std.specs.Int.{w64};
ghost use Rattle.spelled.specs.Spelled.{Appends, AreBytes};
ghost use Rattle.leb_codec.specs.Digits.{Extends};
ghost use Rattle.form_codec.specs.Forms.{Admits, SpellsShape, SpellsShortest, counted};
ghost use Rattle.form_codec.specs.Forms.Meaning.{Whole as WholeMeaning};
ghost use Rattle.form_codec.specs.declared.form.Role.TheVariants as role;
ghost use Rattle.form_codec.specs.declared.form.Shape.TheVariants as shape;
ghost use Rattle.form_codec.specs.declared.value.Value.TheVariants.{Int as IntValue};
ghost use Rattle.form_codec.specs.Values.{meant_in, bytes_in, LiesIn, IsValueIn};
ghost use Rattle.form_codec.specs.Written.{low_bytes, HasConstant, HasNoEncoding, IsShapeSize};
ghost use Rattle.form_codec.specs.inside.Written.{Encodes, SpanLies, HasShortest, HasNoForm, IsFormEncoding, HasNoCode, IsCodeEncoding};

use crate::encoding::{Encoding, constant_in, encoding_of};
use crate::form::{Form, Role, Shape, Width};
use crate::value::Value;
use crate::whole::Whole;
use dw_base::constants::DW_AT_BYTE_SIZE;
use dw_base::{NoMemory, Span};
use leb_codec::{len_s, len_u, put_s, put_u};

// No attribute has this name.
const NO_NAME: u64 = 0;

/// The constant with which DW_FORM_implicit_const can spell a value, where the value is a constant that fits a signed number of 64 bits; it stands
/// in the declaration (DWARF 5 sections 7.5.3 and 7.5.6). Of any other value it says nothing.
pub fn constant_of(value: &Value) -> i64
    ensures { (section : List ℕ) (v : ℤ) → FitsSigned w64 v → meant_in section value.now ≡ WholeMeaning v → v ≡ result }
{
    match constant_in(value) {
        Some(constant) => constant,
        None => 0,
    }
}

// What is written of a value in a form, or None where no bytes of this form spell the value under this name.
fn encoding_in(name: u64, form: Form, value: &Value) -> Option<Encoding>
    ensures { MatchOption result (HasNoForm name form value.now) (IsFormEncoding name form value.now) }
{
    encoding_of(form.shape(name, constant_of(value)), value)
}

// The same of the form with a code.
fn encoding_for(name: u64, code: u64, value: &Value) -> Option<Encoding>
    ensures { MatchOption result (HasNoCode name code value.now) (IsCodeEncoding name code value.now) }
{
    let Some(form) = Form::from_code(code) else {
        return None;
    };
    encoding_in(name, form, value)
}

/// Whether the form with this code can be chosen for a value of an attribute with this name: some bytes of it spell the value, and it isn't
/// one of ref1, ref2, ref4 and ref8, which are never written. Codes of no form that is read here answer false, and ref_udata
/// does so for a reference that counts from the section.
pub fn admits(name: u64, form: u64, value: &Value) -> bool
    ensures { (bytes : List ℕ) → IsValueIn bytes value.now → (IsTrue result ↔ Admits name form (meant_in bytes value.now)) }
{
    let Some(form) = Form::from_code(form) else {
        return false;
    };
    match encoding_in(name, form, value) {
        Some(_) => form.is_written(),
        None => false,
    }
}

// How many bytes are written.
#[inline(always)]
fn encoded_size(encoding: Encoding) -> u64
    ensures { (section bytes : List ℕ) → length section < 2 ^ 63 → SpanLies (length section) encoding → Encodes section encoding bytes → result ≡ length bytes }
{
    match encoding {
        Encoding::Nothing => 0,
        Encoding::Fixed(width, _) => u64::from(width.size()),
        Encoding::Uleb(number) => u64::from(len_u(number)),
        Encoding::Sleb(number) => u64::from(len_s(number)),
        Encoding::Counted(width, span) => u64::from(width.size()).saturating_add(span.len),
        Encoding::UlebCounted(span) => u64::from(len_u(span.len)).saturating_add(span.len),
        Encoding::Bytes(span) => span.len,
        Encoding::Text(span) => span.len.saturating_add(1),
    }
}

// How many bytes the shortest spelling of a value in this shape has, if the shape spells the value: else it says nothing.
#[inline(always)]
fn shaped_size(shape: Shape, value: &Value) -> u64
    ensures { (section bytes : List ℕ) → length section < 2 ^ 63 → IsValueIn section value.now → AreBytes bytes → SpellsShape shape (meant_in section value.now) bytes → HasShortest shape (meant_in section value.now) result }
{
    match shape {
        // Each value that one of these spells has as many bytes, so that it need not be looked at.
        Shape::Constant(_) | Shape::Present => 0,
        Shape::Number(width, _) => u64::from(width.size()),
        _ => match encoding_of(shape, value) {
            Some(encoding) => encoded_size(encoding),
            None => 0,
        },
    }
}

/// The number of bytes that a value of an attribute with this name has in the form with this code, written with the shortest LEB128 numbers.
/// Of a form that doesn't admit the value it says nothing.
pub fn spelled_size(name: u64, code: u64, value: &Value) -> u64
    ensures { (section : List ℕ) → length section < 2 ^ 63 → IsValueIn section value.now → Admits name code (meant_in section value.now) → (written : List ℕ) × SpellsShortest name code (meant_in section value.now) written × (result ≡ length written) }
{
    match Form::from_code(code) {
        Some(form) => shaped_size(form.shape(name, constant_of(value)), value),
        None => 0,
    }
}

// How many of so many bytes of a value count: none of an expression and of a reference that counts from its unit.
#[inline(always)]
fn counted_size(value: &Value, size: u64) -> u64
    ensures { (section : List ℕ) → result ≡ counted (meant_in section value.now) size }
{
    match *value {
        Value::Expr(_) => 0,
        Value::LocalRef(_) => 0,
        _ => size,
    }
}

// What is written of a value in the form with a code under some name, or None where bytes of this form spell the value under no name.
// The form of a constant of fixed size spells some constants only where the name fixes the sign, and others only where it doesn't.
fn encoding_for_some(code: u64, value: &Value) -> Option<Encoding>
    ensures { MatchOption result ((name : ℕ) → HasNoCode name code value.now) (λ encoding. (name : ℕ) × IsCodeEncoding name code value.now encoding) }
{
    match encoding_for(NO_NAME, code, value) {
        Some(encoding) => Some(encoding),
        None => encoding_for(DW_AT_BYTE_SIZE, code, value),
    }
}

/// The number of bytes that a value has in the form with this code, written with the shortest LEB128 numbers; 0 for an
/// expression and for a reference that counts from its unit, which have sizes of their own. It is the same under each name under which the
/// form admits the value; where there is none it says nothing.
pub fn size_of(form: u64, value: &Value) -> u64
    ensures { (section : List ℕ) (name : ℕ) → length section < 2 ^ 63 → IsValueIn section value.now → Admits name form (meant_in section value.now) → (written : List ℕ) × SpellsShortest name form (meant_in section value.now) written × (result ≡ counted (meant_in section value.now) (length written)) }
{
    match encoding_for_some(form, value) {
        Some(encoding) => counted_size(value, encoded_size(encoding)),
        None => 0,
    }
}

// How many bytes a constant has in a form of a width, if it fits.
fn data_size(width: Width, whole: Whole) -> Option<u64>
    ensures { MatchOption result (HasNoEncoding (shape.Number width role.Data) (IntValue whole)) (IsShapeSize (shape.Number width role.Data) (IntValue whole)) }
{
    match u64::try_from(whole.get()) {
        Ok(number) if number < width.half() => Some(u64::from(width.size())),
        _ => None,
    }
}

// How many bytes a constant without a sign has in a form of a width, if it fits.
fn fixed_unsigned_size(width: Width, whole: Whole) -> Option<u64>
    ensures { MatchOption result (HasNoEncoding (shape.Number width role.Unsigned) (IntValue whole)) (IsShapeSize (shape.Number width role.Unsigned) (IntValue whole)) }
{
    match u64::try_from(whole.get()) {
        Ok(number) if number <= width.greatest() => Some(u64::from(width.size())),
        _ => None,
    }
}

// How many bytes a constant has as an unsigned LEB128, if it is one.
fn uleb_size(whole: Whole) -> Option<u64>
    ensures { MatchOption result (HasNoEncoding (shape.Uleb role.Unsigned) (IntValue whole)) (IsShapeSize (shape.Uleb role.Unsigned) (IntValue whole)) }
{
    match u64::try_from(whole.get()) {
        Ok(number) => Some(u64::from(len_u(number))),
        Err(_) => None,
    }
}

// How many bytes a constant has as a signed LEB128, if it is one.
fn signed_size(whole: Whole) -> Option<u64>
    ensures { MatchOption result (HasNoEncoding shape.Sleb (IntValue whole)) (IsShapeSize shape.Sleb (IntValue whole)) }
{
    match i64::try_from(whole.get()) {
        Ok(number) => Some(u64::from(len_s(number))),
        Err(_) => None,
    }
}

// How many bytes a constant has beside a declaration with a constant: none, if it is that one.
fn constant_size(constant: i64, whole: Whole) -> Option<u64>
    requires { FitsSigned w64 constant }
    ensures { MatchOption result (HasNoEncoding (shape.Constant constant) (IntValue whole)) (IsShapeSize (shape.Constant constant) (IntValue whole)) }
{
    if whole.get() == i128::from(constant) {
        Some(0)
    } else {
        None
    }
}

// How many bytes of a value count in a shape, by what would be written.
fn any_size(shape: Shape, value: &Value) -> Option<u64>
    requires { HasConstant shape }
    ensures { MatchOption result (HasNoEncoding shape value.now) (IsShapeSize shape value.now) }
{
    let Some(encoding) = encoding_of(shape, value) else {
        return None;
    };
    Some(counted_size(value, encoded_size(encoding)))
}

/// The number of bytes that a value has in a form of this shape, written with the shortest LEB128 numbers; 0 for an
/// expression and for a reference that counts from its unit. None: no bytes of the shape spell the value. It asks in one
/// step what `admits` and `size_of` ask of a form's code.
#[inline(always)]
pub fn size_in(shape: Shape, value: &Value) -> Option<u64>
    requires { HasConstant shape }
    ensures { MatchOption result (HasNoEncoding shape value.now) (IsShapeSize shape value.now) }
{
    match (shape, *value) {
        // Constants are what columns are most asked for: they are told without what would be written.
        (Shape::Number(width, Role::Data), Value::Int(whole)) => data_size(width, whole),
        (Shape::Number(width, Role::Unsigned), Value::Int(whole)) => fixed_unsigned_size(
            width, whole,
        ),
        (Shape::Uleb(Role::Unsigned), Value::Int(whole)) => uleb_size(whole),
        (Shape::Sleb, Value::Int(whole)) => signed_size(whole),
        (Shape::Constant(constant), Value::Int(whole)) => constant_size(constant, whole),
        _ => any_size(shape, value),
    }
}

/// Appends as many bytes of a number as a width has, the lowest first. An Err leaves a front of these bytes behind `out`.
pub fn put_low(out: &mut Vec<u8>, width: Width, number: u64) -> Result<(), NoMemory>
    ensures ok { OnOk result (out.new.items ≡ out.old.items ++ low_bytes width number) }
    ensures err { OnErr result (Extends out.old.items out.new.items) }
{
    let bytes = number.to_le_bytes();
    out.extend_from_slice(&bytes[..usize::from(width.size())])?;
    Ok(())
}

fn put_span(out: &mut Vec<u8>, span: Span, section: &[u8]) -> Result<(), NoMemory>
    requires { span.at + span.len ≤ length section.now }
    ensures ok { OnOk result (out.new.items ≡ out.old.items ++ bytes_in section.now span) }
    ensures err { OnErr result (Extends out.old.items out.new.items) }
{
    let at = span.at as usize;
    out.extend_from_slice(&section[at..at + span.len as usize])?;
    Ok(())
}

// Appends what is written of a value, or a front of it.
fn append(out: &mut Vec<u8>, encoding: Encoding, section: &[u8]) -> Result<(), NoMemory>
    requires { SpanLies (length section.now) encoding }
    ensures ok { OnOk result (Appends (Encodes section.now) encoding out.old.items out.new.items) }
    ensures err { OnErr result (Extends out.old.items out.new.items) }
{
    match encoding {
        Encoding::Nothing => Ok(()),
        Encoding::Fixed(width, number) => put_low(out, width, number),
        Encoding::Uleb(number) => put_u(out, number),
        Encoding::Sleb(number) => put_s(out, number),
        Encoding::Counted(width, span) => {
            put_low(out, width, span.len)?;
            put_span(out, span, section)
        }
        Encoding::UlebCounted(span) => {
            put_u(out, span.len)?;
            put_span(out, span, section)
        }
        Encoding::Bytes(span) => put_span(out, span, section),
        Encoding::Text(span) => {
            put_span(out, span, section)?;
            out.push(0)?;
            Ok(())
        }
    }
}

/// Appends a value of an attribute with this name in the form with this code, which has to admit it, with the shortest LEB128 numbers
/// (DWARF 5 section 7.5.6). The value's span counts in `section`. A flag is written as 0 or 1. An Err leaves `out` as it was.
pub fn write_value(
    out: &mut Vec<u8>,
    name: u64,
    form: u64,
    value: &Value,
    section: &[u8],
) -> Result<(), NoMemory>
    requires admitted { Admits name form (meant_in section.now value.now) }
    requires inside { LiesIn (length section.now) value.now }
    ensures ok { OnOk result (Appends (SpellsShortest name form) (meant_in section.now value.now) out.old.items out.new.items) }
    ensures err { OnErr result (out.new.items ≡ out.old.items) }
{
    let Some(encoding) = encoding_for(name, form, value) else {
        return Ok(());
    };
    let start = out.len();
    match append(out, encoding, section) {
        Ok(()) => Ok(()),
        Err(error) => {
            out.truncate(start);
            Err(error)
        }
    }
}
