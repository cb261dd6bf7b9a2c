// Values of all forms, read.
ghost use Rattle.std.specs.Prelude.{◌≡◌, ◌≤◌, ◌<◌, ◌+◌, ◌-◌, ◌*◌, ◌%◌, ◌^◌, ℕ, ℤ, List, ◌↔◌, length, take, drop, IfOk, IfErr, IsTrue, MatchOption};
ghost use Rattle.form_codec.specs.declared.form.Shape.TheVariants as shape;
ghost use Rattle.fixed_width.specs.Numbers.{number};
ghost use Rattle.form_codec.specs.Forms.{IsKnown, size_of, shape_of, data_of, in_role as meant_in_role, of_content as meant_content, HasNoZero};
ghost use Rattle.form_codec.specs.Faults.{FaultShape, FaultValue};
ghost use Rattle.form_codec.specs.Values.{meant_in, bytes_in, IsPlaced, IsReadValue, IsValueIn};
ghost use Rattle.form_codec.specs.inside.Values.{IsReadShape, IsFirstZero};

use crate::form::{Content, Form, Role, Width};
use crate::signs::constant_role;
use crate::value::{ReadValue, Value};
use crate::whole::Whole;
use byteorder::{ByteOrder, LittleEndian};
use dw_base::{Fault, Kind, Span};
use leb_codec::{LebFault, read_s, read_u};

// A number that doesn't tell its sign.
fn data(width: Width, number: u64) -> Value
    ensures placed { (at size : ℕ) → IsPlaced result at size }
    ensures means { (bytes : List ℕ) → meant_in bytes result ≡ data_of (size_of width) number }
{
    if number >= width.half() {
        Value::Fixed(width.size(), number)
    } else {
        Value::Int(Whole::unsigned(number))
    }
}

// What a number means in its role.
pub(crate) fn in_role(role: Role, width: Width, number: u64) -> Value
    ensures fits { number < 2 ^ 64 }
    ensures means { (bytes : List ℕ) → meant_in bytes result ≡ meant_in_role role width number }
    ensures placed { (at size : ℕ) → IsPlaced result at size }
{
    match role {
        Role::Address => Value::Addr(number),
        Role::AddrIndex => Value::AddrIndex(number),
        Role::Data => data(width, number),
        Role::Unsigned => Value::Int(Whole::unsigned(number)),
        Role::Truth => Value::Flag(number >= 1),
        Role::LocalRef => Value::LocalRef(number),
        Role::SectionRef => Value::SectionRef(number),
        Role::Signature => Value::Signature(number),
        Role::SupRef => Value::SupRef(width.size(), number),
        Role::StrOffset => Value::StrOffset(number),
        Role::LineStrOffset => Value::LineStrOffset(number),
        Role::SupStr => Value::SupStr(number),
        Role::StrIndex => Value::StrIndex(number),
        Role::Offset => Value::Offset(number),
        Role::LocIndex => Value::LocIndex(number),
        Role::RangeIndex => Value::RangeIndex(number),
    }
}

// What a block holds.
fn of_content(content: Content, span: Span) -> Value
    ensures means { (bytes : List ℕ) → meant_in bytes result ≡ meant_content content (bytes_in bytes span) }
    ensures placed { (at size : ℕ) → span.at + span.len ≡ size → IsPlaced result at size }
{
    match content {
        Content::Data => Value::Block(span),
        Content::Expression => Value::Expr(span),
    }
}

// The number at the front.
#[tactic(auto, unfolding(fixed_width::specs::Numbers::number))]
fn number_of(rest: &[u8], width: Width) -> u64
    requires { size_of width ≤ length rest.now }
    ensures { result ≡ number (size_of width) rest.now }
{
    match width {
        Width::One => u64::from(rest[0]),
        Width::Two => u64::from(LittleEndian::read_u16(rest)),
        Width::Three => u64::from(LittleEndian::read_u24(rest)),
        Width::Four => u64::from(LittleEndian::read_u32(rest)),
        Width::Eight => LittleEndian::read_u64(rest),
    }
}

// Reads a number of fixed size that begins at a place.
fn read_number(bytes: &[u8], at: usize, width: Width, role: Role) -> Result<ReadValue, Kind>
    requires { at ≤ length bytes.now }
    ensures read { IfOk result (IsReadShape (shape.Number width role) bytes.now at) }
    ensures fault { IfErr result (λ kind. FaultShape (shape.Number width role) kind (drop at bytes.now)) }
{
    let rest = &bytes[at..];
    let size = usize::from(width.size());
    if rest.len() < size {
        return Err(Kind::Short);
    }
    Ok(ReadValue {
        value: in_role(role, width, number_of(rest, width)),
        end: at + size,
    })
}

// Reads a number in unsigned LEB128.
fn read_uleb(bytes: &[u8], at: usize, role: Role) -> Result<ReadValue, Kind>
    requires { at ≤ length bytes.now }
    ensures read { IfOk result (IsReadShape (shape.Uleb role) bytes.now at) }
    ensures fault { IfErr result (λ kind. FaultShape (shape.Uleb role) kind (drop at bytes.now)) }
{
    match read_u(bytes, at) {
        Ok(read) => Ok(ReadValue {
            value: in_role(role, Width::Eight, read.value),
            end: read.end,
        }),
        Err(LebFault::Short) => Err(Kind::Short),
        Err(LebFault::Wide) => Err(Kind::LebWide),
    }
}

// Reads a constant in signed LEB128.
fn read_sleb(bytes: &[u8], at: usize) -> Result<ReadValue, Kind>
    requires { at ≤ length bytes.now }
    ensures read { IfOk result (IsReadShape shape.Sleb bytes.now at) }
    ensures fault { IfErr result (λ kind. FaultShape shape.Sleb kind (drop at bytes.now)) }
{
    match read_s(bytes, at) {
        Ok(read) => Ok(ReadValue {
            value: Value::Int(Whole::signed(read.value)),
            end: read.end,
        }),
        Err(LebFault::Short) => Err(Kind::Short),
        Err(LebFault::Wide) => Err(Kind::LebWide),
    }
}

// Reads a count of fixed size and as many bytes.
fn read_counted(bytes: &[u8], at: usize, width: Width) -> Result<ReadValue, Kind>
    requires { at ≤ length bytes.now }
    ensures read { IfOk result (IsReadShape (shape.Counted width) bytes.now at) }
    ensures fault { IfErr result (λ kind. FaultShape (shape.Counted width) kind (drop at bytes.now)) }
{
    let rest = &bytes[at..];
    let size = usize::from(width.size());
    if rest.len() < size {
        return Err(Kind::Short);
    }
    let count = number_of(rest, width);
    if count > (rest.len() - size) as u64 {
        return Err(Kind::Short);
    }
    Ok(ReadValue {
        value: Value::Block(Span {
            at: (at + size) as u64,
            len: count,
        }),
        end: at + size + count as usize,
    })
}

// Reads a count in unsigned LEB128 and as many bytes.
fn read_uleb_counted(bytes: &[u8], at: usize, content: Content) -> Result<ReadValue, Kind>
    requires { at ≤ length bytes.now }
    ensures read { IfOk result (IsReadShape (shape.UlebCounted content) bytes.now at) }
    ensures fault { IfErr result (λ kind. FaultShape (shape.UlebCounted content) kind (drop at bytes.now)) }
{
    match read_u(bytes, at) {
        Ok(head) => {
            if head.value > (bytes.len() - head.end) as u64 {
                return Err(Kind::Short);
            }
            let span = Span {
                at: head.end as u64,
                len: head.value,
            };
            Ok(ReadValue {
                value: of_content(content, span),
                end: head.end + head.value as usize,
            })
        }
        Err(LebFault::Short) => Err(Kind::Short),
        Err(LebFault::Wide) => Err(Kind::LebWide),
    }
}

// Reads sixteen bytes.
fn read_sixteen(bytes: &[u8], at: usize) -> Result<ReadValue, Kind>
    requires { at ≤ length bytes.now }
    ensures read { IfOk result (IsReadShape shape.Sixteen bytes.now at) }
    ensures fault { IfErr result (λ kind. FaultShape shape.Sixteen kind (drop at bytes.now)) }
{
    if bytes.len() - at < 16 {
        return Err(Kind::Short);
    }
    Ok(ReadValue {
        value: Value::Wide16(Span {
            at: at as u64,
            len: 16,
        }),
        end: at + 16,
    })
}

// The place of the first zero byte.
fn first_zero(bytes: &[u8]) -> Option<usize>
    ensures { MatchOption result (HasNoZero bytes.now) (λ n. IsFirstZero n bytes.now) }
{
    for (place, byte) in bytes.iter().enumerate() {
        if *byte == 0 {
            return Some(place);
        }
    }
    None
}

// Reads a text up to a zero byte.
fn read_zero_ended(bytes: &[u8], at: usize) -> Result<ReadValue, Kind>
    requires { at ≤ length bytes.now }
    ensures read { IfOk result (IsReadShape shape.ZeroEnded bytes.now at) }
    ensures fault { IfErr result (λ kind. FaultShape shape.ZeroEnded kind (drop at bytes.now)) }
{
    let Some(len) = first_zero(&bytes[at..]) else {
        return Err(Kind::Text);
    };
    Ok(ReadValue {
        value: Value::Text(Span {
            at: at as u64,
            len: len as u64,
        }),
        end: at + len + 1,
    })
}

// Reads a value in a form. Each form has an arm of its own, in which its shape is known, so that one jump finds the code.
#[inline(always)]
fn read_form(
    bytes: &[u8],
    at: usize,
    name: u64,
    form: Form,
    constant: i64,
) -> Result<ReadValue, Kind>
    requires { at ≤ length bytes.now }
    ensures read { IfOk result (IsReadShape (shape_of form name constant) bytes.now at) }
    ensures fault { IfErr result (λ kind. FaultShape (shape_of form name constant) kind (drop at bytes.now)) }
{
    match form {
        Form::Addr => read_number(bytes, at, Width::Eight, Role::Address),
        Form::Block2 => read_counted(bytes, at, Width::Two),
        Form::Block4 => read_counted(bytes, at, Width::Four),
        Form::Block1 => read_counted(bytes, at, Width::One),
        Form::Block => read_uleb_counted(bytes, at, Content::Data),
        Form::Data1 => read_number(bytes, at, Width::One, constant_role(name)),
        Form::Data2 => read_number(bytes, at, Width::Two, constant_role(name)),
        Form::Data4 => read_number(bytes, at, Width::Four, constant_role(name)),
        Form::Data8 => read_number(bytes, at, Width::Eight, constant_role(name)),
        Form::Data16 => read_sixteen(bytes, at),
        Form::Sdata => read_sleb(bytes, at),
        Form::Udata => read_uleb(bytes, at, Role::Unsigned),
        Form::ImplicitConst => Ok(ReadValue {
            value: Value::Int(Whole::signed(constant)),
            end: at,
        }),
        Form::Flag => read_number(bytes, at, Width::One, Role::Truth),
        Form::FlagPresent => Ok(ReadValue {
            value: Value::Flag(true),
            end: at,
        }),
        Form::String => read_zero_ended(bytes, at),
        Form::Strp => read_number(bytes, at, Width::Four, Role::StrOffset),
        Form::LineStrp => read_number(bytes, at, Width::Four, Role::LineStrOffset),
        Form::StrpSup => read_number(bytes, at, Width::Four, Role::SupStr),
        Form::Strx => read_uleb(bytes, at, Role::StrIndex),
        Form::Strx1 => read_number(bytes, at, Width::One, Role::StrIndex),
        Form::Strx2 => read_number(bytes, at, Width::Two, Role::StrIndex),
        Form::Strx3 => read_number(bytes, at, Width::Three, Role::StrIndex),
        Form::Strx4 => read_number(bytes, at, Width::Four, Role::StrIndex),
        Form::Addrx => read_uleb(bytes, at, Role::AddrIndex),
        Form::Addrx1 => read_number(bytes, at, Width::One, Role::AddrIndex),
        Form::Addrx2 => read_number(bytes, at, Width::Two, Role::AddrIndex),
        Form::Addrx3 => read_number(bytes, at, Width::Three, Role::AddrIndex),
        Form::Addrx4 => read_number(bytes, at, Width::Four, Role::AddrIndex),
        Form::Ref1 => read_number(bytes, at, Width::One, Role::LocalRef),
        Form::Ref2 => read_number(bytes, at, Width::Two, Role::LocalRef),
        Form::Ref4 => read_number(bytes, at, Width::Four, Role::LocalRef),
        Form::Ref8 => read_number(bytes, at, Width::Eight, Role::LocalRef),
        Form::RefUdata => read_uleb(bytes, at, Role::LocalRef),
        Form::RefAddr => read_number(bytes, at, Width::Four, Role::SectionRef),
        Form::RefSig8 => read_number(bytes, at, Width::Eight, Role::Signature),
        Form::RefSup4 => read_number(bytes, at, Width::Four, Role::SupRef),
        Form::RefSup8 => read_number(bytes, at, Width::Eight, Role::SupRef),
        Form::SecOffset => read_number(bytes, at, Width::Four, Role::Offset),
        Form::Exprloc => read_uleb_counted(bytes, at, Content::Expression),
        Form::Loclistx => read_uleb(bytes, at, Role::LocIndex),
        Form::Rnglistx => read_uleb(bytes, at, Role::RangeIndex),
    }
}

/// Whether a form is one of those of DWARF 5 section 7.5.6 that are read here: all but DW_FORM_indirect.
pub fn known(form: u64) -> bool
    ensures { IsTrue result ↔ IsKnown form }
{
    Form::from_code(form).is_some()
}

// It is inlined, since a call would cost more than most readings: its result is copied.

/// Reads the value that begins at `at`, counted from 0 in `section`, of an attribute with this name, in the form with this code (DWARF 5
/// sections 7.5.4 and 7.5.6). The name tells of a constant of fixed size whether it has a sign.
/// The value is to end by `end`, and `constant` is that of its declaration, which only implicit_const reads. Padded
/// LEB128 numbers are read.
///
/// The fault is Short where the bytes up to `end` end inside the value, LebWide where a LEB128 number in it doesn't fit
/// 64 bits, and Text where a text has no zero byte before `end`. Its place is `origin + at`.
#[inline(always)]
pub fn read_value(
    section: &[u8],
    at: usize,
    end: usize,
    name: u64,
    form: u64,
    constant: i64,
    origin: u64,
) -> Result<ReadValue, Fault>
    requires known { IsKnown form }
    requires starts { at ≤ end }
    requires inside { end ≤ length section.now }
    ensures read { IfOk result (IsReadValue name form constant section.now at end) }
    ensures in_section { IfOk result (λ r. IsValueIn section.now r.value) }
    ensures fault { IfErr result (λ f. FaultValue name form constant f.kind (take (end - at) (drop at section.now))) }
    ensures place { IfErr result (λ f. origin + at < 2 ^ 64 → f.place ≡ origin + at) }
{
    let place = origin.wrapping_add(at as u64);
    let Some(form) = Form::from_code(form) else {
        return Err(Fault {
            kind: Kind::FormUnknown,
            place,
        });
    };
    match read_form(&section[..end], at, name, form, constant) {
        Ok(read) => Ok(read),
        Err(kind) => Err(Fault { kind, place }),
    }
}
