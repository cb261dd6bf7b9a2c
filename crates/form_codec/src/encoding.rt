// How the bytes of a value are written in the shape of a form.
ghost use Rattle.std.specs.Prelude.{◌≡◌, ◌≤◌, ◌<◌, ◌+◌, ◌-◌, ◌*◌, ◌^◌, ℕ, ℤ, List, MatchOption, FitsSigned, IfSome, true, false};
ghost use Rattle.form_codec.specs.declared.encoding.Encoding.TheVariants as encoding;
ghost use Rattle.std.specs.Int.{w64};
ghost use Rattle.form_codec.specs.declared.form.Shape.TheVariants as shape;
ghost use Rattle.form_codec.specs.Forms.{size_of, in_role as meant_in_role};
ghost use Rattle.form_codec.specs.Forms.Meaning.{Whole, Data};
ghost use Rattle.form_codec.specs.Values.{meant_in, bytes_in};
ghost use Rattle.form_codec.specs.Written.{HasNoEncoding, HasConstant};
ghost use Rattle.form_codec.specs.inside.Written.{HasNumber, IsNumbered, IsInRole, IsEncoding};

use crate::form::{Content, Role, Shape, Width};
use crate::value::Value;
use dw_base::Span;

/// What is written of a value.
#[derive(Clone, Copy)]
pub enum Encoding {
    Nothing,
    Fixed(Width, u64),
    Uleb(u64),
    Sleb(i64),
    Counted(Width, Span),
    UlebCounted(Span),
    Bytes(Span),
    Text(Span),
}

// The number in a value, where it fits 64 bits.
fn number_of_value(value: &Value) -> Option<u64>
    ensures { MatchOption result ((section : List ℕ) (m : ℕ) → m < 2 ^ 64 → HasNumber (meant_in section value.now) m → ⊥) (λ n. (section : List ℕ) → HasNumber (meant_in section value.now) n) }
{
    match *value {
        Value::Addr(number) => Some(number),
        Value::AddrIndex(number) => Some(number),
        Value::Int(number) => u64::try_from(number.get()).ok(),
        Value::Fixed(_, bits) => Some(bits),
        Value::Flag(set) => Some(u64::from(set)),
        Value::LocalRef(place) => Some(place),
        Value::SectionRef(place) => Some(place),
        Value::Signature(number) => Some(number),
        Value::SupRef(_, place) => Some(place),
        Value::StrOffset(place) => Some(place),
        Value::LineStrOffset(place) => Some(place),
        Value::SupStr(place) => Some(place),
        Value::StrIndex(number) => Some(number),
        Value::Offset(place) => Some(place),
        Value::LocIndex(number) => Some(number),
        Value::RangeIndex(number) => Some(number),
        Value::Wide16(_) => None,
        Value::Block(_) => None,
        Value::Expr(_) => None,
        Value::Text(_) => None,
    }
}

// Whether a value is what its number means in a role.
#[inline(always)]
fn has_role(role: Role, width: Width, number: u64, value: &Value) -> bool
    ensures fits { number < 2 ^ 64 }
    ensures same { result ≡ true → IsNumbered value.now number → IsInRole role width value.now number }
    ensures differs { result ≡ false → IsNumbered value.now number → (section : List ℕ) → meant_in section value.now ≡ meant_in_role role width number → ⊥ }
{
    match (role, *value) {
        (Role::Address, Value::Addr(_)) => true,
        (Role::AddrIndex, Value::AddrIndex(_)) => true,
        (Role::Data, Value::Int(_)) => number < width.half(),
        (Role::Data, Value::Fixed(size, _)) => size == width.size() && number >= width.half(),
        (Role::Unsigned, Value::Int(_)) => true,
        (Role::Truth, Value::Flag(_)) => true,
        (Role::LocalRef, Value::LocalRef(_)) => true,
        (Role::SectionRef, Value::SectionRef(_)) => true,
        (Role::Signature, Value::Signature(_)) => true,
        (Role::SupRef, Value::SupRef(size, _)) => size == width.size(),
        (Role::StrOffset, Value::StrOffset(_)) => true,
        (Role::LineStrOffset, Value::LineStrOffset(_)) => true,
        (Role::SupStr, Value::SupStr(_)) => true,
        (Role::StrIndex, Value::StrIndex(_)) => true,
        (Role::Offset, Value::Offset(_)) => true,
        (Role::LocIndex, Value::LocIndex(_)) => true,
        (Role::RangeIndex, Value::RangeIndex(_)) => true,
        _ => false,
    }
}

// The least number whose meaning in a role is this value.
#[inline(always)]
fn number_in(role: Role, width: Width, value: &Value) -> Option<u64>
    ensures fits { IfSome result (λ n. n < 2 ^ 64) }
    ensures number { MatchOption result ((section : List ℕ) (m : ℕ) → m < 2 ^ 64 → meant_in section value.now ≡ meant_in_role role width m → ⊥) (λ n. (section : List ℕ) → meant_in section value.now ≡ meant_in_role role width n) }
    ensures least { IfSome result (λ n. (section : List ℕ) (m : ℕ) → meant_in section value.now ≡ meant_in_role role width m → n ≤ m) }
{
    let Some(number) = number_of_value(value) else {
        return None;
    };
    if has_role(role, width, number, value) {
        Some(number)
    } else {
        None
    }
}

// The constant of a value, where it fits a signed number of 64 bits.
pub(crate) fn constant_in(value: &Value) -> Option<i64>
    ensures fits { IfSome result (λ v. FitsSigned w64 v) }
    ensures constant { MatchOption result ((section : List ℕ) (v : ℤ) → FitsSigned w64 v → meant_in section value.now ≡ Whole v → ⊥) (λ v. (section : List ℕ) → meant_in section value.now ≡ Whole v) }
{
    match *value {
        Value::Int(constant) => i64::try_from(constant.get()).ok(),
        _ => None,
    }
}

#[inline(always)]
fn fixed_encoding(width: Width, role: Role, value: &Value) -> Option<Encoding>
    ensures { MatchOption result (HasNoEncoding (shape.Number width role) value.now) (IsEncoding (shape.Number width role) value.now) }
{
    let Some(number) = number_in(role, width, value) else {
        return None;
    };
    if number > width.greatest() {
        return None;
    }
    Some(Encoding::Fixed(width, number))
}

#[inline(always)]
fn uleb_encoding(role: Role, value: &Value) -> Option<Encoding>
    ensures { MatchOption result (HasNoEncoding (shape.Uleb role) value.now) (IsEncoding (shape.Uleb role) value.now) }
{
    let Some(number) = number_in(role, Width::Eight, value) else {
        return None;
    };
    Some(Encoding::Uleb(number))
}

fn sleb_encoding(value: &Value) -> Option<Encoding>
    ensures { MatchOption result (HasNoEncoding shape.Sleb value.now) (IsEncoding shape.Sleb value.now) }
{
    let Some(constant) = constant_in(value) else {
        return None;
    };
    Some(Encoding::Sleb(constant))
}

fn constant_encoding(constant: i64, value: &Value) -> Option<Encoding>
    ensures { MatchOption result (HasNoEncoding (shape.Constant constant) value.now) (IsEncoding (shape.Constant constant) value.now) }
{
    let Some(held) = constant_in(value) else {
        return None;
    };
    if held != constant {
        return None;
    }
    Some(Encoding::Nothing)
}

fn present_encoding(value: &Value) -> Option<Encoding>
    ensures { MatchOption result (HasNoEncoding shape.Present value.now) (IsEncoding shape.Present value.now) }
{
    match *value {
        Value::Flag(true) => Some(Encoding::Nothing),
        _ => None,
    }
}

fn counted_encoding(width: Width, value: &Value) -> Option<Encoding>
    ensures { MatchOption result (HasNoEncoding (shape.Counted width) value.now) (IsEncoding (shape.Counted width) value.now) }
{
    let Value::Block(span) = *value else {
        return None;
    };
    if span.len > width.greatest() {
        return None;
    }
    Some(Encoding::Counted(width, span))
}

// A count in unsigned LEB128 and a span of so many bytes.
fn uleb_counted(at: u64, len: u64) -> Encoding
    ensures fits { len < 2 ^ 64 }
    ensures encoding { result ≡ encoding.UlebCounted (record { at = at; len = len }) }
{
    Encoding::UlebCounted(Span { at, len })
}

fn uleb_counted_encoding(content: Content, value: &Value) -> Option<Encoding>
    ensures { MatchOption result (HasNoEncoding (shape.UlebCounted content) value.now) (IsEncoding (shape.UlebCounted content) value.now) }
{
    match content {
        Content::Data => {
            let Value::Block(span) = *value else {
                return None;
            };
            Some(uleb_counted(span.at, span.len))
        }
        Content::Expression => {
            let Value::Expr(span) = *value else {
                return None;
            };
            Some(uleb_counted(span.at, span.len))
        }
    }
}

fn sixteen_encoding(value: &Value) -> Option<Encoding>
    ensures { MatchOption result (HasNoEncoding shape.Sixteen value.now) (IsEncoding shape.Sixteen value.now) }
{
    let Value::Wide16(span) = *value else {
        return None;
    };
    if span.len != 16 {
        return None;
    }
    Some(Encoding::Bytes(span))
}

fn text_encoding(value: &Value) -> Option<Encoding>
    ensures { MatchOption result (HasNoEncoding shape.ZeroEnded value.now) (IsEncoding shape.ZeroEnded value.now) }
{
    let Value::Text(span) = *value else {
        return None;
    };
    Some(Encoding::Text(span))
}

/// What is written of a value in a shape, or None where no bytes of this shape spell the value.
#[inline(always)]
pub fn encoding_of(shape: Shape, value: &Value) -> Option<Encoding>
    requires { HasConstant shape }
    ensures { MatchOption result (HasNoEncoding shape value.now) (IsEncoding shape value.now) }
{
    match shape {
        Shape::Constant(constant) => constant_encoding(constant, value),
        Shape::Present => present_encoding(value),
        Shape::Number(width, role) => fixed_encoding(width, role, value),
        Shape::Uleb(role) => uleb_encoding(role, value),
        Shape::Sleb => sleb_encoding(value),
        Shape::Counted(width) => counted_encoding(width, value),
        Shape::UlebCounted(content) => uleb_counted_encoding(content, value),
        Shape::Sixteen => sixteen_encoding(value),
        Shape::ZeroEnded => text_encoding(value),
    }
}
