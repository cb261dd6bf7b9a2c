// Values of attributes.
use crate::whole::Whole;
use dw_base::Span;

/// The value of an attribute. Spans count from the first byte of the section that the value stands in.
#[derive(Clone, Copy, Debug, PartialEq, Eq)]
pub enum Value {
    /// An address.
    Addr(u64),
    /// The number of an address in an address table.
    AddrIndex(u64),
    /// A constant whose sign is known, or makes no difference.
    Int(Whole),
    /// The width in bytes of a constant that doesn't tell its sign, and its bits, of which the top one is set.
    Fixed(u8, u64),
    /// A constant of sixteen bytes.
    Wide16(Span),
    Flag(bool),
    Block(Span),
    /// The operations of an expression.
    Expr(Span),
    /// A reference that counts from the first byte of its unit.
    LocalRef(u64),
    /// A reference that counts from the first byte of .debug_info.
    SectionRef(u64),
    /// The signature of a type unit.
    Signature(u64),
    /// The width in bytes of a reference into a supplementary file, and the reference.
    SupRef(u8, u64),
    /// A text, without its zero byte.
    Text(Span),
    /// An offset into .debug_str.
    StrOffset(u64),
    /// An offset into .debug_line_str.
    LineStrOffset(u64),
    /// An offset into the strings of a supplementary file.
    SupStr(u64),
    /// The number of a string in the string offsets.
    StrIndex(u64),
    /// An offset into another section, which the attribute tells.
    Offset(u64),
    /// The number of a location list.
    LocIndex(u64),
    /// The number of a range list.
    RangeIndex(u64),
}

// All values of a file are held at once.
const _: () = prove!(size_of::<Value>() == 24);

/// A value, and the place after its last byte.
#[derive(Clone, Copy, Debug, PartialEq, Eq)]
pub struct ReadValue {
    pub value: Value,
    pub end: usize,
}
