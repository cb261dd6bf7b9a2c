// The entries of lists, as they are held.
use dw_base::Span;

/// Which lists are meant.
#[derive(Clone, Copy, Debug, PartialEq, Eq)]
pub enum ListKind {
    /// Range lists (DWARF 5 section 2.17.3).
    Ranges,
    /// Location lists (DWARF 5 section 2.6.2).
    Locations,
}

/// The kinds of entries (DWARF 5 sections 2.6.2, 2.17.3, 7.7.3 and 7.25), but for the end of a list.
#[derive(Clone, Copy, Debug, PartialEq, Eq)]
pub enum EntryKind {
    /// The address with an index is the base.
    BaseAddressx,
    /// The addresses with two indexes.
    StartxEndx,
    /// The address with an index, and how many addresses from there on.
    StartxLength,
    /// Two offsets from the base.
    OffsetPair,
    /// Every address that no other entry covers. Range lists have no such entry.
    DefaultLocation,
    /// An address is the base.
    BaseAddress,
    /// Two addresses.
    StartEnd,
    /// An address, and how many addresses from there on.
    StartLength,
}

/// What an operand of an entry is.
#[derive(Clone, Copy, Debug, PartialEq, Eq)]
pub enum Operand {
    /// There is none.
    Absent,
    /// A number in unsigned LEB128.
    Number,
    /// An address of 8 bytes.
    Address,
}

/// An entry of a list as it is spelled. Places count from the first byte of the list's section.
#[derive(Clone, Copy, Debug, PartialEq, Eq)]
pub struct RawEntry {
    /// The place of its first byte, which is its code.
    pub at: u64,
    /// The code of its kind, in the kind of list that it is of.
    pub code: u8,
    /// The first operand, or 0 where its kind has none.
    pub a: u64,
    /// The second operand, or 0 where its kind has none.
    pub b: u64,
    /// The bytes of its expression, or none at 0 where its kind has none.
    pub expr: Span,
}
