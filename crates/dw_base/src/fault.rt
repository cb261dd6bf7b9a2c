// What a refusal says: a kind of fault and a place in the file.
ghost use Rattle.std.specs.Prelude.{◌≡◌};
ghost use Rattle.dw_base.specs.Fault.{name_of};

use std::alloc::{AllocError, AllocFailed};

/// A run of `len` bytes whose first byte stands at `at`, counted from 0.
#[derive(Clone, Copy, Debug, PartialEq, Eq)]
pub struct Span {
    /// The place of the first byte.
    pub at: u64,
    /// How many bytes there are.
    pub len: u64,
}

/// Why a file is refused. docs/FORMATS.md says of each kind exactly where it holds.
#[derive(Clone, Copy, Debug, PartialEq, Eq)]
pub enum Kind {
    /// The file is too short for an ELF-64 header, or its first 7 bytes aren't those of a little-endian ELF-64 file.
    NotElf64,
    /// The file is neither an executable nor a shared object.
    FileType,
    /// A header table, a program header's range, a section or a section name leaves the file.
    Torn,
    /// A section or the program header table reaches over the end of what keeps its place, or over `e_shoff`.
    Overlap,
    /// A debug section is compressed.
    Compressed,
    /// A relocation section applies to a debug section.
    Relocated,
    /// Two sections have the same debug name.
    TwoSections,
    /// A debug section that is to be rewritten can't be moved.
    Placed,
    /// A section that speaks of debug sections isn't one that is understood.
    Companion,
    /// A count or a size is past its limit.
    Limit,
    /// The value of a LEB128 number doesn't fit its type (DWARF 5 section 7.6).
    LebWide,
    /// An item doesn't end inside the thing that holds it.
    Short,
    /// A form, a children byte or a pair of name and form isn't one that is understood (DWARF 5 section 7.5.6).
    FormUnknown,
    /// An abbreviation table declares a code twice.
    CodeTwice,
    /// An entry's abbreviation code isn't declared.
    CodeMissing,
    /// A unit header differs from what is understood (DWARF 5 section 7.5.1).
    UnitHead,
    /// The entries of a unit make no tree.
    Tree,
    /// A reference has no target of its kind.
    Target,
    /// An offset or an index names nothing.
    Pointer,
    /// An index needs a base that the unit doesn't give.
    NoBase,
    /// A list entry, or the header of a contribution or an address table, isn't understood.
    ListEntry,
    /// A list that can't be changed has a reference into a unit.
    ListShared,
    /// An operation of an expression isn't understood (DWARF 5 section 7.7.1).
    Op,
    /// A branch of an expression goes to no operation.
    Branch,
    /// The header of a line program differs from what is understood (DWARF 5 section 6.2.4).
    LineHead,
    /// An extended opcode of a line program isn't understood (DWARF 5 section 6.2.5.3).
    LineOp,
    /// The rows of a line program don't end with an end of a sequence.
    OpenSequence,
    /// A row's line or an advance of an address is out of range.
    LineValue,
    /// A text has no zero byte at its end.
    Text,
    /// A set of address ranges differs from what is understood (DWARF 5 section 6.1.2).
    Aranges,
    /// A part of the file that can't be rewritten yet.
    Unbuilt,
}

/// A kind of fault and the offset in the file, counted from 0, of the byte that it is said of.
#[derive(Clone, Copy, Debug, PartialEq, Eq)]
pub struct Fault {
    pub kind: Kind,
    pub place: u64,
}

/// Memory was wanting.
#[derive(Clone, Copy, Debug, PartialEq, Eq)]
pub struct NoMemory;

/// Why a reader gives nothing: the bytes have a fault, or memory was wanting.
#[derive(Clone, Copy, Debug, PartialEq, Eq)]
pub enum Refusal {
    /// The bytes have this fault.
    Refused(Fault),
    /// Memory was wanting.
    NoMemory,
}

/// Which limits a file is held to: the narrow ones of an input, or the wide ones of an output.
#[derive(Clone, Copy, Debug, PartialEq, Eq)]
pub enum Reach {
    /// The limits of an input.
    Narrow,
    /// The limits of an output.
    Wide,
}

impl Kind {
    /// The word for the kind, as a refusal says it.
    pub fn name(&self) -> &'static str
        ensures { result.now ≡ name_of self.now }
    {
        match self {
            Kind::NotElf64 => "NotElf64",
            Kind::FileType => "FileType",
            Kind::Torn => "Torn",
            Kind::Overlap => "Overlap",
            Kind::Compressed => "Compressed",
            Kind::Relocated => "Relocated",
            Kind::TwoSections => "TwoSections",
            Kind::Placed => "Placed",
            Kind::Companion => "Companion",
            Kind::Limit => "Limit",
            Kind::LebWide => "LebWide",
            Kind::Short => "Short",
            Kind::FormUnknown => "FormUnknown",
            Kind::CodeTwice => "CodeTwice",
            Kind::CodeMissing => "CodeMissing",
            Kind::UnitHead => "UnitHead",
            Kind::Tree => "Tree",
            Kind::Target => "Target",
            Kind::Pointer => "Pointer",
            Kind::NoBase => "NoBase",
            Kind::ListEntry => "ListEntry",
            Kind::ListShared => "ListShared",
            Kind::Op => "Op",
            Kind::Branch => "Branch",
            Kind::LineHead => "LineHead",
            Kind::LineOp => "LineOp",
            Kind::OpenSequence => "OpenSequence",
            Kind::LineValue => "LineValue",
            Kind::Text => "Text",
            Kind::Aranges => "Aranges",
            Kind::Unbuilt => "Unbuilt",
        }
    }
}

impl From<AllocError> for NoMemory {
    fn from(_: AllocError) -> Self {
        NoMemory
    }
}

impl<T: Drop> From<AllocFailed<T>> for NoMemory {
    fn from(_: AllocFailed<T>) -> Self {
        NoMemory
    }
}

impl From<NoMemory> for Refusal {
    ghost use Rattle.dw_base.specs.declared.fault.Refusal.TheVariants.{NoMemory};

    ghost from_gives = { λ _ e. e ≡ NoMemory };

    fn from(_: NoMemory) -> Self {
        Refusal::NoMemory
    }
}

impl From<Fault> for Refusal {
    ghost use Rattle.dw_base.specs.declared.fault.Refusal.TheVariants.{Refused};

    ghost from_gives = { λ f e. e ≡ Refused f };

    fn from(fault: Fault) -> Self {
        Refusal::Refused(fault)
    }
}

impl From<AllocError> for Refusal {
    ghost use Rattle.dw_base.specs.declared.fault.Refusal.TheVariants.{NoMemory};

    ghost from_gives = { λ _ e. e ≡ NoMemory };

    fn from(_: AllocError) -> Self {
        Refusal::NoMemory
    }
}

impl<T: Drop> From<AllocFailed<T>> for Refusal {
    ghost use Rattle.dw_base.specs.declared.fault.Refusal.TheVariants.{NoMemory};

    ghost from_gives = { λ _ e. e ≡ NoMemory };

    fn from(_: AllocFailed<T>) -> Self {
        Refusal::NoMemory
    }
}
