// The context of lists.
use crate::tables::AddrTable;

/// The context in which the lists of a unit are read (DWARF 5 sections 2.6.2, 2.17.3, 7.28 and 7.29).
#[derive(Clone, Copy, Debug, PartialEq, Eq)]
pub struct Context {
    /// The address from which offsets count until a list gives another base.
    pub base: u64,
    /// The address table in which indexes are looked up, or None where there is none.
    pub table: Option<AddrTable>,
}
