// Entries, and the codes 0 that end their children.

/// An entry (DWARF 5 section 2.3).
#[derive(Clone, Copy, Debug, PartialEq, Eq)]
pub struct Entry {
    /// The place of its abbreviation code, counted from the first byte of the section.
    pub at: u32,
    /// How many bytes its code and its values have.
    pub len: u32,
    /// How many entries it stands below: 0 for the root.
    pub depth: u32,
    /// The number of its declaration in the abbreviation table, counted from 0.
    pub decl: u32,
    /// The number of its first value among the values of the forest, counted from 0.
    pub first: u32,
    /// How many values it has.
    pub count: u32,
}

/// A code 0, which ends the children of an entry (DWARF 5 section 7.5.2).
#[derive(Clone, Copy, Debug, PartialEq, Eq)]
pub struct ChainEnd {
    /// The number of the entry whose children end, counted from 0.
    pub entry: u32,
    /// The place of the code, counted from the first byte of the section.
    pub at: u32,
}

/// What begins at a place.
#[derive(Clone, Copy, Debug, PartialEq, Eq)]
pub enum Target {
    /// The entry with this number.
    Entry(u32),
    /// The code 0 that ends the children of the entry with this number.
    ChainEnd(u32),
}
