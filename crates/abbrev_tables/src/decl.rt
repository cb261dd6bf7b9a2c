// Declarations and their columns.
ghost use Rattle.std.specs.Prelude.{◌≡◌, ◌≤◌, ◌+◌, length, take, drop};

/// A declaration of an abbreviation table (DWARF 5 section 7.5.3).
#[derive(Clone, Copy, Debug, PartialEq, Eq)]
pub struct Decl {
    /// The place of its first byte, counted from the first byte of the section.
    pub at: u64,
    /// The code by which entries name it, which isn't 0.
    pub code: u64,
    /// The tag, below 2^32.
    pub tag: u64,
    /// Whether its entries have children.
    pub children: bool,
    /// The number of its first column among the columns of the table, counted from 0.
    pub first: u32,
    /// How many columns it has.
    pub count: u32,
}

/// A column: an attribute of the entries of a declaration.
#[derive(Clone, Copy, Debug, PartialEq, Eq)]
pub struct Spec {
    /// The name of the attribute, from 1 to 2^32 - 1.
    pub name: u64,
    /// The code of its form (DWARF 5 section 7.5.6).
    pub form: u64,
    /// The value in all entries where the form is DW_FORM_implicit_const, else 0.
    pub constant: i64,
}

/// The columns of a declaration, among those of all.
pub(crate) fn columns_of(columns: &[Spec], decl: Decl) -> &[Spec]
    requires { decl.first + decl.count ≤ length columns.now }
    ensures { result.now ≡ take decl.count (drop decl.first columns.now) }
{
    let first = decl.first as usize;
    &columns[first..first + decl.count as usize]
}
