// Why two files don't mean the same.
use list_model::ListKind;

/// Why a file that was written anew for another isn't accepted with its certificate. All numbers count from 0. `first_difference` answers
/// `Kept`, `Rows`, `Table` and `Differs`, which say that the two files don't mean the same.
#[derive(Clone, Copy, Debug, PartialEq, Eq)]
pub enum Reason {
    /// The certificate is no record file, or a record of it is missing, of another kind or left over, at a place of the certificate.
    Broken(u64),
    /// What is kept of the section with a number differs: its name, a field of its header but for its offset and size, these two too where
    /// it isn't movable, its body where it isn't written anew, or of .debug_aranges its size, a byte outside the places of units, or the
    /// unit of a set. 0 also stands for a loaded byte that no section has, and for another count of sections.
    Kept(u32),
    /// The line number program with a number has other rows, other head fields or other tables, or only one of the files has it.
    Rows(u32),
    /// The contribution of lists of a kind with a number has another count of slots or another list in one of them, or only one of the
    /// files has it.
    Table(ListKind, u32),
    /// The unit with a number has another entry with a number, or only one of the files has that entry. Where the unit itself differs, or
    /// only one of the files has it, the entry is 0.
    Differs(u32, u32),
    /// What stands at a place of the new file isn't in its class.
    Class(u64),
    /// The record of the line number program with a number isn't accepted for the pair of line_base and line_range with a number.
    Line(u32, u32),
    /// The record of the list with a number among those that have one isn't accepted for the item with a number.
    List(u32, u32),
    /// The record of the unit with a number isn't accepted for the slot with a number.
    Slot(u32, u32),
}
