// What changes from row to row.

/// What changes from one row to the next, other than what costs the same under every pair of line_base and line_range
/// (DWARF 5 section 6.2.5).
#[derive(Clone, Copy, Debug, PartialEq, Eq, PartialOrd, Ord)]
pub enum Step {
    /// The line, in lines, and the address, in bytes modulo 2^64.
    Row(i64, u64),
    /// The address before the end of a sequence, in bytes modulo 2^64.
    End(u64),
}
