// Records of what was shown.

/// So many pairs of line_base and line_range in a row, in the order of line_range and then line_base, for each of which the
/// same number of a program's different steps shows that it isn't better.
#[derive(Clone, Copy, Debug, PartialEq, Eq)]
pub struct Run {
    /// How many pairs.
    pub len: u32,
    /// How many different steps.
    pub number: u32,
}
