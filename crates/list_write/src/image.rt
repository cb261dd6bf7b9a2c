// A section of lists that is written anew.
use list_model::Contribution;

/// Where a list or a run of view pairs began, and where it begins now. Both places count from the first byte of their section.
#[derive(Clone, Copy, Debug, PartialEq, Eq)]
pub struct Moved {
    pub old: u64,
    pub new: u64,
}

/// A section of lists that is written anew.
#[derive(Drop)]
pub struct ListImage {
    /// The body of the section.
    pub bytes: Vec<u8>,
    /// Its contributions, in the order of the old ones.
    pub parts: Vec<Contribution>,
    /// Where its lists stand, in the order in which they were given.
    pub lists: Vec<Moved>,
    /// Where their view pairs stand, list by list and run by run, in the order in which they were given.
    pub views: Vec<Moved>,
}
