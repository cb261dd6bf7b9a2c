// Lists that are to be written.
use list_least::Plan;
use loc_lists::ViewPair;

/// Expressions one after the other. Bytes behind the last one's end aren't used.
#[derive(Drop)]
pub struct NewExpressions {
    /// Their bytes.
    pub bytes: Vec<u8>,
    /// Where each ends in these.
    pub ends: Vec<u32>,
}

/// A run of view pairs, which are an extension of GNU's.
#[derive(Drop)]
pub struct ViewRun {
    /// Where it begins, counted from the first byte of the section.
    pub at: u64,
    /// Its pairs.
    pub pairs: Vec<ViewPair>,
}

/// A list that something names, and how it is to be written. Places count from the first byte of the section.
#[derive(Drop)]
pub struct NamedList {
    /// The number of the contribution in which it begins, counted from 0.
    pub part: u32,
    /// Where it begins.
    pub at: u64,
    /// Its entries. Those of a list that is kept, as a frozen one is in all classes, are its own.
    pub plan: Plan,
    /// The expressions of its items, in their order; a range list has none.
    pub expressions: NewExpressions,
    /// The view pairs that go with it, in the order in which they are to stand before it; a range list has none.
    pub views: Vec<ViewRun>,
}
