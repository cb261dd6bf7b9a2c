//! Range lists (DWARF 5 sections 2.17.3 and 7.25): their entries, and the ranges that they say.
#![tactic(auto)]

mod items;
mod laws;
mod read;

pub use items::range_items;
pub use laws::{ranges_end, ranges_mean, ranges_written};
pub use read::read_ranges;
