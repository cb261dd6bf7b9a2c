//! The entries of a unit (DWARF 5 sections 2.3 and 7.5.2) in flat lists, and which bytes of .debug_info spell them.
#![tactic(auto)]

mod entry;
mod forest;
mod laws;
mod operations;
mod values;

pub use entry::{ChainEnd, Entry, Target};
pub use forest::Forest;
pub use laws::{
    chains_end_once, entries_stand, forests_spelled, one_forest, places_follow, runs,
    steps_in_order, steps_whole, trees_are_walks, walks_go_on, walks_in_order, walks_stay,
};
pub use operations::{OpRange, Operations};
pub use values::{Values, ValuesIter};
