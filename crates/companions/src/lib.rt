//! Sections beside .debug_info that name its units: the sets of address ranges in .debug_aranges (DWARF 5 section 6.1.2).
#![tactic(auto)]

mod laws;
mod patch;
mod set;

pub use laws::sets_tile;
pub use patch::patch_aranges;
pub use set::{ArangeSet, read_aranges};
