//! The least forms of columns: of the values that one attribute has in all entries of a declaration (DWARF 5 section 7.5).
#![tactic(auto)]

mod choice;
mod declaration;
mod tallies;
mod tally;

pub use declaration::choose;
pub use tallies::Tallies;
pub use tally::{Candidate, Tally};
