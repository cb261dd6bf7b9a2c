//! What is looked up for the lists of a file: the indexes of addresses in the tables that units name, and which unit owns which location
//! lists (DWARF 5 sections 2.6.2 and 7.27).
#![tactic(auto)]

mod owned;
mod table_maps;

pub use owned::{Owned, owned_lists};
pub use table_maps::TableMaps;
