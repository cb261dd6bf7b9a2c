//! Abbreviation tables (DWARF 5 section 7.5.3): the declarations that entries of .debug_info name by their codes.
#![tactic(auto)]

mod decl;
mod laws;
mod read;
mod table;
mod write;

pub use decl::{Decl, Spec};
pub use laws::{listings, tables_end, tables_whole, tables_written};
pub use table::Table;
pub use write::write_table;
