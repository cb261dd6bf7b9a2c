//! Units of .debug_info (DWARF 5 section 7.5): their headers, and their entries with the values of their attributes.
#![tactic(auto)]

mod entries;
mod expressions;
mod head;
mod laws;
mod place;
mod unit;

pub use entries::columns_of;
pub use expressions::read_expressions;
pub use head::{UnitHead, header_size, heads};
pub use laws::{heads_tile, units_lie, units_whole};
pub use place::place_of_value;
pub use unit::{Counts, Unit, read_unit};
