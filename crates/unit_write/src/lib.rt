//! Units of .debug_info (DWARF 5 section 7.5) written anew: where their entries stand, and their bytes.
#![tactic(auto)]

mod expressions;
mod items;
mod laws;
mod layout;
mod marks;
mod measure;
mod parts;
mod places;
mod room;
mod slots;
mod values;
mod write;

pub use expressions::{NewExpressions, write_expressions};
pub use laws::{
    bytes_are_small, layouts_hold, one_placing, one_size, slots_fit, values_have_sizes,
};
pub use layout::{LaidOut, lay_out};
pub use places::{Places, place_unit};
pub use slots::{ListSlot, Spot, slots_of};
pub use write::{NewNumbers, write_unit};
