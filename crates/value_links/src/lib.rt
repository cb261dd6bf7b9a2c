//! What a whole file means: its debug sections read together, and what the values of attributes refer to (DWARF 5 sections
//! 2.3 and 7.5). Which files are faulty, and which two files mean the same.
#![tactic(auto)]

mod check;
mod contexts;
mod laws;
mod link;
mod list_bases;
mod list_expressions;
mod list_places;
mod lists;
mod located;
mod namings;
mod operations;
mod owners;
mod parts;
mod roots;
mod sections;
mod tables;
mod units;
mod views;
mod world;

pub use check::check_links;
pub use laws::{
    first_faults_decide, linked_files_mean, linked_whole, one_debug, one_link, one_meaning,
    one_reading, sections_found, valid_files,
};
pub use link::{Link, resolve};
pub use list_places::Contributions;
pub use operations::{OpLink, resolve_op};
pub use parts::Parts;
pub use units::{NamedTable, Units, read_units};
pub use world::World;
