//! Range lists and location lists written anew in their contributions (DWARF 5 sections 7.28 and 7.29).
#![tactic(auto)]

mod image;
mod kept;
mod list;
mod named;
mod part;
mod pieces;
mod places;
mod write;

pub use image::{ListImage, Moved};
pub use kept::kept_plan;
pub use named::{NamedList, NewExpressions, ViewRun};
pub use pieces::WrittenPieces;
pub use write::{assemble, write_lists};
