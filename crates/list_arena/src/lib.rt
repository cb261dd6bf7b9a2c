//! Lists and view pairs of a file as they are held, all at once (DWARF 5 sections 2.6.2, 2.17.3 and 7.7.3).
#![tactic(auto)]

mod lists;
mod read;
mod views;
mod words;

pub use lists::Lists;
pub use read::ListRead;
pub use views::Views;
