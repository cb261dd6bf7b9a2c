//! The commands of the program, over any host: a file is written anew, checked, summed up or drawn. [`run`] carries all that is promised
//! of them; the program calls it over the system's files.
#![tactic(auto)]

mod anew;
mod check;
mod ending;
mod for_packages;
mod make;
mod reading;
mod rejection;
mod running;
mod saying;
mod shrink;
mod summary;
mod words;
mod writing;

pub use anew::rewrite_file;
pub use for_packages::run_packaged;
pub use running::{run, run_in};
