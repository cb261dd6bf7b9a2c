//! The records of a certificate held against the written file: whether they are those of its parts, and whether each shows that its part
//! couldn't be shorter.
#![tactic(auto)]

mod broken;
mod laws;
mod lists;
mod parts;
mod programs;
mod refused;
mod strays;
mod units;

pub use crate::laws::written_records;
pub use broken::first_broken;
pub use refused::first_refused;
pub use strays::first_stray;
