//! What headers are made of: numbers of a fixed number of bytes, the lowest byte first, read and written where they stand, and
//! the initial length, by which a unit ends.
#![tactic(auto)]

mod initial_length;
mod read;
mod write;

pub use initial_length::{LengthFault, end_of_unit, version_of_unit};
pub use read::{u16_at, u32_at, u64_at};
pub use write::{put_u32, put_u64};
