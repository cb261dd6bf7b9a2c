//! Writes an ELF-64 file anew with new bodies for some of its sections.
#![tactic(auto)]

mod bodies;
mod headers;
mod numbers;
mod order;
mod placing;
mod spots;

pub use bodies::NewBody;
pub use order::moving_order;
pub use placing::place;
pub use spots::next_multiple;
