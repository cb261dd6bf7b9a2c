//! What all crates share: faults and their kinds, the outside, and two hosts in memory.
#![tactic(auto)]

mod classes;
pub mod constants;
mod fault;
mod files;
mod host;
mod mem_host;
mod quiet_host;
mod record;

pub use classes::Classes;
pub use fault::{Fault, Kind, NoMemory, Reach, Refusal, Span};
pub use files::NamedFile;
pub use host::{Host, Stop};
pub use mem_host::MemHost;
pub use quiet_host::QuietHost;
pub use record::Run;
