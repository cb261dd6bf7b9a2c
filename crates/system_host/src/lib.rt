//! The system as the programs see it: its files, its standard output, and the words of the command line.
#![tactic(auto)]

mod command_line;
mod real_host;

pub use command_line::words;
pub use real_host::RealHost;
