//! The program for the fewest bytes: the words of the command line, and the files and the standard output of the system. All else is in
//! `commands`.
#![tactic(auto)]

use commands::run;
use std::process::ExitCode;
use system_host::{RealHost, words};

// The status where memory is wanting.
const NO_MEMORY: u8 = 6;

fn main(rt: HostRuntime) -> ExitCode {
    let alloc = rt.alloc();
    match words(&rt) {
        Ok(words) => {
            let mut host = RealHost::new(rt, alloc);
            ExitCode::from(run(alloc, &words, &mut host))
        }
        Err(_) => ExitCode::from(NO_MEMORY),
    }
}
