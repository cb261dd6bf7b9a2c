//! The program for debug packages: .debug_line and the entries of lists stay, and three kinds of forms aren't written. The words of the command
//! line, and the files and the standard output of the system; all else is in `commands`.
#![tactic(auto)]

use commands::run_packaged;
use std::process::ExitCode;
use system_host::{RealHost, words};

// The status where memory is wanting.
const NO_MEMORY: u8 = 6;

fn main(rt: HostRuntime) -> ExitCode {
    let alloc = rt.alloc();
    match words(&rt) {
        Ok(words) => {
            let mut host = RealHost::new(rt, alloc);
            ExitCode::from(run_packaged(alloc, &words, &mut host))
        }
        Err(_) => ExitCode::from(NO_MEMORY),
    }
}
