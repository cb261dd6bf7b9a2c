// The words of the command line.
use dw_base::NoMemory;
use std::io::ErrorKind;
use std::{env, io};

// The program's arguments without its own name.
fn arguments(rt: &HostRuntime) -> io::Result<Vec<String>> {
    let mut words = Vec::new(rt.alloc());
    for word in env::args(rt)?.skip(1) {
        words.push(word)?;
    }
    Ok(words)
}

/// The program's arguments without its own name; none where one isn't UTF-8, since that is a wrong word, and so is none at all. The only error
/// is want of memory.
pub fn words(rt: &HostRuntime) -> Result<Vec<String>, NoMemory> {
    match arguments(rt) {
        Ok(words) => Ok(words),
        Err(error) => {
            if error.kind() == ErrorKind::OutOfMemory {
                return Err(NoMemory);
            }
            Ok(Vec::new(rt.alloc()))
        }
    }
}
