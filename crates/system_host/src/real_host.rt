// The files and the standard output of the system.
ghost use Rattle.std.specs.Prelude.{◌≡◌, ◌≤◌, ℕ, List, None, IfOk, length};

use dw_base::{Host, Stop};
use std::alloc::Global;
use std::fs::{File, OpenOptions};
use std::io::{self, Read, Seek, SeekFrom, Write};
use std::rt::Files;

/// The files and the standard output of the system. It tells no bytes, and keeps three counts of what failed, so that
/// each count is the same for all names. What a device does is trusted here and proved nowhere.
#[derive(Drop)]
pub struct RealHost<R> {
    rt: R,
    alloc: Global,
    read_faults: u64,
    write_faults: u64,
    say_faults: u64,
}

impl<R: Files + Print> RealHost<R> {
    /// A host over the system's files and standard output, at which nothing has failed yet.
    pub fn new(rt: R, alloc: Global) -> Self
        ensures reads { (f : List ℕ) → ⟦<RealHost<R> as Host>⟧.read_faults result f ≡ 0 }
        ensures writes { (f : List ℕ) → ⟦<RealHost<R> as Host>⟧.write_faults result f ≡ 0 }
        ensures says { ⟦<RealHost<R> as Host>⟧.say_faults result ≡ 0 }
    {
        RealHost {
            rt,
            alloc,
            read_faults: 0,
            write_faults: 0,
            say_faults: 0,
        }
    }

    /// How often a read has failed.
    pub fn read_faults(&self) -> u64
        ensures { (f : List ℕ) → result ≡ ⟦<RealHost<R> as Host>⟧.read_faults self.now f }
    {
        self.read_faults
    }
}

// Some bytes of a file from a place on. Each call opens the file anew: beside 65,536 bytes read that costs little, and no
// file stays open that is written later.
fn read_part<R: Files>(rt: &R, name: &str, at: u64, into: &mut [u8]) -> io::Result<usize>
    ensures { IfOk result (λ n. n ≤ length into.new) }
{
    let mut file = File::open(rt, name)?;
    file.seek(SeekFrom::Start(at))?;
    file.read(into)
}

// Empties a file, or makes it.
fn empty<R: Files>(rt: &R, name: &str) -> io::Result<()> {
    let _file = File::create(rt, name)?;
    Ok(())
}

// Adds bytes at the end of a file, which is made where it is missing.
fn extend<R: Files>(rt: &R, name: &str, piece: &[u8]) -> io::Result<()> {
    let mut file = OpenOptions::new().append(true).create(true).open(rt, name)?;
    file.write_all(piece)
}

impl<R: Files + Print> Host for RealHost<R> {
    ghost bytes = { λ h name. None };

    ghost said = { λ h. None };

    ghost read_faults = { λ h name. h.read_faults };

    ghost write_faults = { λ h name. h.write_faults };

    ghost say_faults = { λ h. h.say_faults };

    fn read_at(&mut self, name: &str, at: u64, into: &mut [u8]) -> Result<usize, Stop> {
        match read_part(&self.rt, name, at, into) {
            Ok(count) => Ok(count),
            Err(_) => {
                self.read_faults = self.read_faults.saturating_add(1);
                Err(Stop::Failed)
            }
        }
    }

    fn begin(&mut self, name: &str) -> Result<(), Stop> {
        match empty(&self.rt, name) {
            Ok(()) => Ok(()),
            Err(_) => {
                self.write_faults = self.write_faults.saturating_add(1);
                Err(Stop::Failed)
            }
        }
    }

    fn append(&mut self, name: &str, piece: &[u8]) -> Result<(), Stop> {
        match extend(&self.rt, name, piece) {
            Ok(()) => Ok(()),
            Err(_) => {
                self.write_faults = self.write_faults.saturating_add(1);
                Err(Stop::Failed)
            }
        }
    }

    fn say(&mut self, piece: &[u8]) -> Result<(), Stop> {
        match self.rt.write_all(piece) {
            Ok(()) => Ok(()),
            Err(_) => {
                self.say_faults = self.say_faults.saturating_add(1);
                Err(Stop::Failed)
            }
        }
    }
}
