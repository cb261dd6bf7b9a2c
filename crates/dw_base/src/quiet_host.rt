// A host in memory whose calls don't fail.
ghost use Rattle.std.specs.Prelude.{◌≡◌, ◌≢◌, ◌<◌, ◌≤◌, ◌++◌, ◌↔◌, ℕ, List, [], length, Option, Some, IfSome, IsSome, IsTrue, is_some, option_map, IfOk, IsOk, OnOk, OnErr, true, false};
ghost use Rattle.dw_base.specs.Host.{AddsPart, HasCause, HasOneCause, IsPartRead, has_failed};
ghost use Rattle.dw_base.specs.Files.{content, is_there};
ghost use Rattle.dw_base.specs.QuietHost.{files_in};

use crate::files::{copy_part, extend, find, replace};
use crate::{Host, NamedFile, Stop};
use std::alloc::Global;

/// Files in memory. A missing file is read as an empty one.
#[derive(Drop)]
pub struct QuietHost {
    alloc: Global,
    files: Vec<NamedFile>,
    said: Vec<u8>,
}

impl QuietHost {
    /// A host that holds these files.
    pub fn new(alloc: Global, files: Vec<NamedFile>) -> Self
        ensures bytes { (f : List ℕ) → ⟦<QuietHost as Host>⟧.bytes result f ≡ Some (content files.items f) }
        ensures said { ⟦<QuietHost as Host>⟧.said result ≡ Some [] }
        ensures files { files_in result ≡ files.items }
    {
        QuietHost {
            alloc,
            files,
            said: Vec::new(alloc),
        }
    }

    /// The bytes of the file of a name, and none exactly where there is no file of that name.
    pub fn file(&self, name: &str) -> Option<&Vec<u8>>
        ensures there { IsSome result ↔ IsTrue (is_there (files_in self.now) name.now) }
        ensures bytes { IfSome result (λ b. ⟦<QuietHost as Host>⟧.bytes self.now name.now ≡ Some b.now.items) }
    {
        find(&self.files, name)
    }

    /// The bytes said.
    pub fn said(&self) -> &Vec<u8>
        ensures { ⟦<QuietHost as Host>⟧.said self.now ≡ Some result.now.items }
    {
        &self.said
    }

    /// How often a read of the file of a name has failed: never.
    pub fn read_faults(&self, name: &str) -> u64
        ensures count { result ≡ ⟦<QuietHost as Host>⟧.read_faults self.now name.now }
        ensures none { result ≡ 0 }
    {
        let _name = name;
        0
    }

    /// How often a write of the file of a name has failed: never.
    pub fn write_faults(&self, name: &str) -> u64
        ensures count { result ≡ ⟦<QuietHost as Host>⟧.write_faults self.now name.now }
        ensures none { result ≡ 0 }
    {
        let _name = name;
        0
    }

    /// How often a message has failed: never.
    pub fn say_faults(&self) -> u64
        ensures count { result ≡ ⟦<QuietHost as Host>⟧.say_faults self.now }
        ensures none { result ≡ 0 }
    {
        0
    }
}

impl Host for QuietHost {
    ghost bytes = { λ h name. Some (content h.files.items name) };

    ghost said = { λ h. Some h.said.items };

    ghost read_faults = { λ h name. 0 };

    ghost write_faults = { λ h name. 0 };

    ghost say_faults = { λ h. 0 };

    fn read_at(&mut self, name: &str, at: u64, into: &mut [u8]) -> Result<usize, Stop>
        requires { 0 < length into.old }
        ensures bound { IfOk result (λ n. n ≤ length into.new) }
        ensures read { IfOk result (λ n. IsPartRead (⟦<QuietHost as Host>⟧.bytes self.old name.now) at into.new n) }
        ensures files { (f : List ℕ) → ⟦<QuietHost as Host>⟧.bytes self.new f ≡ ⟦<QuietHost as Host>⟧.bytes self.old f }
        ensures said { ⟦<QuietHost as Host>⟧.said self.new ≡ ⟦<QuietHost as Host>⟧.said self.old }
        ensures reads { HasCause name.now (⟦<QuietHost as Host>⟧.bytes self.old) (⟦<QuietHost as Host>⟧.read_faults self.old) (⟦<QuietHost as Host>⟧.read_faults self.new) result }
        ensures writes { (f : List ℕ) → ⟦<QuietHost as Host>⟧.write_faults self.new f ≡ ⟦<QuietHost as Host>⟧.write_faults self.old f }
        ensures says { ⟦<QuietHost as Host>⟧.say_faults self.new ≡ ⟦<QuietHost as Host>⟧.say_faults self.old }
        ensures quiet { IsOk result }
        ensures kept { files_in self.new ≡ files_in self.old }
    {
        match find(&self.files, name) {
            Some(bytes) => Ok(copy_part(bytes, at, into.len(), into)),
            None => Ok(0),
        }
    }

    fn begin(&mut self, name: &str) -> Result<(), Stop>
        ensures begun { OnOk result (⟦<QuietHost as Host>⟧.bytes self.new name.now ≡ option_map (λ _. []) (⟦<QuietHost as Host>⟧.bytes self.old name.now)) }
        ensures told { is_some (⟦<QuietHost as Host>⟧.bytes self.new name.now) ≡ is_some (⟦<QuietHost as Host>⟧.bytes self.old name.now) }
        ensures others { (f : List ℕ) → f ≢ name.now → ⟦<QuietHost as Host>⟧.bytes self.new f ≡ ⟦<QuietHost as Host>⟧.bytes self.old f }
        ensures said { ⟦<QuietHost as Host>⟧.said self.new ≡ ⟦<QuietHost as Host>⟧.said self.old }
        ensures reads { (f : List ℕ) → ⟦<QuietHost as Host>⟧.read_faults self.new f ≡ ⟦<QuietHost as Host>⟧.read_faults self.old f }
        ensures writes { HasCause name.now (⟦<QuietHost as Host>⟧.bytes self.old) (⟦<QuietHost as Host>⟧.write_faults self.old) (⟦<QuietHost as Host>⟧.write_faults self.new) result }
        ensures says { ⟦<QuietHost as Host>⟧.say_faults self.new ≡ ⟦<QuietHost as Host>⟧.say_faults self.old }
        ensures quiet { has_failed result ≡ false }
        ensures made { OnOk result (is_there (files_in self.new) name.now ≡ true) }
        ensures names { (f : List ℕ) → f ≢ name.now → is_there (files_in self.new) f ≡ is_there (files_in self.old) f }
    {
        let empty = Vec::new(self.alloc);
        match replace(self.alloc, &mut self.files, name, empty) {
            Ok(()) => Ok(()),
            Err(_) => Err(Stop::NoMemory),
        }
    }

    fn append(&mut self, name: &str, piece: &[u8]) -> Result<(), Stop>
        ensures added { OnOk result (⟦<QuietHost as Host>⟧.bytes self.new name.now ≡ option_map (λ b. b ++ piece.now) (⟦<QuietHost as Host>⟧.bytes self.old name.now)) }
        ensures told { is_some (⟦<QuietHost as Host>⟧.bytes self.new name.now) ≡ is_some (⟦<QuietHost as Host>⟧.bytes self.old name.now) }
        ensures others { (f : List ℕ) → f ≢ name.now → ⟦<QuietHost as Host>⟧.bytes self.new f ≡ ⟦<QuietHost as Host>⟧.bytes self.old f }
        ensures said { ⟦<QuietHost as Host>⟧.said self.new ≡ ⟦<QuietHost as Host>⟧.said self.old }
        ensures reads { (f : List ℕ) → ⟦<QuietHost as Host>⟧.read_faults self.new f ≡ ⟦<QuietHost as Host>⟧.read_faults self.old f }
        ensures writes { HasCause name.now (⟦<QuietHost as Host>⟧.bytes self.old) (⟦<QuietHost as Host>⟧.write_faults self.old) (⟦<QuietHost as Host>⟧.write_faults self.new) result }
        ensures says { ⟦<QuietHost as Host>⟧.say_faults self.new ≡ ⟦<QuietHost as Host>⟧.say_faults self.old }
        ensures quiet { has_failed result ≡ false }
        ensures made { OnOk result (is_there (files_in self.new) name.now ≡ true) }
        ensures names { (f : List ℕ) → f ≢ name.now → is_there (files_in self.new) f ≡ is_there (files_in self.old) f }
    {
        match extend(self.alloc, &mut self.files, name, piece) {
            Ok(()) => Ok(()),
            Err(_) => Err(Stop::NoMemory),
        }
    }

    fn say(&mut self, piece: &[u8]) -> Result<(), Stop>
        ensures said { OnOk result (⟦<QuietHost as Host>⟧.said self.new ≡ option_map (λ b. b ++ piece.now) (⟦<QuietHost as Host>⟧.said self.old)) }
        ensures part { OnErr result (AddsPart (⟦<QuietHost as Host>⟧.said self.old) piece.now (⟦<QuietHost as Host>⟧.said self.new)) }
        ensures files { (f : List ℕ) → ⟦<QuietHost as Host>⟧.bytes self.new f ≡ ⟦<QuietHost as Host>⟧.bytes self.old f }
        ensures reads { (f : List ℕ) → ⟦<QuietHost as Host>⟧.read_faults self.new f ≡ ⟦<QuietHost as Host>⟧.read_faults self.old f }
        ensures writes { (f : List ℕ) → ⟦<QuietHost as Host>⟧.write_faults self.new f ≡ ⟦<QuietHost as Host>⟧.write_faults self.old f }
        ensures says { HasOneCause (⟦<QuietHost as Host>⟧.say_faults self.old) (⟦<QuietHost as Host>⟧.say_faults self.new) result }
        ensures quiet { has_failed result ≡ false }
        ensures kept { files_in self.new ≡ files_in self.old }
    {
        match self.said.extend_from_slice(piece) {
            Ok(()) => Ok(()),
            Err(_) => Err(Stop::NoMemory),
        }
    }
}
