// A host in memory whose calls fail by their numbers.
ghost use Rattle.std.specs.Prelude.{◌≡◌, ◌↔◌, ◌≢◌, ◌≤◌, ◌<◌, ◌+◌, ◌-◌, ◌^◌, ◌++◌, ◌⊎◌, ℕ, List, [], length, Option, Some, IfSome, IsSome, IsTrue, Contains, min, max, true, false, is_some, IfOk, OnOk, OnErr, option_map, IsErr};
ghost use Rattle.dw_base.specs.Files.{content, is_there};
ghost use Rattle.dw_base.specs.Host.{AddsPart, HasCause, HasOneCause, IsPartRead, has_failed};
ghost use Rattle.dw_base.specs.MemHost.{files_of, failing_of, calls_of, piece_of, faults_of, say_faults_of, IsDue, CountsCall};
ghost use Rattle.dw_base.specs.inside.MemHost.{NotesFailure};
ghost use Rattle.dw_base.specs.declared.mem_host.CallKind.TheVariants.{Read, Write, Say};

use crate::files::{copy_part, extend, find, replace};
use crate::{Host, NamedFile, NoMemory, Stop};
use std::alloc::Global;

// What a call was to do.
#[derive(Clone, Copy, Debug, PartialEq, Eq)]
enum CallKind {
    Read,
    Write,
    Say,
}

// A call that failed.
#[derive(Drop)]
struct FailedCall {
    kind: CallKind,
    name: String,
}

/// Files in memory. A read of a missing file fails, and so does each call whose number, counted from 0 over all calls,
/// stands in a list. A call that is to fail may want memory instead, since the list of failed calls grows.
#[derive(Drop)]
pub struct MemHost {
    alloc: Global,
    files: Vec<NamedFile>,
    failing: Vec<u64>,
    calls: u64,
    piece: u64,
    said: Vec<u8>,
    failed: Vec<FailedCall>,
}

impl MemHost {
    /// A host that holds these files. The calls with these numbers fail.
    pub fn new(alloc: Global, files: Vec<NamedFile>, failing: Vec<u64>) -> Self
        ensures bytes { (f : List ℕ) → ⟦<MemHost as Host>⟧.bytes result f ≡ Some (content files.items f) }
        ensures said { ⟦<MemHost as Host>⟧.said result ≡ Some [] }
        ensures reads { (f : List ℕ) → ⟦<MemHost as Host>⟧.read_faults result f ≡ 0 }
        ensures writes { (f : List ℕ) → ⟦<MemHost as Host>⟧.write_faults result f ≡ 0 }
        ensures says { ⟦<MemHost as Host>⟧.say_faults result ≡ 0 }
        ensures files { files_of result ≡ files.items }
        ensures failing { failing_of result ≡ failing.items }
        ensures calls { calls_of result ≡ 0 }
        ensures whole { piece_of result ≡ 2 ^ 64 - 1 }
    {
        Self::in_pieces(alloc, files, failing, u64::MAX)
    }

    /// The same, of whose reads each gives at most so many bytes, or one where this is 0.
    pub fn in_pieces(alloc: Global, files: Vec<NamedFile>, failing: Vec<u64>, piece: u64) -> Self
        ensures bytes { (f : List ℕ) → ⟦<MemHost as Host>⟧.bytes result f ≡ Some (content files.items f) }
        ensures said { ⟦<MemHost as Host>⟧.said result ≡ Some [] }
        ensures reads { (f : List ℕ) → ⟦<MemHost as Host>⟧.read_faults result f ≡ 0 }
        ensures writes { (f : List ℕ) → ⟦<MemHost as Host>⟧.write_faults result f ≡ 0 }
        ensures says { ⟦<MemHost as Host>⟧.say_faults result ≡ 0 }
        ensures files { files_of result ≡ files.items }
        ensures failing { failing_of result ≡ failing.items }
        ensures calls { calls_of result ≡ 0 }
        ensures pieces { piece_of result ≡ piece }
    {
        MemHost {
            alloc,
            files,
            failing,
            calls: 0,
            piece,
            said: Vec::new(alloc),
            failed: Vec::new(alloc),
        }
    }

    /// The bytes of the file of a name, and none exactly where there is no file of that name.
    pub fn file(&self, name: &str) -> Option<&Vec<u8>>
        ensures there { IsSome result ↔ IsTrue (is_there (files_of self.now) name.now) }
        ensures bytes { IfSome result (λ b. ⟦<MemHost as Host>⟧.bytes self.now name.now ≡ Some b.now.items) }
    {
        find(&self.files, name)
    }

    /// The bytes said.
    pub fn said(&self) -> &Vec<u8>
        ensures { ⟦<MemHost as Host>⟧.said self.now ≡ Some result.now.items }
    {
        &self.said
    }

    /// How often a read of the file of a name has failed.
    pub fn read_faults(&self, name: &str) -> u64
        ensures { result ≡ ⟦<MemHost as Host>⟧.read_faults self.now name.now }
    {
        faults_in(CallKind::Read, &self.failed, name)
    }

    /// How often a write of the file of a name has failed.
    pub fn write_faults(&self, name: &str) -> u64
        ensures { result ≡ ⟦<MemHost as Host>⟧.write_faults self.now name.now }
    {
        faults_in(CallKind::Write, &self.failed, name)
    }

    /// How often a message has failed.
    pub fn say_faults(&self) -> u64
        ensures { result ≡ ⟦<MemHost as Host>⟧.say_faults self.now }
    {
        let mut count = 0;
        for call in &self.failed {
            if call.kind == CallKind::Say {
                count += 1;
            }
        }
        count
    }

    // Counts a call, and says whether it is to fail.
    fn is_due(&mut self) -> bool
        ensures others { self.new ≡ record self.old { calls = self.new.calls } }
        ensures counted { self.new.calls ≡ min (self.old.calls + 1) (2 ^ 64 - 1) }
        ensures due { IsTrue result ↔ Contains self.old.failing.items self.old.calls }
    {
        let number = self.calls;
        self.calls = number.saturating_add(1);
        self.failing.contains(&number)
    }

    // Notes a call that fails.
    fn note(&mut self, kind: CallKind, name: &str) -> Stop
        ensures others { self.new ≡ record self.old { failed = self.new.failed } }
        ensures failed { NotesFailure self.old.failed.items self.new.failed.items kind name.now result }
        ensures room { length self.new.failed.items < 2 ^ 64 }
    {
        let Ok(name) = String::from_str(self.alloc, name) else {
            return Stop::NoMemory;
        };
        let Ok(()) = self.failed.push(FailedCall { kind, name }) else {
            return Stop::NoMemory;
        };
        Stop::Failed
    }
}

// How many of the failed calls of a kind had this name.
fn faults_in(kind: CallKind, calls: &[FailedCall], name: &str) -> u64
    ensures { result ≡ faults_of kind name.now calls.now }
{
    let mut count = 0;
    for call in calls {
        if call.kind == kind && call.name.as_str() == name {
            count += 1;
        }
    }
    count
}

impl Host for MemHost {
    ghost bytes = { λ h name. Some (content h.files.items name) };

    ghost said = { λ h. Some h.said.items };

    ghost read_faults = { λ h name. faults_of Read name h.failed.items };

    ghost write_faults = { λ h name. faults_of Write name h.failed.items };

    ghost say_faults = { λ h. say_faults_of h.failed.items };

    fn read_at(&mut self, name: &str, at: u64, into: &mut [u8]) -> Result<usize, Stop>
        requires { 0 < length into.old }
        ensures bound { IfOk result (λ n. n ≤ length into.new) }
        ensures read { IfOk result (λ n. IsPartRead (⟦<MemHost as Host>⟧.bytes self.old name.now) at into.new n) }
        ensures files { (f : List ℕ) → ⟦<MemHost as Host>⟧.bytes self.new f ≡ ⟦<MemHost as Host>⟧.bytes self.old f }
        ensures said { ⟦<MemHost as Host>⟧.said self.new ≡ ⟦<MemHost as Host>⟧.said self.old }
        ensures reads { HasCause name.now (⟦<MemHost as Host>⟧.bytes self.old) (⟦<MemHost as Host>⟧.read_faults self.old) (⟦<MemHost as Host>⟧.read_faults self.new) result }
        ensures writes { (f : List ℕ) → ⟦<MemHost as Host>⟧.write_faults self.new f ≡ ⟦<MemHost as Host>⟧.write_faults self.old f }
        ensures says { ⟦<MemHost as Host>⟧.say_faults self.new ≡ ⟦<MemHost as Host>⟧.say_faults self.old }
        ensures pieces { IfOk result (λ n. n ≤ max 1 (piece_of self.old)) }
        ensures fails { IsErr result ↔ (IsDue self.old ⊎ (is_there (files_of self.old) name.now ≡ false)) }
        ensures kept { files_of self.new ≡ files_of self.old }
        ensures counted { CountsCall self.old self.new }
    {
        if self.is_due() {
            return Err(self.note(CallKind::Read, name));
        }
        match find(&self.files, name) {
            Some(bytes) => Ok(copy_part(bytes, at, self.piece.max(1) as usize, into)),
            None => Err(self.note(CallKind::Read, name)),
        }
    }

    fn begin(&mut self, name: &str) -> Result<(), Stop>
        ensures begun { OnOk result (⟦<MemHost as Host>⟧.bytes self.new name.now ≡ option_map (λ _. []) (⟦<MemHost as Host>⟧.bytes self.old name.now)) }
        ensures told { is_some (⟦<MemHost as Host>⟧.bytes self.new name.now) ≡ is_some (⟦<MemHost as Host>⟧.bytes self.old name.now) }
        ensures others { (f : List ℕ) → f ≢ name.now → ⟦<MemHost as Host>⟧.bytes self.new f ≡ ⟦<MemHost as Host>⟧.bytes self.old f }
        ensures said { ⟦<MemHost as Host>⟧.said self.new ≡ ⟦<MemHost as Host>⟧.said self.old }
        ensures reads { (f : List ℕ) → ⟦<MemHost as Host>⟧.read_faults self.new f ≡ ⟦<MemHost as Host>⟧.read_faults self.old f }
        ensures writes { HasCause name.now (⟦<MemHost as Host>⟧.bytes self.old) (⟦<MemHost as Host>⟧.write_faults self.old) (⟦<MemHost as Host>⟧.write_faults self.new) result }
        ensures says { ⟦<MemHost as Host>⟧.say_faults self.new ≡ ⟦<MemHost as Host>⟧.say_faults self.old }
        ensures fails { IsDue self.old → IsErr result }
        ensures failed { has_failed result ≡ true → IsDue self.old }
        ensures made { OnOk result (is_there (files_of self.new) name.now ≡ true) }
        ensures names { (f : List ℕ) → f ≢ name.now → is_there (files_of self.new) f ≡ is_there (files_of self.old) f }
        ensures counted { CountsCall self.old self.new }
    {
        if self.is_due() {
            return Err(self.note(CallKind::Write, name));
        }
        let empty = Vec::new(self.alloc);
        match replace(self.alloc, &mut self.files, name, empty) {
            Ok(()) => Ok(()),
            Err(_) => Err(Stop::NoMemory),
        }
    }

    fn append(&mut self, name: &str, piece: &[u8]) -> Result<(), Stop>
        ensures added { OnOk result (⟦<MemHost as Host>⟧.bytes self.new name.now ≡ option_map (λ b. b ++ piece.now) (⟦<MemHost as Host>⟧.bytes self.old name.now)) }
        ensures told { is_some (⟦<MemHost as Host>⟧.bytes self.new name.now) ≡ is_some (⟦<MemHost as Host>⟧.bytes self.old name.now) }
        ensures others { (f : List ℕ) → f ≢ name.now → ⟦<MemHost as Host>⟧.bytes self.new f ≡ ⟦<MemHost as Host>⟧.bytes self.old f }
        ensures said { ⟦<MemHost as Host>⟧.said self.new ≡ ⟦<MemHost as Host>⟧.said self.old }
        ensures reads { (f : List ℕ) → ⟦<MemHost as Host>⟧.read_faults self.new f ≡ ⟦<MemHost as Host>⟧.read_faults self.old f }
        ensures writes { HasCause name.now (⟦<MemHost as Host>⟧.bytes self.old) (⟦<MemHost as Host>⟧.write_faults self.old) (⟦<MemHost as Host>⟧.write_faults self.new) result }
        ensures says { ⟦<MemHost as Host>⟧.say_faults self.new ≡ ⟦<MemHost as Host>⟧.say_faults self.old }
        ensures fails { IsDue self.old → IsErr result }
        ensures failed { has_failed result ≡ true → IsDue self.old }
        ensures made { OnOk result (is_there (files_of self.new) name.now ≡ true) }
        ensures names { (f : List ℕ) → f ≢ name.now → is_there (files_of self.new) f ≡ is_there (files_of self.old) f }
        ensures counted { CountsCall self.old self.new }
    {
        if self.is_due() {
            return Err(self.note(CallKind::Write, name));
        }
        match extend(self.alloc, &mut self.files, name, piece) {
            Ok(()) => Ok(()),
            Err(_) => Err(Stop::NoMemory),
        }
    }

    fn say(&mut self, piece: &[u8]) -> Result<(), Stop>
        ensures said { OnOk result (⟦<MemHost as Host>⟧.said self.new ≡ option_map (λ b. b ++ piece.now) (⟦<MemHost as Host>⟧.said self.old)) }
        ensures part { OnErr result (AddsPart (⟦<MemHost as Host>⟧.said self.old) piece.now (⟦<MemHost as Host>⟧.said self.new)) }
        ensures files { (f : List ℕ) → ⟦<MemHost as Host>⟧.bytes self.new f ≡ ⟦<MemHost as Host>⟧.bytes self.old f }
        ensures reads { (f : List ℕ) → ⟦<MemHost as Host>⟧.read_faults self.new f ≡ ⟦<MemHost as Host>⟧.read_faults self.old f }
        ensures writes { (f : List ℕ) → ⟦<MemHost as Host>⟧.write_faults self.new f ≡ ⟦<MemHost as Host>⟧.write_faults self.old f }
        ensures says { HasOneCause (⟦<MemHost as Host>⟧.say_faults self.old) (⟦<MemHost as Host>⟧.say_faults self.new) result }
        ensures fails { IsDue self.old → IsErr result }
        ensures failed { has_failed result ≡ true → IsDue self.old }
        ensures kept { files_of self.new ≡ files_of self.old }
        ensures counted { CountsCall self.old self.new }
    {
        if self.is_due() {
            return Err(self.note(CallKind::Say, ""));
        }
        match self.said.extend_from_slice(piece) {
            Ok(()) => Ok(()),
            Err(_) => Err(Stop::NoMemory),
        }
    }
}
