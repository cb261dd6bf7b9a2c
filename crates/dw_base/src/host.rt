// The outside, by what it holds and by how often it has failed.
ghost use Rattle.std.specs.Prelude.{◌≡◌, ◌≢◌, ◌<◌, ◌≤◌, ℕ, List, [], ◌++◌, length, take, Option, option_map, is_some, IfOk, OnOk, OnErr};
ghost use Rattle.dw_base.specs.Host.{HasCause, HasOneCause, IsPartRead, AddsPart};

/// Why a call of a host does not do its work.
#[derive(Clone, Copy, Debug, PartialEq, Eq)]
pub enum Stop {
    /// The device failed. The host's count of such faults has risen, or stands at its last value.
    Failed,
    /// Memory was wanting.
    NoMemory,
}

/// Files by name, and a place for messages.
///
/// A host counts its faults: of reads and of writes for each name, and of messages. A count never falls, and stays at
/// 2^64 - 1 once it stands there. A call that doesn't answer `Failed` raises none, no call raises a count of another
/// kind, and where a file's bytes are told, no call on another name raises its counts.
pub trait Host {
    /// The bytes of the file of each name, where the host tells them. A missing file counts as empty.
    ghost bytes: { Self → List ℕ → Option (List ℕ) };

    /// The bytes said, where the host tells them.
    ghost said: { Self → Option (List ℕ) };

    /// How often a read of the file of each name has failed.
    ghost read_faults: { Self → List ℕ → ℕ };

    /// How often a write of the file of each name has failed.
    ghost write_faults: { Self → List ℕ → ℕ };

    /// How often a message has failed.
    ghost say_faults: { Self → ℕ };

    /// Puts the bytes of a file from the place `at` on, counted from 0, into `into`, and answers how many there are: as
    /// many as fit, or fewer but at least one where some are left, and 0 at the file's end alone. It changes no file.
    fn read_at(&mut self, name: &str, at: u64, into: &mut [u8]) -> Result<usize, Stop>
        requires { 0 < length into.old }
        ensures bound { IfOk result (λ n. n ≤ length into.new) }
        ensures read { IfOk result (λ n. IsPartRead (bytes self.old name.now) at into.new n) }
        ensures files { (f : List ℕ) → bytes self.new f ≡ bytes self.old f }
        ensures said { said self.new ≡ said self.old }
        ensures reads { HasCause name.now (bytes self.old) (read_faults self.old) (read_faults self.new) result }
        ensures writes { (f : List ℕ) → write_faults self.new f ≡ write_faults self.old f }
        ensures says { say_faults self.new ≡ say_faults self.old };

    /// Empties a file, or makes it. After an `Err` that file may hold anything, and no other file differs.
    fn begin(&mut self, name: &str) -> Result<(), Stop>
        ensures begun { OnOk result (bytes self.new name.now ≡ option_map (λ _. []) (bytes self.old name.now)) }
        ensures told { is_some (bytes self.new name.now) ≡ is_some (bytes self.old name.now) }
        ensures others { (f : List ℕ) → f ≢ name.now → bytes self.new f ≡ bytes self.old f }
        ensures said { said self.new ≡ said self.old }
        ensures reads { (f : List ℕ) → read_faults self.new f ≡ read_faults self.old f }
        ensures writes { HasCause name.now (bytes self.old) (write_faults self.old) (write_faults self.new) result }
        ensures says { say_faults self.new ≡ say_faults self.old };

    /// Adds bytes at the end of a file, which is made where it is missing. After an `Err` that file may hold anything,
    /// and no other file differs.
    fn append(&mut self, name: &str, piece: &[u8]) -> Result<(), Stop>
        ensures added { OnOk result (bytes self.new name.now ≡ option_map (λ b. b ++ piece.now) (bytes self.old name.now)) }
        ensures told { is_some (bytes self.new name.now) ≡ is_some (bytes self.old name.now) }
        ensures others { (f : List ℕ) → f ≢ name.now → bytes self.new f ≡ bytes self.old f }
        ensures said { said self.new ≡ said self.old }
        ensures reads { (f : List ℕ) → read_faults self.new f ≡ read_faults self.old f }
        ensures writes { HasCause name.now (bytes self.old) (write_faults self.old) (write_faults self.new) result }
        ensures says { say_faults self.new ≡ say_faults self.old };

    /// Adds bytes to a message. After an `Err` some front of them may have been said.
    fn say(&mut self, piece: &[u8]) -> Result<(), Stop>
        ensures said { OnOk result (said self.new ≡ option_map (λ b. b ++ piece.now) (said self.old)) }
        ensures part { OnErr result (AddsPart (said self.old) piece.now (said self.new)) }
        ensures files { (f : List ℕ) → bytes self.new f ≡ bytes self.old f }
        ensures reads { (f : List ℕ) → read_faults self.new f ≡ read_faults self.old f }
        ensures writes { (f : List ℕ) → write_faults self.new f ≡ write_faults self.old f }
        ensures says { HasOneCause (say_faults self.old) (say_faults self.new) result };
}
