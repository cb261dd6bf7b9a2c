// Records, and why they aren't read.
use dw_base::{NoMemory, Run};

/// The byte that begins a record of a line program.
pub(crate) const LINES: u8 = 1;

/// The byte that begins a record of a list.
pub(crate) const LIST: u8 = 2;

/// The byte that begins a record of a unit.
pub(crate) const LAYOUT: u8 = 3;

/// A record.
#[derive(Debug, Drop)]
pub enum Proof {
    /// Of a line program: runs that have all 65,280 pairs of line_base and line_range, in the order of line_range and
    /// then line_base.
    Lines(Vec<Run>),
    /// Of a range list or a location list: a potential in bytes for each of its items, in their order.
    List(Vec<u64>),
    /// Of a unit: the ranks of all steps of its slots, which count rounds from 0, in the order of the slots.
    Layout(Vec<u64>),
}

/// Why records aren't read.
#[derive(Clone, Copy, Debug, PartialEq, Eq)]
pub enum CertFault {
    /// The bytes are no record file. The number counts from 0 in the bytes: it is the place of the first byte of the first
    /// record that isn't one, or 0 where the first eight bytes aren't those of a record file.
    Broken(u64),
    /// Memory is wanting.
    NoMemory,
}

impl From<NoMemory> for CertFault {
    ghost use Rattle.std.specs.Prelude.{◌≡◌};
    ghost use Rattle.certificates.specs.declared.proof.CertFault.TheVariants.{NoMemory};

    ghost from_gives = { λ _ e. e ≡ NoMemory };

    fn from(_: NoMemory) -> Self {
        CertFault::NoMemory
    }
}
