//! Record files, which show why each part of an output is least: runs of pairs of line_base and line_range for each line
//! program, potentials for each list, and ranks for each unit. Records are read and written here; whether they show what
//! they should isn't asked.
#![tactic(auto)]

ghost use Rattle.leb_codec.specs.RecordLaws.{OneReading, NeverBroken, OneBreak, OneSpelling, RecordsEnd};

mod number;
mod numbers;
mod proof;
mod reading;
mod record;
mod runs;
mod writing;

pub use dw_base::Run;
pub use proof::{CertFault, Proof};
pub use reading::{MAGIC, begins, magic, read};
pub use record::{ReadProof, read_record};
pub use writing::{put_record, write};

/// Laws of record files: a record ends by itself; bytes are a record file of one list of records at most, and such a list
/// has one file at most; and bytes break the form nowhere where they are a record file, and else at one place at most.
pub fn records_end()
    ensures end { RecordsEnd }
    ensures once { OneReading }
    ensures spelled_once { OneSpelling }
    ensures never_both { NeverBroken }
    ensures one_break { OneBreak }
{}
