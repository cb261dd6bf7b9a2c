// A record read.
ghost use Rattle.std.specs.Prelude.{◌≤◌, ◌<◌, length, drop, MatchOption, IfOk, IfSome};
ghost use Rattle.leb_codec.specs.Records.{SpellsRecord, HasNone};
ghost use Rattle.certificates.specs.Reading.{IsRead, record_of, CanBeWritten};

use crate::numbers::read_numbers;
use crate::proof::{LAYOUT, LINES, LIST, Proof};
use crate::runs::read_runs;
use dw_base::NoMemory;
use std::alloc::Global;

/// A record, and the place after its last byte.
#[derive(Debug, Drop)]
pub struct ReadProof {
    pub proof: Proof,
    pub end: usize,
}

/// The record that begins at a place before the end of the bytes, counted from 0, or None exactly where no record stands
/// there; it can be written again. NoMemory may come wherever memory is wanting.
pub fn read_record(alloc: Global, bytes: &[u8], at: usize) -> Result<Option<ReadProof>, NoMemory>
    requires { at < length bytes.now }
    ensures read { IfOk result (λ read. MatchOption read (HasNone SpellsRecord (drop at bytes.now)) (λ r. IsRead SpellsRecord bytes.now at (record_of r.proof) r.end)) }
    ensures writable { IfOk result (λ read. IfSome read (λ r. CanBeWritten r.proof)) }
    ensures more { IfOk result (λ read. IfSome read (λ r. at < r.end)) }
{
    match bytes[at] {
        LINES => match read_runs(alloc, bytes, at + 1)? {
            Some(read) => Ok(Some(ReadProof {
                proof: Proof::Lines(read.runs),
                end: read.end,
            })),
            None => Ok(None),
        },
        LIST => match read_numbers(alloc, bytes, at + 1)? {
            Some(read) => Ok(Some(ReadProof {
                proof: Proof::List(read.numbers),
                end: read.end,
            })),
            None => Ok(None),
        },
        LAYOUT => match read_numbers(alloc, bytes, at + 1)? {
            Some(read) => Ok(Some(ReadProof {
                proof: Proof::Layout(read.numbers),
                end: read.end,
            })),
            None => Ok(None),
        },
        _ => Ok(None),
    }
}
