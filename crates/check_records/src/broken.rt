// Whether bytes are a record file.
ghost use Rattle.std.specs.Prelude.{◌≡◌, ◌++◌, ◌↔◌, ℕ, List, IsTrue, IfOk, IfSome, IsNone};
ghost use Rattle.leb_codec.specs.Records.{IsBroken};
ghost use Rattle.check_records.specs.Strays.{IsRecordFile};

use certificates::{MAGIC, begins, read_record};
use dw_base::{Classes, NoMemory};
use std::alloc::Global;

/// Whether a certificate is a record file for these classes: None where it is, and else the place, counted from 0, of the first byte of the first record that
/// isn't one, or 0 where the first eight bytes aren't those of a record file.
///
/// One record is held at a time. The only error is want of memory.
pub fn first_broken(
    alloc: Global,
    classes: Classes,
    certificate: &[u8],
) -> Result<Option<u64>, NoMemory>
    ensures whole { IfOk result (λ place. IsNone place ↔ IsRecordFile classes certificate.now) }
    ensures broken { IfOk result (λ place. IfSome place (IsBroken classes certificate.now)) }
{
    if !begins(classes, certificate) {
        return Ok(Some(0));
    }
    let mut at = MAGIC.len();
    while at < certificate.len() {
        match read_record(alloc, certificate, at)? {
            Some(read) => at = read.end,
            None => return Ok(Some(at as u64)),
        }
    }
    Ok(None)
}
