// Whether there is a record for each part of a written file.
ghost use Rattle.std.specs.Prelude.{◌↔◌, IfOk, IfSome, IsNone};
ghost use Rattle.dw_base.specs.declared.fault.Reach.{Reach};
ghost use Rattle.value_links.specs.World.{IsWorldOf};
ghost use Rattle.check_records.specs.Parts.{HasRecords};
ghost use Rattle.check_records.specs.Strays.{IsRecordFile, IsStray};

use crate::parts::parts_of_file;
use certificates::{MAGIC, read_record};
use dw_base::{Classes, NoMemory};
use std::alloc::Global;
use value_links::World;

/// Whether a certificate, which is a record file, has a record for each part of a written file, in their order, and no others: the line
/// number programs, unless the classes keep them, the range lists and then the location lists that aren't kept, and the units. None where it has, and else the place,
/// counted from 0, of the first record that is of another kind or left over, or of the end where one is missing. The only error is want of
/// memory.
pub fn first_stray(
    alloc: Global,
    classes: Classes,
    written: &World<'_>,
    certificate: &[u8],
) -> Result<Option<u64>, NoMemory>
    requires world { (reach : Reach) × IsWorldOf written.now.image reach written.now }
    requires whole { IsRecordFile classes certificate.now }
    ensures each { IfOk result (λ place. IsNone place ↔ HasRecords classes written.now.image certificate.now) }
    ensures stray { IfOk result (λ place. IfSome place (IsStray classes written.now.image certificate.now)) }
{
    let parts = parts_of_file(alloc, classes, written)?;
    let mut at = MAGIC.len();
    for part in &parts {
        if at == certificate.len() {
            return Ok(Some(at as u64));
        }
        let Some(read) = read_record(alloc, certificate, at)? else {
            // A record file has nothing but records.
            unreachable!()
        };
        if !part.has(&read.proof) {
            return Ok(Some(at as u64));
        }
        at = read.end;
    }
    if at < certificate.len() {
        return Ok(Some(at as u64));
    }
    Ok(None)
}
