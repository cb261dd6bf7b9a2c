// Numbers behind their count read.
ghost use Rattle.std.specs.Prelude.{◌≤◌, length, drop, MatchOption, IfOk};
ghost use Rattle.leb_codec.specs.Records.{SpellsNumbers, HasNone};
ghost use Rattle.certificates.specs.Reading.{IsRead};

use crate::number::read_number;
use dw_base::NoMemory;
use std::alloc::Global;

/// Numbers, and the place after the last byte of the last one.
#[derive(Debug, Drop)]
pub struct ReadNumbers {
    pub numbers: Vec<u64>,
    pub end: usize,
}

/// The numbers behind their count, which begins at a place, counted from 0, or None exactly where so many don't stand
/// there. NoMemory may come wherever memory is wanting.
pub fn read_numbers(alloc: Global, bytes: &[u8], at: usize) -> Result<Option<ReadNumbers>, NoMemory>
    requires { at ≤ length bytes.now }
    ensures { IfOk result (λ read. MatchOption read (HasNone SpellsNumbers (drop at bytes.now)) (λ r. IsRead SpellsNumbers bytes.now at r.numbers.items r.end)) }
{
    let Some(count) = read_number(bytes, at) else {
        return Ok(None);
    };
    let mut numbers: Vec<u64> = Vec::new(alloc);
    let mut end = count.end;
    for _index in 0..count.value {
        let Some(number) = read_number(bytes, end) else {
            return Ok(None);
        };
        numbers.push(number.value)?;
        end = number.end;
    }
    Ok(Some(ReadNumbers { numbers, end }))
}
