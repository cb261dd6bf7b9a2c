// Runs of pairs read.
ghost use Rattle.std.specs.Prelude.{◌≡◌, ◌≤◌, ◌↔◌, length, drop, Some, IsTrue, MatchOption, IfOk};
ghost use Rattle.leb_codec.specs.Records.{SpellsRun, SpellsRuns, HasNone};
ghost use Rattle.certificates.specs.Reading.{IsRead};

use crate::number::read_number;
use dw_base::{NoMemory, Run};
use std::alloc::Global;

// How many pairs of line_base and line_range there are: 256 times 255.
const PAIRS: u32 = 65_280;

// The greatest number of a run.
const MOST: u64 = 0xffff_ffff;

// A run, and the place after its last byte.
#[derive(Clone, Copy, Debug)]
struct ReadRun {
    run: Run,
    end: usize,
}

/// Runs, and the place after the last byte of the last one.
#[derive(Debug, Drop)]
pub struct ReadRuns {
    pub runs: Vec<Run>,
    pub end: usize,
}

// The run that begins at a place, or None exactly where none stands there.
fn read_run(bytes: &[u8], at: usize) -> Option<ReadRun>
    requires { at ≤ length bytes.now }
    ensures { MatchOption result (HasNone SpellsRun (drop at bytes.now)) (λ r. IsRead SpellsRun bytes.now at r.run r.end) }
{
    let len = read_number(bytes, at)?;
    let number = read_number(bytes, len.end)?;
    if len.value == 0 || len.value > u64::from(PAIRS) || number.value > MOST {
        return None;
    }
    Some(ReadRun {
        run: Run {
            len: len.value as u32,
            number: number.value as u32,
        },
        end: number.end,
    })
}

// The number of the run before, if there is one, is that of a run.
fn is_repeated(before: Option<u32>, run: Run) -> bool
    ensures { IsTrue result ↔ (before ≡ Some run.number) }
{
    match before {
        Some(number) => number == run.number,
        None => false,
    }
}

/// The runs of all pairs that begin at a place, counted from 0, or None exactly where no such runs stand there. NoMemory may
/// come wherever memory is wanting.
pub fn read_runs(alloc: Global, bytes: &[u8], at: usize) -> Result<Option<ReadRuns>, NoMemory>
    requires { at ≤ length bytes.now }
    ensures { IfOk result (λ read. MatchOption read (HasNone SpellsRuns (drop at bytes.now)) (λ r. IsRead SpellsRuns bytes.now at r.runs.items r.end)) }
{
    let mut runs: Vec<Run> = Vec::new(alloc);
    let mut end = at;
    let mut left = PAIRS;
    let mut before = None;
    while left > 0 {
        let Some(read) = read_run(bytes, end) else {
            return Ok(None);
        };
        if read.run.len > left || is_repeated(before, read.run) {
            return Ok(None);
        }
        runs.push(read.run)?;
        left -= read.run.len;
        before = Some(read.run.number);
        end = read.end;
    }
    Ok(Some(ReadRuns { runs, end }))
}
