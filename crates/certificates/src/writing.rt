// Record files written.
ghost use Rattle.std.specs.Prelude.{map, OnOk, IfOk};
ghost use Rattle.std.specs.List.{All};
ghost use Rattle.spelled.specs.Spelled.{Appends, Joined};
ghost use Rattle.dw_base.specs.Classes.{every};
ghost use Rattle.leb_codec.specs.Records.{IsRun, AreRuns, Number, SpellsRun, SpellsRuns, SpellsNumbers, SpellsRecord, SpellsFile};
ghost use Rattle.certificates.specs.Reading.{record_of, CanBeWritten};

use crate::proof::{LAYOUT, LINES, LIST, Proof};
use crate::reading::MAGIC;
use dw_base::{NoMemory, Run};
use leb_codec::put_u;
use std::alloc::Global;

// Appends a number.
fn put_number(out: &mut Vec<u8>, value: u64) -> Result<(), NoMemory>
    ensures { OnOk result (Appends Number value out.old.items out.new.items) }
{
    put_u(out, value)
}

// Appends a run: its length and its number.
fn put_run(out: &mut Vec<u8>, run: Run) -> Result<(), NoMemory>
    requires { IsRun run }
    ensures { OnOk result (Appends SpellsRun run out.old.items out.new.items) }
{
    put_number(out, u64::from(run.len))?;
    put_number(out, u64::from(run.number))
}

// Appends the runs of a line program.
fn put_runs(out: &mut Vec<u8>, runs: &[Run]) -> Result<(), NoMemory>
    requires all { AreRuns runs.now }
    requires each { All IsRun runs.now }
    ensures { OnOk result (Appends SpellsRuns runs.now out.old.items out.new.items) }
{
    for run in runs {
        put_run(out, *run)?;
    }
    Ok(())
}

// Appends numbers one after the other.
fn put_each(out: &mut Vec<u8>, numbers: &[u64]) -> Result<(), NoMemory>
    ensures { OnOk result (Appends (Joined Number) numbers.now out.old.items out.new.items) }
{
    for number in numbers {
        put_number(out, *number)?;
    }
    Ok(())
}

// Appends the count of numbers and the numbers.
fn put_numbers(out: &mut Vec<u8>, numbers: &[u64]) -> Result<(), NoMemory>
    ensures { OnOk result (Appends SpellsNumbers numbers.now out.old.items out.new.items) }
{
    put_number(out, numbers.len() as u64)?;
    put_each(out, numbers)
}

/// Appends a record. The runs of a line program have to have all 65,280 pairs, each run some of them, and neighbours
/// different numbers. The only error is want of memory; then nothing is promised of what stands behind the old bytes.
pub fn put_record(out: &mut Vec<u8>, proof: &Proof) -> Result<(), NoMemory>
    requires { CanBeWritten proof.now }
    ensures { OnOk result (Appends SpellsRecord (record_of proof.now) out.old.items out.new.items) }
{
    match proof {
        Proof::Lines(runs) => {
            out.push(LINES)?;
            put_runs(out, runs)
        }
        Proof::List(potentials) => {
            out.push(LIST)?;
            put_numbers(out, potentials)
        }
        Proof::Layout(ranks) => {
            out.push(LAYOUT)?;
            put_numbers(out, ranks)
        }
    }
}

/// The record file of these records for all members of classes, in their order. The runs of each line program have to have all 65,280 pairs, each run
/// some of them, and neighbours different numbers. The only error is want of memory.
pub fn write(alloc: Global, proofs: &Vec<Proof>) -> Result<Vec<u8>, NoMemory>
    requires { All CanBeWritten proofs.now.items }
    ensures { IfOk result (λ bytes. SpellsFile every (map record_of proofs.now.items) bytes.items) }
{
    let mut out = Vec::new(alloc);
    out.extend_from_slice(&MAGIC)?;
    for proof in proofs {
        put_record(&mut out, proof)?;
    }
    Ok(out)
}
