// The record of a line number program.
ghost use Rattle.std.specs.Prelude.{◌≡◌, ◌<◌, length, IfOk};
ghost use Rattle.std.specs.List.{All};
ghost use Rattle.dw_base.specs.declared.fault.Reach.{Reach};
ghost use Rattle.dw_base.specs.Refusals.{IsFaulty};
ghost use Rattle.leb_codec.specs.Records.{OfLines, AreRuns, IsRun};
ghost use Rattle.line_machine.specs.Faults.{ProgramFault};
ghost use Rattle.line_machine.specs.Heads.{IsHead, program_of};
ghost use Rattle.line_machine.specs.Rows.{GivesRows};
ghost use Rattle.value_links.specs.World.{IsWorldOf};
ghost use Rattle.check_records.specs.Parts.{AProgram};
ghost use Rattle.check_records.specs.inside.Judged.{IsVerdictOn};

use check_lines::{Run, accept_program};
use dw_base::{NoMemory, Refusal};
use line_machine::{Head, Row, rows};
use std::alloc::Global;
use value_links::World;

// The rows of a line number program of a valid file, which are read again.
fn rows_of(alloc: Global, head: &Head, section: &[u8]) -> Result<Vec<Row>, NoMemory>
    requires stands { IsHead section.now head.now }
    requires faultless { ¬ IsFaulty (ProgramFault section.now head.now) }
    ensures { IfOk result (λ rows. GivesRows head.now (program_of section.now head.now) rows.items) }
{
    match rows(alloc, section, head, 0) {
        Ok(rows) => Ok(rows),
        Err(Refusal::NoMemory) => Err(NoMemory),
        // The program of a valid file has no fault.
        Err(Refusal::Refused(_)) => unreachable!(),
    }
}

/// Whether the runs of the line number program with a number are accepted: None, or the first pair of line_base and line_range by which they
/// aren't (DWARF 5 section 6.2). The rows of the program are read again.
pub(crate) fn judge_program(
    alloc: Global,
    written: &World<'_>,
    program: u32,
    runs: &Vec<Run>,
) -> Result<Option<u32>, NoMemory>
    requires world { (reach : Reach) × IsWorldOf written.now.image reach written.now }
    requires known { program < length written.now.programs }
    requires whole { AreRuns runs.now.items }
    requires fit { All IsRun runs.now.items }
    ensures { IfOk result (IsVerdictOn written.now.image (AProgram program) (OfLines runs.now.items)) }
{
    let head = &written.programs()[program as usize];
    let section = written.section(b".debug_line");
    let rows = rows_of(alloc, head, section)?;
    accept_program(alloc, head, &rows, runs)
}
