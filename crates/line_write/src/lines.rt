// All programs of a section written anew.
ghost use Rattle.std.specs.Prelude.{◌≡◌, ◌≤◌, ◌<◌, ◌+◌, ◌*◌, ◌^◌, List, [], ◌∷◌, ◌++◌, length, map, IfOk, OnOk};
ghost use Rattle.dw_base.specs.declared.record.Run.{Run};
ghost use Rattle.spelled.specs.Spelled.{Joined};
ghost use Rattle.leb_codec.specs.Records.{SpellsRecord, OfLines};
ghost use Rattle.line_machine.specs.Heads.{IsHead};
ghost use Rattle.line_sums.specs.Accepted.{AreLeastRuns};
ghost use Rattle.line_write.specs.Programs.{AreRewritten};
ghost use Rattle.line_write.specs.inside.Programs.{GivesFew, IsLeastFor};
ghost use Rattle.line_write.specs.Meaning.{SameLines};
ghost use Rattle.line_write.specs.Least.{LeastLines, OrderedLines};
ghost use Rattle.line_write.specs.Faults.{total_limit};
ghost use Rattle.line_write.specs.Readings.{AreRead, StandAnew};
ghost use Rattle.line_write.specs.Records.{HaveRuns};

use crate::unit::put_unit;
use certificates::{Proof, put_record};
use dw_base::{NoMemory, Refusal};
use line_machine::{Head, rows};
use line_params::{Program, shrink_program};
use std::alloc::Global;

/// Line number programs that were written anew.
#[derive(Debug, Drop)]
pub struct Lines {
    /// The new body of .debug_line.
    pub bytes: Vec<u8>,
    /// Where the unit of each program begins in it, counted from its first byte, in their order.
    pub starts: Vec<u64>,
    /// The records that show why each program is least, one after the other in the order of the programs.
    pub records: Vec<u8>,
}

// No bytes, no places and no records, with room for so many bytes and places.
fn with_room(alloc: Global, bytes: usize, starts: usize) -> Result<Lines, NoMemory>
    ensures bytes { IfOk result (λ lines. lines.bytes.items ≡ []) }
    ensures starts { IfOk result (λ lines. lines.starts.items ≡ []) }
    ensures records { IfOk result (λ lines. lines.records.items ≡ []) }
{
    Ok(Lines {
        bytes: Vec::with_capacity(alloc, bytes)?,
        starts: Vec::with_capacity(alloc, starts)?,
        records: Vec::new(alloc),
    })
}

// Appends a place.
fn push(starts: &mut Vec<u64>, start: u64) -> Result<(), NoMemory>
    ensures { OnOk result (starts.new.items ≡ starts.old.items ++ start ∷ []) }
{
    starts.push(start)?;
    Ok(())
}

// The least program that gives the rows of the program of a head.
fn least_program(alloc: Global, section: &[u8], head: &Head) -> Result<Program, NoMemory>
    requires head { IsHead section.now head.now }
    requires given { GivesFew section.now head.now }
    ensures { IfOk result (λ p. IsLeastFor section.now head.now (record { base = p.base; range = p.range; bytes = p.bytes.items }) p.runs.items) }
{
    // The program has no fault, so that no place is counted from an origin.
    match rows(alloc, section, head, 0) {
        Ok(rows) => shrink_program(alloc, head, &rows),
        Err(Refusal::NoMemory) => Err(NoMemory),
        Err(Refusal::Refused(_)) => unreachable!(),
    }
}

/// The line number programs of `section`, the body of .debug_line, written anew (DWARF 5 section 6.2), where `heads` are
/// those that were read of it.
///
/// The programs keep their order, and each keeps its rows, its tables and the fields of its header, but for its lengths,
/// line_base, line_range and opcode_base. Its opcode_base is 13, and no other program that gives these rows, under any
/// line_base and line_range, is shorter. Of several pairs of these two it has its old one if that is among them, or else
/// the one with the least line_range, and among those the one with the least line_base. Its opcodes stand in the order that
/// `line_params` states. A program without rows has no opcode.
///
/// For each of the new programs, in their order, there is a record of the runs of pairs of line_base and line_range that
/// `line_params` finds for it: for each pair the least number of different steps that shows that no program under it is
/// shorter. The records are as they stand in a record file, without its first eight bytes.
///
/// A program may become longer where its old opcode_base was below 13, but all are written in no more than twice the bytes
/// of `section` and 68 bytes for each of 2^25 rows, and in fewer than 2^32. `section` has at most 2^30 bytes. `NoMemory`
/// comes where memory is wanting, and nothing else is refused.
pub fn shrink_lines(alloc: Global, section: &[u8], heads: &Vec<Head>) -> Result<Lines, NoMemory>
    requires read { AreRead section.now heads.now.items }
    requires small { length section.now ≤ 2 ^ 30 }
    ensures rewritten { IfOk result (λ lines. AreRewritten section.now lines.bytes.items) }
    ensures means { IfOk result (λ lines. SameLines section.now lines.bytes.items) }
    ensures least { IfOk result (λ lines. LeastLines section.now lines.bytes.items) }
    ensures order { IfOk result (λ lines. OrderedLines section.now lines.bytes.items) }
    ensures bound { IfOk result (λ lines. length lines.bytes.items ≤ 2 * length section.now + 68 * total_limit) }
    ensures fits { IfOk result (λ lines. length lines.bytes.items < 2 ^ 32) }
    ensures stand { IfOk result (λ lines. StandAnew section.now heads.now.items lines.bytes.items lines.starts.items) }
    ensures records { IfOk result (λ lines. (all : List (List Run)) × HaveRuns AreLeastRuns lines.bytes.items all × Joined SpellsRecord (map OfLines all) lines.records.items) }
{
    let mut lines = with_room(alloc, section.len(), heads.len())?;
    for head in heads {
        let start = lines.bytes.len() as u64;
        push(&mut lines.starts, start)?;
        let program = least_program(alloc, section, head)?;
        put_unit(&mut lines.bytes, section, head, &program)?;
        put_record(&mut lines.records, &Proof::Lines(program.runs))?;
    }
    Ok(lines)
}
