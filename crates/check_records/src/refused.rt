// Whether the records of a certificate are accepted.
ghost use Rattle.std.specs.Prelude.{◌≡◌, ◌↔◌, length, IfOk, IfSome, IsNone};
ghost use Rattle.dw_base.specs.declared.classes.Classes.{Classes as AnyClasses};
ghost use Rattle.dw_base.specs.declared.fault.Reach.{Reach};
ghost use Rattle.certificates.specs.Reading.{record_of, CanBeWritten};
ghost use Rattle.value_links.specs.World.{IsWorldOf};
ghost use Rattle.check_records.specs.Accepted.{IsAccepted, IsFirstRefused, IsNamedBy};
ghost use Rattle.check_records.specs.Parts.{HasRecords, IsFor, program_count};
ghost use Rattle.check_records.specs.inside.Judged.{IsVerdictOn, IsJudgeOf};
ghost use Rattle.check_records.specs.inside.Parts.{part_of, IsThere, IsBehindPrograms};
ghost use Rattle.value_links.specs.Reading.{Reading};

use crate::lists::judge_list;
use crate::parts::{Part, parts_of_file, searched_programs};
use crate::programs::judge_program;
use crate::units::judge_unit;
use certificates::{MAGIC, Proof, read_record};
use dw_base::{Classes, NoMemory};
use list_lookup::{Owned, TableMaps, owned_lists};
use same_meaning::Reason;
use std::alloc::Global;
use value_links::World;

// What the records of a written file are judged by, made once.
#[derive(Drop)]
struct Judge {
    maps: TableMaps,
    // Of each unit the location lists that it owns.
    owned: Vec<Owned>,
}

impl Judge {
    // That of a written file.
    fn of(alloc: Global, written: &World<'_>) -> Result<Judge, NoMemory>
        requires { (reach : Reach) × IsWorldOf written.now.image reach written.now }
        ensures { IfOk result (IsJudgeOf written.now) }
    {
        let addr = written.section(b".debug_addr".as_slice());
        Ok(Judge {
            maps: TableMaps::new(alloc, written, addr)?,
            owned: owned_lists(alloc, written)?,
        })
    }

    // Whether the record of a part is accepted: None, or the first pair, item or slot by which it isn't.
    fn judge(
        &self,
        alloc: Global,
        written: &World<'_>,
        part: Part,
        proof: &Proof,
    ) -> Result<Option<u32>, NoMemory>
        requires world { (reach : Reach) × IsWorldOf written.now.image reach written.now }
        requires is { IsJudgeOf written.now self.now }
        requires there { IsThere written.now part }
        requires writable { CanBeWritten proof.now }
        requires kind { IsFor (part_of part) (record_of proof.now) }
        ensures { IfOk result (IsVerdictOn written.now.image (part_of part) (record_of proof.now)) }
    {
        match (part, proof) {
            (Part::Program(number), Proof::Lines(runs)) => judge_program(
                alloc, written, number, runs,
            ),
            (Part::List(kind, number), Proof::List(potentials)) => judge_list(
                alloc, written, &self.maps, kind, number, potentials,
            ),
            (Part::Unit(number), Proof::Layout(ranks)) => judge_unit(
                alloc,
                written,
                number,
                &self.owned[number as usize].lists,
                ranks,
            ),
            // Each record is of its part's kind.
            _ => unreachable!(),
        }
    }
}

// Why a file isn't accepted, of whose parts the one with a number isn't, by its pair, item or slot. So many parts are programs.
fn reason_of(programs: u32, number: u32, part: Part, n: u32) -> Reason
    requires { IsBehindPrograms part programs number }
    ensures { (classes : AnyClasses) (s : Reading) → program_count classes s ≡ programs → IsNamedBy classes s (part_of part) number n result }
{
    match part {
        Part::Program(program) => Reason::Line(program, n),
        Part::List(..) => Reason::List(number - programs, n),
        Part::Unit(unit) => Reason::Slot(unit, n),
    }
}

/// Whether each record of a certificate, which has those of a written file's parts, is accepted: None where each is, and else the first part
/// whose record isn't, and by what: the pair of line_base and line_range of a line number program (DWARF 5 section 6.2), the item of a list
/// (sections 2.6.2 and 2.17.3), or the slot of a unit (section 7.5). All count from 0, and lists go on from range lists to location lists, those
/// that are kept left out.
///
/// One record is held at a time, with the rows, the items or the slots of its part. The only error is want of memory.
pub fn first_refused(
    alloc: Global,
    classes: Classes,
    written: &World<'_>,
    certificate: &[u8],
) -> Result<Option<Reason>, NoMemory>
    requires world { (reach : Reach) × IsWorldOf written.now.image reach written.now }
    requires each { HasRecords classes written.now.image certificate.now }
    ensures accepted { IfOk result (λ reason. IsNone reason ↔ IsAccepted classes written.now.image certificate.now) }
    ensures refused { IfOk result (λ reason. IfSome reason (IsFirstRefused classes written.now.image certificate.now)) }
{
    let parts = parts_of_file(alloc, classes, written)?;
    let judge = Judge::of(alloc, written)?;
    let programs = searched_programs(classes, written) as u32;
    let mut at = MAGIC.len();
    for (number, part) in parts.iter().enumerate() {
        let Some(read) = read_record(alloc, certificate, at)? else {
            // There is a record for each part.
            unreachable!()
        };
        if let Some(n) = judge.judge(alloc, written, *part, &read.proof)? {
            return Ok(Some(reason_of(programs, number as u32, *part, n)));
        }
        at = read.end;
    }
    Ok(None)
}
