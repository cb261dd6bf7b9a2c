// All rows of a program.
ghost use Rattle.std.specs.Prelude.{◌≡◌, ◌≤◌, ◌<◌, ◌+◌, ◌^◌, ◌++◌, ◌∷◌, [], length, IfOk, IfErr, OnOk};
ghost use Rattle.line_machine.specs.Heads.{IsHead, program_of};
ghost use Rattle.line_machine.specs.Rows.{GivesRows, HasRows};
ghost use Rattle.line_machine.specs.Faults.{ProgramFault, row_limit};
ghost use Rattle.dw_base.specs.declared.fault.Kind.TheVariants.{Limit};
ghost use Rattle.dw_base.specs.Refusals.{IsFaultOf, IsFaulty, IsRefusedFor};

use crate::cursor::Cursor;
use crate::head::Head;
use crate::place::{Place, next_row};
use crate::registers::Row;
use dw_base::{Fault, Kind, NoMemory, Refusal};
use std::alloc::Global;

// The most rows of a program.
const ROW_LIMIT: usize = 1 << 24;

// The fault of a program of more rows.
fn too_long(head: &Head, origin: u64) -> Fault
    requires { origin + head.now.at < 2 ^ 64 }
    ensures { result ≡ record { kind = Limit; place = origin + head.now.at } }
{
    Fault {
        kind: Kind::Limit,
        place: origin + head.at,
    }
}

// Appends a row.
fn push(rows: &mut Vec<Row>, row: Row) -> Result<(), NoMemory>
    ensures { OnOk result (rows.new.items ≡ rows.old.items ++ row ∷ []) }
{
    rows.push(row)?;
    Ok(())
}

/// All rows of the program of `head` in `section` (DWARF 5 section 6.2), from which the head was read, where
/// `origin` is the file offset of the section's first byte.
///
/// The faults of its opcodes are those of `Cursor::next`, of the same kinds and at the same places; a program of more
/// than 2^24 rows is refused as `Limit` at its unit. `NoMemory` may come wherever memory is wanting.
pub fn rows(alloc: Global, section: &[u8], head: &Head, origin: u64) -> Result<Vec<Row>, Refusal>
    requires head { IsHead section.now head.now }
    requires room { origin + length section.now < 2 ^ 64 }
    ensures rows { IfOk result (λ rows. GivesRows head.now (program_of section.now head.now) rows.items) }
    ensures few { IfOk result (λ rows. length rows.items ≤ row_limit) }
    ensures whole { IfOk result (λ _. ¬ IsFaulty (ProgramFault section.now head.now)) }
    ensures fault { IfErr result (IsRefusedFor (IsFaultOf (ProgramFault section.now head.now) origin)) }
{
    let mut rows: Vec<Row> = Vec::new(alloc);
    let mut place = Place::start(head.stmt);
    loop {
        let step = next_row(section, head, origin, place)?;
        let Some(row) = step.row else {
            return Ok(rows);
        };
        if rows.len() >= ROW_LIMIT {
            return Err(Refusal::Refused(too_long(head, origin)));
        }
        push(&mut rows, row)?;
        place = step.place;
    }
}

/// How many rows the program of `head` in `section` has, without keeping them. Its faults are those of `rows`. No
/// memory.
pub fn count_rows(section: &[u8], head: &Head, origin: u64) -> Result<usize, Fault>
    requires head { IsHead section.now head.now }
    requires room { origin + length section.now < 2 ^ 64 }
    ensures counted { IfOk result (λ count. HasRows head.now (program_of section.now head.now) count) }
    ensures few { IfOk result (λ count. count ≤ row_limit) }
    ensures whole { IfOk result (λ _. ¬ IsFaulty (ProgramFault section.now head.now)) }
    ensures fault { IfErr result (IsFaultOf (ProgramFault section.now head.now) origin) }
{
    let mut cursor = Cursor::new(head, origin);
    let mut count = 0;
    loop {
        match cursor.next(section)? {
            None => return Ok(count),
            Some(_) => {
                if count >= ROW_LIMIT {
                    return Err(too_long(head, origin));
                }
                count += 1;
            }
        }
    }
}
