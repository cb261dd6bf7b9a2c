// Line number programs (DWARF 5 section 6.2).
ghost use Rattle.std.specs.Prelude.{◌≡◌, ◌↔◌, IsTrue};
ghost use Rattle.dw_base.specs.Refusals.{IsFaulty};
ghost use Rattle.line_machine.specs.Cursors.{Stands, Answers};
ghost use Rattle.line_machine.specs.Faults.{OpcodesFault};
ghost use Rattle.line_machine.specs.Heads.{IsHead, program_of, default_is_stmt};
ghost use Rattle.line_machine.specs.Rows.{GivesRows};
ghost use Rattle.line_write.specs.Meaning.{HasMeaning};
ghost use Rattle.line_write.specs.Programs.{tables_of};
ghost use Rattle.same_meaning.specs.Differences.{DifferAt};
ghost use Rattle.same_meaning.specs.inside.Compared.{IsSomeWorld, OfMeanings, MeanOne, IsFirstFound};
ghost use Rattle.same_meaning.specs.inside.Programs.{IsWholeProgram, HaveSameFields};

use line_machine::{Cursor, Head, Row};
use value_links::{World, one_reading};

// The place of default_is_stmt in a header.
const IS_STMT_AT: usize = 14;

// The next row of a program that has no fault, or None behind the last one.
fn next_row(cursor: &mut Cursor, section: &[u8]) -> Option<Row>
    requires stands { Stands section.now cursor.old }
    requires origin { cursor.old.origin ≡ 0 }
    requires faultless { ¬ IsFaulty (OpcodesFault section.now cursor.old.head) }
    ensures stands { Stands section.now cursor.new }
    ensures head { cursor.new.head ≡ cursor.old.head }
    ensures origin { cursor.new.origin ≡ cursor.old.origin }
    ensures row { Answers section.now cursor.old cursor.new result }
{
    match cursor.next(section) {
        Ok(row) => row,
        // The program has no fault.
        Err(_) => unreachable!(),
    }
}

// Whether two programs give the same rows.
fn give_same_rows(before: &[u8], old: &Head, after: &[u8], new: &Head) -> bool
    requires old { IsWholeProgram before.now old.now }
    requires new { IsWholeProgram after.now new.now }
    ensures { IsTrue result ↔ MeanOne (GivesRows old.now (program_of before.now old.now)) (GivesRows new.now (program_of after.now new.now)) }
{
    let mut first = Cursor::new(old, 0);
    let mut second = Cursor::new(new, 0);
    loop {
        let row = next_row(&mut first, before);
        let other = next_row(&mut second, after);
        if row != other {
            return false;
        }
        if row.is_none() {
            return true;
        }
    }
}

// default_is_stmt of a program, as the byte that it is.
fn is_stmt(section: &[u8], head: &Head) -> u8
    requires { IsHead section.now head.now }
    ensures { result ≡ default_is_stmt section.now head.now.at }
{
    section[head.at as usize + IS_STMT_AT]
}

// The bytes of the directory and file tables of a program.
fn tables<'a>(section: &'a [u8], head: &Head) -> &'a [u8]
    requires { IsHead section.now head.now }
    ensures { result.now ≡ tables_of section.entry.now head.now }
{
    let at = head.tables.at as usize;
    &section[at..at + head.tables.len as usize]
}

// Whether two programs have the same minimum_instruction_length and default_is_stmt, and the same directory and file tables.
fn have_same_fields(before: &[u8], old: &Head, after: &[u8], new: &Head) -> bool
    requires old { IsHead before.now old.now }
    requires new { IsHead after.now new.now }
    ensures { IsTrue result ↔ HaveSameFields before.now old.now after.now new.now }
{
    old.min == new.min
        && is_stmt(before, old) == is_stmt(after, new)
        && tables(before, old) == tables(after, new)
}

// Whether two programs mean the same.
fn mean_same(before: &[u8], old: &Head, after: &[u8], new: &Head) -> bool
    requires old { IsWholeProgram before.now old.now }
    requires new { IsWholeProgram after.now new.now }
    ensures { IsTrue result ↔ MeanOne (HasMeaning before.now old.now) (HasMeaning after.now new.now) }
{
    have_same_fields(before, old, after, new) && give_same_rows(before, old, after, new)
}

/// The first line number program by which two files differ in meaning.
pub(crate) fn first_program(before: &World<'_>, after: &World<'_>) -> Option<u32>
    requires before { IsSomeWorld before.now }
    requires after { IsSomeWorld after.now }
    ensures { OfMeanings before.now after.now (λ c d. IsFirstFound (DifferAt c.programs d.programs) result) }
{
    one_reading();
    let (old, new) = (before.programs(), after.programs());
    let first = before.section(b".debug_line");
    let second = after.section(b".debug_line");
    let common = old.len().min(new.len());
    for program in 0..common {
        if !mean_same(first, &old[program], second, &new[program]) {
            return Some(program as u32);
        }
    }
    if old.len() == new.len() {
        None
    } else {
        Some(common as u32)
    }
}
