// Bytes of .debug_abbrev that no table has, and tables that are missing.
ghost use Rattle.std.specs.Prelude.{◌≡◌, ◌<◌, ◌↔◌, ℕ, false, true, length, slice_index, slice_index_or, slice_set, IfOk, IsTrue};
ghost use Rattle.dw_base.specs.declared.fault.Reach.{Reach};
ghost use Rattle.value_links.specs.Sections.{debug_abbrev};
ghost use Rattle.value_links.specs.Same.{Same};
ghost use Rattle.value_links.specs.World.{IsWorldOf};
ghost use Rattle.tidy_places.specs.Firsts.{IsLeastFound};
ghost use Rattle.tidy_tables.specs.Untidy.{IsLoose, IsMissing};
ghost use Rattle.tidy_tables.specs.inside.Compared.{OfBoth};
ghost use Rattle.tidy_tables.specs.inside.Namers.{AreWrittenAsOne};

use crate::written::written_numbers;
use dw_base::NoMemory;
use std::alloc::Global;
use value_links::World;

/// The first byte of the .debug_abbrev of a written file that no table has, by its place in the section.
pub(crate) fn first_loose_byte(before: &World<'_>, after: &World<'_>) -> Option<u64>
    requires before { (reach : Reach) × IsWorldOf before.now.image reach before.now }
    requires after { (reach : Reach) × IsWorldOf after.now.image reach after.now }
    ensures { OfBoth before.now after.now (λ r s. IsLeastFound (IsLoose (debug_abbrev after.now.image) s.links) result) }
{
    let size = after.section(b".debug_abbrev").len() as u64;
    // Tables have all bytes before this one.
    let mut end = 0;
    for named in after.tables().iter() {
        // The next table begins in the section, so that the gap before it does too.
        if end < named.place {
            return Some(end);
        }
        end = end.max(named.table.end());
    }
    if end < size { Some(end) } else { None }
}

// Marks the thing with a number, and answers whether it was marked before.
fn mark(marks: &mut Vec<bool>, number: u32) -> bool
    requires { number < length marks.old.items }
    ensures before { result ≡ slice_index_or marks.old.items number false }
    ensures after { marks.new.items ≡ slice_set marks.old.items number true }
{
    let place = number as usize;
    let marked = marks[place];
    marks[place] = true;
    marked
}

// Whether two of the numbers, each below a count, are one.
fn are_written_as_one(alloc: Global, written: &Vec<u32>, count: usize) -> Result<bool, NoMemory>
    requires { (k : ℕ) → k < length written.now.items → slice_index written.now.items k < count }
    ensures { IfOk result (λ one. IsTrue one ↔ AreWrittenAsOne written.now.items) }
{
    let mut marks = vec![in alloc; false; count]?;
    for number in written {
        if mark(&mut marks, *number) {
            return Ok(true);
        }
    }
    Ok(false)
}

/// Whether two tables of the old file are written as one.
pub(crate) fn is_missing(
    alloc: Global,
    before: &World<'_>,
    after: &World<'_>,
) -> Result<bool, NoMemory>
    requires before { (reach : Reach) × IsWorldOf before.now.image reach before.now }
    requires after { (reach : Reach) × IsWorldOf after.now.image reach after.now }
    requires same { Same before.now.image after.now.image }
    ensures { IfOk result (λ missing. OfBoth before.now after.now (λ r s. IsTrue missing ↔ IsMissing r.links s.links)) }
{
    let written = written_numbers(
        alloc,
        before.table_numbers(),
        after.table_numbers(),
        before.tables().len(),
    )?;
    are_written_as_one(alloc, &written, after.tables().len())
}
