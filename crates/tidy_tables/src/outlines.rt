// Whether the declarations of a table that have uses are those of the table as which it is written.
ghost use Rattle.std.specs.Prelude.{◌≡◌, ◌<◌, ◌↔◌, length, slice_index, IfOk, IsTrue};
ghost use Rattle.abbrev_tables.specs.Listings.{Listing, decl_at, declared_in};
ghost use Rattle.entry_read.specs.Units.{declarations_of};
ghost use Rattle.tidy_places.specs.Firsts.{IsLeastFound};
ghost use Rattle.tidy_tables.specs.Untidy.{outline_of, outlines_of, used_among};
ghost use Rattle.tidy_tables.specs.inside.Marked.{IsAmong};
ghost use Rattle.tidy_tables.specs.inside.UseCounts.{AreHeldFor};
ghost use Rattle.tidy_tables.specs.inside.WrittenTables.{place_in, AreNumbersOf};
ghost use Rattle.tidy_tables.specs.inside.Outlines.{outline_held, outlines_held, AreSorted, AreAllSorted, AreUsedIn, IsWrittenOtherwise};

use crate::table_places::lesser;
use crate::uses::Uses;
use abbrev_tables::Table;
use dw_base::NoMemory;
use std::alloc::Global;
use value_links::NamedTable;

// What the declarations of two files have in common: tag, whether there are children, and the names of columns.
#[derive(PartialEq, Eq, PartialOrd, Ord, Drop)]
struct Outline {
    tag: u64,
    children: bool,
    names: Vec<u64>,
}

// The outlines of the declarations of a table, sorted.
#[derive(Drop)]
struct Outlines {
    sorted: Vec<Outline>,
}

// The outline of the declaration with a number.
fn read_outline(alloc: Global, table: &Table, number: u32) -> Result<Outline, NoMemory>
    requires { number < length table.now.decls }
    ensures { IfOk result (λ held. outline_held held ≡ outline_of (declared_in table.now.specs (decl_at table.now.decls number))) }
{
    let decl = table.decl(number);
    let mut names = Vec::new(alloc);
    for column in table.columns(number) {
        names.push(column.name)?;
    }
    Ok(Outline {
        tag: decl.tag,
        children: decl.children,
        names,
    })
}

// The outlines of all declarations of a table.
fn all_outlines(alloc: Global, table: &Table) -> Result<Vec<Outline>, NoMemory>
    ensures { IfOk result (λ all. outlines_held all.items ≡ outlines_of (declarations_of table.now)) }
{
    let mut all = Vec::new(alloc);
    for number in 0..table.len() {
        all.push(read_outline(alloc, table, number)?)?;
    }
    Ok(all)
}

// The outlines of those declarations of a table that have uses.
fn used_outlines(alloc: Global, table: &Table, uses: &Vec<u64>) -> Result<Vec<Outline>, NoMemory>
    requires { length uses.now.items ≡ length table.now.decls }
    ensures { IfOk result (λ used. outlines_held used.items ≡ outlines_of (used_among (declarations_of table.now) uses.now.items)) }
{
    let mut used = Vec::new(alloc);
    for number in 0..table.len() {
        if uses[number as usize] > 0 {
            used.push(read_outline(alloc, table, number)?)?;
        }
    }
    Ok(used)
}

// For each table the outlines of its declarations, sorted.
fn sorted_outlines(alloc: Global, tables: &Vec<NamedTable>) -> Result<Vec<Outlines>, NoMemory>
    ensures { IfOk result (λ all. AreAllSorted tables.now.items (length tables.now.items) all.items) }
{
    let mut all = Vec::new(alloc);
    for named in tables {
        let mut sorted = all_outlines(alloc, &named.table)?;
        sorted.sort_unstable();
        all.push(Outlines { sorted })?;
    }
    Ok(all)
}

// Whether the declarations of a table that have uses have these outlines, in whichever order.
fn are_used_in(
    alloc: Global,
    old: &Table,
    uses: &Vec<u64>,
    new: &Outlines,
) -> Result<bool, NoMemory>
    requires { length uses.now.items ≡ length old.now.decls }
    ensures { IfOk result (λ same. (table : Listing) → AreSorted (declarations_of table) new.now.sorted.items → IsTrue same ↔ AreUsedIn old.now uses.now.items table) }
{
    let mut used = used_outlines(alloc, old, uses)?;
    used.sort_unstable();
    Ok(used == new.sorted)
}

/// The least place of a written table that has others than the declarations of its old table that have uses. `uses` are those of the
/// declarations of the old tables, and `written` has for each of them the number of the written table.
pub(crate) fn first_other(
    alloc: Global,
    old: &Vec<NamedTable>,
    uses: &Vec<Uses>,
    written: &Vec<u32>,
    new: &Vec<NamedTable>,
) -> Result<Option<u64>, NoMemory>
    requires uses { AreHeldFor old.now.items uses.now.items }
    requires count { length written.now.items ≡ length old.now.items }
    requires numbers { AreNumbersOf new.now.items written.now.items }
    ensures { IfOk result (λ place. IsLeastFound (IsAmong (IsWrittenOtherwise old.now.items uses.now.items written.now.items new.now.items) (λ k. place_in new.now.items (slice_index written.now.items k)) (length written.now.items)) place) }
{
    // Made once, since one written table may stand for many old ones.
    let outlines = sorted_outlines(alloc, new)?;
    let mut least = None;
    for number in 0..written.len() {
        let as_written = written[number] as usize;
        let counts = &uses[number].counts;
        if !are_used_in(alloc, &old[number].table, counts, &outlines[as_written])? {
            least = lesser(least, Some(new[as_written].place));
        }
    }
    Ok(least)
}
