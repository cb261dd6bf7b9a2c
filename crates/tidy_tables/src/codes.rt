// Whether the codes of tables take the fewest bytes.
ghost use Rattle.std.specs.Prelude.{◌≡◌, ◌≢◌, ◌≤◌, ◌<◌, ◌^◌, ◌↔◌, ℕ, length, slice_index, IfOk, IsTrue};
ghost use Rattle.leb_codec.specs.Numbering.{number_bytes, numbering_size, IsLeastNumbering};
ghost use Rattle.entry_read.specs.Units.{IsTable};
ghost use Rattle.tidy_places.specs.Firsts.{IsLeastFound};
ghost use Rattle.tidy_tables.specs.inside.Marked.{IsAmong};
ghost use Rattle.tidy_tables.specs.inside.UseCounts.{AreFew, AreHeldFor};
ghost use Rattle.tidy_tables.specs.inside.WrittenTables.{place_in, AreByPlace};
ghost use Rattle.tidy_tables.specs.inside.Codes.{codes_in, HasNoUse, AreTables, IsWasteful};

use crate::uses::Uses;
use abbrev_numbering::number;
use abbrev_tables::Table;
use dw_base::NoMemory;
use leb_codec::len_u;
use std::alloc::Global;
use value_links::NamedTable;

// How many bytes the code of a declaration with so many uses takes: once in the declaration, and once in each entry.
fn bytes_of(uses: u64, code: u64) -> u64
    requires used { uses ≢ 0 }
    requires few { uses ≤ 2 ^ 24 }
    ensures bytes { result ≡ number_bytes uses code }
    ensures small { result ≤ 2 ^ 28 }
{
    (uses + 1) * u64::from(len_u(code))
}

// Whether the codes of a table take no more bytes than these numbers would. Each declaration has uses.
fn take_no_more(table: &Table, uses: &[u64], numbers: &[u32]) -> bool
    requires count { length uses.now ≡ length table.now.decls }
    requires numbered { length numbers.now ≡ length uses.now }
    requires few { AreFew uses.now }
    requires used { HasNoUse uses.now → ⊥ }
    ensures { IsTrue result ↔ (numbering_size uses.now (codes_in table.now) ≤ numbering_size uses.now numbers.now) }
{
    let mut taken = 0;
    let mut enough = 0;
    for i in 0..table.len() {
        let count = uses[i as usize];
        taken += bytes_of(count, table.decl(i).code);
        enough += bytes_of(count, u64::from(numbers[i as usize]));
    }
    taken <= enough
}

// Whether some declaration has no use.
fn has_no_use(uses: &[u64]) -> bool
    ensures { IsTrue result ↔ HasNoUse uses.now }
{
    uses.contains(&0)
}

// Whether the codes of a table take the fewest bytes, where its declarations have so many uses. A declaration that has none would need
// no code.
fn take_least(alloc: Global, table: &Table, uses: &Vec<u64>) -> Result<bool, NoMemory>
    requires known { IsTable table.now }
    requires count { length uses.now.items ≡ length table.now.decls }
    requires few { AreFew uses.now.items }
    ensures { IfOk result (λ least. IsTrue least ↔ IsLeastNumbering uses.now.items (codes_in table.now)) }
{
    if has_no_use(uses) {
        return Ok(false);
    }
    let numbers = number(alloc, uses)?;
    Ok(take_no_more(table, uses, &numbers))
}

/// The least place of a table that has a declaration without uses, or whose codes take more bytes than they need.
pub(crate) fn first_wasteful(
    alloc: Global,
    tables: &Vec<NamedTable>,
    all: &Vec<Uses>,
) -> Result<Option<u64>, NoMemory>
    requires known { AreTables tables.now.items }
    requires rising { AreByPlace tables.now.items }
    requires uses { AreHeldFor tables.now.items all.now.items }
    ensures { IfOk result (λ place. IsLeastFound (IsAmong (IsWasteful tables.now.items all.now.items) (place_in tables.now.items) (length tables.now.items)) place) }
{
    for i in 0..tables.len() {
        let named = &tables[i];
        if !take_least(alloc, &named.table, &all[i].counts)? {
            return Ok(Some(named.place));
        }
    }
    Ok(None)
}
