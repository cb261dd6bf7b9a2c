// Which attribute of which entry has a value, by the value's number.
ghost use Rattle.std.specs.Prelude.{◌≡◌, ◌<◌, List, length};
ghost use Rattle.abbrev_tables.specs.Tables.{Declared};
ghost use Rattle.entry_arena.specs.Arena.{entry_at};
ghost use Rattle.entry_read.specs.Places.{HaveOwners};
ghost use Rattle.entry_read.specs.Units.{declarations_of, IsTable};
ghost use Rattle.value_links.specs.inside.Owners.{IsOwner, name_with};

use crate::check::column_name;
use abbrev_tables::Table;
use entry_arena::Forest;

// The number of the entry that has the value with a number: the last one whose values begin at that number or before it. Entries
// without values before it begin where it does, and the first entry begins at 0.
pub(crate) fn owner_of(forest: &Forest<'_>, value: u32) -> u32
    requires owned { (ds : List Declared) × HaveOwners ds forest.now }
    requires value { value < length forest.now.values }
    ensures { IsOwner forest.now.entries result value }
{
    // Numbers of 32 bits name the entries.
    let _count = forest.len();
    let after = forest
        .entries()
        .partition_point(|entry| entry.first <= value);
    (after - 1) as u32
}

// The name of the attribute that has the value with a number, in the entry that has it.
pub(crate) fn attribute_name(forest: &Forest<'_>, table: &Table, id: u32, value: u32) -> u64
    requires table { IsTable table.now }
    requires owned { HaveOwners (declarations_of table.now) forest.now }
    requires owner { IsOwner forest.now.entries id value }
    ensures { result ≡ name_with (declarations_of table.now) (entry_at forest.now.entries id) value }
{
    let entry = forest.entry(id);
    column_name(table, entry.decl, value - entry.first)
}
