// The numbers of abbreviation tables.
ghost use Rattle.std.specs.Prelude.{◌≡◌};
ghost use Rattle.dw_base.specs.declared.fault.Reach.{Reach};
ghost use Rattle.abbrev_tables.specs.Tables.{Declared, SpellsColumn, SpellsColumns, SpellsDeclared};
ghost use Rattle.abbrev_tables.specs.Listings.{IsTableAt};
ghost use Rattle.value_links.specs.Sections.{debug_abbrev};
ghost use Rattle.value_links.specs.World.{IsWorldOf};
ghost use Rattle.tidy_places.specs.Firsts.{IsLeastFound};
ghost use Rattle.tidy_numbers.specs.Fronts.{BehindSome};
ghost use Rattle.tidy_numbers.specs.LongTables.{IsLongColumn, IsLongDeclared, IsLongInTable};
ghost use Rattle.tidy_numbers.specs.LongNumbers.{IsLongInTables};
ghost use Rattle.tidy_numbers.specs.inside.Held.{OfReading};
ghost use Rattle.tidy_numbers.specs.inside.NumberWalks.{StandsFrom, EndsFrom, IsFoundFrom};

use crate::number_walk::Walk;
use abbrev_tables::{Spec, Table};
use dw_base::constants::DW_FORM_IMPLICIT_CONST;
use value_links::World;

// Looks at a column that stands next: its name, its form, and its constant where it has one.
fn past_column(walk: Walk, bytes: &[u8], column: &Spec) -> Walk
    requires { StandsFrom (SpellsColumn column.now) bytes.now walk.at }
    ensures ends { EndsFrom (SpellsColumn column.now) bytes.now walk.at result.at }
    ensures long { IsFoundFrom walk.long IsLongColumn bytes.now walk.at result.long }
{
    let named = walk.past_unsigned(bytes);
    let formed = named.past_unsigned(bytes);
    if column.form == DW_FORM_IMPLICIT_CONST {
        formed.past_signed(bytes)
    } else {
        formed
    }
}

// Looks at columns that stand next, and at the two numbers 0 that end them.
fn past_columns(walk: Walk, bytes: &[u8], columns: &[Spec]) -> Walk
    requires { StandsFrom (SpellsColumns columns.now) bytes.now walk.at }
    ensures ends { EndsFrom (SpellsColumns columns.now) bytes.now walk.at result.at }
    ensures long { IsFoundFrom walk.long (BehindSome SpellsColumn IsLongColumn) bytes.now walk.at result.long }
{
    let mut next = walk;
    for column in columns {
        next = past_column(next, bytes, column);
    }
    // The two numbers 0.
    let name = next.past_unsigned(bytes);
    name.past_unsigned(bytes)
}

// Looks at a declaration with these columns that stands next: its code, its tag, and behind the byte for children the columns.
fn past_declared(walk: Walk, bytes: &[u8], columns: &[Spec]) -> Walk
    requires { (d : Declared) × (d.columns ≡ columns.now) × StandsFrom (SpellsDeclared d) bytes.now walk.at }
    ensures ends { (d : Declared) → EndsFrom (SpellsDeclared d) bytes.now walk.at result.at }
    ensures long { IsFoundFrom walk.long IsLongDeclared bytes.now walk.at result.long }
{
    let coded = walk.past_unsigned(bytes);
    let tagged = coded.past_unsigned(bytes);
    let flagged = Walk {
        at: tagged.at + 1,
        long: tagged.long,
    };
    past_columns(flagged, bytes, columns)
}

// Looks at a table that stands next.
fn past_table(walk: Walk, bytes: &[u8], table: &Table) -> Walk
    requires { IsTableAt bytes.now walk.at table.now }
    ensures { IsFoundFrom walk.long IsLongInTable bytes.now walk.at result.long }
{
    let mut next = walk;
    for i in 0..table.len() {
        next = past_declared(next, bytes, table.columns(i));
    }
    // The code 0.
    next.past_unsigned(bytes)
}

/// The first number of the tables that units name with a byte too many, by its place in .debug_abbrev.
pub(crate) fn first_in_tables(world: &World<'_>) -> Option<u64>
    requires { (reach : Reach) × IsWorldOf world.now.image reach world.now }
    ensures { OfReading world.now (λ s. IsLeastFound (IsLongInTables (debug_abbrev world.now.image) s) result) }
{
    let bytes = world.section(b".debug_abbrev");
    let mut first = None;
    for named in world.tables() {
        let start = Walk {
            at: named.place as usize,
            long: first,
        };
        first = past_table(start, bytes, &named.table).long;
    }
    first
}
