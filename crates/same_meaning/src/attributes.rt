// The attributes of entries (DWARF 5 section 2.2).
ghost use Rattle.std.specs.Prelude.{◌≡◌, ◌<◌, ◌+◌, ◌↔◌, ℕ, length, IsTrue, IfOk};
ghost use Rattle.value_links.specs.Links.{held_at};
ghost use Rattle.value_links.specs.Reading.{unit_at};
ghost use Rattle.abbrev_tables.specs.Listings.{names_of};
ghost use Rattle.value_links.specs.Values.{declaration_of};
ghost use Rattle.same_meaning.specs.inside.Compared.{IsSomeWorld, OfBoth, MeanOne, AreSameLists, MeanAttributesAt};
ghost use Rattle.same_meaning.specs.inside.Values.{OfReading, entry_held, MeansColumn, IsNamedColumn};

use crate::same_lists::SameLists;
use crate::values::{Attribute, mean_same_value};
use abbrev_tables::Spec;
use dw_base::NoMemory;
use value_links::World;

// The columns of the declaration of an entry.
fn columns_of<'a>(world: &'a World<'_>, unit: u32, id: u32) -> &'a [Spec]
    requires world { IsSomeWorld world.now }
    requires known { unit < length world.now.units }
    requires entry { id < length (held_at world.now.units unit).forest.entries }
    ensures { OfReading world.now (λ r. result.now ≡ (declaration_of (unit_at r.links unit) id).columns) }
{
    let decl = world.units()[unit as usize].forest().entry(id).decl;
    world.table(unit).columns(decl)
}

// Whether columns have the same names, one by one.
fn have_same_names(before: &[Spec], after: &[Spec]) -> bool
    ensures { IsTrue result ↔ (names_of after.now ≡ names_of before.now) }
{
    if before.len() != after.len() {
        return false;
    }
    for i in 0..before.len() {
        if before[i].name != after[i].name {
            return false;
        }
    }
    true
}

// The number of the value of an attribute of an entry, among those of the unit.
fn value_number(world: &World<'_>, unit: u32, id: u32, column: u32) -> u32
    requires world { IsSomeWorld world.now }
    requires known { unit < length world.now.units }
    requires entry { id < length (held_at world.now.units unit).forest.entries }
    requires column { column < (entry_held world.now unit id).count }
    ensures { result ≡ (entry_held world.now unit id).first + column }
{
    let forest = world.units()[unit as usize].forest();
    // Numbers of 32 bits name all values of a unit.
    let _count = forest.value_count();
    forest.entry(id).first + column
}

// Whether the attribute of an entry with a number means the same in both files, where it has the same name in them.
fn mean_same_attribute(
    lists: &mut SameLists,
    before: &World<'_>,
    after: &World<'_>,
    at: Attribute,
    column: u32,
) -> Result<bool, NoMemory>
    requires before { IsSomeWorld before.now }
    requires after { IsSomeWorld after.now }
    requires known { at.unit < length before.now.units }
    requires again { at.unit < length after.now.units }
    requires first { at.id < length (held_at before.now.units at.unit).forest.entries }
    requires second { at.id < length (held_at after.now.units at.unit).forest.entries }
    requires named { OfBoth before.now after.now (λ r s. IsNamedColumn r at.unit at.id column at.name × IsNamedColumn s at.unit at.id column at.name) }
    requires lists { AreSameLists before.now after.now lists.old }
    ensures same { IfOk result (λ same. OfBoth before.now after.now (λ r s. IsTrue same ↔ MeanOne (MeansColumn r at.unit at.id column) (MeansColumn s at.unit at.id column))) }
    ensures lists { AreSameLists before.now after.now lists.new }
{
    let first = value_number(before, at.unit, at.id, column);
    let second = value_number(after, at.unit, at.id, column);
    mean_same_value(lists, before, after, at, first, second)
}

/// Whether the attributes of an entry have the same names and mean the same in both files.
pub(crate) fn mean_same_attributes(
    lists: &mut SameLists,
    before: &World<'_>,
    after: &World<'_>,
    unit: u32,
    id: u32,
) -> Result<bool, NoMemory>
    requires before { IsSomeWorld before.now }
    requires after { IsSomeWorld after.now }
    requires known { unit < length before.now.units }
    requires again { unit < length after.now.units }
    requires first { id < length (held_at before.now.units unit).forest.entries }
    requires second { id < length (held_at after.now.units unit).forest.entries }
    requires lists { AreSameLists before.now after.now lists.old }
    ensures same { IfOk result (λ same. OfBoth before.now after.now (λ r s. IsTrue same ↔ MeanOne (MeanAttributesAt r unit id) (MeanAttributesAt s unit id))) }
    ensures lists { AreSameLists before.now after.now lists.new }
{
    let columns = columns_of(before, unit, id);
    if !have_same_names(columns, columns_of(after, unit, id)) {
        return Ok(false);
    }
    let count = before.units()[unit as usize].forest().entry(id).count;
    for column in 0..count {
        let name = columns[column as usize].name;
        let at = Attribute { unit, id, name };
        if !mean_same_attribute(lists, before, after, at, column)? {
            return Ok(false);
        }
    }
    Ok(true)
}
