// Entries (DWARF 5 sections 2.1 to 2.3).
ghost use Rattle.std.specs.Prelude.{◌≡◌, ◌<◌, ◌↔◌, ℕ, length, slice_index_or, slice_get, Some, IsTrue, IfOk};
ghost use Rattle.value_links.specs.Links.{held_at};
ghost use Rattle.value_links.specs.Debug.{UnitMeaning};
ghost use Rattle.value_links.specs.Reading.{unit_at};
ghost use Rattle.value_links.specs.Values.{described_at};
ghost use Rattle.same_meaning.specs.Differences.{DifferAt};
ghost use Rattle.same_meaning.specs.inside.Compared.{IsSomeWorld, OfBoth, OfMeanings, MeanOne, AreSameLists, MeansEntryAt, IsFirstFound};
ghost use Rattle.same_meaning.specs.inside.Values.{OfReading, HasShape};

use crate::attributes::mean_same_attributes;
use crate::same_lists::SameLists;
use dw_base::NoMemory;
use value_links::{World, one_meaning, one_reading};

// How deep an entry stands, its tag, and whether it has children.
fn shape_of(world: &World<'_>, unit: u32, id: u32) -> (u32, u64, bool)
    requires world { IsSomeWorld world.now }
    requires known { unit < length world.now.units }
    requires entry { id < length (held_at world.now.units unit).forest.entries }
    ensures { OfReading world.now (λ r. HasShape (described_at (unit_at r.links unit) id) result.0 result.1 result.2) }
{
    let entry = world.units()[unit as usize].forest().entry(id);
    let decl = world.table(unit).decl(entry.decl);
    (entry.depth, decl.tag, decl.children)
}

// Whether the entry with a number means the same in both files.
fn mean_same_entry(
    lists: &mut SameLists,
    before: &World<'_>,
    after: &World<'_>,
    unit: u32,
    id: u32,
) -> Result<bool, NoMemory>
    requires before { IsSomeWorld before.now }
    requires after { IsSomeWorld after.now }
    requires known { unit < length before.now.units }
    requires again { unit < length after.now.units }
    requires first { id < length (held_at before.now.units unit).forest.entries }
    requires second { id < length (held_at after.now.units unit).forest.entries }
    requires lists { AreSameLists before.now after.now lists.old }
    ensures same { IfOk result (λ same. OfBoth before.now after.now (λ r s. IsTrue same ↔ MeanOne (MeansEntryAt r unit id) (MeansEntryAt s unit id))) }
    ensures lists { AreSameLists before.now after.now lists.new }
{
    if shape_of(before, unit, id) != shape_of(after, unit, id) {
        return Ok(false);
    }
    mean_same_attributes(lists, before, after, unit, id)
}

/// The first entry of the unit with a number by which the unit differs in meaning, where both files have the unit.
pub(crate) fn first_entry_in(
    lists: &mut SameLists,
    before: &World<'_>,
    after: &World<'_>,
    unit: u32,
) -> Result<Option<u32>, NoMemory>
    requires before { IsSomeWorld before.now }
    requires after { IsSomeWorld after.now }
    requires known { unit < length before.now.units }
    requires again { unit < length after.now.units }
    requires lists { AreSameLists before.now after.now lists.old }
    ensures first { IfOk result (λ found. OfMeanings before.now after.now (λ c d. (a b : UnitMeaning) → slice_get c.units unit ≡ Some a → slice_get d.units unit ≡ Some b → IsFirstFound (DifferAt a.forest b.forest) found)) }
    ensures lists { AreSameLists before.now after.now lists.new }
{
    // A file is read in one way, and a value means one thing.
    one_reading();
    one_meaning();
    let old = before.units()[unit as usize].forest().len();
    let new = after.units()[unit as usize].forest().len();
    let common = old.min(new);
    for id in 0..common {
        if !mean_same_entry(lists, before, after, unit, id)? {
            return Ok(Some(id));
        }
    }
    Ok(if old == new { None } else { Some(common) })
}
