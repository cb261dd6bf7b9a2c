// Units (DWARF 5 section 3.1).
ghost use Rattle.std.specs.Prelude.{◌≡◌, ◌<◌, ℕ, length, slice_get, Some, IfOk};
ghost use Rattle.value_links.specs.Debug.{UnitMeaning};
ghost use Rattle.same_meaning.specs.Differences.{UnitsDifferAt};
ghost use Rattle.same_meaning.specs.inside.Compared.{IsSomeWorld, OfMeanings, AreSameLists, IsFirstFound, IsFirstPairFound};

use crate::entries::first_entry_in;
use crate::headers::have_other_heads;
use crate::same_lists::SameLists;
use dw_base::NoMemory;
use value_links::{World, one_reading};

// The first entry by which the unit with a number differs in meaning, where both files have the unit. What differs of the unit itself does
// so at entry 0.
fn first_of_unit(
    lists: &mut SameLists,
    before: &World<'_>,
    after: &World<'_>,
    unit: u32,
) -> Result<Option<u32>, NoMemory>
    requires before { IsSomeWorld before.now }
    requires after { IsSomeWorld after.now }
    requires known { unit < length before.now.units }
    requires again { unit < length after.now.units }
    requires lists { AreSameLists before.now after.now lists.old }
    ensures first { IfOk result (λ found. OfMeanings before.now after.now (λ c d. IsFirstFound (UnitsDifferAt (slice_get c.units unit) (slice_get d.units unit)) found)) }
    ensures lists { AreSameLists before.now after.now lists.new }
{
    one_reading();
    if have_other_heads(before, after, unit) {
        return Ok(Some(0));
    }
    first_entry_in(lists, before, after, unit)
}

/// The first unit and entry by which two files differ in meaning.
pub(crate) fn first_entry(
    lists: &mut SameLists,
    before: &World<'_>,
    after: &World<'_>,
) -> Result<Option<(u32, u32)>, NoMemory>
    requires before { IsSomeWorld before.now }
    requires after { IsSomeWorld after.now }
    requires lists { AreSameLists before.now after.now lists.old }
    ensures first { IfOk result (λ found. OfMeanings before.now after.now (λ c d. IsFirstPairFound (λ u e. UnitsDifferAt (slice_get c.units u) (slice_get d.units u) e) found)) }
    ensures lists { AreSameLists before.now after.now lists.new }
{
    one_reading();
    let (old, new) = (before.units().len(), after.units().len());
    let common = old.min(new) as u32;
    for unit in 0..common {
        if let Some(entry) = first_of_unit(lists, before, after, unit)? {
            return Ok(Some((unit, entry)));
        }
    }
    Ok(if old == new { None } else { Some((common, 0)) })
}
