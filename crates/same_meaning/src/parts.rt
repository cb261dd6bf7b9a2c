// Contributions of lists (DWARF 5 sections 7.28 and 7.29).
ghost use Rattle.std.specs.Prelude.{◌≡◌, ◌<◌, ◌↔◌, ℕ, length, IsTrue, IfOk};
ghost use Rattle.list_model.specs.declared.entry.ListKind.{ListKind as AnyKind};
ghost use Rattle.value_links.specs.World.{contributions_held};
ghost use Rattle.value_links.specs.Debug.{MeansPart, MeansSlot, parts_of};
ghost use Rattle.value_links.specs.World.{contribution_at};
ghost use Rattle.same_meaning.specs.Differences.{DifferAt};
ghost use Rattle.same_meaning.specs.inside.Compared.{IsSomeWorld, OfBoth, OfMeanings, MeanOne, AreSameLists, IsFirstFound};

use crate::same_lists::SameLists;
use dw_base::NoMemory;
use list_model::ListKind;
use value_links::{World, one_debug, one_reading};

// Whether a slot of two contributions names lists of the same meaning.
fn mean_same_slot(
    lists: &mut SameLists,
    before: &World<'_>,
    after: &World<'_>,
    kind: ListKind,
    part: u32,
    slot: u32,
) -> Result<bool, NoMemory>
    requires before { IsSomeWorld before.now }
    requires after { IsSomeWorld after.now }
    requires first { part < length (contributions_held before.now kind) }
    requires second { part < length (contributions_held after.now kind) }
    requires slot { slot < (contribution_at before.now kind part).slots }
    requires other { slot < (contribution_at after.now kind part).slots }
    requires lists { AreSameLists before.now after.now lists.old }
    ensures same { IfOk result (λ same. OfBoth before.now after.now (λ r s. IsTrue same ↔ MeanOne (MeansSlot r kind part slot) (MeansSlot s kind part slot))) }
    ensures lists { AreSameLists before.now after.now lists.new }
{
    let first = before.told(kind, part, slot);
    let second = after.told(kind, part, slot);
    lists.mean_same(before, after, kind, first, second)
}

// Whether two contributions mean the same.
fn mean_same_part(
    lists: &mut SameLists,
    before: &World<'_>,
    after: &World<'_>,
    kind: ListKind,
    part: u32,
) -> Result<bool, NoMemory>
    requires before { IsSomeWorld before.now }
    requires after { IsSomeWorld after.now }
    requires first { part < length (contributions_held before.now kind) }
    requires second { part < length (contributions_held after.now kind) }
    requires lists { AreSameLists before.now after.now lists.old }
    ensures same { IfOk result (λ same. OfBoth before.now after.now (λ r s. IsTrue same ↔ MeanOne (MeansPart r kind part) (MeansPart s kind part))) }
    ensures lists { AreSameLists before.now after.now lists.new }
{
    let count = before.contributions(kind)[part as usize].slots;
    if after.contributions(kind)[part as usize].slots != count {
        return Ok(false);
    }
    for slot in 0..count {
        if !mean_same_slot(lists, before, after, kind, part, slot)? {
            return Ok(false);
        }
    }
    Ok(true)
}

/// The first contribution of lists of a kind by which two files differ in meaning.
pub(crate) fn first_part(
    lists: &mut SameLists,
    before: &World<'_>,
    after: &World<'_>,
    kind: ListKind,
) -> Result<Option<u32>, NoMemory>
    requires before { IsSomeWorld before.now }
    requires after { IsSomeWorld after.now }
    requires lists { AreSameLists before.now after.now lists.old }
    ensures first { IfOk result (λ found. OfMeanings before.now after.now (λ c d. IsFirstFound (DifferAt (parts_of c kind) (parts_of d kind)) found)) }
    ensures lists { AreSameLists before.now after.now lists.new }
{
    // A file is read in one way and means one thing.
    one_reading();
    one_debug();
    let (old, new) = (
        before.contributions(kind).len(),
        after.contributions(kind).len(),
    );
    let common = old.min(new) as u32;
    for part in 0..common {
        if !mean_same_part(lists, before, after, kind, part)? {
            return Ok(Some(part));
        }
    }
    Ok(if old == new { None } else { Some(common) })
}
