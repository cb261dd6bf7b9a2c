// The record of a unit.
ghost use Rattle.std.specs.Prelude.{◌≡◌, ◌<◌, ℕ, length, IfOk};
ghost use Rattle.dw_base.specs.declared.fault.Reach.{Reach};
ghost use Rattle.leb_codec.specs.Records.{OfLayout};
ghost use Rattle.written_files.specs.Layouts.{AreOwnedLists};
ghost use Rattle.value_links.specs.Reading.{Reading};
ghost use Rattle.value_links.specs.Whole.{IsReading};
ghost use Rattle.value_links.specs.World.{IsWorldOf};
ghost use Rattle.check_records.specs.Parts.{AUnit};
ghost use Rattle.check_records.specs.inside.Judged.{IsVerdictOn};

use check_units::accept_layout;
use dw_base::NoMemory;
use std::alloc::Global;
use unit_slots::slots_that_stand;
use value_links::World;

/// Whether the ranks of the unit with a number are accepted: None, or the first slot by which they aren't (DWARF 5 sections 2.5.1.5, 7.5
/// and 7.6). `lists` are the numbers of the location lists that it owns, rising.
pub(crate) fn judge_unit(
    alloc: Global,
    written: &World<'_>,
    unit: u32,
    lists: &[usize],
    ranks: &[u64],
) -> Result<Option<u32>, NoMemory>
    requires world { (reach : Reach) × IsWorldOf written.now.image reach written.now }
    requires known { unit < length written.now.units }
    requires lists { (s : Reading) → IsReading written.now.image s → AreOwnedLists s unit lists.now }
    ensures { IfOk result (IsVerdictOn written.now.image (AUnit unit) (OfLayout ranks.now)) }
{
    let standing = slots_that_stand(alloc, written, unit, lists)?;
    accept_layout(alloc, &standing.slots, &standing.sizes, ranks)
}
