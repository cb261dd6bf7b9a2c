// Whether there is room to lay out the slots of a unit.
ghost use Rattle.std.specs.Prelude.{◌≡◌, ◌≤◌, ◌<◌, ◌+◌, ◌^◌, length, IsTrue};
ghost use Rattle.slot_layout.specs.Rows.{most_slots};
ghost use Rattle.unit_write.specs.Most.{most_bytes as most_bytes_of};

use crate::slots::{ListSlot, Spot};
use entry_read::Unit;
use slot_layout::MOST_SLOTS;

// The most bytes that a unit can have when it is written anew.
fn most_bytes(unit: &Unit<'_>) -> u128
    ensures { result ≡ most_bytes_of unit.now }
{
    let forest = unit.forest();
    let entries = 4 * u128::from(forest.len());
    let values = 10 * u128::from(forest.value_count());
    3 * u128::from(unit.head().len) + entries + values
}

/// Whether 31 bits are sure to hold all places in a unit that is written anew, and few enough slots stand in it and in the lists that
/// it owns.
pub(crate) fn has_room(unit: &Unit<'_>, spots: &Vec<Spot>, lists: &[ListSlot]) -> bool
    ensures room { IsTrue result → most_bytes_of unit.now < 2 ^ 31 }
    ensures few { IsTrue result → length spots.now.items + length lists.now ≤ most_slots }
{
    most_bytes(unit) < 1 << 31 && spots.len() + lists.len() <= MOST_SLOTS
}
