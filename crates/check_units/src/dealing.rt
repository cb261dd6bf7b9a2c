// The ranks of a record dealt out to the slots by their sizes.
ghost use Rattle.std.specs.Prelude.{◌≡◌, ◌≤◌, ◌<◌, ◌↔◌, ℕ, length, slice_index, IfOk, IsTrue};
ghost use Rattle.std.specs.List.Sorted.{IsNonDecreasing};
ghost use Rattle.leb_codec.specs.Layout.{steps_to};
ghost use Rattle.slot_layout.specs.Rows.{rows_of, form_of, CanHaveSize};
ghost use Rattle.check_units.specs.inside.Checks.{AreChecked, HasItsRanks, IsFirstWithout};
ghost use Rattle.check_units.specs.inside.Dealing.{AreDealt};

use crate::kinds::steps_from_smallest;
use dw_base::NoMemory;
use slot_layout::{Slot, SlotKind};
use std::alloc::Global;

// Where the ranks of each slot begin among so many, and where those of the last end. A slot whose ranks are missing has fewer.
pub(crate) fn deal(
    alloc: Global,
    slots: &[Slot],
    sizes: &[u32],
    count: usize,
) -> Result<Vec<usize>, NoMemory>
    requires { AreChecked (rows_of slots.now) sizes.now }
    ensures { IfOk result (λ starts. AreDealt (rows_of slots.now) sizes.now count starts.items) }
{
    let mut starts = Vec::new(alloc);
    let mut start = 0;
    starts.push(start)?;
    for i in 0..slots.len() {
        start += steps_from_smallest(slots[i].kind, sizes[i]).min(count - start);
        starts.push(start)?;
    }
    Ok(starts)
}

// Whether a slot of this size has its ranks, and they never fall.
fn has_its_ranks(kind: SlotKind, size: u32, own: &[u64]) -> bool
    requires { CanHaveSize (form_of kind) size }
    ensures { IsTrue result ↔ ((length own.now ≡ steps_to (form_of kind) size) × IsNonDecreasing own.now) }
{
    own.len() == steps_from_smallest(kind, size) && own.is_sorted()
}

// The first slot that hasn't its ranks or whose ranks fall, or the count of slots.
pub(crate) fn first_misdealt(
    slots: &[Slot],
    sizes: &[u32],
    ranks: &[u64],
    starts: &[usize],
) -> usize
    requires checked { AreChecked (rows_of slots.now) sizes.now }
    requires dealt { AreDealt (rows_of slots.now) sizes.now (length ranks.now) starts.now }
    ensures { IsFirstWithout (HasItsRanks (rows_of slots.now) sizes.now ranks.now) (length slots.now) result }
{
    for i in 0..slots.len() {
        let own = &ranks[starts[i]..starts[i + 1]];
        if !has_its_ranks(slots[i].kind, sizes[i], own) {
            return i;
        }
    }
    slots.len()
}
