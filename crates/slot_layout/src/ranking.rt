// The ranks of steps: kept for each slot while it grows, and then joined.
ghost use Rattle.std.specs.Prelude.{◌≡◌, ◌<◌, ◌≤◌, ◌++◌, ℕ, [], length, slice_index, slice_index_or, OnOk, IfOk};
ghost use Rattle.leb_codec.specs.Layout.{row_at, steps_to};
ghost use Rattle.slot_layout.specs.Rows.{rows_of};
ghost use Rattle.slot_layout.specs.inside.Rounds.{AreNoted, joined};

use crate::slots::Slot;
use dw_base::NoMemory;
use std::alloc::Global;

// The ranks of a slot's steps, the first in front. No slot takes more than 4 steps.
pub(crate) type StepRanks = [u32; 4];

// The ranks of a slot's steps after a round has led it from one count of steps to another.
pub(crate) fn note(ranks: StepRanks, from: usize, to: usize, rank: u32) -> StepRanks
    requires { to ≤ 4 }
    ensures { AreNoted from to rank ranks result }
{
    let mut noted = ranks;
    for k in from..to {
        noted[k] = rank;
    }
    noted
}

fn push_all(all: &mut Vec<u64>, ranks: &[u32]) -> Result<(), NoMemory>
    ensures { OnOk result (all.new.items ≡ all.old.items ++ ranks.now) }
{
    for rank in ranks {
        all.push(u64::from(*rank))?;
    }
    Ok(())
}

// The ranks of all steps.
pub(crate) fn in_slot_order(
    alloc: Global,
    slots: &[Slot],
    sizes: &[u8],
    ranks: &[StepRanks],
) -> Result<Vec<u64>, NoMemory>
    requires sizes { length sizes.now ≡ length slots.now }
    requires ranks { length ranks.now ≡ length slots.now }
    requires grown { (i : ℕ) → i < length sizes.now → 1 ≤ slice_index sizes.now i }
    requires few { (i : ℕ) → i < length sizes.now → steps_to (row_at (rows_of slots.now) i).form (slice_index sizes.now i) ≤ 4 }
    ensures { IfOk result (λ all. all.items ≡ joined (rows_of slots.now) sizes.now ranks.now) }
{
    let mut all = Vec::new(alloc);
    for i in 0..slots.len() {
        let steps = slots[i].kind.steps(sizes[i]);
        push_all(&mut all, &ranks[i][..steps])?;
    }
    Ok(all)
}
