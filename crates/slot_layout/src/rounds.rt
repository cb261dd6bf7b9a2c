// The rounds in which slots grow.
ghost use Rattle.std.specs.Prelude.{◌≡◌, ◌<◌, ◌≤◌, ◌+◌, ◌-◌, ◌^◌, ℕ, length, sum, slice_index, slice_index_or, [], IfOk, true, false};
ghost use Rattle.leb_codec.specs.Layout.{IsLayout, IsLowestLayout, IsLeastLayout, HasNarrowNumbers, AcceptsLayout, HasFirstRanks};
ghost use Rattle.slot_layout.specs.Rows.{rows_of, IsTight};
ghost use Rattle.slot_layout.specs.inside.Rounds.{AreSlots, AreStarts, AreSmall, AreRaised, NotesSlot, joined, smallest_of};

use crate::ranking::{StepRanks, note};
use crate::slots::Slot;
use dw_base::NoMemory;
use leb_codec::least_lens;
use std::alloc::Global;

// The smallest size of each slot.
pub(crate) fn smallest_sizes(alloc: Global, slots: &[Slot]) -> Result<Vec<u8>, NoMemory>
    ensures { IfOk result (λ sizes. sizes.items ≡ smallest_of (rows_of slots.now)) }
{
    let mut sizes = Vec::new(alloc);
    for slot in slots {
        sizes.push(slot.kind.smallest())?;
    }
    Ok(sizes)
}

// The sum of the sizes before each slot, and of all.
fn sum_sizes(sizes: &[u8], starts: &mut [u32])
    requires one_more { length starts.old ≡ length sizes.now + 1 }
    requires small { AreSmall sizes.now }
    ensures { AreStarts sizes.now starts.new }
{
    let mut start = 0;
    starts[0] = 0;
    for i in 0..sizes.len() {
        start += u32::from(sizes[i]);
        starts[i + 1] = start;
    }
}

// The number of a slot, by the sums of the sizes before each slot.
fn number(slot: Slot, starts: &[u32]) -> u64
    requires from { slot.from < length starts.now }
    requires to { slot.to < length starts.now }
    requires rising { slice_index starts.now slot.from ≤ slice_index starts.now slot.to }
    requires fixed { slot.fixed < 2 ^ 31 }
    ensures { result ≡ slot.fixed + (slice_index starts.now slot.to - slice_index starts.now slot.from) }
{
    slot.fixed + u64::from(starts[slot.to as usize] - starts[slot.from as usize])
}

// One round: raises each slot to what its number needs by the sizes at its start, and notes the rank of each step.
// Whether a slot was raised.
fn grow(
    slots: &[Slot],
    rank: u32,
    starts: &mut [u32],
    sizes: &mut [u8],
    ranks: &mut [StepRanks],
) -> bool
    requires slots { AreSlots (rows_of slots.now) }
    requires starts { length starts.old ≡ length slots.now + 1 }
    requires sizes { length sizes.old ≡ length slots.now }
    requires small { AreSmall sizes.old }
    requires ranks { length ranks.old ≡ length slots.now }
    ensures raised { AreRaised (rows_of slots.now) sizes.old sizes.new }
    ensures noted { (i : ℕ) → i < length slots.now → NotesSlot (rows_of slots.now) sizes.old sizes.new rank ranks.old ranks.new i }
    ensures more { result ≡ true → sum sizes.old < sum sizes.new }
    ensures done { result ≡ false → sizes.new ≡ sizes.old }
{
    // A law, which costs nothing: what numbers below 2^32 need.
    least_lens();
    sum_sizes(sizes, starts);
    let mut is_raised = false;
    for i in 0..slots.len() {
        let slot = slots[i];
        let size = sizes[i];
        let need = slot.kind.need(number(slot, starts));
        if need > size {
            ranks[i] = note(ranks[i], slot.kind.steps(size), slot.kind.steps(need), rank);
            sizes[i] = need;
            is_raised = true;
        }
    }
    is_raised
}

// All rounds, from the smallest sizes until no slot is raised. Round t notes the rank t.
pub(crate) fn grow_fully(
    slots: &[Slot],
    starts: &mut [u32],
    sizes: &mut [u8],
    ranks: &mut [StepRanks],
)
    requires slots { AreSlots (rows_of slots.now) }
    requires starts { length starts.old ≡ length slots.now + 1 }
    requires sizes { sizes.old ≡ smallest_of (rows_of slots.now) }
    requires ranks { length ranks.old ≡ length slots.now }
    requires places { (i : ℕ) → i < length slots.now → length (slice_index_or ranks.old i []) ≡ 4 }
    ensures long { length sizes.new ≡ length slots.now }
    ensures small { AreSmall sizes.new }
    ensures member { IsLayout (rows_of slots.now) sizes.new }
    ensures lowest { IsLowestLayout (rows_of slots.now) sizes.new }
    ensures least { IsLeastLayout (rows_of slots.now) sizes.new }
    ensures tight { IsTight (rows_of slots.now) sizes.new }
    ensures narrow { HasNarrowNumbers (rows_of slots.now) sizes.new }
    ensures accepted { AcceptsLayout (rows_of slots.now) sizes.new (joined (rows_of slots.now) sizes.new ranks.new) }
    ensures first_ranks { HasFirstRanks (rows_of slots.now) sizes.new (joined (rows_of slots.now) sizes.new ranks.new) }
{
    // A law, which costs nothing: a greater number has no shorter spelling.
    least_lens();
    let mut rank = 0;
    while grow(slots, rank, starts, sizes, ranks) {
        rank += 1;
    }
}
