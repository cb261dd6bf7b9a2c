// The steps of slots, each held against the sizes that the steps of lower rank led to.
ghost use Rattle.std.specs.Prelude.{◌≡◌, ◌≤◌, ◌<◌, ◌+◌, ◌^◌, ◌↔◌, ℕ, List, length, sum, IsTrue};
ghost use Rattle.slot_layout.specs.Rows.{rows_of};
ghost use Rattle.slot_layout.specs.inside.Rounds.{smallest_of};
ghost use Rattle.check_units.specs.inside.Checks.{AreSlotsToCheck, IsFirstWithout};
ghost use Rattle.check_units.specs.inside.Dealing.{AreInOrder, step_at};
ghost use Rattle.check_units.specs.inside.Growing.{AreSteps, HasTaken, IsJudged, IsNeededUnder, IsSlotNeeded};
ghost use Rattle.check_units.specs.inside.Sums.{AreSums, numbers_of};

use crate::kinds::{need, size_after};
use crate::steps::Step;
use crate::sums::SizeSums;
use slot_layout::Slot;

// Takes the next step.
fn take_step(slots: &[Slot], steps: &[Step], next: usize, sums: &mut SizeSums)
    requires slots { length slots.now < 2 ^ 32 }
    requires steps { AreSteps (length slots.now) steps.now }
    requires next { next < length steps.now }
    requires taken { HasTaken (rows_of slots.now) steps.now next sums.old.cells.items }
    ensures { HasTaken (rows_of slots.now) steps.now (next + 1) sums.new.cells.items }
{
    let slot = steps[next].slot as usize;
    let kind = slots[slot].kind;
    sums.add(slot, size_after(kind, 1) - size_after(kind, 0));
}

// Takes the steps of lower rank than this, from one on that is the next. Where they end.
fn take_steps_below(
    slots: &[Slot],
    steps: &[Step],
    from: usize,
    rank: u64,
    sums: &mut SizeSums,
) -> usize
    requires slots { length slots.now < 2 ^ 32 }
    requires steps { AreSteps (length slots.now) steps.now }
    requires from { from ≤ length steps.now }
    requires taken { HasTaken (rows_of slots.now) steps.now from sums.old.cells.items }
    ensures inside { result ≤ length steps.now }
    ensures taken { HasTaken (rows_of slots.now) steps.now result sums.new.cells.items }
    ensures below { (p : ℕ) → from ≤ p → p < result → (step_at steps.now p).rank < rank }
    ensures next { result < length steps.now → rank ≤ (step_at steps.now result).rank }
{
    let mut taken = from;
    while taken < steps.len() && steps[taken].rank < rank {
        take_step(slots, steps, taken, sums);
        taken += 1;
    }
    taken
}

// Whether a step is needed under the sizes that are summed.
fn is_needed(slots: &[Slot], step: Step, sums: &SizeSums) -> bool
    requires slots { AreSlotsToCheck (rows_of slots.now) }
    requires inside { step.slot < length slots.now }
    requires sums { AreSums sums.now.cells.items }
    requires long { length (numbers_of sums.now.cells.items) ≡ length slots.now }
    requires room { sum (numbers_of sums.now.cells.items) < 2 ^ 63 }
    ensures { IsTrue result ↔ IsNeededUnder (rows_of slots.now) (numbers_of sums.now.cells.items) step }
{
    let slot = slots[step.slot as usize];
    let counted = sums.between(slot.from as usize, slot.to as usize);
    let needed = need(slot.kind, slot.fixed, counted);
    size_after(slot.kind, u64::from(step.number) + 1) <= u64::from(needed)
}

// The first slot that has failed so far, once a step is looked at.
fn judge(slots: &[Slot], step: Step, sums: &SizeSums, first: usize) -> usize
    requires slots { AreSlotsToCheck (rows_of slots.now) }
    requires inside { step.slot < length slots.now }
    requires sums { AreSums sums.now.cells.items }
    requires long { length (numbers_of sums.now.cells.items) ≡ length slots.now }
    requires room { sum (numbers_of sums.now.cells.items) < 2 ^ 63 }
    ensures { IsJudged (rows_of slots.now) (numbers_of sums.now.cells.items) step first result }
{
    if is_needed(slots, step, sums) {
        first
    } else {
        first.min(step.slot as usize)
    }
}

// The first slot with a step that wasn't needed by the steps of lower rank, or the count of slots. The sums are those of the
// smallest sizes at first, and grow with the steps.
pub(crate) fn first_unneeded(slots: &[Slot], steps: &[Step], sums: &mut SizeSums) -> usize
    requires slots { AreSlotsToCheck (rows_of slots.now) }
    requires steps { AreSteps (length slots.now) steps.now }
    requires sums { AreSums sums.old.cells.items }
    requires smallest { numbers_of sums.old.cells.items ≡ smallest_of (rows_of slots.now) }
    ensures { (lists : List (List ℕ)) → length lists ≡ length slots.now → AreInOrder lists steps.now →
        IsFirstWithout (IsSlotNeeded (rows_of slots.now) lists) (length slots.now) result }
{
    let mut first = slots.len();
    let mut taken = 0;
    for step in steps {
        taken = take_steps_below(slots, steps, taken, step.rank, sums);
        first = judge(slots, *step, sums, first);
    }
    first
}
