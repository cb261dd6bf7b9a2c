//! Whether the record of a unit's layout shows that no slot can be smaller: the local references, lengths and call operands whose
//! numbers count bytes of the unit (DWARF 5 sections 2.5.1.5 and 7.6).
#![tactic(auto)]

ghost use Rattle.std.specs.Prelude.{◌≡◌, ◌<◌, ◌↔◌, ℕ, length, slice_index, IfOk, IfSome, IsNone};
ghost use Rattle.leb_codec.specs.Layout.{AcceptsLayout, AcceptsSlot, row_at, step_count};
ghost use Rattle.slot_layout.specs.Rows.{rows_of, CanHaveSize, HasRangesInside};
ghost use Rattle.check_units.specs.Laws.{AcceptedAreLowest, AcceptedAreLeast, AcceptedAreTight, NeverBoth, OneRefused};
ghost use Rattle.check_units.specs.Refused.{IsFirstRefused};
ghost use Rattle.check_units.specs.inside.Checks.{AreChecked, IsFirstWithout};
ghost use Rattle.check_units.specs.inside.Dealing.{AreDealt};

mod dealing;
mod growing;
mod holding;
mod kinds;
mod steps;
mod sums;

use dealing::{deal, first_misdealt};
use dw_base::NoMemory;
use growing::first_unneeded;
use holding::{first_unheld, sums_before};
use leb_codec::least_lens;
use slot_layout::Slot;
use std::alloc::Global;
use steps::ordered_steps;
use sums::smallest_sums;

// The first slot that isn't accepted, or the count of slots.
fn first_failing(
    alloc: Global,
    slots: &[Slot],
    sizes: &[u32],
    ranks: &[u64],
    starts: &[usize],
) -> Result<usize, NoMemory>
    requires checked { AreChecked (rows_of slots.now) sizes.now }
    requires dealt { AreDealt (rows_of slots.now) sizes.now (length ranks.now) starts.now }
    ensures { IfOk result (IsFirstWithout (AcceptsSlot (rows_of slots.now) sizes.now ranks.now) (length slots.now)) }
{
    let steps = ordered_steps(alloc, slots.len(), ranks, starts)?;
    let mut sums = smallest_sums(alloc, slots)?;
    let totals = sums_before(alloc, sizes)?;
    let misdealt = first_misdealt(slots, sizes, ranks, starts);
    let unneeded = first_unneeded(slots, &steps, &mut sums);
    let unheld = first_unheld(slots, sizes, &totals);
    Ok(misdealt.min(unneeded).min(unheld))
}

/// Whether a record shows that the sizes of a unit's slots are the least: None where it is accepted, and else the first slot,
/// counted from 0, by which it is refused.
///
/// `sizes` has the bytes of each slot, and `ranks` the ranks of all steps from the smallest sizes to these, in slot order: a ULEB128
/// of n bytes (DWARF 5 section 7.6) has n - 1 steps, the operand of DW_OP_call4 (section 2.5.1.5) one, and that of DW_OP_call2 none.
/// A slot is accepted where its ranks are there and never fall, each of its steps was needed once all slots had their steps of lower
/// rank, and its size holds its number under all sizes. Ranks that are left over are a fault of the last slot, or of slot 0 where
/// there is none.
///
/// Each range of slots lies in the list, and a ULEB128 has at least one byte and a call 2 or 4. A number may be past 64 bits: no call
/// holds it, and a ULEB128 of ten bytes does. The only error is want of memory, which is also the answer to 2^32 slots and more.
pub fn accept_layout(
    alloc: Global,
    slots: &[Slot],
    sizes: &[u32],
    ranks: &[u64],
) -> Result<Option<u32>, NoMemory>
    requires inside { HasRangesInside (rows_of slots.now) }
    requires each { length sizes.now ≡ length slots.now }
    requires sized { (i : ℕ) → i < length slots.now → CanHaveSize (row_at (rows_of slots.now) i).form (slice_index sizes.now i) }
    ensures accepted { IfOk result (λ refused. IsNone refused ↔ AcceptsLayout (rows_of slots.now) sizes.now ranks.now) }
    ensures first { IfOk result (λ refused. IfSome refused (IsFirstRefused (rows_of slots.now) sizes.now ranks.now)) }
{
    // 32 bits number the slots.
    if slots.len() > u32::MAX as usize {
        return Err(NoMemory);
    }
    let starts = deal(alloc, slots, sizes, ranks.len())?;
    let first = first_failing(alloc, slots, sizes, ranks, &starts)?;
    if first < slots.len() {
        Ok(Some(first as u32))
    } else if starts[slots.len()] < ranks.len() {
        Ok(Some(slots.len().saturating_sub(1) as u32))
    } else {
        Ok(None)
    }
}

/// Laws: sizes whose record is accepted are slot by slot at most those of each layout, and where they are a layout themselves, no
/// layout has fewer bytes. Each slot has just the bytes that its number needs under them.
pub fn accepted_layouts_are_least()
    ensures lowest { AcceptedAreLowest }
    ensures least { AcceptedAreLeast }
    ensures tight { AcceptedAreTight }
{
    // A law, which costs nothing: a greater number has no shorter spelling.
    least_lens();
}

/// Laws: no record is both accepted and refused, and one slot alone is the first by which a record is refused.
pub fn one_verdict()
    ensures never_both { NeverBoth }
    ensures one_refused { OneRefused }
{}
