// The least sizes of a unit's slots.
ghost use Rattle.std.specs.Prelude.{◌≡◌, ◌≤◌, ◌<◌, ◌+◌, ◌*◌, ◌^◌, ℕ, List, length, sum, IfOk};
ghost use Rattle.std.specs.List.{All};
ghost use Rattle.dw_base.specs.declared.fault.Reach.TheVariants.{Narrow};
ghost use Rattle.entry_read.specs.Expressions.{HasOperations};
ghost use Rattle.expr_ops.specs.Slots.{Aim};
ghost use Rattle.slot_layout.specs.Rows.{most_slots};
ghost use Rattle.entry_read.specs.Slots.{operations_in};
ghost use Rattle.unit_write.specs.Lens.{AreLensFor};
ghost use Rattle.unit_write.specs.Most.{most_bytes};
ghost use Rattle.unit_write.specs.Moved.{IsWritable, IsPlacedAt};
ghost use Rattle.unit_write.specs.Slots.{AreSpotsOf, AreListSlots, IsLaidOut, all_spots};
ghost use Rattle.unit_write.specs.inside.Marks.{AreLensWith};

use crate::measure::{Measured, measure};
use crate::places::Places;
use crate::slots::{ListSlot, MarkedSlots, Spot, measured_slots};
use abbrev_tables::{Spec, Table};
use dw_base::NoMemory;
use entry_arena::Operations;
use entry_read::Unit;
use expr_ops::slots_are_few;
use slot_layout::solve;
use std::alloc::Global;

// The sum of some sizes.
pub(crate) fn total_of(sizes: &[u8]) -> u32
    requires small { All (λ size. size ≤ 5) sizes.now }
    requires few { length sizes.now ≤ most_slots }
    ensures { result ≡ sum sizes.now }
{
    let mut sum = 0;
    for size in sizes {
        sum += u32::from(*size);
    }
    sum
}

// Adds to each number the sizes of its slots, which are so many and stand one after the other.
fn add_sizes(lens: &mut Vec<u32>, slots: &[u32], sizes: &[u8])
    requires each { length slots.now ≡ length lens.old.items }
    requires all { sum slots.now ≤ length sizes.now }
    requires small { All (λ size. size ≤ 5) sizes.now }
    requires few { length sizes.now ≤ most_slots }
    requires room { All (λ len. len < 2 ^ 31) lens.old.items }
    ensures { AreLensWith lens.old.items slots.now sizes.now lens.new.items }
{
    let mut slot = 0;
    for number in 0..lens.len() {
        let next = slot + slots[number] as usize;
        lens[number] += total_of(&sizes[slot..next]);
        slot = next;
    }
}

/// How the slots of a unit are laid out.
#[derive(Drop)]
pub struct LaidOut {
    /// Where its entries and codes 0 stand, counted from its first byte, so that `start` is 0.
    pub places: Places,
    /// How many bytes each value gets that is an expression, with its length, or a reference within the unit; none for another value.
    pub lens: Vec<u32>,
    /// Why no slot can be smaller: the ranks of all steps, in the order of the slots, as `slot_layout` says.
    pub ranks: Vec<u64>,
}

/// Lays out the slots of a unit that is written anew with the new columns `specs` and codes `numbers` of its table `decls`, and of the
/// location lists that it owns.
///
/// The slots, which `slots_of` names, have the least sizes under which each holds its own number, counted from the unit's
/// first byte (DWARF 5 sections 2.5.1.1 to 2.5.1.7, 2.6.2, 7.5.5 and 7.6): these depend on each other, and no other sizes have a smaller
/// sum. `spots` says for each slot of the unit what it names, and `lists` what those of the lists tell. There are at most 17 * 2^24
/// together, as every unit within the narrow limits has. In the answer `places` has the unit's entries and codes 0 with these sizes, counted
/// from its first byte: `moved_to` moves them to where the unit stands.
///
/// The caller shows that the unit would end below 2^31 even if each code took 4 bytes more than the old one, each expression three times its
/// old bytes and 10 for its length, and each other value 10 bytes more than its old ones. The only error is want of memory.
pub fn lay_out(
    alloc: Global,
    unit: &Unit<'_>,
    operations: &Operations,
    decls: &Table,
    specs: &Vec<Spec>,
    numbers: &Vec<u32>,
    spots: &Vec<Spot>,
    lists: &[ListSlot],
) -> Result<LaidOut, NoMemory>
    requires operations { HasOperations Narrow unit.now.forest operations.now }
    requires writable { (lens : List ℕ) → AreLensFor unit.now.forest lens → IsWritable unit.now decls.now specs.now.items numbers.now.items lens }
    requires room { most_bytes unit.now < 2 ^ 31 }
    requires few { length spots.now.items + length lists.now ≤ most_slots }
    requires spots { AreSpotsOf unit.now (operations_in unit.now.forest operations.now) spots.now.items }
    requires lists { (more : List Aim) × AreListSlots unit.now more lists.now }
    ensures laid_out { IfOk result (λ laid. (more : List Aim) → AreListSlots unit.now more lists.now → IsLaidOut unit.now decls.now specs.now.items numbers.now.items (operations_in unit.now.forest operations.now) more (all_spots spots.now.items lists.now) laid.lens.items laid.ranks.items) }
    ensures lens { IfOk result (λ laid. AreLensFor unit.now.forest laid.lens.items) }
    ensures start { IfOk result (λ laid. laid.places.start ≡ 0) }
    ensures placed { IfOk result (λ laid. IsPlacedAt unit.now decls.now specs.now.items numbers.now.items laid.lens.items 0 laid.places.entries.items laid.places.ends.items laid.places.end) }
    ensures most { IfOk result (λ laid. laid.places.end ≤ most_bytes unit.now) }
{
    // Laws, which cost nothing: with five bytes for each slot an expression gets at most three times its bytes.
    slots_are_few();
    let measured = measure(alloc, unit, operations)?;
    let MarkedSlots { marks, slots } = measured_slots(
        alloc, unit, operations, decls, specs, numbers, &measured, spots, lists,
    )?;
    let layout = solve(alloc, &slots)?;
    let Measured {
        fixed: mut lens,
        slots: counts,
    } = measured;
    add_sizes(&mut lens, &counts, &layout.sizes);
    Ok(LaidOut {
        places: marks.with_sizes(&layout.sizes),
        lens,
        ranks: layout.ranks,
    })
}
