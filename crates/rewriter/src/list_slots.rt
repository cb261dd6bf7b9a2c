// The slots of the location lists that a unit owns.
ghost use Rattle.std.specs.Prelude.{◌≡◌, ◌≤◌, ◌<◌, ◌+◌, ◌^◌, ◌++◌, ℕ, List, length, slice_index, Some, true, IfOk, OnOk};
ghost use Rattle.std.specs.List.{All, Contains};
ghost use Rattle.dw_base.specs.declared.fault.Reach.TheVariants.{Narrow};
ghost use Rattle.expr_ops.specs.Ops.{meant, all_meant};
ghost use Rattle.expr_ops.specs.Drafts.{is_slot};
ghost use Rattle.expr_ops.specs.Shortest.{fixed_length};
ghost use Rattle.expr_ops.specs.Slots.{Aim, length_aim, op_aim, expression_aims};
ghost use Rattle.list_model.specs.declared.entry.ListKind.TheVariants.{Locations};
ghost use Rattle.loc_lists.specs.Locations.{expressions_of};
ghost use Rattle.entry_arena.specs.Arena.{Arena};
ghost use Rattle.unit_write.specs.Slots.{IsListSlotFor, AreListSlots};
ghost use Rattle.value_links.specs.Sections.{debug_lists};
ghost use Rattle.value_links.specs.World.{IsWorldOf, lists_held};
ghost use Rattle.list_lookup.specs.Owned.{IsOwnedBy};
ghost use Rattle.rewriter.specs.inside.Held.{OperationNames};
ghost use Rattle.rewriter.specs.inside.Owned.{AreListAims, AddsListSlots};
ghost use Rattle.rewriter.specs.inside.Placed.{unit_in};

use crate::list_expressions::read_again;
use crate::spots::op_spot;
use dw_base::NoMemory;
use expr_ops::{CALL4, ENTRY_VALUE, Op, fixed_len, has_slot, slot_count, slots_are_few};
use list_arena::ListRead;
use list_model::ListKind;
use loc_lists::{bytes_of, is_item};
use slot_layout::SlotKind;
use std::alloc::Global;
use unit_write::ListSlot;
use value_links::World;

// The slot of the length of an expression, which some operations are.
fn length_slot(ops: &[Op], bytes: &[u8]) -> ListSlot
    requires fits { fixed_length (all_meant bytes.now ops.now) < 2 ^ 31 }
    ensures { (f : Arena) (at : ℕ) → IsListSlotFor f at (length_aim (all_meant bytes.now ops.now)) result }
{
    // A law, which costs nothing: there are no more slots than bytes that are none.
    slots_are_few();
    ListSlot::Length(fixed_len(ops, bytes) as u32, slot_count(ops) as u32)
}

// The slot of an operation, behind which these operations stand.
fn op_slot(world: &World<'_>, unit: u32, op: &Op, behind: &[Op], bytes: &[u8]) -> ListSlot
    requires world { IsWorldOf world.now.image Narrow world.now }
    requires unit { unit < length world.now.units }
    requires slot { is_slot op.now.code op.now.a ≡ true }
    requires names { OperationNames world.now unit op.now }
    requires fits { fixed_length (all_meant bytes.now behind.now) < 2 ^ 31 }
    ensures { IsListSlotFor (unit_in world.now.units unit).forest (unit_in world.now.units unit).head.at (op_aim (meant bytes.now op.now) (all_meant bytes.now behind.now)) result }
{
    if op.code == ENTRY_VALUE {
        let count = behind.len().min(op.inner as usize);
        length_slot(&behind[..count], bytes)
    } else if op.code == CALL4 {
        ListSlot::Place(SlotKind::Call, op_spot(world, unit, op))
    } else {
        ListSlot::Place(SlotKind::Uleb, op_spot(world, unit, op))
    }
}

// Appends the slots of an expression.
fn push_expression(
    slots: &mut Vec<ListSlot>,
    world: &World<'_>,
    unit: u32,
    ops: &[Op],
    bytes: &[u8],
) -> Result<(), NoMemory>
    requires world { IsWorldOf world.now.image Narrow world.now }
    requires unit { unit < length world.now.units }
    requires names { All (OperationNames world.now unit) ops.now }
    requires fits { fixed_length (all_meant bytes.now ops.now) < 2 ^ 31 }
    ensures { OnOk result ((more : List Aim) → AreListSlots (unit_in world.now.units unit) more slots.old.items → AreListSlots (unit_in world.now.units unit) (more ++ expression_aims (all_meant bytes.now ops.now)) slots.new.items) }
{
    slots.push(length_slot(ops, bytes))?;
    for (k, op) in ops.iter().enumerate() {
        if has_slot(op) {
            slots.push(op_slot(world, unit, op, &ops[k + 1..], bytes))?;
        }
    }
    Ok(())
}

// Appends the slots of the expressions of a list. `ops` is memory that is used again.
fn push_list(
    alloc: Global,
    slots: &mut Vec<ListSlot>,
    world: &World<'_>,
    unit: u32,
    list: &ListRead,
    ops: &mut Vec<Op>,
) -> Result<(), NoMemory>
    requires world { IsWorldOf world.now.image Narrow world.now }
    requires unit { unit < length world.now.units }
    requires list { Contains (lists_held world.now Locations) list.now }
    requires owned { list.now.owner ≡ Some unit }
    ensures { OnOk result (AddsListSlots (unit_in world.now.units unit) (expressions_of (debug_lists world.now.image Locations) list.now.raw) slots.old.items slots.new.items) }
{
    // A law, which costs nothing: an expression has few bytes that are no slot's.
    slots_are_few();
    let section = world.section(b".debug_loclists");
    for entry in list.entries() {
        if !is_item(entry) {
            continue;
        }
        let bytes = bytes_of(section, entry.expr);
        read_again(alloc, bytes, ops)?;
        push_expression(slots, world, unit, ops, bytes)?;
    }
    Ok(())
}

/// The slots of the location lists with these numbers, which a unit owns: those of the expressions of their items, in their order (DWARF 5
/// sections 2.5 and 2.6.2). The only error is want of memory.
pub fn list_slots(
    alloc: Global,
    world: &World<'_>,
    unit: u32,
    lists: &[usize],
) -> Result<Vec<ListSlot>, NoMemory>
    requires world { IsWorldOf world.now.image Narrow world.now }
    requires unit { unit < length world.now.units }
    requires owned { All (λ k. (k < length world.now.locations) × IsOwnedBy world.now unit k) lists.now }
    requires rising { (i j : ℕ) → i < j → j < length lists.now → slice_index lists.now i < slice_index lists.now j }
    ensures slots { IfOk result (λ slots. (more : List Aim) × AreListAims world.now lists.now more × AreListSlots (unit_in world.now.units unit) more slots.items) }
    ensures few { IfOk result (λ slots. length slots.items ≤ 2 ^ 24 + 2 ^ 26) }
{
    // Laws, which cost nothing: an expression has no more than one slot for two bytes.
    slots_are_few();
    let mut slots: Vec<ListSlot> = Vec::new(alloc);
    let mut ops: Vec<Op> = Vec::new(alloc);
    let all = world.lists(ListKind::Locations);
    for number in lists {
        let list = all.list(alloc, *number)?;
        push_list(alloc, &mut slots, world, unit, &list, &mut ops)?;
    }
    Ok(slots)
}
