// The rows of slots: what the number of each counts.
ghost use Rattle.std.specs.Prelude.{◌≡◌, ◌≤◌, ◌<◌, ◌+◌, ◌^◌, ◌++◌, ℕ, suc, List, length, true, IfOk, OnOk};
ghost use Rattle.std.specs.List.{All};
ghost use Rattle.dw_base.specs.declared.fault.Reach.TheVariants.{Wide};
ghost use Rattle.slot_layout.specs.Rows.{row_of, most_slots};
ghost use Rattle.leb_codec.specs.Layout.{uleb};
ghost use Rattle.expr_ops.specs.Drafts.{is_slot};
ghost use Rattle.expr_ops.specs.Expressions.{Operation};
ghost use Rattle.expr_ops.specs.Ops.{meant, all_meant};
ghost use Rattle.expr_ops.specs.Shortest.{fixed_length};
ghost use Rattle.expr_ops.specs.Slots.{Aim, slots_among, op_aim, expression_aims};
ghost use Rattle.entry_arena.specs.Order.{IsInOrder};
ghost use Rattle.entry_read.specs.Expressions.{HasOperations};
ghost use Rattle.entry_read.specs.Slots.{aims_of, aims_before, value_aims, meaning_at, operations_in};
ghost use Rattle.unit_slots.specs.inside.Added.{AreOperationsOf};
ghost use Rattle.unit_slots.specs.inside.Rows.{HasSpots, NamesThere, IsRowFor, AreRows};

use crate::spots::Spots;
use dw_base::NoMemory;
use entry_arena::{Forest, Operations};
use entry_read::Unit;
use expr_ops::{CALL4, ENTRY_VALUE, Op, fixed_len, has_slot, slot_count};
use form_codec::Value;
use slot_layout::{Slot, SlotKind};
use std::alloc::Global;

// The slot with a number, which is the length of the expression that some operations are.
fn length_slot(number: usize, ops: &[Op], bytes: &[u8]) -> Slot
    requires fits { fixed_length (all_meant bytes.now ops.now) < 2 ^ 34 }
    requires few { suc number + slots_among (all_meant bytes.now ops.now) < 2 ^ 32 }
    ensures { let os = all_meant bytes.now ops.now in
        row_of result ≡ record { form = uleb; fixed = fixed_length os; from = suc number; to = suc number + slots_among os } }
{
    let from = number as u32 + 1;
    Slot {
        kind: SlotKind::Uleb,
        fixed: fixed_len(ops, bytes),
        from,
        to: from + slot_count(ops) as u32,
    }
}

// The slot with a number, which is that of an operation behind which these operations stand.
fn op_slot(
    number: usize,
    op: &Op,
    behind: &[Op],
    bytes: &[u8],
    unit: &Unit<'_>,
    spots: &Spots,
) -> Slot
    requires slot { is_slot op.now.code op.now.a ≡ true }
    requires spots { (ops : ℕ → List Operation) × (own : List ℕ) × HasSpots unit.now ops own spots.now }
    requires short { length unit.now.forest.section < 2 ^ 32 }
    requires named { NamesThere unit.now (op_aim (meant bytes.now op.now) (all_meant bytes.now behind.now)) }
    requires fits { fixed_length (all_meant bytes.now behind.now) < 2 ^ 34 }
    requires few { suc number + slots_among (all_meant bytes.now behind.now) < 2 ^ 32 }
    ensures { (ops : ℕ → List Operation) (own : List ℕ) → HasSpots unit.now ops own spots.now → IsRowFor unit.now ops own number (op_aim (meant bytes.now op.now) (all_meant bytes.now behind.now)) result }
{
    if op.code == ENTRY_VALUE {
        let count = behind.len().min(op.inner as usize);
        length_slot(number, &behind[..count], bytes)
    } else if op.code == CALL4 {
        spots.slot(unit, SlotKind::Call, op.a)
    } else {
        spots.slot(unit, SlotKind::Uleb, op.a)
    }
}

/// Appends the slots of the expression of these bytes: its length, and those of its operations.
pub(crate) fn push_expression_slots(
    slots: &mut Vec<Slot>,
    ops: &[Op],
    bytes: &[u8],
    unit: &Unit<'_>,
    spots: &Spots,
) -> Result<(), NoMemory>
    requires operations { AreOperationsOf bytes.now ops.now }
    requires brief { length bytes.now < 2 ^ 32 }
    requires spots { (ops : ℕ → List Operation) × (own : List ℕ) × HasSpots unit.now ops own spots.now }
    requires short { length unit.now.forest.section < 2 ^ 32 }
    requires named { All (NamesThere unit.now) (expression_aims (all_meant bytes.now ops.now)) }
    requires few { length slots.old.items + length (expression_aims (all_meant bytes.now ops.now)) ≤ most_slots }
    ensures { OnOk result ((held : ℕ → List Operation) (own : List ℕ) (aims : List Aim) → HasSpots unit.now held own spots.now → AreRows unit.now held own aims slots.old.items → AreRows unit.now held own (aims ++ expression_aims (all_meant bytes.now ops.now)) slots.new.items) }
{
    slots.push(length_slot(slots.len(), ops, bytes))?;
    for (k, op) in ops.iter().enumerate() {
        if has_slot(op) {
            let slot = op_slot(slots.len(), op, &ops[k + 1..], bytes, unit, spots);
            slots.push(slot)?;
        }
    }
    Ok(())
}

// A law, which costs nothing: what the values of a forest lend lies in its section.
fn stands_in_order(forest: &Forest<'_>)
    ensures { IsInOrder forest.now }
{
    let _entries = forest.entries();
}

// Appends the slots of the value with a number.
fn push_value_slots(
    slots: &mut Vec<Slot>,
    unit: &Unit<'_>,
    operations: &Operations,
    spots: &Spots,
    number: u32,
) -> Result<(), NoMemory>
    requires operations { HasOperations Wide unit.now.forest operations.now }
    requires spots { (ops : ℕ → List Operation) × (own : List ℕ) × HasSpots unit.now ops own spots.now }
    requires short { length unit.now.forest.section < 2 ^ 32 }
    requires number { number < length unit.now.forest.values }
    requires named { All (NamesThere unit.now) (value_aims (meaning_at unit.now.forest number) (operations_in unit.now.forest operations.now number)) }
    requires few { length slots.old.items + length (value_aims (meaning_at unit.now.forest number) (operations_in unit.now.forest operations.now number)) ≤ most_slots }
    ensures { OnOk result ((own : List ℕ) → HasSpots unit.now (operations_in unit.now.forest operations.now) own spots.now → AreRows unit.now (operations_in unit.now.forest operations.now) own (aims_before (meaning_at unit.now.forest) (operations_in unit.now.forest operations.now) number) slots.old.items → AreRows unit.now (operations_in unit.now.forest operations.now) own (aims_before (meaning_at unit.now.forest) (operations_in unit.now.forest operations.now) (suc number)) slots.new.items) }
{
    let forest = unit.forest();
    stands_in_order(forest);
    match forest.value(number) {
        Value::LocalRef(n) => {
            slots.push(spots.slot(unit, SlotKind::Uleb, n))?;
            Ok(())
        }
        Value::Expr(span) => {
            let ops = operations.of_value(number);
            push_expression_slots(slots, ops, forest.bytes(span), unit, spots)
        }
        _ => Ok(()),
    }
}

/// The slots of the values of a unit, each of which tells a place of the unit or a length.
pub(crate) fn own_slots(
    alloc: Global,
    unit: &Unit<'_>,
    operations: &Operations,
    spots: &Spots,
) -> Result<Vec<Slot>, NoMemory>
    requires operations { HasOperations Wide unit.now.forest operations.now }
    requires spots { (own : List ℕ) × HasSpots unit.now (operations_in unit.now.forest operations.now) own spots.now }
    requires short { length unit.now.forest.section < 2 ^ 32 }
    requires named { All (NamesThere unit.now) (aims_of unit.now.forest (operations_in unit.now.forest operations.now)) }
    requires few { length (aims_of unit.now.forest (operations_in unit.now.forest operations.now)) ≤ most_slots }
    ensures { IfOk result (λ slots. (own : List ℕ) → HasSpots unit.now (operations_in unit.now.forest operations.now) own spots.now → AreRows unit.now (operations_in unit.now.forest operations.now) own (aims_of unit.now.forest (operations_in unit.now.forest operations.now)) slots.items) }
{
    let mut slots: Vec<Slot> = Vec::new(alloc);
    for number in 0..unit.forest().value_count() {
        push_value_slots(&mut slots, unit, operations, spots, number)?;
    }
    Ok(slots)
}
