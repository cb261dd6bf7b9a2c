// The slots of a unit.
ghost use Rattle.std.specs.Prelude.{◌≡◌, ◌≤◌, ◌<◌, ◌+◌, ◌*◌, ◌++◌, ◌^◌, ℕ, suc, List, length, map, true, IfOk, OnOk};
ghost use Rattle.std.specs.List.{All};
ghost use Rattle.dw_base.specs.declared.fault.Reach.{Reach};
ghost use Rattle.expr_ops.specs.Expressions.{Operation};
ghost use Rattle.expr_ops.specs.Ops.{meant, all_meant};
ghost use Rattle.expr_ops.specs.Drafts.{is_slot};
ghost use Rattle.expr_ops.specs.Shortest.{fixed_length};
ghost use Rattle.expr_ops.specs.Slots.{Aim, slots_among, length_aim, op_aim, expression_aims};
ghost use Rattle.slot_layout.specs.Rows.{rows_of, HasRangesInside, HasSmallFixed, most_slots};
ghost use Rattle.entry_read.specs.Expressions.{HasOperations};
ghost use Rattle.entry_read.specs.Slots.{aims_of, aims_before, meaning_at, operations_in};
ghost use Rattle.unit_write.specs.Lens.{AreLensFor};
ghost use Rattle.unit_write.specs.Most.{most_bytes};
ghost use Rattle.unit_write.specs.Moved.{IsWritable};
ghost use Rattle.unit_write.specs.Slots.{AreSpotsOf, AreListSlots, AreSlots, list_spot, all_spots};
ghost use Rattle.unit_write.specs.inside.Marks.{slot_for, HasSpotFor, HaveSpots, AreSlotsMade, AreMeasured, AreMarks, list_aim, list_count, HasListSpot};

use crate::laws::one_size;
use crate::marks::Marks;
use crate::measure::{Measured, measure};
use crate::room::has_room;
use abbrev_tables::{Spec, Table};
use dw_base::NoMemory;
use entry_arena::Operations;
use entry_read::Unit;
use expr_ops::{CALL4, ENTRY_VALUE, Op, fixed_len, has_slot, slot_count, slots_are_few};
use form_codec::Value;
use slot_layout::{Slot, SlotKind};
use std::alloc::Global;

/// What a slot of a unit names.
#[derive(Clone, Copy)]
pub enum Spot {
    /// The entry with this number, counted from 0 in preorder.
    Entry(u32),
    /// The code 0 with this number among those that end chains, counted from 0 in the order of their places.
    End(u32),
    /// Nothing: the slot is the length of an expression.
    Nothing,
}

/// A slot of an expression of a location list that the unit owns.
#[derive(Clone, Copy)]
pub enum ListSlot {
    /// The length of an expression, or of one inside it: how many of its bytes are no slot's, and how many slots it has, which stand
    /// directly behind.
    Length(u32, u32),
    /// A reference: what holds its number, and what it names in the unit.
    Place(SlotKind, Spot),
}

// The slot with a number, which is the length of the expression that some operations are.
fn length_slot(number: usize, ops: &[Op], bytes: &[u8]) -> Slot
    requires fits { fixed_length (all_meant bytes.now ops.now) < 2 ^ 31 }
    requires few { suc number + slots_among (all_meant bytes.now ops.now) < 2 ^ 32 }
    ensures { (marks : Marks) (spot : Spot) → result ≡ slot_for marks spot number (length_aim (all_meant bytes.now ops.now)) }
{
    let from = number as u32 + 1;
    Slot {
        kind: SlotKind::Uleb,
        fixed: fixed_len(ops, bytes),
        from,
        to: from + slot_count(ops) as u32,
    }
}

// The slot of an operation, which is the one with a number, behind which these operations stand.
fn op_slot(number: usize, op: &Op, behind: &[Op], bytes: &[u8], marks: &Marks, spot: Spot) -> Slot
    requires slot { is_slot op.now.code op.now.a ≡ true }
    requires spot { HasSpotFor marks.now (op_aim (meant bytes.now op.now) (all_meant bytes.now behind.now)) spot }
    requires fits { fixed_length (all_meant bytes.now behind.now) < 2 ^ 31 }
    requires few { suc number + slots_among (all_meant bytes.now behind.now) < 2 ^ 32 }
    ensures { result ≡ slot_for marks.now spot number (op_aim (meant bytes.now op.now) (all_meant bytes.now behind.now)) }
{
    if op.code == ENTRY_VALUE {
        let count = behind.len().min(op.inner as usize);
        length_slot(number, &behind[..count], bytes)
    } else if op.code == CALL4 {
        marks.slot(SlotKind::Call, spot)
    } else {
        marks.slot(SlotKind::Uleb, spot)
    }
}

// Appends the slots of an expression, of which `spots` says what they name.
fn push_expression_slots(
    slots: &mut Vec<Slot>,
    ops: &[Op],
    bytes: &[u8],
    marks: &Marks,
    spots: &Vec<Spot>,
) -> Result<(), NoMemory>
    requires fits { fixed_length (all_meant bytes.now ops.now) < 2 ^ 31 }
    requires spots { HaveSpots marks.now (length slots.old.items) (expression_aims (all_meant bytes.now ops.now)) spots.now.items }
    requires few { length spots.now.items < 2 ^ 32 }
    ensures { OnOk result ((aims : List Aim) → AreSlotsMade marks.now spots.now.items aims slots.old.items → AreSlotsMade marks.now spots.now.items (aims ++ expression_aims (all_meant bytes.now ops.now)) slots.new.items) }
{
    slots.push(length_slot(slots.len(), ops, bytes))?;
    for k in 0..ops.len() {
        let op = &ops[k];
        if !has_slot(op) {
            continue;
        }
        let number = slots.len();
        let slot = op_slot(number, op, &ops[k + 1..], bytes, marks, spots[number]);
        slots.push(slot)?;
    }
    Ok(())
}

// Appends the slots of the value with a number.
fn push_value_slots(
    slots: &mut Vec<Slot>,
    unit: &Unit<'_>,
    operations: &Operations,
    marks: &Marks,
    spots: &Vec<Spot>,
    number: u32,
) -> Result<(), NoMemory>
    requires operations { (reach : Reach) × HasOperations reach unit.now.forest operations.now }
    requires fits { (k : ℕ) → k < length unit.now.forest.values → fixed_length (operations_in unit.now.forest operations.now k) < 2 ^ 31 }
    requires number { number < length unit.now.forest.values }
    requires spots { HaveSpots marks.now 0 (aims_of unit.now.forest (operations_in unit.now.forest operations.now)) spots.now.items }
    requires few { length spots.now.items < 2 ^ 32 }
    requires before { AreSlotsMade marks.now spots.now.items (aims_before (meaning_at unit.now.forest) (operations_in unit.now.forest operations.now) number) slots.old.items }
    ensures { OnOk result (AreSlotsMade marks.now spots.now.items (aims_before (meaning_at unit.now.forest) (operations_in unit.now.forest operations.now) (suc number)) slots.new.items) }
{
    let forest = unit.forest();
    // In order the bytes that a value lends lie in the section.
    let _entries = forest.entries();
    match forest.value(number) {
        Value::LocalRef(_) => {
            let spot = spots[slots.len()];
            slots.push(marks.slot(SlotKind::Uleb, spot))?;
            Ok(())
        }
        Value::Expr(span) => {
            let ops = operations.of_value(number);
            push_expression_slots(slots, ops, forest.bytes(span), marks, spots)
        }
        _ => Ok(()),
    }
}

// The slot with a number which is one of a list.
fn list_slot(number: usize, slot: ListSlot, marks: &Marks) -> Slot
    requires spot { HasListSpot marks.now slot }
    requires few { suc number + list_count slot < 2 ^ 32 }
    ensures { result ≡ slot_for marks.now (list_spot slot) number (list_aim slot) }
{
    match slot {
        ListSlot::Length(fixed, count) => Slot {
            kind: SlotKind::Uleb,
            fixed: u64::from(fixed),
            from: number as u32 + 1,
            to: number as u32 + 1 + count,
        },
        ListSlot::Place(kind, spot) => marks.slot(kind, spot),
    }
}

// Appends the slots of lists, of which `lists` says what they tell.
fn push_list_slots(slots: &mut Vec<Slot>, marks: &Marks, lists: &[ListSlot]) -> Result<(), NoMemory>
    requires spots { All (HasListSpot marks.now) lists.now }
    requires counts { All (λ slot. list_count slot ≤ length lists.now) lists.now }
    requires few { length slots.old.items + 2 * length lists.now < 2 ^ 32 }
    ensures { OnOk result ((spots : List Spot) (aims : List Aim) → length spots ≡ length aims → AreSlotsMade marks.now spots aims slots.old.items → AreSlotsMade marks.now (all_spots spots lists.now) (aims ++ map list_aim lists.now) slots.new.items) }
{
    for slot in lists {
        let made = list_slot(slots.len(), *slot, marks);
        slots.push(made)?;
    }
    Ok(())
}

/// The slots of a unit, and what was counted for them.
#[derive(Drop)]
pub(crate) struct MarkedSlots {
    pub marks: Marks,
    pub slots: Vec<Slot>,
}

// The slots of a unit whose values were measured, and behind them those of lists.
pub(crate) fn measured_slots(
    alloc: Global,
    unit: &Unit<'_>,
    operations: &Operations,
    decls: &Table,
    specs: &Vec<Spec>,
    numbers: &Vec<u32>,
    measured: &Measured,
    spots: &Vec<Spot>,
    lists: &[ListSlot],
) -> Result<MarkedSlots, NoMemory>
    requires operations { (reach : Reach) × HasOperations reach unit.now.forest operations.now }
    requires writable { (lens : List ℕ) → AreLensFor unit.now.forest lens → IsWritable unit.now decls.now specs.now.items numbers.now.items lens }
    requires room { most_bytes unit.now < 2 ^ 31 }
    requires measured { AreMeasured unit.now.forest (operations_in unit.now.forest operations.now) measured.now }
    requires few { length spots.now.items + length lists.now ≤ most_slots }
    requires spots { AreSpotsOf unit.now (operations_in unit.now.forest operations.now) spots.now.items }
    requires lists { (more : List Aim) × AreListSlots unit.now more lists.now }
    ensures marks { IfOk result (λ made. AreMarks unit.now decls.now specs.now.items numbers.now.items (operations_in unit.now.forest operations.now) made.marks) }
    ensures slots { IfOk result (λ made. (more : List Aim) → AreListSlots unit.now more lists.now → AreSlots unit.now decls.now specs.now.items numbers.now.items (operations_in unit.now.forest operations.now) more (all_spots spots.now.items lists.now) (rows_of made.slots.items)) }
    ensures inside { IfOk result (λ made. HasRangesInside (rows_of made.slots.items)) }
    ensures small { IfOk result (λ made. HasSmallFixed (rows_of made.slots.items)) }
{
    // Laws, which cost nothing: a value has one size, and an expression few bytes that are no slot's.
    one_size();
    slots_are_few();
    let marks = Marks::of(alloc, unit, decls, specs, numbers, measured)?;
    let mut slots: Vec<Slot> = Vec::new(alloc);
    for number in 0..unit.forest().value_count() {
        push_value_slots(&mut slots, unit, operations, &marks, spots, number)?;
    }
    push_list_slots(&mut slots, &marks, lists)?;
    Ok(MarkedSlots { marks, slots })
}

/// The slots of a unit that is written anew with the new columns `specs` and codes `numbers` of its table `decls`: its numbers that count
/// bytes of the unit of which some may be those of other slots, in the order of their places (DWARF 5 sections 2.5.1.1 to 2.5.1.7, 7.5.5
/// and 7.6).
///
/// These are its references within itself, the lengths of expressions, and in expressions the calls and the references to base types. A
/// reference counts the bytes from the unit's first one up to what it names, and a length those of the expression, whatever sizes the
/// slots get. `spots` says for each slot what it names. Behind them stand the slots of the location lists that the unit owns, of which
/// `lists` says what they tell. The only error is want of memory, which is also the answer where there are more than 17 * 2^24 together,
/// or where the unit may get 2^31 bytes.
pub fn slots_of(
    alloc: Global,
    unit: &Unit<'_>,
    operations: &Operations,
    decls: &Table,
    specs: &Vec<Spec>,
    numbers: &Vec<u32>,
    spots: &Vec<Spot>,
    lists: &[ListSlot],
) -> Result<Vec<Slot>, NoMemory>
    requires operations { (reach : Reach) × HasOperations reach unit.now.forest operations.now }
    requires writable { (lens : List ℕ) → AreLensFor unit.now.forest lens → IsWritable unit.now decls.now specs.now.items numbers.now.items lens }
    requires spots { AreSpotsOf unit.now (operations_in unit.now.forest operations.now) spots.now.items }
    requires lists { (more : List Aim) × AreListSlots unit.now more lists.now }
    ensures slots { IfOk result (λ slots. (more : List Aim) → AreListSlots unit.now more lists.now → AreSlots unit.now decls.now specs.now.items numbers.now.items (operations_in unit.now.forest operations.now) more (all_spots spots.now.items lists.now) (rows_of slots.items)) }
    ensures inside { IfOk result (λ slots. HasRangesInside (rows_of slots.items)) }
    ensures small { IfOk result (λ slots. HasSmallFixed (rows_of slots.items)) }
{
    if !has_room(unit, spots, lists) {
        return Err(NoMemory);
    }
    let measured = measure(alloc, unit, operations)?;
    let made = measured_slots(
        alloc, unit, operations, decls, specs, numbers, &measured, spots, lists,
    )?;
    Ok(made.slots)
}
